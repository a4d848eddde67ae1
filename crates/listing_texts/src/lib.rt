// The texts of the listing program (document 01): the job line that it reads, the listing and the refusal that it prints.
// Each writer promises every byte that it writes, and keeps the lent bytes that it does not write.
// Stands on `laws`, `text`, and `ledger` for the pairs of two slices.
#![tactic(auto)]

pub mod job;
pub mod printing;
