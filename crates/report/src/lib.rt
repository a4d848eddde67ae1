// What the listing program prints for an input (document 01): a refusal, or the listing with room for 256 pairs. Promised: every byte, and
// the lent bytes behind them are kept. Stands on `listing_texts` for the job line and the writers, and on `listing` for checking.
#![tactic(auto)]

pub mod program;
