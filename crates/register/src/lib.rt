// The register of numbers used (document 02, A2 and A9): its bytes (specs/Register.antt), what it is to add numbers to it
// (specs/Entering.antt), and numbers as bytes. Promised: what is written is read as the same register (proofs/RoundTrip.antt), and the other
// way round (proofs/Rewritten.antt); ranges in order that hold the same numbers are the same ranges, so that the order in which numbers
// come does not matter (proofs/Sets.antt). Stands on `text` and `days`, and on
// `item_reader` for what an item is.
#![tactic(auto)]

pub mod bytes;
