// How the lines of an item are judged: the marks of a line or of a field that closes (1 to 9, 23 and 24), and what such a field claims.
// Each function promises its result by a definition of specs/Opening.antt, for every input. The laws join what is kept to the tree
// (proofs/Meaning.antt): what is entered is what `rules` declares.
// Stands on `items`, `fields` and `blocks`, and on `closing` for the laws of an item that closes.
#![tactic(auto)]

pub mod marking;
pub mod opening;
