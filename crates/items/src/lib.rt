// Items: what an item's fields claim for its heading, and one forward pass over the tree of a file, told without code: what is open after
// each line, what each line completes, and that all that is put out is what `rules` declares, in whichever order it is put in a list
// (proofs/Ideal.antt, Order.antt). `claiming` promises its results by the definitions of specs/Claims.antt, for every input; the laws say
// that these are the first fields of the item.
// Stands on `rules`, on `fields` for what a field says, and on `ledger` for the list.
#![tactic(auto)]

pub mod claiming;
