// Checking a whole file: the refusals, then the pass over its body, which lists the faults in three lent slices.
// `checking::check` is an open job: it takes every input, refuses by document 01's numbers, and promises the result
// and the lent memory for all of them. Stands on `pass` for the list, `lines` for the end of the body, `days` for the day, and on
// what these stand on.
#![tactic(auto)]

pub mod checking;
