// Cases: document 01's cases marked P ('Both sides of the mark'), its worked example, and cases of requests A12 and A13, as entries of
// one table. No function stands here: `specs/Cases.antt` is the table, and `proofs/Marked.antt` has one statement, that every entry
// holds. The entries cite the definitions by which the crates below promise their results: admissible bytes, days, the account check,
// telling and deriving, and the faults of a whole file. Beside it `specs/EachRule.antt` has a file for each rule that breaks this rule and
// no other (`proofs/EachRule.antt`), `specs/Requested.antt` the cases of later requests (`proofs/Requested.antt`), and `specs/Deliveries.antt`
// those of writing an output file (`proofs/Deliveries.antt`).
#![tactic(auto)]
