// The rules of blocks at a heading (17 to 21 and 30 to 39) as functions, asked of the running account of the open block; the theorem
// `account` says that this is only a way to compute them (the crate `account` keeps it). And the marks of all rules. Each function
// promises its result by a definition of specs/Model.antt, for every input; counts and sums stop at a cap, so nothing overflows.
// Stands on `rules`, on the types of `headings`, and on `laws`.
#![tactic(auto)]

use headings::ItemNo;

pub mod block_rules;
pub mod groups;
pub mod marks;

// The running account but for its groups, and what is brought up to date at each heading. Of the file: whether it has a payment yet, and
// whether the first is priority. Of the open block: whether it has a heading, and a readable one, its first day and number, its last
// number.
#[derive(Clone, Copy)]
pub struct Course {
    pub classed: bool,
    pub priority: bool,
    pub any: bool,
    pub some: bool,
    pub day: u32,
    pub first: ItemNo,
    pub last: ItemNo,
}

// The running account whole: its course, and of each group of the open block the count and the sum. So the pass holds it between two
// texts; from line to line the course is handed on by value, and the groups are lent.
#[derive(Clone, Copy)]
pub struct Block {
    pub course: Course,
    pub counts: [u64; 10],
    pub sums: [u64; 10],
}
