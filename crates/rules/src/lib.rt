// The rules of documents 01 and 02: which faults a file has. No function stands here, and no order of discovery: this crate is the
// statement of checking, to be read from top to bottom, and what a reader of it must believe. It stands on definitions alone: bytes and
// digits (`text`), days (`days`), headings and their types (`headings`), kinds of lines and layouts of fields (`figures`, `fields`), and
// how a file is cut (`lines`). Read, under `specs/`:
//
//   Terms         what a file is judged by: the submitter's code and the accounting day
//   Rows          the lines of a file, numbered from 1, each of its kind
//   Tree          what belongs to what: lines to the field or heading above them, fields to their item
//   Said          what a field says with its continuations, and what an item says that the rules at headings ask for
//   Blocks        the items of a block, and what is asked of them
//   Tests         a rule with whether it is broken; a line with its tests
//   LineRules     rules 1 to 4
//   FieldRules    rules 5 to 9, 23 and 24
//   HeadingRules  rule 6 at a heading, and 11, 12 and 15 (10, 13 and 14, by which deriving refuses too, are `headings`' HeadRules)
//   BlockRules    rules 16 to 21 and 30 to 39
//   Spots         which rules are tested at which line, and all lines of a file in their order
//   Faults        the list: the broken tests of each line, by line and then by rule; and what a lent slice holds of it
//   Demand        what is demanded of the list
//
// That the list is what is demanded is proved under `proofs/`: Demand.antt (every line once; just the broken rules; once and in order; no
// other list; the total; nought when nothing is broken) and ByRule.antt, which says it by the rules' own definitions. docs/RULES.md has a row
// for each rule. What the code keeps and computes is no part of this: its models stand in the crates above, and say so in their first line.
#![tactic(auto)]

use headings::{Amount, Heading, ItemNo};

// What an item's first field of a kind says: there is none, it does not read, or what it says.
#[derive(Clone, Copy)]
pub enum First<T> {
    Missing,
    Unread,
    Says(T),
}

// What a KC says.
#[derive(Clone, Copy)]
pub struct Payment {
    pub amount: Amount,
    pub day: u32,
}

// What an IN says: the first and the last number that it names.
#[derive(Clone, Copy)]
pub struct Range {
    pub first: ItemNo,
    pub last: ItemNo,
}

// What an S0 to S9 states.
#[derive(Clone, Copy)]
pub struct Statement {
    pub count: u32,
    pub sum: Amount,
}

// The first Sd of an item.
#[derive(Clone, Copy)]
pub struct Sum {
    pub stated: First<Statement>,
}

// The first S0 to S9 of an item. Only a 51 is asked for them.
#[derive(Clone, Copy)]
pub struct Sums {
    pub groups: [Sum; 10],
}

// An item, as the rules at headings see it.
#[derive(Clone, Copy)]
pub struct Digest {
    pub head: Option<Heading>,
    pub kc: First<Payment>,
    pub span: First<Range>,
    pub sums: Sums,
}
