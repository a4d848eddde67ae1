// Headings of items: their types and parts, the rules on those parts, and the 54 bytes that they are read from. Reading is an open job:
// it takes every input, and refuses by document 01's number. Stands on `text` (digits, strings, layouts) and on `laws`.
#![tactic(auto)]

pub mod head_rules;
pub mod item_types;
pub mod reading;

// A participant's code.
#[derive(Clone, Copy)]
pub struct Code(pub u32);

// An item's number. Seven digits like a code, and never in a code's place.
#[derive(Clone, Copy)]
pub struct ItemNo(pub u32);

// Money in hundredths.
#[derive(Clone, Copy)]
pub struct Amount(pub u64);

// What a heading says: the item's type, its day, and five seven-digit parts.
#[derive(Clone, Copy)]
pub struct Heading {
    pub kind: u32,
    pub day: u32,
    pub first: Code,
    pub number: ItemNo,
    pub second: Code,
    pub output: ItemNo,
    pub third: Code,
}
