// The tables of outcomes (document 01; 000, 4 and 5): the outgoing type of an input type and an outcome, the codes that go out, and the class
// of an output number. Promised: what specs/Outcomes.antt has for each, and that type and class tell the input type and the outcome but for
// an 01 and a 21 returned (proofs/Origins.antt). Stands on the types of `headings`, and on `laws`.
#![tactic(auto)]

ghost use Rattle.std.specs.Prelude.{◌≡◌, ◌≤◌, [], unwrap_or};
ghost use Rattle.outcome_tables.specs.Outcomes.{table, entries, outgoing, three, codes, in_class};

use headings::item_types::is_priority;
use headings::{Code, ItemNo};

// A heading's three codes.
#[derive(Clone, Copy)]
pub struct Codes {
    pub first: Code,
    pub second: Code,
    pub third: Code,
}

// The outgoing types of an input type for outcomes 1 to 7, 0 for none.
fn row(kind: u32) -> Option<[u8; 7]>
    ensures { unwrap_or result [] ≡ entries table kind }
{
    let types = match kind {
        1 => [1, 0, 0, 0, 0, 61, 71],
        11 => [11, 0, 0, 0, 0, 61, 71],
        21 => [21, 0, 0, 0, 0, 61, 71],
        12 => [12, 0, 0, 0, 0, 62, 72],
        13 => [13, 0, 0, 0, 0, 63, 73],
        14 => [14, 0, 0, 0, 0, 64, 74],
        32 => [32, 0, 0, 0, 0, 0, 82],
        33 => [33, 0, 0, 0, 0, 0, 83],
        55 => [55, 0, 0, 0, 0, 0, 85],
        44 => [44, 0, 0, 0, 0, 0, 84],
        35 => [16, 66, 15, 65, 0, 0, 75],
        37 => [18, 68, 17, 67, 0, 0, 77],
        45 => [26, 66, 25, 65, 5, 69, 75],
        _ => return None,
    };
    Some(types)
}

// The outgoing type, 0 for none.
#[tactic(auto, unfolding(crate::specs::Outcomes::outgoing))]
pub fn outgoing(kind: u32, outcome: u32) -> u32
    requires { (1 ≤ outcome) × (outcome ≤ 7) }
    ensures { result ≡ outgoing kind outcome }
{
    match row(kind) {
        Some(types) => types[(outcome - 1) as usize] as u32,
        None => 0,
    }
}

fn three(first: Code, second: Code, third: Code) -> Codes
    ensures { result ≡ three first second third }
{
    Codes {
        first,
        second,
        third,
    }
}

// Which codes stand first, second and third, from those of a trilateral or a bilateral heading.
#[tactic(auto, unfolding(crate::specs::Outcomes::codes))]
pub fn arranged(trilateral: bool, outcome: u32, x: Code, y: Code, z: Code) -> Codes
    requires { (1 ≤ outcome) × (outcome ≤ 7) }
    ensures { result ≡ codes trilateral outcome x y z }
{
    match (trilateral, outcome) {
        (true, 1 | 2) => three(x, z, y),
        (true, 3 | 4) => three(x, y, z),
        (true, _) => three(y, x, z),
        (false, 6 | 7) => three(x, x, y),
        (false, _) => three(x, y, Code(0)),
    }
}

// Whether an output number is in the class of an input type.
#[tactic(auto, unfolding(crate::specs::Outcomes::in_class))]
pub fn in_class(kind: u32, number: ItemNo) -> bool
    ensures { result ≡ in_class kind number.0 }
{
    let n = number.0;
    if kind == 44 {
        (9000001..=9999999).contains(&n)
    } else if is_priority(kind) {
        (5000001..=9000000).contains(&n)
    } else {
        (1..=5000000).contains(&n)
    }
}
