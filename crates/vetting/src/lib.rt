// One item of a slice, judged: whether a line of it breaks a rule that bars it from delivery (document 02, A7), and what is taken of it
// where none does. Promised by `take_item`, for a slice of any length and each place where a heading stands: what `Takes` of
// specs/Vetting.antt says of the item of `rules` that begins there. The slice may be longer than any file, so no lines are counted.
// Stands on `lines` for the cut, on `headings` and `fields` for what lines say, on the rules of `blocks` and `judging`, and on
// `item_reader` for the items of a slice.
#![tactic(auto)]

pub mod own_field;
pub mod own_heading;
pub mod own_line;

ghost use Rattle.std.specs.Prelude.{◌≡◌, false, ◌+◌, ◌≤◌, ◌<◌, length};
ghost use Rattle.text.specs.Characters.{answers};
ghost use Rattle.rules.specs.Terms.{Terms};
ghost use Rattle.own_rules.specs.Model.{basis_of};
ghost use Rattle.item_reader.specs.Slips.{amount_of, Headed};
ghost use Rattle.vetting.specs.Vetting.{Stamped, Takes};
ghost use Rattle.vetting.specs.Parts.{low_at, FieldsTo};

use fields::classes;
use fields::kinds::Kind;
use headings::{Amount, Heading};
use items::claiming;
use own_line::{kind_at, stood_in};
use own_rules::{Basis, breaks_fifteen};
use rules::{First, Payment};

// What is taken of an item that no line of it bars: its heading, the amount of its first KC, and the place of the next item.
#[derive(Clone, Copy)]
pub struct Taken {
    pub heading: Heading,
    pub amount: Amount,
    pub next: usize,
}

// Fields that break nothing: the first KC among them, and the place below them.
#[derive(Clone, Copy)]
pub struct Passed {
    pub kc: First<Payment>,
    pub next: usize,
}

// No identifier stood in any item: what the first item's stamp, 1, is above.
pub fn unstamped() -> [usize; 1296]
    ensures { Stamped result 1 }
{
    [0; 1296]
}

// The fields from a place on, down to the next heading; none where a line of them bars the item.
fn fields_from(
    table: &[bool; 256],
    stood: &mut [usize; 1296],
    s: &[u8],
    at: usize,
    stamp: usize,
    basis: Basis,
    h: Heading,
) -> Option<Passed>
    requires { (table.now ≡ answers) × (at ≤ length s.now) × (low_at s.now at ≡ false) × Stamped stood.old stamp }
    ensures fields_to { (terms : Terms) → basis ≡ basis_of terms → FieldsTo terms h s.now at result }
    ensures stamped { Stamped stood.new (stamp + 1) }
{
    let codes = classes::codes();
    let mut kc = First::Missing;
    let mut next = at;
    while let Kind::Field(ident) = kind_at(s, next) {
        let again = stood_in(stood, ident, stamp);
        let field = own_field::field_at(table, s, next, ident, codes[ident], again, basis, h)?;
        kc = claiming::first_of(kc, field.kc);
        next = field.next;
    }
    Some(Passed { kc, next })
}

fn amount_of(kc: First<Payment>) -> Amount
    ensures { result.0 ≡ amount_of kc }
{
    match kc {
        First::Says(paid) => paid.amount,
        _ => Amount(0),
    }
}

// The item whose heading stands at a place; none where a line of it bars it. The stamp is that of no item before it.
pub fn take_item(
    table: &[bool; 256],
    stood: &mut [usize; 1296],
    s: &[u8],
    at: usize,
    stamp: usize,
    basis: Basis,
) -> Option<Taken>
    requires { (table.now ≡ answers) × (at < length s.now) × Headed s.now at × Stamped stood.old stamp }
    ensures takes { (terms : Terms) → basis ≡ basis_of terms → Takes terms s.now at result }
    ensures stamped { Stamped stood.new (stamp + 1) }
{
    let head = own_heading::head_at(table, s, at, basis)?;
    let h = head.heading;
    let fields = fields_from(table, stood, s, head.next, stamp, basis, h)?;
    if breaks_fifteen(h.kind, fields.kc) {
        return None;
    }
    Some(Taken {
        heading: h,
        amount: amount_of(fields.kc),
        next: fields.next,
    })
}
