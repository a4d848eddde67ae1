// What every line of an item is judged by, whatever its kind.
ghost use Rattle.std.specs.Prelude.{◌≡◌, ◌≤◌, ◌<◌, eqb, length, drop, get_or, set};
ghost use Rattle.text.specs.Characters.{answers};
ghost use Rattle.fields.specs.Kinds.{kind_of};
ghost use Rattle.vetting.specs.Parts.{judged_at, is_continuation, is_low, low_at};

use fields::kinds;
use fields::kinds::Kind;

// A line: where it ends, where the next one starts, and whether it breaks 1 or 4.
#[derive(Clone, Copy)]
pub struct Judged {
    pub end: usize,
    pub next: usize,
    pub bad: bool,
}

pub fn judged_at(table: &[bool; 256], s: &[u8], at: usize) -> Judged
    requires { (table.now ≡ answers) × (at < length s.now) }
    ensures { result ≡ judged_at s.now at }
{
    let f = lines::line_at(s, at);
    let end = f.end;
    let inadmissible = text::characters::holds_inadmissible(table, &s[at..end], f.odd);
    Judged {
        end,
        next: f.next,
        bad: inadmissible | !f.ended,
    }
}

// Whether an identifier stood already in the item of a stamp; from now on it does. So nothing is cleared between items.
pub fn stood_in(stood: &mut [usize; 1296], ident: usize, stamp: usize) -> bool
    requires { ident < 1296 }
    ensures value { result ≡ eqb (get_or stood.old ident 0) stamp }
    ensures stood_after { stood.new ≡ set stood.old ident stamp }
{
    let last = stood[ident];
    stood[ident] = stamp;
    last == stamp
}

// The kind of the line at a place: its first three bytes tell it.
pub fn kind_at(s: &[u8], at: usize) -> Kind
    requires { at ≤ length s.now }
    ensures { result ≡ kind_of (drop at s.now) }
{
    kinds::kind_of(&s[at..])
}

pub fn continues(k: Kind) -> bool
    ensures { result ≡ is_continuation k }
{
    matches!(k, Kind::Continuation)
}

fn is_low(k: Kind) -> bool
    ensures { result ≡ is_low k }
{
    matches!(k, Kind::Continuation | Kind::Other)
}

// Whether a line stands at a place that is no heading and no field.
pub fn low_at(s: &[u8], at: usize) -> bool
    requires { at ≤ length s.now }
    ensures { result ≡ low_at s.now at }
{
    (at < s.len()) & is_low(kind_at(s, at))
}
