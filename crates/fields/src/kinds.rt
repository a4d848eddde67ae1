// Kinds of lines, and the number of a field's identifier.
ghost use Rattle.std.specs.Prelude.{◌≡◌, ℕ, ◌≤◌, ◌<◌, length, get_or};
ghost use Rattle.fields.specs.Kinds.{symbols, place, kind_of};

use crate::classes::HD;

// What a line is; a field with its identifier's number, which is below 1296.
#[derive(Clone, Copy, Debug, PartialEq, Eq)]
pub enum Kind {
    Heading,
    Continuation,
    Field(usize),
    Other,
}

// The place of a byte among 0 to 9 and A to Z, and 36 for any other.
fn place_of(b: u8) -> usize
    ensures { (result ≡ place b symbols) × (result ≤ 36) }
{
    if b.is_ascii_digit() {
        usize::from(b - b'0')
    } else if b.is_ascii_uppercase() {
        usize::from(b - b'A') + 10
    } else {
        36
    }
}

// The place of each byte. A caller that looks at many lines makes it once and lends it.
pub fn places() -> [u8; 256]
    ensures { (b : ℕ) → b < 256 → get_or result b 0 ≡ place b symbols }
{
    let symbols = b"0123456789ABCDEFGHIJKLMNOPQRSTUVWXYZ";
    let mut t = [36u8; 256];
    for (k, symbol) in symbols.iter().enumerate() {
        t[usize::from(*symbol)] = k as u8;
    }
    t
}

fn place_at(places: &[u8; 256], b: u8) -> usize
    requires { (b : ℕ) → b < 256 → get_or places.now b 0 ≡ place b symbols }
    ensures { result ≡ place b symbols }
{
    usize::from(places[usize::from(b)])
}

// The kind of a line of three bytes or more, by the places of its first two. A heading is a field whose identifier is HD.
fn kind_by(line: &[u8], a: usize, b: usize) -> Kind
    requires in_bounds { 3 ≤ length line.now }
    requires a_value { (a ≡ place (get_or line.now 0 0) symbols) × (b ≡ place (get_or line.now 1 0) symbols) }
    ensures { result ≡ kind_of line.now }
{
    if ((a < 36) & (b < 36)) & (line[2] == b':') {
        let ident = a * 36 + b;
        if ident == HD {
            return Kind::Heading;
        }
        return Kind::Field(ident);
    }
    if text::strings::starts(line, b"   ") {
        Kind::Continuation
    } else {
        Kind::Other
    }
}

// Apart from `kind_from`: one function over a closure would take three clauses on the closure, where each of the two has none.
pub fn kind_of(line: &[u8]) -> Kind
    ensures { result ≡ kind_of line.now }
{
    if line.len() < 3 {
        return Kind::Other;
    }
    kind_by(line, place_of(line[0]), place_of(line[1]))
}

// The same, by the lent table of places.
pub fn kind_from(places: &[u8; 256], line: &[u8]) -> Kind
    requires { (b : ℕ) → b < 256 → get_or places.now b 0 ≡ place b symbols }
    ensures { result ≡ kind_of line.now }
{
    if line.len() < 3 {
        return Kind::Other;
    }
    kind_by(line, place_at(places, line[0]), place_at(places, line[1]))
}
