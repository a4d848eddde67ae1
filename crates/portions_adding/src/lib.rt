// A portion of a file comes. `add` is an open job: it takes all bytes and every state, and refuses one that is not open with 18, which then
// stays as it is. Promised: what specs/Adding.antt says. Stands on `portions` for the state, and on `going` for the body in pieces.
#![tactic(auto)]

ghost use Rattle.std.specs.Prelude.{◌≡◌, true, false, ◌+◌, ◌≤◌, length};
ghost use Rattle.portions.specs.Usable.{is_open};
ghost use Rattle.portions_adding.specs.Adding.{Adds, GoesOn, counting, adding_number};

use headings::Code;
use portions::{Portions, usable};

// The state is not open.
#[derive(Clone, Copy, Debug, PartialEq, Eq)]
pub struct NotOpen;

// Document 02's number of it.
impl From<NotOpen> for u32 {
    ghost from_gives = { λ _ number. number ≡ adding_number false };

    fn from(_refusal: NotOpen) -> u32 {
        18
    }
}

// Bytes are counted, and nothing is read.
fn counted(p: Portions, bytes: u32) -> Portions
    ensures { result ≡ counting p bytes }
{
    Portions { bytes, ..p }
}

// The bytes before the end mark are judged.
fn read_on(
    s: &[u8],
    p: Portions,
    bytes: u32,
    lines: &mut [u32],
    rules: &mut [u32],
    offsets: &mut [u32],
    stood: &mut [u32; 1296],
) -> Portions
    requires offsets_value { is_open p lines.old rules.old offsets.old ≡ true }
    requires seen_value { p.seen ≡ false }
    requires bytes_value { (bytes ≡ p.bytes + length s.now) × (bytes ≤ 10000000) }
    ensures { GoesOn s.now p lines.old rules.old offsets.old stood.old result lines.new rules.new offsets.new stood.new }
{
    let n = file_body::body_len(s);
    let basis = own_rules::basis_of(Code(p.code), p.day);
    let before = p.going;
    let going = going::go_on(&s[..n], basis, lines, rules, offsets, stood, before);
    Portions {
        going,
        bytes,
        seen: n < s.len(),
        ..p
    }
}

// Where the file is too long, or its end mark has come, bytes are only counted.
fn take_in(
    s: &[u8],
    p: Portions,
    lines: &mut [u32],
    rules: &mut [u32],
    offsets: &mut [u32],
    stood: &mut [u32; 1296],
) -> Portions
    requires { is_open p lines.old rules.old offsets.old ≡ true }
    ensures { GoesOn s.now p lines.old rules.old offsets.old stood.old result lines.new rules.new offsets.new stood.new }
{
    let room = 10000001 - p.bytes as usize;
    if room <= s.len() {
        return counted(p, 10000001);
    }
    let bytes = p.bytes + s.len() as u32;
    if p.seen {
        return counted(p, bytes);
    }
    read_on(s, p, bytes, lines, rules, offsets, stood)
}

// The state to go on with; one that is not open stays as it is.
pub fn add(
    s: &[u8],
    p: Portions,
    lines: &mut [u32; 256],
    rules: &mut [u32; 256],
    offsets: &mut [u32; 256],
    stood: &mut [u32; 1296],
) -> Result<Portions, NotOpen>
    ensures { Adds s.now p lines.old rules.old offsets.old stood.old result lines.new rules.new offsets.new stood.new }
{
    if !usable::is_open(p, lines, rules, offsets) {
        return Err(NotOpen);
    }
    Ok(take_in(s, p, lines, rules, offsets, stood))
}
