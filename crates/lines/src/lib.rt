// How a file is cut into lines: at each CR LF. `line_from` gives the line at a place, and by the same look whether it holds a byte that
// is not plain, by a reader that carries the lent file and that place; `line_near` gives the same, byte by byte. Promised, for every
// file and place: they give what `lines` of specs/Lines.antt says. It stands on crates `laws`, `text` and `words`.
#![tactic(auto)]

ghost use Rattle.std.specs.Prelude.{◌≡◌, ◌+◌, ◌<◌, length, drop};
ghost use Rattle.lines.specs.Lines.{crlf};
ghost use Rattle.lines.specs.Reading.{rest_to, after, line_at};

use words::{controls, has_high, odds, word};

// A line that was found: where it ends, where the next one starts, whether CR LF stands between, and whether a byte that is not
// plain stands in it.
#[derive(Clone, Copy)]
pub struct Found {
    pub end: usize,
    pub next: usize,
    pub ended: bool,
    pub odd: bool,
}

// A rest up to a place, with no CR LF after it.
fn rest_to(end: usize, odd: bool) -> Found
    ensures { result ≡ rest_to end odd }
{
    Found {
        end,
        next: end,
        ended: false,
        odd,
    }
}

// Whether CR LF stands at i.
#[tactic(auto, using(crate::proofs::Reading::crlf_here))]
fn crlf_at(s: &[u8], i: usize) -> bool
    requires { i < length s.now }
    ensures { result ≡ crlf (drop i s.now) }
{
    s[i] == b'\r' && s[i + 1..].starts_with(b"\n")
}

// The line at a place, byte by byte; `before` says whether an odd byte stood on it already.
#[tactic(auto, using(crate::proofs::Reading::line_more, crate::proofs::Reading::line_cut, crate::proofs::Reading::line_end))]
fn line_by_bytes(s: &[u8], at: usize, before: bool) -> Found
    ensures { result ≡ after before (line_at s.now at) }
{
    let mut odd = before;
    for i in at..s.len() {
        if crlf_at(s, i) {
            return Found {
                end: i,
                next: i + 2,
                ended: true,
                odd,
            };
        }
        odd |= !text::characters::is_plain(s[i]);
    }
    rest_to(at.max(s.len()), odd)
}

// The line at a place; at or past the end it is an empty rest at that place. Eight bytes are looked at as one word: the first bit of `z`
// is in the first among them that is below 20. In a clean file that is a CR, so such bytes are searched for and not CR, which takes more
// instructions; before that one a byte is odd where it is above 7E. The last seven bytes are looked at one by one.
pub fn line_at(s: &[u8], at: usize) -> Found
    ensures { result ≡ line_at s.now at }
{
    let stop = s.len().saturating_sub(7);
    let mut odd: u64 = 0;
    let mut i = at;
    // A step is eight bytes or ends behind a control byte, and no range gives such steps.
    while i < stop {
        let w = word(s, i);
        let z = controls(w);
        let o = odds(w);
        if z == 0 {
            odd |= o;
            i += 8;
        } else {
            let k = i + (z.trailing_zeros() / 8) as usize;
            odd |= o & ((z ^ (z - 1)) >> 1);
            if crlf_at(s, k) {
                return Found {
                    end: k,
                    next: k + 2,
                    ended: true,
                    odd: has_high(odd),
                };
            }
            odd |= 0x80;
            i = k + 1;
        }
    }
    line_by_bytes(s, i, has_high(odd))
}

// The line reader: the lent file, and its place in it.
#[derive(Clone, Copy)]
pub struct Reader<'a> {
    pub file: &'a [u8],
    pub at: usize,
}

impl<'a> Reader<'a> {
    pub fn start(file: &'a [u8], at: usize) -> Reader<'a>
        ensures { (result.file ≡ file.entry) × (result.at ≡ at) }
    {
        Reader { file, at }
    }

    // The line at the reader's place.
    pub fn next(self) -> Found
        ensures { result ≡ line_at self.entry.file.now self.entry.at }
    {
        line_at(self.file, self.at)
    }
}

// The line at a place, byte by byte: for callers whose lines are short or few.
pub fn line_near(file: &[u8], at: usize) -> Found
    ensures { result ≡ line_at file.now at }
{
    line_by_bytes(file, at, false)
}

// The line at a place, through a reader that is made for it. The loop over a file's lines alone calls it, so that it is inlined there.
pub fn line_from(file: &[u8], at: usize) -> Found
    ensures { result ≡ line_at file.now at }
{
    Reader::start(file, at).next()
}
