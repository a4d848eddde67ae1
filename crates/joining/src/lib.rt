// A text that comes in portions: which of its lines are whole, and what is kept of the one that is not. The lines that a portion ends are
// judged where they stand; of the line behind them a short form is kept, at most 65 bytes, which is judged as the whole line would be.
// No rule is known here. Read, under `specs/`:
//
//   Whole      the lines of a text that CR LF ended, and the rest behind them
//   Short      the short form of a line, and what is kept of a rest: a CR at its end apart, since an LF may come
//   Portions   what a consumer of lines has after a portion, and after closing
//
// Promised: `whole_len` says where the whole lines end; `none`, `add` and `join` keep what the definitions say, in an array with zeros
// behind it (specs/Held.antt), whatever the record holds that they are given; `closing` and `ended` give the text to judge. Proved
// under `proofs/`, for any consumer that cannot tell a line from its short form: every cutting gives what the whole gives (Portions.antt:
// `cut_all`, `closing`), offsets too (`counts`), and `join` does with a portion what the definition says (Joins.antt: `join_ended`,
// `join_open`). Unseen.antt: what is asked of a line gives the same answer for its short form. It stands on `text` and `lines`; on
// `headings` and `fields` for that last law alone.
#![tactic(auto)]

ghost use Rattle.std.specs.Prelude.{◌≡◌, false, cond, [], ◌++◌, ◌+◌, ◌≤◌, min, length, take};
ghost use Rattle.std.specs.List.{list_any};
ghost use Rattle.text.specs.Characters.{is_inadmissible};
ghost use Rattle.joining.specs.Whole.{whole};
ghost use Rattle.lines.specs.Lines.{taken_by};
ghost use Rattle.joining.specs.Short.{short, cr_if, without_cr, kept_text, added};
ghost use Rattle.joining.specs.Held.{as_text, as_held, as_joined, kept_in, ended_text, join_of};

// A text of at most 68 bytes: the first `len`, zeros behind them. No ArrayVec: what is kept is lent to C as it stands (`stored`).
#[derive(Clone, Copy)]
pub struct Text {
    pub text: [u8; 68],
    pub len: usize,
}

// What is kept of a line that has not ended: its short form, at most 65 bytes, and whether a CR stands behind it.
#[derive(Clone, Copy)]
pub struct Held {
    pub text: [u8; 68],
    pub len: usize,
    pub cr: bool,
}

// The line that is kept when more has come: what is kept of it now, where the text goes on behind it, and whether CR LF ended it.
#[derive(Clone, Copy)]
pub struct Joined {
    pub held: Held,
    pub next: usize,
    pub ended: bool,
}

// How many bytes the whole lines of a text take. It is looked for from the back, so that it costs the length of the rest.
pub fn whole_len(s: &[u8]) -> usize
    ensures { result ≡ taken_by (whole s.now) }
{
    for end in (1..s.len()).rev() {
        if (s[end - 1] == b'\r') & (s[end] == b'\n') {
            return end + 1;
        }
    }
    0
}

// Whether a text holds an inadmissible byte, each asked: no table of `text` is lent here.
fn holds_bad(s: &[u8]) -> bool
    ensures { result ≡ list_any is_inadmissible s.now }
{
    s.iter().any(|b| !text::characters::is_admissible(*b))
}

// The byte that stands for all behind the 64th.
fn sign_of(bad: bool) -> u8
    ensures { result ≡ cond bad 0x7F 0x20 }
{
    if bad {
        return 0x7F;
    }
    0x20
}

// Two texts, one behind the other.
fn both(a: &[u8], b: &[u8]) -> Text
    requires { length a.now + length b.now ≤ 68 }
    ensures { result ≡ as_text (a.now ++ b.now) }
{
    let mut text = [0u8; 68];
    let k = text::strings::put(&mut text, 0, a);
    let len = text::strings::put(&mut text, k, b);
    Text { text, len }
}

// Their short form: at most 64 bytes are copied.
fn shortened(a: &[u8], b: &[u8]) -> Text
    ensures { result ≡ as_text (short (a.now ++ b.now)) }
{
    let n = usize::min(64, a.len());
    let m = usize::min(64 - n, b.len());
    let t = both(&a[..n], &b[..m]);
    if (n == a.len()) & (m == b.len()) {
        return t;
    }
    let mut text = t.text;
    text[64] = sign_of(holds_bad(&a[n..]) | holds_bad(&b[m..]));
    Text { text, len: 65 }
}

// The bytes up to a place, 65 at most.
fn start_of(s: &[u8], len: usize) -> Text
    ensures { result ≡ as_text (take (min 65 len) s.now) }
{
    let n = usize::min(65, len).min(s.len());
    let mut text = [0u8; 68];
    let end = text::strings::put(&mut text, 0, &s[..n]);
    Text { text, len: end }
}

// What is kept, with a CR behind it or not.
fn with_cr(h: Held, cr: bool) -> Text
    ensures { result ≡ as_text ((kept_in h).text ++ cr_if cr) }
{
    let t = start_of(&h.text, h.len);
    if cr {
        let mut text = t.text;
        let end = text::strings::put(&mut text, t.len, b"\r");
        return Text { text, len: end };
    }
    t
}

// What is kept, as a last line with no CR LF behind it.
pub fn closing(h: Held) -> Text
    ensures { result ≡ as_text (kept_text (kept_in h)) }
{
    with_cr(h, h.cr)
}

// What is kept, as a line that CR LF ends.
pub fn ended(h: Held) -> Text
    ensures { result ≡ as_text (ended_text (kept_in h)) }
{
    let t = closing(h);
    let mut text = t.text;
    let end = text::strings::put(&mut text, t.len, b"\r\n");
    Text { text, len: end }
}

// How much of a text stands before a CR at its end.
fn bare_len(s: &[u8]) -> usize
    ensures { result ≡ length (without_cr s.now) }
{
    if s.ends_with(b"\r") {
        return s.len() - 1;
    }
    s.len()
}

// Nothing is kept.
pub fn none() -> Held
    ensures { result ≡ as_held (record { text = []; cr = false }) }
{
    Held {
        text: [0u8; 68],
        len: 0,
        cr: false,
    }
}

// A piece more of the same line. CR LF is not looked for: there is none in the piece, nor where it joins what is kept.
pub fn add(h: Held, s: &[u8]) -> Held
    ensures { result ≡ as_held (added (kept_in h) s.now) }
{
    let n = s.len();
    let k = bare_len(s);
    let t = with_cr(h, h.cr & !(n == 0));
    let u = shortened(&t.text[..t.len], &s[..k]);
    let text = u.text;
    Held {
        text,
        len: u.len,
        cr: (k < n) | (h.cr & (n == 0)),
    }
}

// The line that is kept, up to its CR LF in the text that comes, or with all of it.
pub fn join(h: Held, s: &[u8]) -> Joined
    ensures { result ≡ as_joined (join_of (kept_in h) s.now) }
{
    if h.cr & text::strings::starts(s, b"\n") {
        let t = with_cr(h, false);
        let text = t.text;
        let held = Held {
            text,
            len: t.len,
            cr: false,
        };
        return Joined {
            held,
            next: 1,
            ended: true,
        };
    }
    let f = lines::line_near(s, 0);
    let held = add(h, &s[..f.end]);
    Joined {
        held,
        next: f.next,
        ended: f.ended,
    }
}
