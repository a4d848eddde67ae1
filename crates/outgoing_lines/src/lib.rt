// The lines that go out for the items of a slice, as document 02 says them (A7): each heading derived for its outcome and number, the EC line
// of an item with outcome 8 with ten nines for its number, every other line as it stands, CR LF after each. Promised: `size_of` tells, for
// every slice, how many bytes these lines take, up to the limit of an output file; `put_lines` writes just them, for a slice each of whose
// headings can be derived (specs/Outgoing.antt). `ec_bytes` answers with a part of the line or of the replacement, as the outcome says.
// proofs/Items.antt: that every heading can be derived is the same asked of the lines and of the items that `rules` makes of them.
// Stands on `outcomes` for the derived heading, on `lines` and `fields` for what a line is, on `rules` for the rows, on `text` and `laws`.
#![tactic(auto)]

ghost use Rattle.std.specs.Prelude.{◌≡◌, false, List, ◌++◌, ℕ, ◌+◌, ◌≤◌, ◌<◌, min, length, get_or};
ghost use Rattle.lines.specs.Lines.{lines};
ghost use Rattle.text.specs.Strings.{Wrote};
ghost use Rattle.rules.specs.Rows.{rows_from};
ghost use Rattle.outgoing_lines.specs.Outgoing.{Orders, as_derived, ec_bytes, ec_text, underived, any_underived, heading_after, items_text};
ghost use Rattle.outgoing_lines.specs.Going.{outcome_in, ending, count_in, field_text, line_after, line_underived};

use fields::kinds;
use fields::kinds::Kind;
use headings::{Heading, ItemNo};
use text::strings::put;

// The number of the identifier EC.
const EC: usize = 14 * 36 + 12;

// A number of a list, 0 past its end.
pub fn at_or_zero(xs: &[u32], k: usize) -> u32
    ensures { result ≡ get_or xs.now k 0 }
{
    xs.get(k).copied().unwrap_or(0)
}

// The caller's own EC bytes, what stands on an EC line behind its colon, or the caller's replacement bytes.
pub fn ec_bytes<'a>(own: &'a [u8], replacement: &'a [u8], outcome: u32) -> &'a [u8]
    ensures { result.now ≡ ec_bytes own.now replacement.now outcome }
{
    if outcome == 8 {
        return replacement;
    }
    &own[own.len().min(3)..]
}

// An 8 derives as 6 does.
pub fn as_derived(o: u32) -> u32
    ensures { result ≡ as_derived o }
{
    if o == 8 {
        return 6;
    }
    o
}

// The outcome of the item that a line of a kind stands in: k headings stand above it, and o was the outcome up to here.
fn outcome_in(kind: Kind, outcomes: &[u32], k: usize, o: u32) -> u32
    ensures { result ≡ outcome_in kind outcomes.now k o }
{
    match kind {
        Kind::Heading => at_or_zero(outcomes, k),
        Kind::Continuation | Kind::Field(_) | Kind::Other => o,
    }
}

// How many headings stand up to a line of a kind, k of them above it.
fn count_in(kind: Kind, k: usize) -> usize
    requires { k < 18446744073709551615 }
    ensures { result ≡ count_in kind k }
{
    match kind {
        Kind::Heading => k + 1,
        Kind::Continuation | Kind::Field(_) | Kind::Other => k,
    }
}

// A size with so many bytes more, up to a byte over the limit.
fn grown(size: u64, n: u64) -> u64
    requires { size ≤ 4000000001 }
    ensures { result ≡ min 4000000001 (size + n) }
{
    size.saturating_add(n).min(4000000001)
}

// How many bytes the line that goes out for a heading's text takes, with its CR LF.
fn heading_size(line: &[u8]) -> u64
    ensures { (q : Orders) (k : ℕ) → min 4000000001 (length (heading_after q k line.now ++ ending)) ≡ result }
{
    match headings::reading::read(line) {
        Some(_) => 56,
        None => 2,
    }
}

// How many that of an EC line takes.
fn ec_size<'a>(line: &'a [u8], replacement: &'a [u8], outcome: u32) -> u64
    ensures { min 4000000001 (length (ec_text line.now replacement.now outcome ++ ending)) ≡ result }
{
    grown(5, ec_bytes(line, replacement, outcome).len() as u64)
}

fn field_size(line: &[u8], ident: usize, outcome: u32) -> u64
    ensures { min 4000000001 (length (field_text outcome ident line.now ++ ending)) ≡ result }
{
    if ident == EC {
        return ec_size(line, b"9999999999", outcome);
    }
    grown(2, line.len() as u64)
}

// How many that of a line of a kind takes, in an item with an outcome.
fn line_size(kind: Kind, line: &[u8], outcome: u32) -> u64
    ensures { (q : Orders) (k : ℕ) → min 4000000001 (length (line_after q kind k outcome line.now ++ ending)) ≡ result }
{
    match kind {
        Kind::Heading => heading_size(line),
        Kind::Field(ident) => field_size(line, ident, outcome),
        Kind::Continuation | Kind::Other => grown(2, line.len() as u64),
    }
}

// How many bytes the lines take that go out for a slice, up to a byte over the limit.
pub fn size_of(s: &[u8], outcomes: &[u32]) -> u64
    ensures { (standings : List ℕ) (start : ℕ) → min 4000000001 (length (items_text (record { outcomes = outcomes.now; standings = standings; start = start }) s.now)) ≡ result }
{
    let mut size: u64 = 0;
    let mut k = 0;
    let mut o: u32 = 0;
    let mut at = 0;
    // A `while`: each line tells where the next one starts, and an iterator of lines would hold the same place.
    while at < s.len() {
        let f = lines::line_at(s, at);
        let end = f.end;
        let kind = kinds::kind_of(&s[at..end]);
        size = grown(size, line_size(kind, &s[at..end], o));
        o = outcome_in(kind, outcomes, k, o);
        k = count_in(kind, k);
        at = f.next;
    }
    size
}

// A line as it stands.
fn put_plain(out: &mut [u8], at: usize, line: &[u8]) -> usize
    requires { at + length (line.now ++ ending) ≤ length out.old }
    ensures { Wrote out.old at (line.now ++ ending) out.new result }
{
    let next = put(out, at, line);
    put(out, next, b"\r\n")
}

fn put_ec<'a>(
    out: &mut [u8],
    at: usize,
    line: &'a [u8],
    replacement: &'a [u8],
    outcome: u32,
) -> usize
    requires { at + length (ec_text line.now replacement.now outcome ++ ending) ≤ length out.old }
    ensures { Wrote out.old at (ec_text line.now replacement.now outcome ++ ending) out.new result }
{
    let next = put(out, at, b"EC:");
    put_plain(out, next, ec_bytes(line, replacement, outcome))
}

fn put_field(out: &mut [u8], at: usize, line: &[u8], ident: usize, outcome: u32) -> usize
    requires { at + length (field_text outcome ident line.now ++ ending) ≤ length out.old }
    ensures { Wrote out.old at (field_text outcome ident line.now ++ ending) out.new result }
{
    if ident == EC {
        return put_ec(out, at, line, b"9999999999", outcome);
    }
    put_plain(out, at, line)
}

// The heading of the item that k others stand above, derived.
fn put_derived(
    out: &mut [u8],
    at: usize,
    line: &[u8],
    outcomes: &[u32],
    standings: &[u32],
    start: u32,
    k: usize,
) -> usize
    requires line_value { underived (record { outcomes = outcomes.now; standings = standings.now; start = start }) k line.now ≡ false }
    requires ending_in_bounds { at + length (heading_after (record { outcomes = outcomes.now; standings = standings.now; start = start }) k line.now ++ ending) ≤ length out.old }
    ensures { Wrote out.old at (heading_after (record { outcomes = outcomes.now; standings = standings.now; start = start }) k line.now ++ ending) out.new result }
{
    let outcome = as_derived(at_or_zero(outcomes, k));
    let standing = at_or_zero(standings, k);
    let number = ItemNo((start as usize + k) as u32);
    let _ = outcomes::derive(line, outcome, standing, number, &mut out[at..]);
    put(out, at + 54, b"\r\n")
}

// What goes out for a line of a kind, in an item with an outcome.
fn put_line(
    out: &mut [u8],
    at: usize,
    kind: Kind,
    line: &[u8],
    outcomes: &[u32],
    standings: &[u32],
    start: u32,
    k: usize,
    outcome: u32,
) -> usize
    requires line_value { line_underived (record { outcomes = outcomes.now; standings = standings.now; start = start }) kind k line.now ≡ false }
    requires ending_in_bounds { at + length (line_after (record { outcomes = outcomes.now; standings = standings.now; start = start }) kind k outcome line.now ++ ending) ≤ length out.old }
    ensures { Wrote out.old at (line_after (record { outcomes = outcomes.now; standings = standings.now; start = start }) kind k outcome line.now ++ ending) out.new result }
{
    match kind {
        Kind::Heading => put_derived(out, at, line, outcomes, standings, start, k),
        Kind::Field(ident) => put_field(out, at, line, ident, outcome),
        Kind::Continuation | Kind::Other => put_plain(out, at, line),
    }
}

// Writes the lines that go out for a slice from the start of the target on, and answers how many bytes they take.
pub fn put_lines(out: &mut [u8], s: &[u8], outcomes: &[u32], standings: &[u32], start: u32) -> usize
    requires s_value { any_underived (record { outcomes = outcomes.now; standings = standings.now; start = start }) 0 (rows_from 1 (lines s.now)) ≡ false }
    requires s_in_bounds { length (items_text (record { outcomes = outcomes.now; standings = standings.now; start = start }) s.now) ≤ length out.old }
    ensures { Wrote out.old 0 (items_text (record { outcomes = outcomes.now; standings = standings.now; start = start }) s.now) out.new result }
{
    let mut next = 0;
    let mut k = 0;
    let mut o: u32 = 0;
    let mut at = 0;
    // A `while`: each line tells where the next one starts, and an iterator of lines would hold the same place.
    while at < s.len() {
        let f = lines::line_at(s, at);
        let end = f.end;
        let kind = kinds::kind_of(&s[at..end]);
        next = put_line(
            out,
            next,
            kind,
            &s[at..end],
            outcomes,
            standings,
            start,
            k,
            o,
        );
        o = outcome_in(kind, outcomes, k, o);
        k = count_in(kind, k);
        at = f.next;
    }
    next
}
