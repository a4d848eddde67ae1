// The lines of a closing item but its heading (document 02, A7 and A14), written into lent bytes. Promised: each of them with its CR LF, an S
// line just for the groups that aren't empty, and all other bytes stay; and such lines are read back as what they say, and break no rule at a
// field. Stands on `text` for the numbers and the fixed strings and on `lines` for rows as bytes; its laws on `fields` and `rules`.
// The room that the writers ask for takes every number for 20 digits: 46 bytes for the IN, 65 for an S line.
#![tactic(auto)]

ghost use Rattle.std.specs.Prelude.{◌≡◌, [], ◌∷◌, ◌+◌, ◌≤◌, length};
ghost use Rattle.text.specs.Strings.{Wrote};
ghost use Rattle.lines.specs.Texts.{rows_text};
ghost use Rattle.closing_lines.specs.Closing.{in_text, sum_text, with_sum, sum_texts_from, closing_texts};

use text::decimals::put_decimal;
use text::strings::put;

#[tactic(auto, using(text::proofs::Bare::room_for))]
fn put_in(out: &mut [u8], at: usize, first: u64, last: u64) -> usize
    requires { at + 46 ≤ length out.old }
    ensures text { Wrote out.old at (rows_text (in_text first last ∷ [])) out.new result }
    ensures end { result ≤ at + 46 }
{
    let mut next = put(out, at, b"IN:");
    next = put_decimal(out, next, first);
    next = put(out, next, b" ");
    next = put_decimal(out, next, last);
    put(out, next, b"\r\n")
}

#[tactic(auto, using(text::proofs::Bare::room_for))]
fn put_sum(out: &mut [u8], at: usize, group: u64, count: u64, sum: u64) -> usize
    requires { at + 65 ≤ length out.old }
    ensures text { Wrote out.old at (rows_text (sum_text group count sum ∷ [])) out.new result }
    ensures end { result ≤ at + 65 }
{
    let mut next = put(out, at, b"S");
    next = put_decimal(out, next, group);
    next = put(out, next, b":");
    next = put_decimal(out, next, count);
    next = put(out, next, b" ");
    next = put_decimal(out, next, sum);
    put(out, next, b"\r\n")
}

// An empty group has no line.
fn put_group(out: &mut [u8], at: usize, group: u64, count: u64, sum: u64) -> usize
    requires { at + 65 ≤ length out.old }
    ensures text { Wrote out.old at (rows_text (with_sum group count sum [])) out.new result }
    ensures end { result ≤ at + 65 }
{
    if count == 0 {
        return at;
    }
    put_sum(out, at, group, count, sum)
}

fn put_groups(out: &mut [u8], at: usize, counts: &[u64; 10], sums: &[u64; 10]) -> usize
    requires { at + 650 ≤ length out.old }
    ensures text { Wrote out.old at (rows_text (sum_texts_from 0 counts.now sums.now)) out.new result }
    ensures end { result ≤ at + 650 }
{
    let mut next = at;
    for group in 0..10 {
        next = put_group(out, next, group as u64, counts[group], sums[group]);
    }
    next
}

// The lines of the closing item whose first and last number these are, and whose counts and sums are listed by group.
pub fn put_closing(
    out: &mut [u8],
    at: usize,
    first: u64,
    last: u64,
    counts: &[u64; 10],
    sums: &[u64; 10],
) -> usize
    requires { at + 696 ≤ length out.old }
    ensures text { Wrote out.old at (rows_text (closing_texts first last counts.now sums.now)) out.new result }
    ensures end { result ≤ at + 696 }
{
    let next = put_in(out, at, first, last);
    put_groups(out, next, counts, sums)
}
