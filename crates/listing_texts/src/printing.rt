// The writers of what the program prints. Each writes from a place on and answers the place after its text. The room that they
// ask for takes every number for 20 digits: 22 bytes for the first line, 52 for a row, 28 for the last line, 29 for a refusal.
ghost use Rattle.std.specs.Prelude.{◌≡◌, ◌+◌, ◌*◌, ◌≤◌, length};
ghost use Rattle.text.specs.Strings.{Wrote};
ghost use Rattle.rules.specs.Faults.{fault};
ghost use Rattle.ledger.specs.Slices.{held};
ghost use Rattle.listing_texts.specs.Printing.{header_text, row_text, total_text, listing_text, refused_text, Begins};

use text::decimals::put_decimal;
use text::forms::put_digits;
use text::strings::put;

fn put_header(out: &mut [u8], at: usize, code: u32, day: u32) -> usize
    requires { at + 22 ≤ length out.old }
    ensures text { Wrote out.old at (header_text code day) out.new result }
    ensures end { result ≡ at + 22 }
{
    let mut next = put(out, at, b"checked ");
    next = put_digits(out, next, 4, code as u64);
    next = put(out, next, b" ");
    next = put_digits(out, next, 8, day as u64);
    put(out, next, b"\n")
}

fn put_row(out: &mut [u8], at: usize, line: u32, rule: u32) -> usize
    requires { at + 52 ≤ length out.old }
    ensures text { Wrote out.old at (row_text (fault line rule)) out.new result }
    ensures end { result ≤ at + 52 }
{
    let mut next = put(out, at, b"line ");
    next = put_decimal(out, next, line as u64);
    next = put(out, next, b" rule ");
    next = put_decimal(out, next, rule as u64);
    put(out, next, b"\n")
}

fn put_total(out: &mut [u8], at: usize, total: u64) -> usize
    requires { at + 28 ≤ length out.old }
    ensures { Wrote out.old at (total_text total) out.new result }
{
    let mut next = put(out, at, b"faults ");
    next = put_decimal(out, next, total);
    put(out, next, b"\n")
}

// The listing of the first n pairs of two slices, from the first byte on.
pub fn put_listing(
    out: &mut [u8],
    code: u32,
    day: u32,
    lines: &[u32],
    rules: &[u32],
    n: usize,
    total: u64,
) -> usize
    requires { (n ≤ length lines.now) × (n ≤ length rules.now) × (50 + 52 * n ≤ length out.old) }
    ensures { Begins out.old (listing_text code day (held n lines.now rules.now) total) out.new result }
{
    let mut at = put_header(out, 0, code, day);
    for i in 0..n {
        at = put_row(out, at, lines[i], rules[i]);
    }
    put_total(out, at, total)
}

// The line of a refusal, from the first byte on.
pub fn put_refused(out: &mut [u8], k: u32) -> usize
    requires { 29 ≤ length out.old }
    ensures { Begins out.old (refused_text k) out.new result }
{
    let mut next = put(out, 0, b"refused ");
    next = put_decimal(out, next, k as u64);
    put(out, next, b"\n")
}
