// A register written into lent bytes, from the keys of its ranges. Promised: its bytes in version 2, and all other bytes stay. Stands on
// `register` for what these are and for numbers as bytes, and on the fixed strings of `text`.
#![tactic(auto)]

ghost use Rattle.std.specs.Prelude.{◌≡◌, ◌+◌, ◌*◌, ◌≤◌, length};
ghost use Rattle.text.specs.Strings.{Wrote};
ghost use Rattle.register.specs.Register.{head_bytes, range_bytes, register_bytes};
ghost use Rattle.register.specs.Spans.{ranges_of};

use register::bytes;
use text::strings;

// All up to the ranges.
pub fn put_head(out: &mut [u8], code: u64, latest: u64, count: u64) -> usize
    requires { 13 ≤ length out.old }
    ensures text { Wrote out.old 0 (head_bytes code latest count) out.new result }
    ensures end { result ≡ 13 }
{
    let a = strings::put(out, 0, b"CRG");
    let b = bytes::write(out, a, 2, 2);
    let c = bytes::write(out, b, 2, code);
    let d = bytes::write(out, c, 4, latest);
    bytes::write(out, d, 2, count)
}

pub fn put_range(out: &mut [u8], at: usize, day: u64, first: u64, last: u64) -> usize
    requires { at + 12 ≤ length out.old }
    ensures text { Wrote out.old at (range_bytes day first last) out.new result }
    ensures end { result ≡ at + 12 }
{
    let a = bytes::write(out, at, 4, day);
    let b = bytes::write(out, a, 4, first);
    bytes::write(out, b, 4, last)
}

// The register whose ranges have these first and last keys, a key being day and number.
pub fn put_register(out: &mut [u8], code: u32, latest: u32, starts: &[u64], ends: &[u64]) -> usize
    requires { (length starts.now ≡ length ends.now) × (13 + 12 * length starts.now ≤ length out.old) }
    ensures { Wrote out.old 0 (register_bytes (record { code = code; latest = latest; ranges = ranges_of starts.now ends.now })) out.new result }
{
    let mut at = put_head(out, code as u64, latest as u64, starts.len() as u64);
    for i in 0..starts.len() {
        let a = starts[i];
        let b = ends[i];
        at = put_range(out, at, a / 10000000, a % 10000000, b % 10000000);
    }
    at
}
