// Texts in a fixed layout: whether a text has the form, the number at a part, and digits written in their place.
ghost use Rattle.std.specs.Prelude.{◌≡◌, true, ◌++◌, ◌+◌, ◌≤◌, length, take, drop};
ghost use Rattle.laws.specs.Ascii.{ascii};
ghost use Rattle.text.specs.Digits.{all_are_digits, digits};
ghost use Rattle.text.specs.Strings.{Wrote};
ghost use Rattle.text.specs.Forms.{fits_byte, has_form, part_at};

use super::{digits, strings};

fn fits_byte(t: u8, b: u8) -> bool
    ensures { result ≡ fits_byte t b }
{
    (b == t) | ((t == b'0') & b.is_ascii_digit())
}

// Whether a text has the form of a template, a text with 0 for each digit. No byte ends the loop early, so that many are compared at once:
// by `all`, which ends it, a heading took ten times as long.
pub fn has_form(template: &[u8], s: &[u8]) -> bool
    ensures { result ≡ has_form template.now s.now }
{
    if template.len() != s.len() {
        return false;
    }
    let mut all = true;
    for (t, b) in template.iter().zip(s) {
        all &= fits_byte(*t, *b);
    }
    all
}

// The number that the n digits from a place on stand for.
pub fn part(s: &[u8], at: usize, n: usize) -> u32
    requires { (at + n ≤ length s.now) × (n ≤ 9) × (all_are_digits (take n (drop at s.now)) ≡ true) }
    ensures { result ≡ part_at s.now at n }
{
    digits::value(&s[at..at + n])
}

// Writes the last n digits of a number from a place on and answers the place after them.
pub fn put_digits(out: &mut [u8], at: usize, n: usize, v: u64) -> usize
    requires { at + n ≤ length out.old }
    ensures text { Wrote out.old at (digits n v) out.new result }
    ensures end { result ≡ at + n }
{
    digits::write(out, at, n, v);
    at + n
}

// The same after a space.
pub fn put_spaced(out: &mut [u8], at: usize, n: usize, v: u64) -> usize
    requires { at + 1 + n ≤ length out.old }
    ensures text { Wrote out.old at (ascii " " ++ digits n v) out.new result }
    ensures end { result ≡ at + 1 + n }
{
    let next = strings::put(out, at, b" ");
    put_digits(out, next, n, v)
}
