// Which bytes are a register: `is_register` answers just for the well-formed ones, of each version. Stands on `register` for what these are and
// for numbers as bytes, on `days`, and on the fixed strings of `text`.
#![tactic(auto)]

ghost use Rattle.std.specs.Prelude.{◌≡◌, ◌&&◌, ◌||◌, ◌+◌, ◌*◌, ◌≤◌, length, drop, eqb, ltb};
ghost use Rattle.days.specs.Days.{later as laterBy};
ghost use Rattle.register.specs.Register.{most_of, is_version, has_layout, range_stands, all_stand, in_order, ranges_in, latest_with, is_register};

use days::{day_number, is_real};
use register::bytes;
use text::strings;

// How many ranges a register of a version may have.
fn most_of(version: u32) -> u32
    ensures { result ≡ most_of version }
{
    match version {
        1 => 64,
        2 => 1024,
        _ => 0,
    }
}

fn is_version(version: u32) -> bool
    ensures { result ≡ is_version version }
{
    (version == 1) | (version == 2)
}

fn has_layout(s: &[u8]) -> bool
    ensures { result ≡ has_layout s.now }
{
    if s.len() < 13 {
        return false;
    }
    let version = bytes::read(s, 3, 2);
    let count = bytes::read(s, 11, 2);
    strings::starts(s, b"CRG")
        & (is_version(version)
            & ((count <= most_of(version)) & (s.len() == 13 + 12 * (count as usize))))
}

// A day is more than so many calendar days after another.
pub fn later(day: u32, than: u32, days: u32) -> bool
    ensures { result ≡ laterBy day than days }
{
    let from = day_number(than);
    let to = day_number(day);
    (from as u64) + (days as u64) < (to as u64)
}

fn range_stands(latest: u32, day: u32, first: u32, last: u32) -> bool
    ensures { result ≡ range_stands latest (record { day = day; first = first; last = last }) }
{
    is_real(day)
        & (!later(day, latest, 0)
            & (!later(latest, day, 10) & ((1 <= first) & ((first <= last) & (last <= 9999999)))))
}

// A range that starts after the end of another, with a gap.
fn is_apart(day: u32, last: u32, then: u32, first: u32) -> bool
    ensures { result ≡ (ltb day then || (eqb day then && ltb (last + 1) first)) }
{
    (day < then) | ((day == then) & ((last as u64) + 1 < (first as u64)))
}

// The n ranges of a register: each stands, and each is apart from the one before it.
fn ranges_stand(s: &[u8], latest: u32, n: usize) -> bool
    requires { 13 + 12 * n ≤ length s.now }
    ensures { result ≡ (all_stand latest (ranges_in n (drop 13 s.now)) && in_order (ranges_in n (drop 13 s.now))) }
{
    let mut day: u32 = 0;
    let mut last: u32 = 0;
    for i in 0..n {
        let at = 13 + 12 * i;
        let then = bytes::read(s, at, 4);
        let from = bytes::read(s, at + 4, 4);
        let to = bytes::read(s, at + 8, 4);
        if !(range_stands(latest, then, from, to) & is_apart(day, last, then, from)) {
            return false;
        }
        day = then;
        last = to;
    }
    true
}

// 'a new register has latest day 0 and no ranges'
fn latest_stands(latest: u32, n: usize) -> bool
    ensures { result ≡ latest_with latest n }
{
    is_real(latest) | ((latest == 0) & (n == 0))
}

// Whether bytes are a well-formed register.
pub fn is_register(s: &[u8]) -> bool
    ensures { result ≡ is_register s.now }
{
    if !has_layout(s) {
        return false;
    }
    let code = bytes::read(s, 5, 2);
    let latest = bytes::read(s, 7, 4);
    let n = bytes::read(s, 11, 2) as usize;
    ((1 <= code) & (code <= 9999)) & (latest_stands(latest, n) & ranges_stand(s, latest, n))
}
