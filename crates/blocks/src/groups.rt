// The ten groups: what a 51 states of each against what the account has.
ghost use Rattle.std.specs.Prelude.{◌≡◌, ◌+◌, ◌-◌, ◌<◌, ◌≤◌, ◌^◌, min};
ghost use Rattle.blocks.specs.Model.{tells_capped, misstated_capped, group_breaks, group_marks};

use crate::marks::{MARK_30, flag};
use rules::{First, Statement, Sum};

// The caps: a true count or sum that reaches its cap equals no Sd.
pub const COUNT_CAP: u64 = 10_000_000;

pub const SUM_CAP: u64 = 100_000_000_000_000_000;

fn tells_true(count: u64, sum: u64, c: u64, s: u64) -> bool
    ensures { result ≡ tells_capped count sum c s }
{
    (count < COUNT_CAP) & ((sum < SUM_CAP) & ((c == count) & (s == sum)))
}

fn misstates(count: u64, sum: u64, stated: First<Statement>) -> bool
    ensures { result ≡ misstated_capped count sum stated }
{
    match stated {
        First::Missing => !tells_true(count, sum, 0, 0),
        First::Unread => false,
        First::Says(stated) => !tells_true(count, sum, stated.count as u64, stated.sum.0),
    }
}

fn group_breaks(counts: [u64; 10], sums: [u64; 10], groups: [Sum; 10], d: usize) -> bool
    requires { d < 10 }
    ensures { result ≡ group_breaks counts sums groups d }
{
    misstates(counts[d], sums[d], groups[d].stated)
}

// The marks of 30 to 39.
pub fn group_marks(counts: [u64; 10], sums: [u64; 10], groups: [Sum; 10]) -> u64
    ensures { (result ≡ group_marks counts sums groups) × (result ≤ 2 ^ 40 - 2 ^ 30) }
{
    let mut marks = 0;
    for d in 0..10 {
        marks += flag(group_breaks(counts, sums, groups, d), MARK_30 << d);
    }
    marks
}

// The sum, up to the cap.
pub fn capped(cap: u64, x: u64, a: u64) -> u64
    ensures { result ≡ min cap (x + a) }
{
    x.saturating_add(a).min(cap)
}
