// Marks: bit r of a set is rule r.
ghost use Rattle.std.specs.Prelude.{◌≡◌, cond, ◌≤◌};

// The mark of each rule: 2 to the power of its number. Those of 31 to 39, for the groups after the first, are MARK_30 moved by their group.
pub const MARK_1: u64 = 1 << 1;

pub const MARK_2: u64 = 1 << 2;

pub const MARK_3: u64 = 1 << 3;

pub const MARK_4: u64 = 1 << 4;

pub const MARK_5: u64 = 1 << 5;

pub const MARK_6: u64 = 1 << 6;

pub const MARK_7: u64 = 1 << 7;

pub const MARK_8: u64 = 1 << 8;

pub const MARK_9: u64 = 1 << 9;

pub const MARK_10: u64 = 1 << 10;

pub const MARK_11: u64 = 1 << 11;

pub const MARK_12: u64 = 1 << 12;

pub const MARK_13: u64 = 1 << 13;

pub const MARK_14: u64 = 1 << 14;

pub const MARK_15: u64 = 1 << 15;

pub const MARK_16: u64 = 1 << 16;

pub const MARK_17: u64 = 1 << 17;

pub const MARK_18: u64 = 1 << 18;

pub const MARK_19: u64 = 1 << 19;

pub const MARK_20: u64 = 1 << 20;

pub const MARK_21: u64 = 1 << 21;

pub const MARK_23: u64 = 1 << 23;

pub const MARK_24: u64 = 1 << 24;

pub const MARK_30: u64 = 1 << 30;

// A rule's mark, where the rule is broken.
pub fn flag(broken: bool, mark: u64) -> u64
    ensures { (result ≡ cond broken mark 0) × (result ≤ mark) }
{
    if broken { mark } else { 0 }
}
