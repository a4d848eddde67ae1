// Eight bytes as one number, a word, the first byte lowest: `word` loads it, which callers compare too; `controls` and `odds` tell by high
// bits, in one step each, the first of its bytes that is below 20, and the first above 7E. Promised: what specs/Words.antt says, for
// every word. It stands on crates `laws` and `text`.
#![tactic(auto)]

ghost use Rattle.std.specs.Prelude.{◌≡◌, ◌+◌, ◌≤◌, length, take, drop};
ghost use Rattle.words.specs.Words.{bytes_of, is_above, Tells, Marks, flagged};

// Words of one byte eight times: the high bit; 01, which makes 7F reach it; 20, for which only a byte below it borrows.
const HIGH: u64 = 0x8080_8080_8080_8080;

const ONES: u64 = 0x0101_0101_0101_0101;

const SPACES: u64 = 0x2020_2020_2020_2020;

// The eight bytes from a place on as one word, the first one lowest: compiled to one load.
pub fn word(s: &[u8], i: usize) -> u64
    requires { i + 8 ≤ length s.now }
    ensures { bytes_of 8 result ≡ take 8 (drop i s.now) }
{
    u64::from_le_bytes(*s[i..i + 8].as_array().unwrap())
}

// High bits alone: the first is that of the first byte of w below 20, as CR is. That one borrows from the next, so the bits after it say
// nothing.
#[tactic(auto, using(crate::proofs::Words::controls_are))]
pub fn controls(w: u64) -> u64
    ensures { Marks w result }
{
    w.wrapping_sub(SPACES) & (w ^ HIGH) & HIGH
}

// A word whose first high bit is that of the first byte of w above 7E. Only FF carries into the next, and it is above 7E itself.
#[tactic(auto, using(crate::proofs::Words::odds_are))]
pub fn odds(w: u64) -> u64
    ensures { Tells is_above 8 w result }
{
    w.wrapping_add(ONES) | w
}

// Whether a byte of a word has its high bit.
#[tactic(auto, unfolding(crate::specs::Words::flagged))]
pub fn has_high(w: u64) -> bool
    ensures { result ≡ flagged w }
{
    w & HIGH != 0
}
