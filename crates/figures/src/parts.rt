// The two parts of an account, and what each is as a half of it.
ghost use Rattle.std.specs.Prelude.{◌≡◌, ◌≤◌, length};
ghost use Rattle.figures.specs.Parts.{weighed_at};
ghost use Rattle.figures.specs.Accounts.{number_by, part_of};

// Digits of a part: their sum, doubled and added from the left, their bits, and the place after them.
#[derive(Clone, Copy)]
pub struct Weighed {
    pub sum: u64,
    pub any: u64,
    pub end: usize,
}

// The digits from a place on, at most so many. A weight is twice the one to its right, but for elevens, so each digit is added to twice
// the sum of those to its left: that divides by 11 where the weighed sum does.
#[tactic(auto, using(crate::proofs::Reading::sum_le, crate::proofs::Reading::read_start))]
pub fn weighed_at(t: &[u8], at: usize, most: usize) -> Weighed
    requires { (at ≤ length t.now) × (most ≤ 10) }
    ensures { (result ≡ weighed_at most t.now at) × (at ≤ result.end) × (result.end ≤ length t.now) }
{
    let stop = t.len().min(at + most);
    let mut sum: u64 = 0;
    let mut any: u64 = 0;
    for i in at..stop {
        let e = t[i].wrapping_sub(b'0');
        if 9 < e {
            return Weighed { sum, any, end: i };
        }
        let d = u64::from(e);
        sum = 2 * sum + d;
        any |= d;
    }
    Weighed {
        sum,
        any,
        end: stop,
    }
}

// A part of digits: whether one is not 0, and whether it passes.
#[derive(Clone, Copy)]
pub struct PartRead {
    pub some: bool,
    pub passes: bool,
}

// What a text is as a part of at most so many digits; `None` if it is no such part.
pub fn part_of(s: &[u8], most: usize) -> Option<PartRead>
    requires { most ≤ 10 }
    ensures { result ≡ part_of most s.now }
{
    let w = weighed_at(s, 0, most);
    if w.end < s.len() {
        return None;
    }
    Some(PartRead {
        some: w.any != 0,
        passes: w.sum % 11 == 0,
    })
}

// A number whose sum divides or does not; or one of zero, whose sum is not judged.
#[derive(Clone, Copy, Debug, PartialEq, Eq)]
pub enum Number {
    Good,
    Failing,
    Zero,
}

// Whether the prefix is good, and what the number is.
#[derive(Clone, Copy, Debug, PartialEq, Eq)]
pub struct Halves {
    pub prefix: bool,
    pub number: Number,
}

pub fn number_by(zero: bool, passes: bool) -> Number
    ensures { result ≡ number_by zero passes }
{
    if zero {
        Number::Zero
    } else if passes {
        Number::Good
    } else {
        Number::Failing
    }
}
