// Numbers inside a text: digits from a place on, and two numbers with a space between. Promised, for every text: what specs/Numbers.antt
// says; of two numbers that are an account's halves, what `figures` says of those (proofs/Halved.antt). Stands on the rows of parts of
// `figures` and on the digits of `text`.
#![tactic(auto)]

ghost use Rattle.std.specs.Prelude.{◌≡◌, ◌≤◌, ◌<◌, ◌^◌, length};
ghost use Rattle.number_reader.specs.Numbers.{number_at, two_of};

// The number that digits stand for, and the place after them.
#[derive(Clone, Copy, Debug, PartialEq, Eq)]
pub struct Run {
    pub value: u64,
    pub end: usize,
}

// The first number, the place after it, the second, the place after that.
#[derive(Clone, Copy, Debug, PartialEq, Eq)]
pub struct Two {
    pub first: u64,
    pub mid: usize,
    pub second: u64,
    pub end: usize,
}

// The digits from a place on, at most so many.
#[tactic(auto, using(crate::proofs::Scanning::first))]
pub fn number_at(t: &[u8], at: usize, most: usize) -> Run
    requires { (at ≤ length t.now) × (most ≤ 19) }
    ensures { (result ≡ number_at most t.now at) × (at ≤ result.end) × (result.end ≤ length t.now) × (result.value < 10 ^ most) }
{
    let stop = t.len().min(at + most);
    let mut v: u64 = 0;
    for i in at..stop {
        let d = t[i].wrapping_sub(b'0');
        if 9 < d {
            return Run { value: v, end: i };
        }
        v = v * 10 + u64::from(d);
    }
    Run {
        value: v,
        end: stop,
    }
}

// Two numbers with a space between at a text's start, of so many digits at least and at most.
pub fn read_two(t: &[u8], lo1: usize, hi1: usize, lo2: usize, hi2: usize) -> Option<Two>
    requires { (hi1 ≤ 19) × (hi2 ≤ 19) }
    ensures { result ≡ two_of lo1 hi1 lo2 hi2 t.now }
{
    let a = number_at(t, 0, hi1);
    let mid = a.end;
    if mid < lo1 || t.len() <= mid || t[mid] != b' ' {
        return None;
    }
    let b = number_at(t, mid + 1, hi2);
    if b.end - (mid + 1) < lo2 {
        return None;
    }
    Some(Two {
        first: a.value,
        mid,
        second: b.value,
        end: b.end,
    })
}
