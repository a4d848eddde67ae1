// Signed sums on turnovers. Promised: an amount more on one turnover or on two, exact for every i64 that stands there, or that the limit is
// passed; no sum wraps. Stands on nothing.
#![tactic(auto)]

ghost use Rattle.std.specs.Prelude.{◌≡◌, ◌<◌, pos, nat_abs, ◌+ℤ◌, get_or};
ghost use Rattle.sums.specs.Sums.{signed, beyond, sum_of, added, AddsBoth};

// What a turnover may be at most, either way.
const LIMIT: i64 = 99999999999999999;

// An amount, or what takes it away.
pub fn with_sign(minus: bool, amount: u64) -> i64
    requires { amount < 1000000000000000 }
    ensures { result ≡ signed minus amount }
{
    let a = amount as i64;
    if minus { -a } else { a }
}

// The sum, unless it would pass the limit. A host may lend any turnovers, also one so far out that the sum would wrap.
fn plus(t: i64, x: i64) -> Option<i64>
    requires { nat_abs x < 1000000000000000 }
    ensures { result ≡ sum_of t x }
{
    let sum = t.checked_add(x)?;
    if sum < -LIMIT || LIMIT < sum {
        return None;
    }
    Some(sum)
}

// A turnover with an amount more, and whether it would pass the limit; then it stays.
fn add_at(ts: &mut [i64; 256], at: usize, x: i64) -> bool
    requires { (at < 256) × (nat_abs x < 1000000000000000) }
    ensures value { result ≡ beyond (get_or ts.old at (pos 0) +ℤ x) }
    ensures ts_after { ts.new ≡ added ts.old at x }
{
    let Some(sum) = plus(ts[at], x) else {
        return true;
    };
    ts[at] = sum;
    false
}

// Two turnovers with an amount more, and whether one of them would pass the limit.
pub fn add_both(ts: &mut [i64; 256], here: usize, there: usize, x: i64) -> bool
    requires { (here < 256) × (there < 256) × (nat_abs x < 1000000000000000) }
    ensures { AddsBoth ts.old here there x result ts.new }
{
    add_at(ts, here, x) || add_at(ts, there, x)
}
