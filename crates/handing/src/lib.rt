// What is asked of a list of pairs that a caller holds: whether it is in order (`ready`), and its first numbers in another list
// (`hand_out`). `is_ready` answers for any slices just what entering asks of them (proofs/Order.antt); handing out a list of faults is writing
// it (proofs/Handed.antt: `handed`). Stands on `ledger` for the order, and on `rules` for what a fault is.
#![tactic(auto)]

ghost use Rattle.std.specs.Prelude.{◌≡◌, ◌++◌, ◌≤◌, length, take, drop};

pub mod ready;

// The places after the first `n` keep what they held.
pub fn hand_out(from: &[u32], n: usize, to: &mut [u32])
    requires { (n ≤ length from.now) × (n ≤ length to.old) }
    ensures { to.new ≡ take n from.now ++ drop n to.old }
{
    // By hand: what `copy_from_slice` copies with would be one more name that the archive needs from outside.
    let mut i = 0;
    while i < n {
        to[i] = from[i];
        i += 1;
    }
}
