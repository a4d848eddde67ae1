// Whether a state is one that can go on: any numbers may come from a caller, and what counts with them must not pass its bounds.
ghost use Rattle.std.specs.Prelude.{◌≡◌, ◌+◌, ◌≤◌, leb};
ghost use Rattle.portions.specs.Usable.{is_sound, is_open, bounded_by};

use crate::Portions;
use going::Going;
use handing::ready;

// What the pass counts with, after lines of `at` bytes.
fn is_bounded(at: u32, n: u32, total: u64, marks: u64, tail: u32, top: u64) -> bool
    ensures { result ≡ bounded_by at n total marks tail top }
{
    let few = (tail <= n) & (top <= 18);
    (n <= at) & ((total <= 256 * (n as u64)) & ((marks < 2199023255552) & few))
}

// Of the open line no more is kept than came.
fn has_come(at: u32, len: usize, came: u32) -> bool
    requires { len ≤ 68 }
    ensures { result ≡ leb (at + len) came }
{
    at as usize + len <= came as usize
}

fn is_sound(g: Going, lines: &[u32], rules: &[u32], offsets: &[u32]) -> bool
    ensures { result ≡ is_sound g lines.now rules.now offsets.now }
{
    let p = g.pass;
    let held = g.held;
    let kept = joining::closing(held);
    let bounded = is_bounded(g.at, p.n, p.ledger.total, p.wait.marks, p.field.tail, p.top);
    let came = has_come(g.at, kept.len, g.came);
    let ready = ready::is_ready(lines, rules, p.ledger.kept);
    bounded & ((lines.len() == offsets.len()) & (came & ready))
}

// Open, and sound.
pub fn is_open(p: Portions, lines: &[u32], rules: &[u32], offsets: &[u32]) -> bool
    ensures { result ≡ is_open p lines.now rules.now offsets.now }
{
    let going = p.going;
    let sound = is_sound(going, lines, rules, offsets);
    p.takes & (((going.came <= p.bytes) & (p.bytes <= 10000001)) & sound)
}
