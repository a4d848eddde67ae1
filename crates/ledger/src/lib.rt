// The list of faults, in three lent slices of equal length: line numbers, rule numbers and the offsets of the lines, in the order of
// lines and, at one line, of rules. It promises that the slices hold the first pairs that fit, wherever they come from, beside each its
// line's offset, that places after the last pair keep what they held, and that the total counts every pair. It names no rule: what a
// fault is stands in `rules`, and its laws on `laws`. Three slices and no slice of records: `certis_check` of `host_c` is lent them so.
#![tactic(auto)]

ghost use Rattle.std.specs.Prelude.{◌≡◌, [], ◌∷◌, ◌++◌, ◌+◌, ◌-◌, ◌*◌, ◌^◌, ◌<◌, ◌≤◌, length, take, drop};
ghost use Rattle.rules.specs.Faults.{fault};
ghost use Rattle.ledger.specs.Marks.{key, insert, marked};
ghost use Rattle.ledger.specs.Slices.{opened, held, Ready, Put, Entered, Kept};

// How many pairs the slices hold, and how many faults there are in all.
#[derive(Clone, Copy)]
pub struct Ledger {
    pub kept: usize,
    pub total: u64,
}

// The ledger before the first fault.
pub fn empty() -> Ledger
    ensures { result ≡ record { kept = 0; total = 0 } }
{
    Ledger { kept: 0, total: 0 }
}

// The order of faults, as one number.
pub fn key_of(line: u32, rule: u32) -> u64
    ensures { result ≡ key (fault line rule) }
{
    64 * (line as u64) + (rule as u64)
}

// The place of a fault among the `n` that are held. It looks from the back: a fault that comes in order costs one look.
fn place(lines: &[u32], rules: &[u32], n: usize, line: u32, rule: u32) -> usize
    requires { Ready n lines.now rules.now }
    ensures within { result ≤ n }
    ensures split { insert (fault line rule) (held n lines.now rules.now)
        ≡ take result (held n lines.now rules.now) ++ (fault line rule ∷ drop result (held n lines.now rules.now)) }
{
    let k = key_of(line, rule);
    for p in (0..n).rev() {
        if key_of(lines[p], rules[p]) < k {
            return p + 1;
        }
    }
    0
}

// Puts `v` in at `p`: what stands from there up to `n` moves one place on, over what stands at `n`.
#[tactic(auto, using(crate::proofs::Opening::copied))]
fn open_at(s: &mut [u32], p: usize, n: usize, v: u32)
    requires { (p ≤ n) × (n < length s.old) }
    ensures { s.new ≡ opened p n v s.old }
{
    s.copy_within(p..n, p + 1);
    s[p] = v;
}

// Keeps one fault more, if it is among the first that fit; its line's offset is `at`.
fn keep(
    lines: &mut [u32],
    rules: &mut [u32],
    offsets: &mut [u32],
    n: usize,
    line: u32,
    rule: u32,
    at: u32,
) -> usize
    requires ready { Ready n lines.old rules.old }
    requires lines_len { length lines.old ≡ length offsets.old }
    ensures put { Put (fault line rule ∷ []) n lines.old rules.old result lines.new rules.new }
    ensures placed { Kept (λ off. off line ≡ at) n lines.old offsets.old result lines.new offsets.new }
{
    let room = lines.len();
    let p = place(lines, rules, n, line, rule);
    if p == room {
        return n;
    }
    // Where the room is full, the last pair gives way.
    let last = usize::min(n, room - 1);
    open_at(lines, p, last, line);
    open_at(rules, p, last, rule);
    open_at(offsets, p, last, at);
    last + 1
}

// Enters the rules of a set of marks at a line whose offset is `at`; the empty set enters nothing. Inline at each call: most lines enter
// nothing, and a call of it cost them thirty instructions.
#[inline(always)]
pub fn enter(
    lines: &mut [u32],
    rules: &mut [u32],
    offsets: &mut [u32],
    g: Ledger,
    line: u32,
    at: u32,
    marks: u64,
) -> Ledger
    requires ready { Ready g.kept lines.old rules.old }
    requires lines_len { length lines.old ≡ length offsets.old }
    requires total_bound { g.total < 2 ^ 63 }
    ensures entered { Entered (marked line marks) g lines.old rules.old result lines.new rules.new }
    ensures few { result.total ≤ g.total + 64 }
    ensures placed { Kept (λ off. off line ≡ at) g.kept lines.old offsets.old result.kept lines.new offsets.new }
{
    let mut kept = g.kept;
    let mut m = marks;
    if m == 0 {
        return g;
    }
    // The lowest mark is taken off each time: no range runs over the marks that are set.
    while m != 0 {
        let rule = m.trailing_zeros();
        kept = keep(lines, rules, offsets, kept, line, rule, at);
        m &= m - 1;
    }
    let size = marks.count_ones() as u64;
    let total = g.total + size;
    Ledger { kept, total }
}
