// Whether two slices hold `n` pairs of a line and a rule in order, which is what entering asks of them.
ghost use Rattle.std.specs.Prelude.{◌≡◌};
ghost use Rattle.handing.specs.Ready.{is_ready};

// One look at each pair: it must not come before the one above it.
pub fn is_ready(lines: &[u32], rules: &[u32], n: usize) -> bool
    ensures { result ≡ is_ready n lines.now rules.now }
{
    if lines.len() < n {
        return false;
    }
    if lines.len() != rules.len() {
        return false;
    }
    let mut low = 0u64;
    for i in 0..n {
        let k = ledger::key_of(lines[i], rules[i]);
        if k < low {
            return false;
        }
        low = k;
    }
    true
}
