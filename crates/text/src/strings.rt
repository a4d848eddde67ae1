// Fixed byte strings: compared at a text's start, and written into lent bytes.
ghost use Rattle.std.specs.Prelude.{◌≡◌, ◌+◌, ◌≤◌, length};
ghost use Rattle.text.specs.Strings.{begins, Wrote};

pub fn starts(s: &[u8], x: &[u8]) -> bool
    ensures { result ≡ begins s.now x.now }
{
    s.starts_with(x)
}

// Writes x from a place on and answers the place after it.
pub fn put(out: &mut [u8], at: usize, x: &[u8]) -> usize
    requires { at + length x.now ≤ length out.old }
    ensures { Wrote out.old at x.now out.new result }
{
    // By hand: what `copy_from_slice` copies with would be one more name that the archive needs from outside.
    for i in 0..x.len() {
        out[at + i] = x[i];
    }
    at + x.len()
}
