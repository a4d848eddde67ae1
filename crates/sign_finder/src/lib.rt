// The next line that begins with two letters and a colon, found without the ends of the lines between: its sign is CR LF, the two
// letters, the colon. Each CR LF cuts, so a sign is always such a line. Promised by `sign_from`, for every text: the first place where a
// sign stands (specs/Signs.antt). Stands on `text` for comparing.
#![tactic(auto)]

ghost use Rattle.std.specs.Prelude.{◌≡◌, true, false, ◌+◌, ◌<◌, ◌≤◌, length};
ghost use Rattle.sign_finder.specs.Signs.{stands_at, Quiet, Apart, IsSign};

// Whether two bytes stand in s, one after the other. A loop that only sets a flag is compiled to wide compares; one that stops early
// is not.
fn holds_pair(s: &[u8], a: u8, b: u8) -> bool
    ensures { result ≡ false → Apart s.now a b (length s.now) }
{
    let mut found = false;
    for i in 1..s.len() {
        if (s[i - 1] == a) & (s[i] == b) {
            found = true;
        }
    }
    found
}

// Whether sixteen places from i on are seen to have no sign, since the two letters stand at none.
fn is_quiet(s: &[u8], i: usize, a: u8, b: u8) -> bool
    ensures { result ≡ true → (i + 19 ≤ length s.now) × Quiet s.now a b i (i + 16) }
{
    if s.len() < 19 {
        return false;
    }
    if s.len() - 19 < i {
        return false;
    }
    !holds_pair(&s[i + 2..i + 19], a, b)
}

// Whether a sign stands at a place. Most bytes are no CR.
fn stands(s: &[u8], i: usize, a: u8, b: u8) -> bool
    requires { i < length s.now }
    ensures { result ≡ stands_at s.now a b i }
{
    if s[i] != 0x0d {
        return false;
    }
    text::strings::starts(&s[i..], &[0x0d, 0x0a, a, b, 0x3a])
}

// The first sign from a place on and before another, byte by byte; that other where there is none.
fn near(s: &[u8], at: usize, stop: usize, a: u8, b: u8) -> usize
    requires { (at ≤ stop) × (stop ≤ length s.now) }
    ensures { IsSign s.now a b at stop result }
{
    for i in at..stop {
        if stands(s, i, a, b) {
            return i;
        }
    }
    stop
}

// The same, sixteen places at a time where no sign is near.
pub fn sign_from(s: &[u8], at: usize, stop: usize, a: u8, b: u8) -> usize
    requires { (at ≤ stop) × (stop ≤ length s.now) }
    ensures { IsSign s.now a b at stop result }
{
    let mut i = at;
    // By hand, since a step is sixteen places or as far as `near` looked.
    while i < stop {
        if is_quiet(s, i, a, b) {
            i += 16;
        } else {
            let end = stop.min(i + 16);
            i = near(s, i, end, a, b);
            if i < end {
                return i;
            }
        }
    }
    stop
}
