// Admissible bytes (document 01; 000, 2.1): one test, the table of all answers, and the look over a part of a slice.
ghost use Rattle.std.specs.Prelude.{◌≡◌, not, ◌&&◌, ◌≤◌, length};
ghost use Rattle.laws.specs.Lists.{any_of, tabulate};
ghost use Rattle.text.specs.Characters.{is_plain, is_admissible, is_inadmissible, answers};

pub fn is_plain(b: u8) -> bool
    ensures { result ≡ is_plain b }
{
    matches!(b, 0x20..=0x7E)
}

// Of the bytes from 80 on, 64 to a word, one bit each.
pub fn is_admissible(b: u8) -> bool
    ensures { result ≡ is_admissible b }
{
    if b < 0x80 {
        return is_plain(b);
    }
    let word: u64 = if b < 0xC0 {
        0x00A0_30CF_9E7F_4036
    } else {
        0x3000_37E5_4174_0000
    };
    (word >> (b % 64)) % 2 == 1
}

// 20 to 7E.
fn plain_table() -> [bool; 256]
    ensures { result ≡ tabulate is_plain 0 256 }
{
    let mut t = [false; 256];
    t[0x20..0x7F].fill(true);
    t
}

// The answer for each byte. A caller makes it once and lends it: a table that stands in the code would be built anew at each use. The 45
// are entered one by one: asked of all bytes, the test would be most of what a short file costs.
pub fn table() -> [bool; 256]
    ensures { result ≡ answers }
{
    let others =
        b"\x81\x82\x84\x85\x8E\x90\x91\x92\x93\x94\x95\x96\x99\x9A\x9B\x9C\x9F\xA0\xA1\xA2\xA3\xA6\xA7\xAC\xAD\xB5\xB7\xD2\xD4\xD5\xD6\xD8\xDE\xE0\xE2\xE5\xE6\xE7\xE8\xE9\xEA\xEC\xED\xFC\xFD";
    let mut t = plain_table();
    for b in others {
        t[usize::from(*b)] = true;
    }
    t
}

// Whether each byte is admissible. No byte ends the loop early: by `all`, which does, texts of 40 bytes and more took half as long again.
fn all_good(t: &[bool; 256], s: &[u8]) -> bool
    requires { t.now ≡ answers }
    ensures { result ≡ not (any_of is_inadmissible s.now) }
{
    let mut good = true;
    for b in s {
        good &= t[usize::from(*b)];
    }
    good
}

// A text of 8 to 40 bytes by five eights, each as far on as it can be: most texts are so long, and how many eights there are is not guessed.
fn five_good(t: &[bool; 256], s: &[u8]) -> bool
    requires { (t.now ≡ answers) × (8 ≤ length s.now) × (length s.now ≤ 40) }
    ensures { result ≡ not (any_of is_inadmissible s.now) }
{
    let last = s.len() - 8;
    let mut good = true;
    for k in 0..5 {
        let at = last.min(8 * k);
        good &= all_good(t, &s[at..at + 8]);
    }
    good
}

// By eights; the last eight may have been looked at in part.
fn holds_bad(t: &[bool; 256], s: &[u8]) -> bool
    requires { t.now ≡ answers }
    ensures { result ≡ any_of is_inadmissible s.now }
{
    let n = s.len();
    if n < 8 {
        return !all_good(t, s);
    }
    if n <= 40 {
        return !five_good(t, s);
    }
    let mut good = true;
    for eight in s[..n - 1].chunks_exact(8) {
        good &= all_good(t, eight);
    }
    !(good & all_good(t, &s[n - 8..]))
}

// Whether a text holds an inadmissible byte (rule 1): where none is odd, that is not plain, the table is not asked.
pub fn holds_inadmissible(t: &[bool; 256], s: &[u8], odd: bool) -> bool
    requires { t.now ≡ answers }
    ensures { result ≡ (odd && any_of is_inadmissible s.now) }
{
    odd && holds_bad(t, s)
}
