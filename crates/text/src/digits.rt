// Numbers as digits, at every width that fits 64 bits.
ghost use Rattle.std.specs.Prelude.{◌≡◌, true, ◌+◌, ◌≤◌, length};
ghost use Rattle.laws.specs.Lists.{put};
ghost use Rattle.text.specs.Digits.{all_are_digits, value as value_of, digits};

// The number that bytes stand for which are known to be digits. A byte is widened before 48 is taken off: so compiled code adds a digit in
// three instructions.
pub fn value(s: &[u8]) -> u32
    requires { (length s.now ≤ 9) × (all_are_digits s.now ≡ true) }
    ensures { result ≡ value_of s.now }
{
    let mut v: u32 = 0;
    for digit in s {
        v = v * 10 + (u32::from(*digit) - 48);
    }
    v
}

// Writes the last n digits of a number from a place on; every other byte stays.
pub fn write(s: &mut [u8], at: usize, n: usize, value: u64)
    requires { at + n ≤ length s.old }
    ensures { s.new ≡ put s.old at (digits n value) }
{
    let mut rest = value;
    for i in (at..at + n).rev() {
        s[i] = b'0' + (rest % 10) as u8;
        rest /= 10;
    }
}
