// Numbers written without zeros in front.
ghost use Rattle.std.specs.Prelude.{◌≡◌, ◌+◌, ◌≤◌, length};
ghost use Rattle.text.specs.Digits.{digits};
ghost use Rattle.text.specs.Strings.{Wrote};
ghost use Rattle.text.specs.Decimals.{decimal};

use super::forms;

// How many digits a number has.
fn width(v: u64) -> usize
    ensures few { result ≤ 20 }
    ensures enough { digits result v ≡ decimal v }
{
    match v.checked_ilog10() {
        Some(before) => before as usize + 1,
        None => 1,
    }
}

// Writes a number from a place on and answers the place after it.
pub fn put_decimal(out: &mut [u8], at: usize, v: u64) -> usize
    requires { at + length (decimal v) ≤ length out.old }
    ensures text { Wrote out.old at (decimal v) out.new result }
    ensures end { result ≤ at + 20 }
{
    let n = width(v);
    forms::put_digits(out, at, n, v)
}
