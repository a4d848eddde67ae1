// The job at the counter: a file, the submitter's code and the accounting day are checked, and the first pairs of a line and a rule
// broken there are written into two lent slices, and the offset of the line into a third.
ghost use Rattle.std.specs.Prelude.{◌≡◌};
ghost use Rattle.rules.specs.Terms.{is_code, is_accounting_day, input};
ghost use Rattle.listing.specs.Checking.{are_level, Checks, Totals, unchecked_number, checked_number};

// Checking's own refusals, which other jobs answer too.
#[derive(Clone, Copy, Debug, PartialEq, Eq)]
pub enum Unchecked {
    BadCode,
    BadDay,
    TooLong,
    UnequalRooms,
    NoMark,
    Leftovers,
    StartsWithMark,
}

// Document 01's number of a refusal.
impl From<Unchecked> for u32 {
    ghost from_gives = { λ refusal number. number ≡ unchecked_number refusal };

    fn from(refusal: Unchecked) -> u32 {
        match refusal {
            Unchecked::BadCode => 1,
            Unchecked::BadDay => 2,
            Unchecked::TooLong => 3,
            Unchecked::UnequalRooms => 4,
            Unchecked::NoMark => 5,
            Unchecked::Leftovers => 9,
            Unchecked::StartsWithMark => 6,
        }
    }
}

pub fn is_code(code: u32) -> bool
    ensures { result ≡ is_code code }
{
    (1 <= code) & (code <= 9999)
}

pub fn is_accounting_day(day: u32) -> bool
    ensures { result ≡ is_accounting_day day }
{
    let real = days::is_real(day);
    real & ((20000101 <= day) & (day <= 20991231))
}

fn are_level(m: usize, n: usize, k: usize) -> bool
    ensures { result ≡ are_level m n k }
{
    (m == n) & (m == k)
}

pub fn check(
    file: &[u8],
    code: u32,
    day: u32,
    lines: &mut [u32],
    rules: &mut [u32],
    offsets: &mut [u32],
) -> Result<u64, Unchecked>
    ensures { Checks file.now (input code day) lines.old rules.old offsets.old result lines.new rules.new offsets.new }
{
    if !is_code(code) {
        return Err(Unchecked::BadCode);
    }
    if !is_accounting_day(day) {
        return Err(Unchecked::BadDay);
    }
    if 10000000 < file.len() {
        return Err(Unchecked::TooLong);
    }
    if !are_level(lines.len(), rules.len(), offsets.len()) {
        return Err(Unchecked::UnequalRooms);
    }
    let n = file_body::body_len(file);
    if file.len() <= n {
        return Err(Unchecked::NoMark);
    }
    if n + 1 < file.len() {
        return Err(Unchecked::Leftovers);
    }
    if n == 0 {
        return Err(Unchecked::StartsWithMark);
    }
    let g = pass::enter_faults(&file[..n], code, day, lines, rules, offsets);
    Ok(g.total)
}

// The total alone: no fault is written down.
pub fn total(file: &[u8], code: u32, day: u32) -> Result<u64, Unchecked>
    ensures { Totals file.now (input code day) result }
{
    let mut lines = [0u32; 0];
    let mut rules = [0u32; 0];
    let mut offsets = [0u32; 0];
    check(file, code, day, &mut lines, &mut rules, &mut offsets)
}

// Document 01's number of an answer, 0 for a total.
pub fn number_of(answer: Result<u64, Unchecked>) -> u32
    ensures { result ≡ checked_number answer }
{
    match answer {
        Ok(_) => 0,
        Err(refusal) => u32::from(refusal),
    }
}
