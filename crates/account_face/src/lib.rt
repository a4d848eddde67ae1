// The C face of the account check: numbers and bytes only. Promised: 0, or the number of the refusal by document 01, and behind the
// pointers `figures`' answers; a refusal leaves all there as it was. Stands on `figures` for the job, and on the specification of
// `results` for what stands behind a pointer.
#![tactic(auto)]

ghost use Rattle.account_face.specs.Face.{AccountAt};

use figures::accounts;

// Behind `first` stands the answer for the prefix, behind `second` that for the number.
pub fn check(prefix: &[u8], number: &[u8], first: &mut u32, second: &mut u32) -> u32
    ensures { AccountAt prefix.now number.now first.old second.old result first.new second.new }
{
    match accounts::check(prefix, number) {
        Ok(halves) => {
            *first = u32::from(!halves.prefix);
            *second = u32::from(halves.number);
            0
        }
        Err(refusal) => u32::from(refusal),
    }
}
