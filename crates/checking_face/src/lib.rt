// The C face of checking: numbers and bytes only. Promised: 0, or the number of the refusal by document 01, and `listing`'s list and total
// behind the pointers; a refusal leaves all there as it was. Stands on `listing` for the job and on `results` for a total behind a pointer.
#![tactic(auto)]

ghost use Rattle.checking_face.specs.Face.{TotalAt, CheckedAt};

use listing::checking;
use results::leave;

pub fn total(file: &[u8], code: u32, day: u32, total: &mut u64) -> u32
    ensures { TotalAt file.now code day total.old result total.new }
{
    leave(checking::total(file, code, day), total)
}

pub fn check(
    file: &[u8],
    code: u32,
    day: u32,
    lines: &mut [u32],
    rules: &mut [u32],
    offsets: &mut [u32],
    total: &mut u64,
) -> u32
    ensures { CheckedAt file.now code day lines.old rules.old offsets.old total.old result lines.new rules.new offsets.new total.new }
{
    leave(
        checking::check(file, code, day, lines, rules, offsets),
        total,
    )
}
