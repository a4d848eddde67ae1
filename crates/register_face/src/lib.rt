// The C face of the register: numbers and bytes only. Promised: 0, or the number of the refusal by document 01 or 02, and behind the
// pointers the register and its length, as `entering` promises; a refusal leaves all there as it was. Stands on `entering` for the jobs and
// on `results` for a length behind a pointer.
#![tactic(auto)]

ghost use Rattle.register_face.specs.Face.{BlankedAt, EnteredAt};

use entering::{blanking, entering as registering};
use results::{leave, number_of};

// A new register: 13 bytes.
pub fn blank(code: u32, target: &mut [u8]) -> u32
    ensures { BlankedAt code target.old result target.new }
{
    number_of(blanking::blank(code, target))
}

pub fn enter(
    register: &[u8],
    file: &[u8],
    code: u32,
    day: u32,
    target: &mut [u8],
    written: &mut usize,
) -> u32
    ensures { EnteredAt register.now file.now code day target.old written.old result target.new written.new }
{
    let answer = registering::enter(register, file, code, day, target);
    leave(answer, written)
}
