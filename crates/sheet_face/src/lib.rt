// The C face of the turnover sheet: numbers and bytes only. Promised: 0, or the number of the refusal by document 02, and the turnovers that
// `sheet` promises; a refusal leaves them as they were. (A turnover's text refuses nothing, and `sheet` has it as a C host asks for it.)
// Stands on `sheet` for the jobs.
#![tactic(auto)]

ghost use Rattle.sheet_face.specs.Face.{OpenedAt, PostedAt};

use sheet::{opening, posting};

// A new sheet for at most 64 participants: of participant i, [4 * i] is the debit, [4 * i + 1] the credit, and the next two the same on
// the second sheet.
pub fn open(codes: &[u32], turnovers: &mut [i64; 256]) -> u32
    ensures { OpenedAt codes.now turnovers.old result turnovers.new }
{
    opening::number_of(opening::open(codes, turnovers))
}

// Posts a file on an open sheet; the list is the one that it was opened with.
pub fn post(codes: &[u32], turnovers: &mut [i64; 256], file: &[u8], code: u32, day: u32) -> u32
    ensures { PostedAt codes.now turnovers.old file.now code day result turnovers.new }
{
    posting::number_of(posting::post(codes, turnovers, file, code, day))
}
