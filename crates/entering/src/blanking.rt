// A new register for a participant.
ghost use Rattle.std.specs.Prelude.{◌≡◌};
ghost use Rattle.entering.specs.Jobs.{unblanked_number, blanked_number, Blanks};

use listing::checking::is_code;

// Why no register is written.
#[derive(Clone, Copy, Debug, PartialEq, Eq)]
pub enum BlankError {
    BadCode,
    TooShort,
}

// Its number by documents 01 and 02.
impl From<BlankError> for u32 {
    ghost from_gives = { λ error number. number ≡ unblanked_number error };

    fn from(error: BlankError) -> u32 {
        match error {
            BlankError::BadCode => 1,
            BlankError::TooShort => 29,
        }
    }
}

pub fn blank(code: u32, target: &mut [u8]) -> Result<(), BlankError>
    ensures { Blanks code target.old result target.new }
{
    if !is_code(code) {
        return Err(BlankError::BadCode);
    }
    if target.len() < 13 {
        return Err(BlankError::TooShort);
    }
    register_writer::put_head(target, code as u64, 0, 0);
    Ok(())
}

// The number of an answer, 0 for a register that was written.
pub fn number_of(answer: Result<(), BlankError>) -> u32
    ensures { result ≡ blanked_number answer }
{
    match answer {
        Ok(_) => 0,
        Err(error) => u32::from(error),
    }
}
