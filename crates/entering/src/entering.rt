// Entering a file in a register.
ghost use Rattle.std.specs.Prelude.{◌≡◌};
ghost use Rattle.adding.specs.Answers.{entered_number};
ghost use Rattle.entering.specs.Jobs.{Enters};

use adding::{EnterError, enter_items};
use listing::checking;
use register::bytes;

pub fn enter(
    register: &[u8],
    file: &[u8],
    code: u32,
    day: u32,
    target: &mut [u8],
) -> Result<usize, EnterError>
    ensures { Enters register.now file.now code day target.old result target.new }
{
    let faults = checking::total(file, code, day)?;
    if !register_reader::is_register(register) {
        return Err(EnterError::NotRegister);
    }
    if bytes::read(register, 5, 2) != code {
        return Err(EnterError::OtherCode);
    }
    if day < bytes::read(register, 7, 4) {
        return Err(EnterError::DayBefore);
    }
    if faults != 0 {
        return Err(EnterError::HasFaults);
    }
    // What checking takes has the mark as its last byte.
    let k = file.len() - 1;
    enter_items(register, &file[..k], code, day, target)
}

// Document 02's number of an answer, 0 for a register that was written.
pub fn number_of(answer: Result<usize, EnterError>) -> u32
    ensures { result ≡ entered_number answer }
{
    match answer {
        Ok(_) => 0,
        Err(error) => u32::from(error),
    }
}
