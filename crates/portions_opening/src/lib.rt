// A file is to come in portions, for a submitter's code and an accounting day. `open` is an open job: it takes all numbers, and refuses
// with 1 or 2. Promised: what specs/Opening.antt says. Stands on `portions` for the state, on `going` for its beginning, and on `listing`
// for the terms.
#![tactic(auto)]

ghost use Rattle.std.specs.Prelude.{◌≡◌};
ghost use Rattle.portions_opening.specs.Opening.{Opens, unopened_number, BegunAs};

use listing::checking;
use portions::Portions;

// Why no state is opened.
#[derive(Clone, Copy, Debug, PartialEq, Eq)]
pub enum OpenError {
    BadCode,
    BadDay,
}

// The number of a refusal.
impl From<OpenError> for u32 {
    ghost from_gives = { λ error number. number ≡ unopened_number error };

    fn from(error: OpenError) -> u32 {
        match error {
            OpenError::BadCode => 1,
            OpenError::BadDay => 2,
        }
    }
}

// Nothing has come.
fn begun(code: u32, day: u32) -> Portions
    ensures { BegunAs code day result }
{
    Portions {
        going: going::start(),
        code,
        day,
        bytes: 0,
        seen: false,
        takes: true,
    }
}

// The state to go on with. The array of identifiers is cleared where nothing is refused.
pub fn open(code: u32, day: u32, stood: &mut [u32; 1296]) -> Result<Portions, OpenError>
    ensures { Opens code day stood.old result stood.new }
{
    if !checking::is_code(code) {
        return Err(OpenError::BadCode);
    }
    if !checking::is_accounting_day(day) {
        return Err(OpenError::BadDay);
    }
    *stood = shutting::unseen();
    Ok(begun(code, day))
}
