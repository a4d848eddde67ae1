// The numbers of an accepted file added to a register that is known to be one: 27 to 29 of document 02, A2 and A9, or the new register in the
// target. Promised by specs/Steps.antt; that keys say what days and numbers say is proofs/Uses.antt. Stands on `gathering` for the keys,
// `merging` for their ranges, `register` for the bytes, and `listing` for its refusals, which an answer of entering can be.
#![tactic(auto)]

ghost use Rattle.std.specs.Prelude.{◌≡◌, true, ◌≤◌, length};
ghost use Rattle.item_reader.specs.Slips.{slips_from};
ghost use Rattle.item_reader.specs.Accepted.{Readable, Each};
ghost use Rattle.register.specs.Register.{is_register, register_of};
ghost use Rattle.register.specs.Entering.{used, kept};
ghost use Rattle.register.specs.Spans.{spans_of};
ghost use Rattle.gathering.specs.Keys.{Dated};
ghost use Rattle.adding.specs.declared.EnterError.TheVariants.{Refused};
ghost use Rattle.adding.specs.Answers.{unentered_number};
ghost use Rattle.adding.specs.Steps.{EntersKeys, EntersUses};

use listing::checking::Unchecked;
use register::bytes;

// Why a file is not entered.
#[derive(Clone, Copy, Debug, PartialEq, Eq)]
pub enum EnterError {
    Refused(Unchecked),
    NotRegister,
    OtherCode,
    DayBefore,
    HasFaults,
    UsedAlready,
    TooMany,
    TooShort,
}

impl From<Unchecked> for EnterError {
    ghost from_gives = { λ refusal error. error ≡ Refused refusal };

    fn from(refusal: Unchecked) -> EnterError {
        EnterError::Refused(refusal)
    }
}

// Document 02's number of a refusal.
impl From<EnterError> for u32 {
    ghost from_gives = { λ error number. number ≡ unentered_number error };

    fn from(error: EnterError) -> u32 {
        match error {
            EnterError::Refused(refusal) => u32::from(refusal),
            EnterError::NotRegister => 23,
            EnterError::OtherCode => 24,
            EnterError::DayBefore => 25,
            EnterError::HasFaults => 26,
            EnterError::UsedAlready => 27,
            EnterError::TooMany => 28,
            EnterError::TooShort => 29,
        }
    }
}

// The keys of a file, in order, added to the ranges that stay.
fn enter_keys(
    register: &[u8],
    keys: &[u64],
    code: u32,
    day: u32,
    target: &mut [u8],
) -> Result<usize, EnterError>
    requires { (is_register register.now ≡ true) × (length keys.now ≤ 185186) }
    ensures { EntersKeys (spans_of (kept day (register_of register.now).ranges)) keys.now code day target.old result target.new }
{
    let n = bytes::read(register, 11, 2) as usize;
    let mut starts = [0u64; 1024];
    let mut ends = [0u64; 1024];
    let k = gathering::keep(register, day, n, &mut starts, &mut ends);
    let mut froms = [0u64; 1025];
    let mut tos = [0u64; 1025];
    let Some(count) = merging::merge(keys, &starts[..k], &ends[..k], &mut froms, &mut tos) else {
        return Err(EnterError::UsedAlready);
    };
    let many = 1025 < count;
    if many {
        return Err(EnterError::TooMany);
    }
    if target.len() < 13 + 12 * (count - 1) {
        return Err(EnterError::TooShort);
    }
    Ok(register_writer::put_register(target, code, day, &froms[1..count], &tos[1..count]))
}

// The items of an accepted file. 54 * 185186 bytes are more than a file may have.
pub fn enter_items(
    register: &[u8],
    s: &[u8],
    code: u32,
    day: u32,
    target: &mut [u8],
) -> Result<usize, EnterError>
    requires { (is_register register.now ≡ true) × (length s.now ≤ 10000000) × Dated (used (slips_from 1 s.now)) × Each Readable (slips_from 1 s.now) }
    ensures { EntersUses (register_of register.now) (used (slips_from 1 s.now)) code day target.old result target.new }
{
    let mut keys = [0u64; 185186];
    let n = gathering::gather(s, &mut keys);
    gathering::put_in_order(&mut keys[..n]);
    enter_keys(register, &keys[..n], code, day, target)
}
