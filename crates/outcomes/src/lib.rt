// Outcomes and outgoing headings: the heading that an outcome derives from a heading's text, for a sender of a standing (1 direct,
// 2 third party). Two open jobs over two steps: which outgoing type and codes a heading and an outcome give (`turning`), then the output
// number and the 54 bytes (`issue`). `tell` answers the outgoing type and the recipient before a number is spent, `derive` writes.
// Promised, for every text, outcome, standing, number and target: they refuse by document 01's numbers, 11 to 14 and 11 to 16, or
// tell of and write the heading that the tables of `outcome_tables` give, and a refusal changes no lent byte. Stands on these two, on reading
// and writing of `headings`, on the layouts of `text`, and on `laws`.
#![tactic(auto)]

ghost use Rattle.std.specs.Prelude.{◌≡◌, length, Some, IfOk};
ghost use Rattle.laws.specs.Refusals.{first};
ghost use Rattle.headings.specs.Reading.{heading_of};
ghost use Rattle.turning.specs.Turning.{turned};
ghost use Rattle.outcomes.specs.declared.TellError.TheVariants.{Turn};
ghost use Rattle.outcomes.specs.declared.DeriveError.TheVariants.{Tell};
ghost use Rattle.outcomes.specs.Deriving.{numbered, issue_refusals, issued_target, untold_number, told_number, tell_refusals, Tells, underived_number, derived_number, Derives};

use heading_writer::put_heading;
use headings::reading::read;
use headings::{Code, Heading, ItemNo};
use outcome_tables::in_class;
use turning::{TurnError, turn};

// The outgoing type and the recipient's code.
#[derive(Clone, Copy)]
pub struct Going {
    pub kind: u32,
    pub recipient: Code,
}

// Why nothing is told: the text is no heading, or the first step refuses it.
#[derive(Clone, Copy, Debug, PartialEq, Eq)]
pub enum TellError {
    NoHeading,
    Turn(TurnError),
}

impl From<TurnError> for TellError {
    ghost from_gives = { λ e t. t ≡ Turn e };

    fn from(error: TurnError) -> TellError {
        TellError::Turn(error)
    }
}

// A refusal's number by document 01.
impl From<TellError> for u32 {
    ghost from_gives = { λ e n. n ≡ untold_number e };

    fn from(error: TellError) -> u32 {
        match error {
            TellError::NoHeading => 11,
            TellError::Turn(e) => e.into(),
        }
    }
}

// Why nothing is derived: nothing can be told, or the second step refuses.
#[derive(Clone, Copy, Debug, PartialEq, Eq)]
pub enum DeriveError {
    Tell(TellError),
    NotInClass,
    TooShort,
}

impl From<TellError> for DeriveError {
    ghost from_gives = { λ e d. d ≡ Tell e };

    fn from(error: TellError) -> DeriveError {
        DeriveError::Tell(error)
    }
}

// A refusal's number by document 01.
impl From<DeriveError> for u32 {
    ghost from_gives = { λ e n. n ≡ underived_number e };

    fn from(error: DeriveError) -> u32 {
        match error {
            DeriveError::Tell(e) => e.into(),
            DeriveError::NotInClass => 15,
            DeriveError::TooShort => 16,
        }
    }
}

// A heading with another output number.
fn numbered(h: Heading, n: ItemNo) -> Heading
    ensures { result ≡ numbered h n }
{
    Heading { output: n, ..h }
}

// The first step, of a text: the heading that it says, and the one that goes out.
#[tactic(auto, unfolding(crate::specs::Deriving::tell_refusals))]
fn turn_text(text: &[u8], outcome: u32, standing: u32) -> Result<(Heading, Heading), TellError>
    ensures number { told_number result ≡ first (tell_refusals text.now outcome standing) }
    ensures said { IfOk result (λ both. heading_of text.now ≡ Some both.0) }
    ensures goes { IfOk result (λ both. both.1 ≡ turned both.0 outcome) }
{
    let h = read(text).ok_or(TellError::NoHeading)?;
    let g = turn(h, outcome, standing)?;
    Ok((h, g))
}

// The second step: the output number, by the class of the input type, and the 54 bytes.
#[tactic(auto, unfolding(crate::specs::Deriving::issued_target))]
pub fn issue(kind: u32, g: Heading, number: ItemNo, target: &mut [u8]) -> Result<(), DeriveError>
    ensures answer { derived_number result ≡ first (issue_refusals kind number (length target.old)) }
    ensures after { target.new ≡ issued_target kind g number target.old }
{
    if !in_class(kind, number) {
        return Err(DeriveError::NotInClass);
    }
    if target.len() < 54 {
        return Err(DeriveError::TooShort);
    }
    put_heading(target, 0, numbered(g, number));
    Ok(())
}

// Tells the type and the recipient of the heading that would go out for a heading text, an outcome and the sender's standing.
pub fn tell(text: &[u8], outcome: u32, standing: u32) -> Result<Going, TellError>
    ensures { Tells text.now outcome standing result }
{
    let (_, g) = turn_text(text, outcome, standing)?;
    Ok(Going {
        kind: g.kind,
        recipient: g.second,
    })
}

// Writes the heading that goes out for a heading text, an outcome, the sender's standing and an output number, or leaves the target
// as it was.
pub fn derive(
    text: &[u8],
    outcome: u32,
    standing: u32,
    number: ItemNo,
    target: &mut [u8],
) -> Result<(), DeriveError>
    ensures { Derives text.now outcome standing number target.old result target.new }
{
    let (h, g) = turn_text(text, outcome, standing)?;
    issue(h.kind, g, number, target)
}
