// The first step of telling and deriving: which outgoing type and codes a heading and an outcome give, for a sender of a standing. Promised,
// for every heading, outcome and standing: it refuses by document 01's numbers, 12 to 14, or gives the heading of specs/Turning.antt. Stands
// on `outcome_tables` for the tables, on the types and the rules of `headings`, and on `laws`.
#![tactic(auto)]

ghost use Rattle.std.specs.Prelude.{◌≡◌};
ghost use Rattle.laws.specs.Refusals.{first};
ghost use Rattle.turning.specs.Turning.{barred_to, is_outcome, is_standing, withheld, coded, turned, turn_refusals, refusal_number, turn_number, turn_heading};

use headings::Heading;
use headings::head_rules::{breaks_fourteen, breaks_ten, breaks_thirteen};
use headings::item_types::is_trilateral;
use outcome_tables::{Codes, arranged, outgoing};

// Why no heading goes out.
#[derive(Clone, Copy, Debug, PartialEq, Eq)]
pub enum TurnError {
    Barred,
    NotOutcome,
    Nowhere,
}

// A refusal's number by document 01.
impl From<TurnError> for u32 {
    ghost from_gives = { λ e n. n ≡ refusal_number e };

    fn from(error: TurnError) -> u32 {
        match error {
            TurnError::Barred => 12,
            TurnError::NotOutcome => 13,
            TurnError::Nowhere => 14,
        }
    }
}

// A heading with another type and other codes.
fn coded(kind: u32, cs: Codes, h: Heading) -> Heading
    ensures { result ≡ coded kind cs h }
{
    Heading {
        kind,
        first: cs.first,
        second: cs.second,
        third: cs.third,
        ..h
    }
}

// Whether a heading is a 51, or breaks a rule that deriving asks it to keep, or is none that a third party may send.
#[tactic(auto, unfolding(crate::specs::Turning::barred, crate::specs::Turning::barred_to))]
fn is_barred(h: Heading, standing: u32) -> bool
    ensures { result ≡ barred_to standing h }
{
    h.kind == 51
        || breaks_ten(h)
        || breaks_thirteen(h)
        || breaks_fourteen(h)
        || (standing == 2 && !is_trilateral(h.kind))
}

fn is_outcome(outcome: u32) -> bool
    ensures { result ≡ is_outcome outcome }
{
    (1..=7).contains(&outcome)
}

fn is_standing(standing: u32) -> bool
    ensures { result ≡ is_standing standing }
{
    standing == 1 || standing == 2
}

// Whether an entry of the table is kept from a direct sender: 05 and 69.
fn is_withheld(standing: u32, kind: u32, outcome: u32) -> bool
    ensures { result ≡ withheld standing kind outcome }
{
    standing == 1 && kind == 45 && (outcome == 5 || outcome == 6)
}

// The first step: the outgoing type and codes.
#[tactic(auto, unfolding(crate::specs::Turning::turned))]
pub fn turn(h: Heading, outcome: u32, standing: u32) -> Result<Heading, TurnError>
    ensures number { turn_number result ≡ first (turn_refusals h outcome standing) }
    ensures heading { turn_heading result (turned h outcome) ≡ turned h outcome }
{
    if is_barred(h, standing) {
        return Err(TurnError::Barred);
    }
    if !is_outcome(outcome) {
        return Err(TurnError::NotOutcome);
    }
    let kind = outgoing(h.kind, outcome);
    if !is_standing(standing) {
        return Err(TurnError::NotOutcome);
    }
    if kind == 0 || is_withheld(standing, h.kind, outcome) {
        return Err(TurnError::Nowhere);
    }
    let cs = arranged(is_trilateral(h.kind), outcome, h.first, h.second, h.third);
    Ok(coded(kind, cs, h))
}
