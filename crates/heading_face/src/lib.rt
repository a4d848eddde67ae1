// The C face of telling and deriving: numbers and bytes only. Promised: 0, or the number of the refusal by document 01, and behind the
// pointers what `outcomes` promises; a refusal leaves all there as it was. Stands on `outcomes` for the jobs and on `results` for an
// answer's number.
#![tactic(auto)]

ghost use Rattle.heading_face.specs.Face.{ToldAt, DerivedAt};

use headings::ItemNo;
use results::number_of;

pub fn tell(heading: &[u8], outcome: u32, standing: u32, kind: &mut u32, recipient: &mut u32) -> u32
    ensures { ToldAt heading.now outcome standing kind.old recipient.old result kind.new recipient.new }
{
    match outcomes::tell(heading, outcome, standing) {
        Ok(going) => {
            *kind = going.kind;
            *recipient = going.recipient.0;
            0
        },
        Err(error) => error.into(),
    }
}

pub fn derive(heading: &[u8], outcome: u32, standing: u32, number: u32, target: &mut [u8]) -> u32
    ensures { DerivedAt heading.now outcome standing number target.old result target.new }
{
    number_of(outcomes::derive(heading, outcome, standing, ItemNo(number), target))
}
