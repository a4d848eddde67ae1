// The C face of writing an output file: numbers and bytes only. Promised: 0, or the number of the refusal by document 02, and behind the
// pointers the file and its length, as `delivery` promises; a refusal leaves all there as it was. Stands on `delivery` for the job and on
// `results` for a length behind a pointer.
#![tactic(auto)]

ghost use Rattle.delivery_face.specs.Face.{DeliveredAt};

use results::leave;

pub fn deliver(
    items: &[u8],
    outcomes: &[u32],
    standings: &[u32],
    certis: u32,
    day: u32,
    start: u32,
    target: &mut [u8],
    written: &mut u64,
) -> u32
    ensures { DeliveredAt items.now (record { outcomes = outcomes.now; standings = standings.now; start = start }) certis day target.old written.old result target.new written.new }
{
    let answer = delivery::deliver(items, outcomes, standings, certis, day, start, target);
    leave(answer, written)
}
