// The C face of writing an output file, as `host` is that of the other jobs: one call of `delivery_face`, which proves the promise.
// `delivery_host_c` exports it.
#![tactic(auto)]

ghost use Rattle.delivery_face.specs.Face.{DeliveredAt};

pub fn certis_deliver(
    items: &[u8],
    outcomes: &[u32],
    standings: &[u32],
    certis: u32,
    day: u32,
    start: u32,
    target: &mut [u8],
    written: &mut u64,
) -> u32
    ensures { DeliveredAt items.now (record { outcomes = outcomes.now; standings = standings.now; start = start }) certis day target.old written.old result target.new written.new }
{
    delivery_face::deliver(
        items, outcomes, standings, certis, day, start, target, written,
    )
}
