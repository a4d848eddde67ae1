// The export of `delivery_host` to C, as `host_c` has those of `host`: the function of that name there, with its clauses, and one call of
// it. It is compiled as a module of its own: what the loop of checking calls at one place alone is inlined there, and delivering calls some
// of it too.
#![tactic(auto)]

ghost use Rattle.delivery_face.specs.Face.{DeliveredAt};

#[unsafe(no_mangle)]
pub extern "C" fn certis_deliver(
    items: &[u8],
    outcomes: &[u32],
    standings: &[u32],
    certis: u32,
    day: u32,
    start: u32,
    target: &mut [u8],
    written: &mut u64,
) -> u32
    ensures { DeliveredAt items.now (record { outcomes = outcomes.now; standings = standings.now; start = start }) certis day target.old written.old result target.new written.new }
{
    delivery_host::certis_deliver(
        items, outcomes, standings, certis, day, start, target, written,
    )
}
