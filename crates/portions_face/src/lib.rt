// The C face of a file that comes in portions: its state is numbers in the caller's arrays. Promised: 0, or the number of the refusal by
// document 01 or 02; however a file is cut, closing leaves what checking the whole leaves with room for 256 (`cut_anyhow`,
// proofs/Arrived.antt). Stands on `portions` and `answering` for the jobs, on `stored` for the state, on `results` for a total behind a
// pointer, and on `checking_face` for what checking leaves.
#![tactic(auto)]

ghost use Rattle.portions_face.specs.Arriving.{PortionsOpenedAt, PortionAddedAt, PortionsClosedAt};

use results::leave;

// Opens a file that is to come in portions; of `struct certis_portions` the three lists are not asked for.
pub fn open(
    code: u32,
    day: u32,
    wide: &mut [u64; 38],
    length: &mut u64,
    narrow: &mut [u32; 33],
    frame: &mut [u32; 8],
    stood: &mut [u32; 1296],
    small: &mut [u8; 19],
    text: &mut [u8; 68],
) -> u32
    ensures { PortionsOpenedAt code day (record { wide = wide.old; length = length.old; narrow = narrow.old; frame = frame.old; small = small.old; text = text.old }) stood.old result (record { wide = wide.new; length = length.new; narrow = narrow.new; frame = frame.new; small = small.new; text = text.new }) stood.new }
{
    match portions_opening::open(code, day, stood) {
        Ok(state) => {
            stored::store(true, state, wide, length, narrow, frame, small, text);
            0
        }
        Err(error) => u32::from(error),
    }
}

// A portion comes.
pub fn add(
    bytes: &[u8],
    wide: &mut [u64; 38],
    length: &mut u64,
    narrow: &mut [u32; 33],
    frame: &mut [u32; 8],
    lines: &mut [u32; 256],
    rules: &mut [u32; 256],
    offsets: &mut [u32; 256],
    stood: &mut [u32; 1296],
    small: &mut [u8; 19],
    text: &mut [u8; 68],
) -> u32
    ensures { PortionAddedAt bytes.now (record { numbers = record { wide = wide.old; length = length.old; narrow = narrow.old; frame = frame.old; small = small.old; text = text.old }; lines = lines.old; rules = rules.old; offsets = offsets.old; stood = stood.old }) result (record { numbers = record { wide = wide.new; length = length.new; narrow = narrow.new; frame = frame.new; small = small.new; text = text.new }; lines = lines.new; rules = rules.new; offsets = offsets.new; stood = stood.new }) }
{
    let before = stored::state_in(wide, *length, narrow, frame, small, text);
    match portions_adding::add(bytes, before, lines, rules, offsets, stood) {
        Ok(state) => {
            stored::store(true, state, wide, length, narrow, frame, small, text);
            0
        }
        Err(refusal) => u32::from(refusal),
    }
}

// No more comes: `first`, `second` and `third` take the line numbers, the rules and the offsets.
pub fn close(
    wide: &mut [u64; 38],
    length: &mut u64,
    narrow: &mut [u32; 33],
    frame: &mut [u32; 8],
    lines: &mut [u32; 256],
    rules: &mut [u32; 256],
    offsets: &mut [u32; 256],
    stood: &mut [u32; 1296],
    small: &mut [u8; 19],
    text: &mut [u8; 68],
    first: &mut [u32; 256],
    second: &mut [u32; 256],
    third: &mut [u32; 256],
    total: &mut u64,
) -> u32
    ensures { PortionsClosedAt (record { numbers = record { wide = wide.old; length = length.old; narrow = narrow.old; frame = frame.old; small = small.old; text = text.old }; lines = lines.old; rules = rules.old; offsets = offsets.old; stood = stood.old }) first.old second.old third.old total.old result (record { numbers = record { wide = wide.new; length = length.new; narrow = narrow.new; frame = frame.new; small = small.new; text = text.new }; lines = lines.new; rules = rules.new; offsets = offsets.new; stood = stood.new }) first.new second.new third.new total.new }
{
    let before = stored::state_in(wide, *length, narrow, frame, small, text);
    let closed = answering::close(before, lines, rules, offsets, stood, first, second, third);
    let refusal = leave(closed.answer, total);
    stored::shut_frame(refusal != 18, frame);
    refusal
}
