// The C face: numbers and bytes only. Each function answers 0, or the number of the refusal by document 01 or 02, and a refusal leaves
// everything behind the pointers as it was: a total or an answer is stored where nothing is refused, and is never loaded. The promises
// are those of the jobs below, said with numbers, and each function is one call of the crate that proves them: `checking_face`,
// `heading_face`, `account_face`, `sheet_face`, `register_face`, `portions_face`, and `showing` for a turnover's text. `host_c` exports
// them.
#![tactic(auto)]

ghost use Rattle.showing.specs.Shown.{Shows};
ghost use Rattle.checking_face.specs.Face.{TotalAt, CheckedAt};
ghost use Rattle.heading_face.specs.Face.{ToldAt, DerivedAt};
ghost use Rattle.account_face.specs.Face.{AccountAt};
ghost use Rattle.sheet_face.specs.Face.{OpenedAt, PostedAt};
ghost use Rattle.register_face.specs.Face.{BlankedAt, EnteredAt};
ghost use Rattle.portions_face.specs.Arriving.{PortionsOpenedAt, PortionAddedAt, PortionsClosedAt};

pub fn certis_total(file: &[u8], code: u32, day: u32, total: &mut u64) -> u32
    ensures { TotalAt file.now code day total.old result total.new }
{
    checking_face::total(file, code, day, total)
}

pub fn certis_check(
    file: &[u8],
    code: u32,
    day: u32,
    lines: &mut [u32],
    rules: &mut [u32],
    offsets: &mut [u32],
    total: &mut u64,
) -> u32
    ensures { CheckedAt file.now code day lines.old rules.old offsets.old total.old result lines.new rules.new offsets.new total.new }
{
    checking_face::check(file, code, day, lines, rules, offsets, total)
}

pub fn certis_tell(
    heading: &[u8],
    outcome: u32,
    standing: u32,
    kind: &mut u32,
    recipient: &mut u32,
) -> u32
    ensures { ToldAt heading.now outcome standing kind.old recipient.old result kind.new recipient.new }
{
    heading_face::tell(heading, outcome, standing, kind, recipient)
}

pub fn certis_derive(
    heading: &[u8],
    outcome: u32,
    standing: u32,
    number: u32,
    target: &mut [u8],
) -> u32
    ensures { DerivedAt heading.now outcome standing number target.old result target.new }
{
    heading_face::derive(heading, outcome, standing, number, target)
}

// Behind `first` stands the answer for the prefix, behind `second` that for the number.
pub fn certis_account(prefix: &[u8], number: &[u8], first: &mut u32, second: &mut u32) -> u32
    ensures { AccountAt prefix.now number.now first.old second.old result first.new second.new }
{
    account_face::check(prefix, number, first, second)
}

// A new sheet for at most 64 participants: of participant i, [4 * i] is the debit, [4 * i + 1] the credit, and the next two the same on
// the second sheet.
pub fn certis_sheet_open(codes: &[u32], turnovers: &mut [i64; 256]) -> u32
    ensures { OpenedAt codes.now turnovers.old result turnovers.new }
{
    sheet_face::open(codes, turnovers)
}

// Posts a file on an open sheet; the list is the one that it was opened with.
pub fn certis_sheet_post(
    codes: &[u32],
    turnovers: &mut [i64; 256],
    file: &[u8],
    code: u32,
    day: u32,
) -> u32
    ensures { PostedAt codes.now turnovers.old file.now code day result turnovers.new }
{
    sheet_face::post(codes, turnovers, file, code, day)
}

// Writes a turnover with its sign at the front of 20 bytes, and answers how many it took. It refuses nothing.
pub fn certis_turnover_text(turnover: i64, target: &mut [u8; 20]) -> usize
    ensures { Shows target.old turnover target.new result }
{
    showing::show(turnover, target)
}

// A new register: 13 bytes.
pub fn certis_register_new(code: u32, target: &mut [u8]) -> u32
    ensures { BlankedAt code target.old result target.new }
{
    register_face::blank(code, target)
}

pub fn certis_register_enter(
    register: &[u8],
    file: &[u8],
    code: u32,
    day: u32,
    target: &mut [u8],
    written: &mut usize,
) -> u32
    ensures { EnteredAt register.now file.now code day target.old written.old result target.new written.new }
{
    register_face::enter(register, file, code, day, target, written)
}

// Opens a file that is to come in portions; of `struct certis_portions` the three lists are not asked for.
pub fn certis_open_portions(
    code: u32,
    day: u32,
    wide: &mut [u64; 38],
    length: &mut u64,
    narrow: &mut [u32; 33],
    frame: &mut [u32; 8],
    stood: &mut [u32; 1296],
    small: &mut [u8; 19],
    text: &mut [u8; 68],
) -> u32
    ensures { PortionsOpenedAt code day (record { wide = wide.old; length = length.old; narrow = narrow.old; frame = frame.old; small = small.old; text = text.old }) stood.old result (record { wide = wide.new; length = length.new; narrow = narrow.new; frame = frame.new; small = small.new; text = text.new }) stood.new }
{
    portions_face::open(code, day, wide, length, narrow, frame, stood, small, text)
}

// A portion comes.
pub fn certis_add_portion(
    bytes: &[u8],
    wide: &mut [u64; 38],
    length: &mut u64,
    narrow: &mut [u32; 33],
    frame: &mut [u32; 8],
    lines: &mut [u32; 256],
    rules: &mut [u32; 256],
    offsets: &mut [u32; 256],
    stood: &mut [u32; 1296],
    small: &mut [u8; 19],
    text: &mut [u8; 68],
) -> u32
    ensures { PortionAddedAt bytes.now (record { numbers = record { wide = wide.old; length = length.old; narrow = narrow.old; frame = frame.old; small = small.old; text = text.old }; lines = lines.old; rules = rules.old; offsets = offsets.old; stood = stood.old }) result (record { numbers = record { wide = wide.new; length = length.new; narrow = narrow.new; frame = frame.new; small = small.new; text = text.new }; lines = lines.new; rules = rules.new; offsets = offsets.new; stood = stood.new }) }
{
    portions_face::add(
        bytes, wide, length, narrow, frame, lines, rules, offsets, stood, small, text,
    )
}

// No more comes: `first`, `second` and `third` take the line numbers, the rules and the offsets.
pub fn certis_close_portions(
    wide: &mut [u64; 38],
    length: &mut u64,
    narrow: &mut [u32; 33],
    frame: &mut [u32; 8],
    lines: &mut [u32; 256],
    rules: &mut [u32; 256],
    offsets: &mut [u32; 256],
    stood: &mut [u32; 1296],
    small: &mut [u8; 19],
    text: &mut [u8; 68],
    first: &mut [u32; 256],
    second: &mut [u32; 256],
    third: &mut [u32; 256],
    total: &mut u64,
) -> u32
    ensures { PortionsClosedAt (record { numbers = record { wide = wide.old; length = length.old; narrow = narrow.old; frame = frame.old; small = small.old; text = text.old }; lines = lines.old; rules = rules.old; offsets = offsets.old; stood = stood.old }) first.old second.old third.old total.old result (record { numbers = record { wide = wide.new; length = length.new; narrow = narrow.new; frame = frame.new; small = small.new; text = text.new }; lines = lines.new; rules = rules.new; offsets = offsets.new; stood = stood.new }) first.new second.new third.new total.new }
{
    portions_face::close(
        wide, length, narrow, frame, lines, rules, offsets, stood, small, text, first, second,
        third, total,
    )
}
