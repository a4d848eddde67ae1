// The exports of `host` to C: each is the function of that name there, with its clauses, and one call of it. `include/certis.h` declares
// them. A static library: it is one of the two modules of the archive, and no crate stands on it.
#![tactic(auto)]

ghost use Rattle.showing.specs.Shown.{Shows};
ghost use Rattle.checking_face.specs.Face.{TotalAt, CheckedAt};
ghost use Rattle.heading_face.specs.Face.{ToldAt, DerivedAt};
ghost use Rattle.account_face.specs.Face.{AccountAt};
ghost use Rattle.sheet_face.specs.Face.{OpenedAt, PostedAt};
ghost use Rattle.register_face.specs.Face.{BlankedAt, EnteredAt};
ghost use Rattle.portions_face.specs.Arriving.{PortionsOpenedAt, PortionAddedAt, PortionsClosedAt};

#[unsafe(no_mangle)]
pub extern "C" fn certis_total(file: &[u8], code: u32, day: u32, total: &mut u64) -> u32
    ensures { TotalAt file.now code day total.old result total.new }
{
    host::certis_total(file, code, day, total)
}

#[unsafe(no_mangle)]
pub extern "C" fn certis_check(
    file: &[u8],
    code: u32,
    day: u32,
    lines: &mut [u32],
    rules: &mut [u32],
    offsets: &mut [u32],
    total: &mut u64,
) -> u32
    ensures { CheckedAt file.now code day lines.old rules.old offsets.old total.old result lines.new rules.new offsets.new total.new }
{
    host::certis_check(file, code, day, lines, rules, offsets, total)
}

#[unsafe(no_mangle)]
pub extern "C" fn certis_tell(
    heading: &[u8],
    outcome: u32,
    standing: u32,
    kind: &mut u32,
    recipient: &mut u32,
) -> u32
    ensures { ToldAt heading.now outcome standing kind.old recipient.old result kind.new recipient.new }
{
    host::certis_tell(heading, outcome, standing, kind, recipient)
}

#[unsafe(no_mangle)]
pub extern "C" fn certis_derive(
    heading: &[u8],
    outcome: u32,
    standing: u32,
    number: u32,
    target: &mut [u8],
) -> u32
    ensures { DerivedAt heading.now outcome standing number target.old result target.new }
{
    host::certis_derive(heading, outcome, standing, number, target)
}

#[unsafe(no_mangle)]
pub extern "C" fn certis_account(
    prefix: &[u8],
    number: &[u8],
    first: &mut u32,
    second: &mut u32,
) -> u32
    ensures { AccountAt prefix.now number.now first.old second.old result first.new second.new }
{
    host::certis_account(prefix, number, first, second)
}

#[unsafe(no_mangle)]
pub extern "C" fn certis_sheet_open(codes: &[u32], turnovers: &mut [i64; 256]) -> u32
    ensures { OpenedAt codes.now turnovers.old result turnovers.new }
{
    host::certis_sheet_open(codes, turnovers)
}

#[unsafe(no_mangle)]
pub extern "C" fn certis_sheet_post(
    codes: &[u32],
    turnovers: &mut [i64; 256],
    file: &[u8],
    code: u32,
    day: u32,
) -> u32
    ensures { PostedAt codes.now turnovers.old file.now code day result turnovers.new }
{
    host::certis_sheet_post(codes, turnovers, file, code, day)
}

#[unsafe(no_mangle)]
pub extern "C" fn certis_turnover_text(turnover: i64, target: &mut [u8; 20]) -> usize
    ensures { Shows target.old turnover target.new result }
{
    host::certis_turnover_text(turnover, target)
}

#[unsafe(no_mangle)]
pub extern "C" fn certis_register_new(code: u32, target: &mut [u8]) -> u32
    ensures { BlankedAt code target.old result target.new }
{
    host::certis_register_new(code, target)
}

#[unsafe(no_mangle)]
pub extern "C" fn certis_register_enter(
    register: &[u8],
    file: &[u8],
    code: u32,
    day: u32,
    target: &mut [u8],
    written: &mut usize,
) -> u32
    ensures { EnteredAt register.now file.now code day target.old written.old result target.new written.new }
{
    host::certis_register_enter(register, file, code, day, target, written)
}

#[unsafe(no_mangle)]
pub extern "C" fn certis_open_portions(
    code: u32,
    day: u32,
    wide: &mut [u64; 38],
    length: &mut u64,
    narrow: &mut [u32; 33],
    frame: &mut [u32; 8],
    stood: &mut [u32; 1296],
    small: &mut [u8; 19],
    text: &mut [u8; 68],
) -> u32
    ensures { PortionsOpenedAt code day (record { wide = wide.old; length = length.old; narrow = narrow.old; frame = frame.old; small = small.old; text = text.old }) stood.old result (record { wide = wide.new; length = length.new; narrow = narrow.new; frame = frame.new; small = small.new; text = text.new }) stood.new }
{
    host::certis_open_portions(code, day, wide, length, narrow, frame, stood, small, text)
}

#[unsafe(no_mangle)]
pub extern "C" fn certis_add_portion(
    bytes: &[u8],
    wide: &mut [u64; 38],
    length: &mut u64,
    narrow: &mut [u32; 33],
    frame: &mut [u32; 8],
    lines: &mut [u32; 256],
    rules: &mut [u32; 256],
    offsets: &mut [u32; 256],
    stood: &mut [u32; 1296],
    small: &mut [u8; 19],
    text: &mut [u8; 68],
) -> u32
    ensures { PortionAddedAt bytes.now (record { numbers = record { wide = wide.old; length = length.old; narrow = narrow.old; frame = frame.old; small = small.old; text = text.old }; lines = lines.old; rules = rules.old; offsets = offsets.old; stood = stood.old }) result (record { numbers = record { wide = wide.new; length = length.new; narrow = narrow.new; frame = frame.new; small = small.new; text = text.new }; lines = lines.new; rules = rules.new; offsets = offsets.new; stood = stood.new }) }
{
    host::certis_add_portion(
        bytes, wide, length, narrow, frame, lines, rules, offsets, stood, small, text,
    )
}

#[unsafe(no_mangle)]
pub extern "C" fn certis_close_portions(
    wide: &mut [u64; 38],
    length: &mut u64,
    narrow: &mut [u32; 33],
    frame: &mut [u32; 8],
    lines: &mut [u32; 256],
    rules: &mut [u32; 256],
    offsets: &mut [u32; 256],
    stood: &mut [u32; 1296],
    small: &mut [u8; 19],
    text: &mut [u8; 68],
    first: &mut [u32; 256],
    second: &mut [u32; 256],
    third: &mut [u32; 256],
    total: &mut u64,
) -> u32
    ensures { PortionsClosedAt (record { numbers = record { wide = wide.old; length = length.old; narrow = narrow.old; frame = frame.old; small = small.old; text = text.old }; lines = lines.old; rules = rules.old; offsets = offsets.old; stood = stood.old }) first.old second.old third.old total.old result (record { numbers = record { wide = wide.new; length = length.new; narrow = narrow.new; frame = frame.new; small = small.new; text = text.new }; lines = lines.new; rules = rules.new; offsets = offsets.new; stood = stood.new }) first.new second.new third.new total.new }
{
    host::certis_close_portions(
        wide, length, narrow, frame, lines, rules, offsets, stood, small, text, first, second,
        third, total,
    )
}
