// Prints the table of outcomes as deriving gives it (documents 01 and 02): for each input type and outcome the outgoing type and the codes,
// from the codes 1 2 0 (or 1 2 3 for a trilateral type), or the refusal; first for a direct sender, then for a third party. Then what
// telling answers for 45, and each of the refusals 11 to 17.
#![tactic(auto)]

use headings::{Code, Heading, ItemNo, item_types, reading};
use results::number_of;
use std::io;

// The least output number of a type's class.
fn least(kind: u32) -> u32 {
    if kind == 44 {
        return 9000001;
    }
    if item_types::is_priority(kind) {
        return 5000001;
    }
    1
}

fn heading(kind: u32, output: u32, third: u32) -> Heading {
    Heading {
        kind: kind,
        day: 20240304,
        first: Code(1),
        number: ItemNo(17),
        second: Code(2),
        output: ItemNo(output),
        third: Code(third),
    }
}

// The 54 bytes of a heading, each part of which fits its digits.
fn text_of(h: Heading) -> [u8; 54] {
    let mut text = [0u8; 54];
    let _written = heading_writer::write(h, &mut text);
    text
}

fn print_refused(rt: &impl Print, number: u32) -> io::Result<()> {
    println!(rt; "refused {number}")
}

// What deriving gives for one type and one outcome.
fn print_cell(
    rt: &impl Print,
    kind: u32,
    outcome: u32,
    standing: u32,
    third: u32,
) -> io::Result<()> {
    let text = text_of(heading(kind, 0, third));
    let mut out = [0u8; 54];
    let derived = outcomes::derive(&text, outcome, standing, ItemNo(least(kind)), &mut out);
    rt.write_all(&text[3..5])?;
    print!(rt; " {outcome} -> ")?;
    if let Err(error) = derived {
        return print_refused(rt, error.into());
    }
    rt.write_all(&out[3..5])?;
    rt.write_all(b" ")?;
    rt.write_all(&out[21..22])?;
    rt.write_all(b" ")?;
    rt.write_all(&out[37..38])?;
    rt.write_all(b" ")?;
    rt.write_all(&out[53..54])?;
    rt.write_all(b"\n")
}

fn print_row(rt: &impl Print, kind: u32, standing: u32, third: u32) -> io::Result<()> {
    for outcome in 1..=7 {
        print_cell(rt, kind, outcome, standing, third)?;
    }
    Ok(())
}

// What telling answers for one type, outcome and standing.
fn print_told(
    rt: &impl Print,
    kind: u32,
    outcome: u32,
    standing: u32,
    third: u32,
) -> io::Result<()> {
    let text = text_of(heading(kind, 0, third));
    let told = outcomes::tell(&text, outcome, standing);
    rt.write_all(b"telling ")?;
    rt.write_all(&text[3..5])?;
    print!(rt; " {outcome} by {standing}: ")?;
    match told {
        Ok(going) => println!(rt; "{} to {}", going.kind, going.recipient.0),
        Err(error) => print_refused(rt, error.into()),
    }
}

// What deriving refuses a heading with.
fn print_derived(
    rt: &impl Print,
    label: &str,
    kind: u32,
    output: u32,
    outcome: u32,
    standing: u32,
    number: u32,
) -> io::Result<()> {
    let text = text_of(heading(kind, output, 0));
    let mut out = [0u8; 54];
    let derived = outcomes::derive(&text, outcome, standing, ItemNo(number), &mut out);
    rt.print(label)?;
    print_refused(rt, number_of(derived))
}

fn print_short(rt: &impl Print) -> io::Result<()> {
    let text = text_of(heading(11, 0, 0));
    let mut out = [0u8; 53];
    rt.print("deriving into 53 bytes: ")?;
    print_refused(
        rt,
        number_of(outcomes::derive(&text, 1, 1, ItemNo(1), &mut out)),
    )?;
    rt.print("writing into 53 bytes: ")?;
    print_refused(
        rt,
        number_of(heading_writer::write(heading(11, 0, 0), &mut out)),
    )?;
    rt.print("writing type 100 into 53 bytes: ")?;
    print_refused(
        rt,
        number_of(heading_writer::write(heading(100, 0, 0), &mut out)),
    )
}

fn main(rt: HostRuntime) -> io::Result<()> {
    let rt = &rt;
    for kind in [1, 11, 21, 12, 13, 14, 32, 33, 55, 44] {
        print_row(rt, kind, 1, 0)?;
    }
    for kind in [35, 37, 45] {
        print_row(rt, kind, 1, 3)?;
    }
    for kind in [51, 96, 97, 98] {
        print_row(rt, kind, 1, 0)?;
    }
    rt.println("by a third party")?;
    for kind in [35, 37, 45] {
        print_row(rt, kind, 2, 3)?;
    }
    for kind in [11, 96] {
        print_row(rt, kind, 2, 0)?;
    }
    for standing in [1, 2] {
        for outcome in 4..=7 {
            print_told(rt, 45, outcome, standing, 3)?;
        }
    }
    print_told(rt, 45, 5, 0, 3)?;
    print_told(rt, 45, 5, 3, 3)?;
    print_told(rt, 45, 8, 2, 3)?;
    print_told(rt, 12, 6, 1, 0)?;
    print_told(rt, 12, 6, 2, 0)?;
    print_told(rt, 12, 2, 3, 0)?;
    rt.print("reading 5 bytes: ")?;
    print_refused(rt, reading::number_of(reading::read(b"HD:11")))?;
    print_derived(rt, "type 99: ", 99, 0, 1, 1, 1)?;
    print_derived(rt, "output number 1: ", 11, 1, 1, 1, 1)?;
    print_derived(rt, "35 with no third code: ", 35, 0, 1, 1, 1)?;
    print_derived(rt, "outcome 0: ", 11, 0, 0, 1, 1)?;
    print_derived(rt, "outcome 8: ", 11, 0, 8, 1, 1)?;
    print_derived(rt, "standing 0: ", 11, 0, 1, 0, 1)?;
    print_derived(rt, "standing 3 and outcome 2: ", 11, 0, 2, 3, 1)?;
    print_derived(rt, "outcome 9 by a third party: ", 11, 0, 9, 2, 1)?;
    print_derived(rt, "outcome 2 and number 0: ", 11, 0, 2, 1, 0)?;
    print_derived(rt, "number 0: ", 11, 0, 1, 1, 0)?;
    print_derived(rt, "number 5000001: ", 11, 0, 1, 1, 5000001)?;
    print_short(rt)
}
