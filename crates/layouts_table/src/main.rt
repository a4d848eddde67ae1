// Runs every boundary of the layouts: of each line of data/lines the kind, of a field its class and what its own text says, and at
// a continuation what the field above says with its tail so far. What it must write was reasoned by hand from document 01.
#![tactic(auto)]

use anyhow::Context;
use fields::classes::Class;
use fields::kinds::Kind;
use fields::readings::Reading;
use figures::parts::{Halves, Number};
use judging::opening;
use judging::opening::Open;
use std::io;

// The last field: what its own text says, and the field as the pass keeps it open, with no marks but those of its tail so far.
#[derive(Clone, Copy)]
struct Owner {
    said: Reading,
    open: Open,
}

fn word(rt: &impl Print, w: &str) -> io::Result<()> {
    print!(rt; " {w}")
}

fn number(rt: &impl Print, n: u64) -> io::Result<()> {
    print!(rt; " {n}")
}

fn show_class(rt: &impl Print, class: Class, ident: usize) -> io::Result<()> {
    match class {
        Class::Money => word(rt, "money"),
        Class::Number => word(rt, "number"),
        Class::Range => word(rt, "range"),
        Class::Group => {
            word(rt, "group")?;
            number(rt, fields::classes::sum_group(ident) as u64)
        }
        Class::Account => word(rt, "account"),
        Class::Text => word(rt, "text"),
        Class::Free => word(rt, "free"),
    }
}

fn show_prefix(rt: &impl Print, good: bool) -> io::Result<()> {
    if good {
        word(rt, "good")
    } else {
        word(rt, "failing")
    }
}

fn show_number(rt: &impl Print, number: Number) -> io::Result<()> {
    match number {
        Number::Good => word(rt, "good"),
        Number::Failing => word(rt, "failing"),
        Number::Zero => word(rt, "zero"),
    }
}

fn show_halves(rt: &impl Print, h: Halves) -> io::Result<()> {
    show_prefix(rt, h.prefix)?;
    let number = h.number;
    show_number(rt, number)
}

fn show_reading(rt: &impl Print, said: Reading) -> io::Result<()> {
    match said {
        Reading::Broken => word(rt, "broken"),
        Reading::Plain => word(rt, "plain"),
        Reading::Paid(amount, day) => {
            word(rt, "paid")?;
            number(rt, amount.0)?;
            number(rt, day as u64)
        }
        Reading::Span(first, last) => {
            word(rt, "span")?;
            number(rt, first.0 as u64)?;
            number(rt, last.0 as u64)
        }
        Reading::Stated(count, sum) => {
            word(rt, "stated")?;
            number(rt, count as u64)?;
            number(rt, sum.0)
        }
        Reading::Party(halves) => show_halves(rt, halves),
    }
}

// An identifier's number is below 1296.
fn code_at(ident: usize) -> u8 {
    let codes = fields::classes::codes();
    if ident < 1296 { codes[ident] } else { 0 }
}

// The class that a number of the table stands for.
fn class_by(code: u8) -> Class {
    match code {
        1 => Class::Money,
        2 => Class::Number,
        3 => Class::Account,
        4 => Class::Text,
        5 => Class::Range,
        6 => Class::Group,
        _ => Class::Free,
    }
}

fn read(code: u8, line: &[u8]) -> Reading {
    if (code == 1) | (5 <= code) {
        return fields::readings::read_claim(code, line);
    }
    fields::readings::read_plain(code, line)
}

fn show_field(rt: &impl Print, ident: usize, line: &[u8]) -> io::Result<Owner> {
    let code = code_at(ident);
    let class = class_by(code);
    let said = read(code, line);
    word(rt, "field")?;
    show_class(rt, class, ident)?;
    show_reading(rt, said)?;
    let open = Open {
        no: 1,
        marks: 0,
        class: code,
        tail: 0,
    };
    Ok(Owner { said, open })
}

// One continuation more; data/lines has fewer than the test allows.
fn continued(open: Open, length: usize) -> Open {
    if open.tail < 16384 {
        return opening::with_low(open, true, length);
    }
    open
}

fn show_continuation(rt: &impl Print, owner: Owner, line: &[u8]) -> io::Result<Owner> {
    let said = owner.said;
    let before = owner.open;
    let open = continued(before, line.len());
    word(rt, "continuation")?;
    show_reading(rt, fields::readings::if_fits(open.marks == 0, said))?;
    Ok(Owner { said, open })
}

fn show_line(rt: &impl Print, owner: Owner, line: &[u8]) -> io::Result<Owner> {
    match fields::kinds::kind_of(line) {
        Kind::Heading => {
            word(rt, "heading")?;
            Ok(owner)
        }
        Kind::Continuation => show_continuation(rt, owner, line),
        Kind::Field(ident) => show_field(rt, ident, line),
        Kind::Other => {
            word(rt, "none")?;
            Ok(owner)
        }
    }
}

fn show_all(rt: &impl Print, s: &[u8]) -> io::Result<()> {
    let open = opening::none_open();
    let mut owner = Owner {
        said: Reading::Plain,
        open,
    };
    for (above, line) in s.split_inclusive(|&b| b == b'\n').enumerate() {
        rt.print(above as u64 + 1)?;
        let text = line.strip_suffix(b"\n").unwrap_or(line);
        owner = show_line(rt, owner, text)?;
        rt.println("")?;
    }
    Ok(())
}

fn main(rt: HostRuntime) -> anyhow::Result<()> {
    let mut input = [0u8; 16384];
    let n = data_file::load(&rt, b"lines", &mut input).context("reading lines")?;
    show_all(&rt, &input[..n])?;
    Ok(())
}
