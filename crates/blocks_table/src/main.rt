// Runs items with faults of every kind through the account, and prints the rules that each item breaks, at its heading or at its
// first KC. What is right stands in `stdout`, reasoned by hand from documents 01 and 02. Submitter 300, accounting day 4 March 2024.
#![tactic(auto)]

use account::Outline;
use blocks::Block;
use blocks::marks::{MARK_8, MARK_9, flag};
use headings::{Amount, Code, Heading, ItemNo};
use own_rules::Basis;
use rules::{Digest, First, Payment, Range, Statement, Sum, Sums};
use std::io;

fn heading(kind: u32, number: u32) -> Heading {
    with_parts(kind, number, 300, 710, 0, 0)
}

fn on_day(kind: u32, number: u32, day: u32) -> Heading {
    Heading {
        day,
        ..heading(kind, number)
    }
}

// A heading with codes and an output number of its own.
fn with_parts(kind: u32, number: u32, first: u32, second: u32, output: u32, third: u32) -> Heading {
    Heading {
        kind,
        day: 20240304,
        first: Code(first),
        number: ItemNo(number),
        second: Code(second),
        output: ItemNo(output),
        third: Code(third),
    }
}

fn paid(amount: u64, day: u32) -> First<Payment> {
    First::Says(Payment {
        amount: Amount(amount),
        day,
    })
}

fn no_sums() -> Sums {
    Sums {
        groups: [Sum {
            stated: First::Missing,
        }; 10],
    }
}

fn with_sum(s: Sums, d: usize, stated: First<Statement>) -> Sums {
    let mut next = s;
    if d < 10 {
        next.groups[d] = Sum { stated };
    }
    next
}

fn says(s: Sums, d: usize, count: u32, sum: u64) -> Sums {
    with_sum(
        s,
        d,
        First::Says(Statement {
            count,
            sum: Amount(sum),
        }),
    )
}

fn of_head(head: Option<Heading>, kc: First<Payment>) -> Digest {
    Digest {
        head,
        kc,
        span: First::Missing,
        sums: no_sums(),
    }
}

fn item(h: Heading, kc: First<Payment>) -> Digest {
    of_head(Some(h), kc)
}

// A payment of 100 on the accounting day.
fn payment(h: Heading) -> Digest {
    item(h, paid(100, 20240304))
}

fn closing(h: Heading, span: First<Range>, sums: Sums) -> Digest {
    Digest {
        head: Some(h),
        kc: paid(999, 20240304),
        span,
        sums,
    }
}

fn runs(first: u32, last: u32) -> First<Range> {
    First::Says(Range {
        first: ItemNo(first),
        last: ItemNo(last),
    })
}

// Rules 8 and 9, where the heading and the first KC read.
fn kc_marks(basis: Basis, head: Option<Heading>, kc: First<Payment>) -> u64 {
    match (head, kc) {
        (Some(h), First::Says(paid)) => {
            flag(own_rules::breaks_eight(basis, h.kind, paid.day), MARK_8)
                + flag(own_rules::breaks_nine(h.kind, paid.amount), MARK_9)
        }
        _ => 0,
    }
}

fn print_rules(rt: &impl Print, marks: u64) -> io::Result<()> {
    let mut left = marks;
    for r in 0..40 {
        if left % 2 == 1 {
            print!(rt; " {r}")?;
        }
        left = left / 2;
    }
    Ok(())
}

// The marks of 30 to 39, where the item is a 51.
fn group_marks(b: Block, it: Digest) -> u64 {
    if account::closes_block(it.head) {
        blocks::groups::group_marks(b.counts, b.sums, it.sums.groups)
    } else {
        0
    }
}

// One item more: its number and what it breaks are printed, and the account goes on.
fn tell(rt: &impl Print, basis: Basis, b: Block, no: u64, it: Digest) -> io::Result<Block> {
    let mut next = b;
    let outline = Outline {
        head: it.head,
        kc: it.kc,
        span: it.span,
    };
    account::count_in(&mut next.counts, &mut next.sums, it.head, it.kc);
    let marks = lending::step(&mut next.course, outline, basis);
    print!(rt; "{no}:")?;
    print_rules(rt, kc_marks(basis, it.head, it.kc))?;
    print_rules(rt, marks)?;
    print_rules(rt, group_marks(b, it))?;
    rt.println("")?;
    Ok(next)
}

// A block with no fault: the 13 is added as it stands, and an unreadable heading stops nothing.
fn clean(rt: &impl Print, basis: Basis, start: Block) -> io::Result<Block> {
    let mut b = tell(
        rt,
        basis,
        start,
        1,
        item(heading(11, 1), paid(12500, 20240304)),
    )?;
    b = tell(rt, basis, b, 2, item(heading(13, 2), paid(2500, 20240304)))?;
    b = tell(rt, basis, b, 3, of_head(None, paid(7, 20240304)))?;
    b = tell(
        rt,
        basis,
        b,
        4,
        payment(with_parts(37, 3, 300, 710, 0, 555)),
    )?;
    let sums = says(says(no_sums(), 1, 2, 15000), 3, 1, 100);
    tell(rt, basis, b, 5, closing(heading(51, 0), runs(1, 3), sums))
}

// The rules of one heading, and 18 to 20 at headings that are no 51.
fn headings_of_all_kinds(rt: &impl Print, basis: Basis, start: Block) -> io::Result<Block> {
    let mut b = tell(rt, basis, start, 6, item(heading(99, 1), First::Missing))?;
    b = tell(rt, basis, b, 7, payment(on_day(11, 2, 20240222)))?;
    b = tell(rt, basis, b, 8, payment(on_day(11, 3, 20240223)))?;
    b = tell(rt, basis, b, 9, payment(on_day(11, 4, 20240305)))?;
    b = tell(rt, basis, b, 10, payment(on_day(11, 5, 20230229)))?;
    b = tell(rt, basis, b, 11, payment(with_parts(11, 6, 301, 710, 0, 0)))?;
    b = tell(rt, basis, b, 12, payment(with_parts(11, 7, 300, 710, 7, 0)))?;
    b = tell(rt, basis, b, 13, payment(with_parts(11, 8, 300, 0, 0, 0)))?;
    b = tell(rt, basis, b, 14, payment(with_parts(11, 9, 300, 710, 0, 5)))?;
    tell(rt, basis, b, 15, payment(heading(35, 10)))
}

fn more_headings(rt: &impl Print, basis: Basis, start: Block) -> io::Result<Block> {
    let mut b = tell(rt, basis, start, 16, item(heading(11, 11), First::Missing))?;
    b = tell(rt, basis, b, 17, item(heading(11, 12), First::Unread))?;
    b = tell(rt, basis, b, 18, payment(heading(11, 14)))?;
    b = tell(rt, basis, b, 19, payment(heading(11, 0)))?;
    b = tell(rt, basis, b, 20, payment(heading(11, 1)))?;
    b = tell(rt, basis, b, 21, payment(heading(21, 2)))?;
    let sums = with_sum(
        says(says(no_sums(), 1, 11, 1100), 3, 1, 100),
        2,
        First::Unread,
    );
    tell(
        rt,
        basis,
        b,
        22,
        closing(heading(51, 3), First::Unread, sums),
    )
}

// A 51 alone, and one that an unreadable heading saves.
fn alone(rt: &impl Print, basis: Basis, start: Block) -> io::Result<Block> {
    let mut b = tell(
        rt,
        basis,
        start,
        23,
        closing(heading(51, 7), First::Missing, no_sums()),
    )?;
    b = tell(rt, basis, b, 24, of_head(None, First::Missing))?;
    tell(
        rt,
        basis,
        b,
        25,
        closing(heading(51, 5), runs(4, 9), no_sums()),
    )
}

// Each group, and a 51 that states all ten wrong.
fn groups(rt: &impl Print, basis: Basis, start: Block) -> io::Result<Block> {
    let mut b = tell(rt, basis, start, 26, payment(heading(1, 1)))?;
    b = tell(rt, basis, b, 27, payment(heading(12, 2)))?;
    b = tell(rt, basis, b, 28, payment(heading(21, 3)))?;
    b = tell(rt, basis, b, 29, payment(heading(32, 4)))?;
    b = tell(rt, basis, b, 30, payment(heading(44, 5)))?;
    b = tell(rt, basis, b, 31, payment(heading(55, 6)))?;
    let sums = says(
        says(says(says(no_sums(), 6, 1, 1), 7, 0, 1), 8, 1, 0),
        9,
        1,
        0,
    );
    tell(rt, basis, b, 32, closing(heading(51, 9), runs(1, 5), sums))
}

// Rules 8 and 9; a 51 of another day, whose own KC is no part of S5.
fn days_and_amounts(rt: &impl Print, basis: Basis, start: Block) -> io::Result<Block> {
    let mut b = tell(
        rt,
        basis,
        start,
        33,
        item(heading(32, 1), paid(100000000000, 20240403)),
    )?;
    b = tell(
        rt,
        basis,
        b,
        34,
        item(heading(32, 2), paid(100000000001, 20240404)),
    )?;
    b = tell(rt, basis, b, 35, item(heading(11, 3), paid(5, 20240305)))?;
    b = tell(rt, basis, b, 36, item(heading(44, 4), paid(5, 20301231)))?;
    b = tell(rt, basis, b, 37, item(heading(55, 5), paid(5, 20240230)))?;
    b = tell(rt, basis, b, 38, item(heading(99, 6), paid(5, 0)))?;
    let sums = says(
        says(says(says(no_sums(), 3, 2, 200000000001), 1, 1, 5), 4, 1, 5),
        5,
        1,
        5,
    );
    tell(
        rt,
        basis,
        b,
        39,
        closing(on_day(51, 0, 20240301), runs(1, 6), sums),
    )
}

// Types 96, 97 and 98: any real day, two codes, and one group for the three.
fn nineties(rt: &impl Print, basis: Basis, start: Block) -> io::Result<Block> {
    let mut b = tell(rt, basis, start, 42, payment(heading(96, 4)))?;
    b = tell(rt, basis, b, 43, item(heading(97, 5), paid(5, 20991231)))?;
    b = tell(
        rt,
        basis,
        b,
        44,
        item(with_parts(98, 6, 300, 710, 0, 5), paid(5, 20230229)),
    )?;
    let sums = says(says(no_sums(), 1, 2, 200), 9, 3, 110);
    tell(rt, basis, b, 45, closing(heading(51, 0), runs(1, 6), sums))
}

fn main(rt: HostRuntime) -> io::Result<()> {
    let rt = &rt;
    let basis = own_rules::basis_of(Code(300), 20240304);
    let mut b = clean(rt, basis, account::start())?;
    b = headings_of_all_kinds(rt, basis, b)?;
    b = more_headings(rt, basis, b)?;
    b = alone(rt, basis, b)?;
    b = groups(rt, basis, b)?;
    b = days_and_amounts(rt, basis, b)?;
    b = tell(rt, basis, b, 40, payment(heading(11, 1)))?;
    b = tell(rt, basis, b, 41, payment(heading(11, 3)))?;
    nineties(rt, basis, b)?;
    Ok(())
}
