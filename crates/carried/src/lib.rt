// What the pass holds between two lines, as plain numbers and back, for a caller that can hold numbers only. Three arrays, each value
// in that of its own width, so that no cast loses bits:
//
//   wide     0-1 ledger: kept, total          2 field: marks        3 pend: ident         4 said: its amount
//            5 top    6 KC: its amount        7 wait: marks         8-17 block: counts    18-27 block: sums     28-37 S0 to S9: sums
//   narrow   0-1 field: no, tail              2-3 said: its numbers 4 since               5-11 heading, part by part
//            12 KC: its day                   13-14 IN: first, last 15-17 block: day, first, last
//            18 wait: line                    19-21 starts          22 n                  23-32 S0 to S9: counts
//   small    0 field: class   1 said   2 reads   3 KC   4 IN   5-8 block: classed, priority, any, some   9-18 S0 to S9
//
// In `small` stands of each enum which variant it is, and of a bool 0 or 1. Promised: what `words_of` gives of a pass reads back as that
// pass, whatever it is; and `pass_of` reads any numbers. Stands on the crates whose values these are; it judges nothing.
#![tactic(auto)]

ghost use Rattle.std.specs.Prelude.{◌≡◌, ◌<◌, length};
ghost use Rattle.carried.specs.Words.{flats_of, wide_of, narrow_of, small_of, words_of, ledger_in, field_in, said_in, pend_in, heading_in, kc_in, span_in, group_at, group_in, stated_in, block_in, wait_in, starts_in, pass_of};

use blocks::{Block, Course};
use closing::Wait;
use flats::Flat;
use headings::{Code, Heading, ItemNo};
use judging::opening::{Open, Pend};
use ledger::Ledger;
use pass::Pass;
use rules::{First, Payment, Range, Sum, Sums};
use shutting::Starts;
use std::array;

pub mod flats;

// Arrays of fixed sizes: a C caller holds them (`store` and `state_in` of `stored`).
#[derive(Clone, Copy)]
pub struct Words {
    pub wide: [u64; 38],
    pub narrow: [u32; 33],
    pub small: [u8; 19],
}

// ---- written

// What an item says of S0 to S9.
fn flats_of(groups: [Sum; 10]) -> [Flat; 10]
    ensures { (result ≡ flats_of groups) × (length groups ≡ 10) }
{
    groups.map(|group| flats::flat_sum(group.stated))
}

fn wide_of(
    counts: [u64; 10],
    sums: [u64; 10],
    p: Pass,
    said: Flat,
    kc: Flat,
    s: [Flat; 10],
) -> [u64; 38]
    ensures { (result ≡ wide_of counts sums p said kc s) × (length counts ≡ 10) × (length sums ≡ 10) }
{
    let mut wide = [0; 38];
    wide[..8].copy_from_slice(&[
        p.ledger.kept as u64,
        p.ledger.total,
        p.field.marks,
        p.pend.ident as u64,
        said.amount,
        p.top,
        kc.amount,
        p.wait.marks,
    ]);
    wide[8..18].copy_from_slice(&counts);
    wide[18..28].copy_from_slice(&sums);
    wide[28..38].copy_from_slice(&s.map(|flat| flat.amount));
    wide
}

fn narrow_of(p: Pass, said: Flat, kc: Flat, span: Flat, s: [Flat; 10]) -> [u32; 33]
    ensures { result ≡ narrow_of p said kc span s }
{
    let field = p.field;
    let h = p.heading;
    let course = p.block.course;
    let starts = p.starts;
    let mut narrow = [0; 33];
    narrow[..23].copy_from_slice(&[
        field.no,
        field.tail,
        said.a,
        said.b,
        p.since,
        h.kind,
        h.day,
        h.first.0,
        h.number.0,
        h.second.0,
        h.output.0,
        h.third.0,
        kc.a,
        span.a,
        span.b,
        course.day,
        course.first.0,
        course.last.0,
        p.wait.line,
        starts.field,
        starts.head,
        starts.wait,
        p.n,
    ]);
    narrow[23..].copy_from_slice(&s.map(|flat| flat.a));
    narrow
}

fn small_of(p: Pass, said: Flat, kc: Flat, span: Flat, s: [Flat; 10]) -> [u8; 19]
    ensures { result ≡ small_of p said kc span s }
{
    let course = p.block.course;
    let mut small = [0; 19];
    small[..9].copy_from_slice(&[
        p.field.class,
        said.tag,
        p.reads as u8,
        kc.tag,
        span.tag,
        course.classed as u8,
        course.priority as u8,
        course.any as u8,
        course.some as u8,
    ]);
    small[9..].copy_from_slice(&s.map(|flat| flat.tag));
    small
}

// What the pass holds, as numbers.
pub fn words_of(p: Pass) -> Words
    ensures value { result ≡ words_of p }
    ensures result_value { pass_of result ≡ p }
{
    let said = flats::flat_reading(p.pend.said);
    let kc = flats::flat_kc(p.kc);
    let span = flats::flat_in(p.span);
    let s = flats_of(p.stated.groups);
    Words {
        wide: wide_of(p.block.counts, p.block.sums, p, said, kc, s),
        narrow: narrow_of(p, said, kc, span, s),
        small: small_of(p, said, kc, span, s),
    }
}

// ---- read back

fn ledger_in(w: Words) -> Ledger
    ensures { result ≡ ledger_in w }
{
    Ledger {
        kept: w.wide[0] as usize,
        total: w.wide[1],
    }
}

fn field_in(w: Words) -> Open
    ensures { result ≡ field_in w }
{
    Open {
        no: w.narrow[0],
        marks: w.wide[2],
        class: w.small[0],
        tail: w.narrow[1],
    }
}

fn said_in(w: Words) -> Flat
    ensures { result ≡ said_in w }
{
    Flat {
        tag: w.small[1],
        amount: w.wide[4],
        a: w.narrow[2],
        b: w.narrow[3],
    }
}

fn pend_in(w: Words) -> Pend
    ensures { result ≡ pend_in w }
{
    Pend {
        ident: w.wide[3] as usize,
        said: flats::reading_from(said_in(w)),
    }
}

fn heading_in(w: Words) -> Heading
    ensures { result ≡ heading_in w }
{
    Heading {
        kind: w.narrow[5],
        day: w.narrow[6],
        first: Code(w.narrow[7]),
        number: ItemNo(w.narrow[8]),
        second: Code(w.narrow[9]),
        output: ItemNo(w.narrow[10]),
        third: Code(w.narrow[11]),
    }
}

fn kc_in(w: Words) -> First<Payment>
    ensures { result ≡ kc_in w }
{
    flats::kc_from(Flat {
        tag: w.small[3],
        amount: w.wide[6],
        a: w.narrow[12],
        b: 0,
    })
}

fn span_in(w: Words) -> First<Range>
    ensures { result ≡ span_in w }
{
    flats::in_from(Flat {
        tag: w.small[4],
        amount: 0,
        a: w.narrow[13],
        b: w.narrow[14],
    })
}

fn group_at(w: Words, i: usize) -> Flat
    requires { i < 10 }
    ensures { result ≡ group_at w i }
{
    Flat {
        tag: w.small[9 + i],
        amount: w.wide[28 + i],
        a: w.narrow[23 + i],
        b: 0,
    }
}

fn group_in(w: Words, i: usize) -> Sum
    requires { i < 10 }
    ensures { result ≡ group_in w i }
{
    Sum {
        stated: flats::sum_from(group_at(w, i)),
    }
}

fn stated_in(w: Words) -> Sums
    ensures { result ≡ stated_in w }
{
    Sums {
        groups: array::from_fn(|i| group_in(w, i)),
    }
}

fn block_in(w: Words) -> Block
    ensures { result ≡ block_in w }
{
    Block {
        course: Course {
            classed: w.small[5] != 0,
            priority: w.small[6] != 0,
            any: w.small[7] != 0,
            some: w.small[8] != 0,
            day: w.narrow[15],
            first: ItemNo(w.narrow[16]),
            last: ItemNo(w.narrow[17]),
        },
        counts: array::from_fn(|i| w.wide[8 + i]),
        sums: array::from_fn(|i| w.wide[18 + i]),
    }
}

fn wait_in(w: Words) -> Wait
    ensures { result ≡ wait_in w }
{
    Wait {
        line: w.narrow[18],
        marks: w.wide[7],
    }
}

fn starts_in(w: Words) -> Starts
    ensures { result ≡ starts_in w }
{
    Starts {
        field: w.narrow[19],
        head: w.narrow[20],
        wait: w.narrow[21],
    }
}

// What the pass held, from its numbers.
#[tactic(auto, unfolding(crate::specs::Words::pass_of))]
pub fn pass_of(w: Words) -> Pass
    ensures { result ≡ pass_of w }
{
    Pass {
        ledger: ledger_in(w),
        field: field_in(w),
        pend: pend_in(w),
        since: w.narrow[4],
        top: w.wide[5],
        reads: w.small[2] != 0,
        heading: heading_in(w),
        kc: kc_in(w),
        span: span_in(w),
        stated: stated_in(w),
        block: block_in(w),
        wait: wait_in(w),
        starts: starts_in(w),
        n: w.narrow[22],
    }
}
