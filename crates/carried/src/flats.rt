// The enums that the pass holds, as plain numbers and back. Any numbers can be read: a variant that is not known reads as the first.
ghost use Rattle.std.specs.Prelude.{◌≡◌};
ghost use Rattle.carried.specs.Flats.{number_no, number_from, flat_reading, reading_from, flat_kc, kc_from, flat_in, in_from, flat_sum, sum_from};

use fields::readings::Reading;
use figures::parts::{Halves, Number};
use headings::{Amount, ItemNo};
use rules::{First, Payment, Range, Statement};

// Which variant, the amount that it holds, and two numbers more; 0 for what it does not hold.
#[derive(Clone, Copy)]
pub struct Flat {
    pub tag: u8,
    pub amount: u64,
    pub a: u32,
    pub b: u32,
}

// The first variant, with 0 for all that it does not hold.
const NOTHING: Flat = Flat {
    tag: 0,
    amount: 0,
    a: 0,
    b: 0,
};

// Not `u32::from(n)`: that is document 01's answer, and `number_no` holds what is stored.
fn number_no(n: Number) -> u32
    ensures { result ≡ number_no n }
{
    match n {
        Number::Good => 0,
        Number::Failing => 1,
        Number::Zero => 2,
    }
}

fn number_from(n: u32) -> Number
    ensures { result ≡ number_from n }
{
    match n {
        1 => Number::Failing,
        2 => Number::Zero,
        _ => Number::Good,
    }
}

pub fn flat_reading(said: Reading) -> Flat
    ensures { result ≡ flat_reading said }
{
    match said {
        Reading::Broken => NOTHING,
        Reading::Plain => Flat { tag: 1, ..NOTHING },
        Reading::Paid(amount, day) => Flat {
            tag: 2,
            amount: amount.0,
            a: day,
            ..NOTHING
        },
        Reading::Span(first, last) => Flat {
            tag: 3,
            a: first.0,
            b: last.0,
            ..NOTHING
        },
        Reading::Stated(count, sum) => Flat {
            tag: 4,
            amount: sum.0,
            a: count,
            ..NOTHING
        },
        Reading::Party(halves) => Flat {
            tag: 5,
            a: u32::from(halves.prefix),
            b: number_no(halves.number),
            ..NOTHING
        },
    }
}

pub fn reading_from(f: Flat) -> Reading
    ensures { result ≡ reading_from f }
{
    match f.tag {
        1 => Reading::Plain,
        2 => Reading::Paid(Amount(f.amount), f.a),
        3 => Reading::Span(ItemNo(f.a), ItemNo(f.b)),
        4 => Reading::Stated(f.a, Amount(f.amount)),
        5 => Reading::Party(Halves {
            prefix: f.a != 0,
            number: number_from(f.b),
        }),
        _ => Reading::Broken,
    }
}

// Three pairs and not one over `First<T>`: a trait of the payloads, with its laws and three impls, would be longer than they are.
pub fn flat_kc(kc: First<Payment>) -> Flat
    ensures { result ≡ flat_kc kc }
{
    match kc {
        First::Missing => NOTHING,
        First::Unread => Flat { tag: 1, ..NOTHING },
        First::Says(paid) => Flat {
            tag: 2,
            amount: paid.amount.0,
            a: paid.day,
            ..NOTHING
        },
    }
}

pub fn kc_from(f: Flat) -> First<Payment>
    ensures { result ≡ kc_from f }
{
    match f.tag {
        1 => First::Unread,
        2 => First::Says(Payment {
            amount: Amount(f.amount),
            day: f.a,
        }),
        _ => First::Missing,
    }
}

pub fn flat_in(span: First<Range>) -> Flat
    ensures { result ≡ flat_in span }
{
    match span {
        First::Missing => NOTHING,
        First::Unread => Flat { tag: 1, ..NOTHING },
        First::Says(named) => Flat {
            tag: 2,
            a: named.first.0,
            b: named.last.0,
            ..NOTHING
        },
    }
}

pub fn in_from(f: Flat) -> First<Range>
    ensures { result ≡ in_from f }
{
    match f.tag {
        1 => First::Unread,
        2 => First::Says(Range {
            first: ItemNo(f.a),
            last: ItemNo(f.b),
        }),
        _ => First::Missing,
    }
}

pub fn flat_sum(sum: First<Statement>) -> Flat
    ensures { result ≡ flat_sum sum }
{
    match sum {
        First::Missing => NOTHING,
        First::Unread => Flat { tag: 1, ..NOTHING },
        First::Says(stated) => Flat {
            tag: 2,
            amount: stated.sum.0,
            a: stated.count,
            ..NOTHING
        },
    }
}

pub fn sum_from(f: Flat) -> First<Statement>
    ensures { result ≡ sum_from f }
{
    match f.tag {
        1 => First::Unread,
        2 => First::Says(Statement {
            count: f.a,
            sum: Amount(f.amount),
        }),
        _ => First::Missing,
    }
}
