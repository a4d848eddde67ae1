// The rules that look at one item alone, as functions: 8 and 9 at its first KC, and 10 to 15 at its heading. The days of 8 and 11 are
// compared with limits that are reckoned once a file.
// Each promises its result by a definition of specs/Model.antt, for every input; the crate `account` proves that these are the rules.
// Stands on `days`, on the types and rules of `headings`, on `rules`, and on the marks of `blocks`.
#![tactic(auto)]

ghost use Rattle.std.specs.Prelude.{◌≡◌, ◌-◌, ◌<◌, ◌^◌};
ghost use Rattle.laws.specs.Tests.{among};
ghost use Rattle.days.specs.Days.{day_of};
ghost use Rattle.rules.specs.Terms.{input};
ghost use Rattle.rules.specs.FieldRules.{until_today, until_thirty, rule9};
ghost use Rattle.rules.specs.HeadingRules.{no_kc};
ghost use Rattle.own_rules.specs.Model.{basis_of, breaks8, breaks11, breaks12, breaks15, own_marks};

use blocks::marks::{MARK_10, MARK_11, MARK_12, MARK_13, MARK_14, MARK_15, flag};
use days::{day_number, day_of, is_real};
use headings::head_rules::{breaks_fourteen, breaks_ten, breaks_thirteen};
use headings::item_types::is_payment;
use headings::{Amount, Code, Heading};
use rules::{First, Payment};

// What a file is judged by: the submitter's code, and the limits that the accounting day sets, each a real day (or 0, where there is none
// so early): the last that is not after it, the last that is at most thirty days after it, and the last that is more than ten days
// before it. They are reckoned once a file.
#[derive(Clone, Copy)]
pub struct Basis {
    pub code: Code,
    pub last: u32,
    pub thirty: u32,
    pub stale: u32,
}

// The last real day that is eleven days before a number, or more.
fn eleven_less(number: u32) -> u32
    ensures { result ≡ day_of (number - 11) }
{
    day_of(number.saturating_sub(11))
}

// The limits are reckoned once a file.
pub fn basis_of(code: Code, day: u32) -> Basis
    ensures { result ≡ basis_of (input code.0 day) }
{
    let number = day_number(day);
    let last = day_of(number);
    let thirty = day_of(number + 30);
    let stale = eleven_less(number);
    Basis {
        code,
        last,
        thirty,
        stale,
    }
}

fn until_today(kind: u32) -> bool
    ensures { result ≡ among kind until_today }
{
    matches!(kind, 1 | 11..=14 | 21 | 35 | 37 | 45)
}

fn until_thirty(kind: u32) -> bool
    ensures { result ≡ among kind until_thirty }
{
    matches!(kind, 32 | 33)
}

// Rule 8. The last day itself, which is the day of nearly every item, is real where it is one at all.
pub fn breaks_eight(basis: Basis, kind: u32, day: u32) -> bool
    ensures { result ≡ breaks8 basis kind day }
{
    let paying = is_payment(kind);
    if day == basis.last {
        return paying & (day == 0);
    }
    paying
        & (!is_real(day)
            | ((until_today(kind) & (basis.last < day))
                | (until_thirty(kind) & (basis.thirty < day))))
}

pub fn breaks_nine(kind: u32, amount: Amount) -> bool
    ensures { result ≡ rule9 kind amount.0 }
{
    (kind == 32) & (100000000000 < amount.0)
}

pub fn breaks_eleven(basis: Basis, day: u32) -> bool
    ensures { result ≡ breaks11 basis day }
{
    if day == basis.last {
        return day <= basis.stale;
    }
    !is_real(day) | ((basis.last < day) | (day <= basis.stale))
}

fn breaks_twelve(basis: Basis, first: Code) -> bool
    ensures { result ≡ breaks12 basis first }
{
    first.0 != basis.code.0
}

pub fn has_no_kc(kc: First<Payment>) -> bool
    ensures { result ≡ no_kc kc }
{
    matches!(kc, First::Missing)
}

pub fn breaks_fifteen(kind: u32, kc: First<Payment>) -> bool
    ensures { result ≡ breaks15 kind kc }
{
    let none = has_no_kc(kc);
    is_payment(kind) & none
}

// The marks of rules 10 to 15.
pub fn own_marks(basis: Basis, h: Heading, kc: First<Payment>) -> u64
    ensures { (result ≡ own_marks basis h kc) × (result < 2 ^ 16) }
{
    flag(breaks_ten(h), MARK_10)
        + flag(breaks_eleven(basis, h.day), MARK_11)
        + flag(breaks_twelve(basis, h.first), MARK_12)
        + flag(breaks_thirteen(h), MARK_13)
        + flag(breaks_fourteen(h), MARK_14)
        + flag(breaks_fifteen(h.kind, kc), MARK_15)
}
