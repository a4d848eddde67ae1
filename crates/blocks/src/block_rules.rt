// The rules of blocks, each asked of the account and not of the items above.
ghost use Rattle.std.specs.Prelude.{◌≡◌, ◌+◌, ◌<◌, ◌^◌, eqb};
ghost use Rattle.blocks.specs.Model.{breaks18, skips_to, breaks19, breaks19_closing, breaks20, breaks21, open_marks, ending_marks};

use crate::Course;
use crate::marks::{MARK_17, MARK_18, MARK_19, MARK_20, MARK_21, flag};
use headings::item_types::{is_payment, is_priority};
use headings::{Heading, ItemNo};
use rules::{First, Range};

fn breaks_eighteen(some: bool, first: u32, day: u32) -> bool
    ensures { result ≡ breaks18 some first day }
{
    some & (day != first)
}

// n is one more than last.
fn follows(n: ItemNo, last: ItemNo) -> bool
    ensures { result ≡ eqb n.0 (last.0 + 1) }
{
    last.0.checked_add(1) == Some(n.0)
}

fn skips_to(some: bool, last: ItemNo, n: ItemNo) -> bool
    ensures { result ≡ skips_to some last n }
{
    let next = follows(n, last);
    some & !next
}

fn breaks_nineteen(some: bool, last: ItemNo, n: ItemNo) -> bool
    ensures { result ≡ breaks19 some last n }
{
    let skips = skips_to(some, last, n);
    (n.0 == 0) | skips
}

fn breaks_nineteen_closing(some: bool, last: ItemNo, n: ItemNo) -> bool
    ensures { result ≡ breaks19_closing some last n }
{
    let skips = skips_to(some, last, n);
    (n.0 != 0) & skips
}

fn breaks_twenty(classed: bool, priority: bool, kind: u32) -> bool
    ensures { result ≡ breaks20 classed priority kind }
{
    let own = is_priority(kind);
    let paying = is_payment(kind);
    paying & (classed & (own != priority))
}

fn breaks_twenty_one(some: bool, first: ItemNo, last: ItemNo, span: First<Range>) -> bool
    ensures { result ≡ breaks21 some first last span }
{
    match span {
        First::Missing => true,
        First::Unread => false,
        First::Says(named) => some & !((named.first.0 == first.0) & (named.last.0 == last.0)),
    }
}

// The marks of 18 to 20 at a heading that is no 51.
pub fn open_marks(c: Course, h: Heading) -> u64
    ensures { (result ≡ open_marks c h) × (result < 2 ^ 21) }
{
    flag(breaks_eighteen(c.some, c.day, h.day), MARK_18)
        + flag(breaks_nineteen(c.some, c.last, h.number), MARK_19)
        + flag(breaks_twenty(c.classed, c.priority, h.kind), MARK_20)
}

// The marks of 17 to 19 and 21 at a 51.
pub fn ending_marks(c: Course, h: Heading, span: First<Range>) -> u64
    ensures { (result ≡ ending_marks c h span) × (result < 2 ^ 22) }
{
    flag(!c.any, MARK_17)
        + flag(breaks_eighteen(c.some, c.day, h.day), MARK_18)
        + flag(breaks_nineteen_closing(c.some, c.last, h.number), MARK_19)
        + flag(breaks_twenty_one(c.some, c.first, c.last, span), MARK_21)
}
