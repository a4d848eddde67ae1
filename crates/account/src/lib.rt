// The running account of the open block, brought up to date at each heading: its course by value, its groups where they are lent. Promised,
// for every account, item and basis: the account and the marks that `close_model` says (specs/Model.antt; by parts: `by_parts`), which
// are those of the items themselves: the account is the summary of the items above, and the marks are the set of the tests that `rules`
// has broken at the heading (theorem `account`).
// It judges no rule: those are the functions of `blocks` and `own_rules`. Stands on these, on `group_sums`, on `rules`, on `ledger` for sets of marks,
// and on `headings` for the types of items.
#![tactic(auto)]

ghost use Rattle.std.specs.Prelude.{◌≡◌, cond, [], ◌<◌, ◌^◌};
ghost use Rattle.rules.specs.Blocks.{closes_at};
ghost use Rattle.blocks.specs.Model.{course_of, block_of};
ghost use Rattle.account.specs.Model.{counts_after, sums_after, heading_course, touched_course, empty_course, read_course, course_marks, course_model, counts_on, sums_on};
ghost use Rattle.account.specs.Summary.{summary};

use blocks::block_rules::{ending_marks, open_marks};
use blocks::{Block, Course};
use group_sums::add_amount;
use headings::item_types::{is_payment, is_priority};
use headings::{Heading, ItemNo};
use own_rules::{Basis, own_marks};
use rules::{First, Payment, Range};

// An item as the course of its block needs it: its heading, and its first KC and IN.
#[derive(Clone, Copy)]
pub struct Outline {
    pub head: Option<Heading>,
    pub kc: First<Payment>,
    pub span: First<Range>,
}

// An item is closed: the course with it, and the marks of its heading but for 30 to 39.
#[derive(Clone, Copy)]
pub struct Accounted {
    pub course: Course,
    pub marks: u64,
}

// Whether an item with this heading closes its block.
pub fn closes_block(head: Option<Heading>) -> bool
    ensures { result ≡ closes_at head }
{
    head.is_some_and(|h| h.kind == 51)
}

// A KC counts in an item of an input type other than 51, and only if it reads.
fn add_kc(counts: &mut [u64; 10], sums: &mut [u64; 10], kind: u32, kc: First<Payment>)
    ensures counts_after { counts.new ≡ counts_after counts.old kind kc }
    ensures sums_after { sums.new ≡ sums_after sums.old kind kc }
{
    if let First::Says(paid) = kc {
        if is_payment(kind) {
            add_amount(counts, sums, kind, paid.amount.0);
        }
    }
}

// The groups with an item more: a 51 clears them for the next block.
pub fn count_in(
    counts: &mut [u64; 10],
    sums: &mut [u64; 10],
    head: Option<Heading>,
    kc: First<Payment>,
)
    ensures counts_after { counts.new ≡ counts_on counts.old kc head }
    ensures sums_after { sums.new ≡ sums_on sums.old kc head }
{
    if let Some(h) = head {
        if h.kind == 51 {
            *counts = [0; 10];
            *sums = [0; 10];
        } else {
            add_kc(counts, sums, h.kind, kc);
        }
    }
}

// What the block's first heading said stays.
fn first_kept<T: Copy>(some: bool, first: T, then: T) -> T
    ensures { result ≡ cond some first then }
{
    if some { first } else { then }
}

// The course with a readable heading more that is no 51.
fn with_heading(c: Course, h: Heading) -> Course
    ensures { result ≡ heading_course c h }
{
    let classed = c.classed;
    let some = c.some;
    let paying = is_payment(h.kind);
    Course {
        classed: classed | paying,
        priority: (classed & c.priority) | (!classed & (paying & is_priority(h.kind))),
        any: true,
        some: true,
        day: first_kept(some, c.day, h.day),
        first: first_kept(some, c.first, h.number),
        last: h.number,
    }
}

// The course with an unreadable heading more: the block has a heading, and all else goes on.
fn with_unreadable(c: Course) -> Course
    ensures { result ≡ touched_course c }
{
    Course { any: true, ..c }
}

// No item of the open block yet, in a file of this class.
fn no_course(classed: bool, priority: bool) -> Course
    ensures { result ≡ empty_course classed priority }
{
    Course {
        classed,
        priority,
        any: false,
        some: false,
        day: 0,
        first: ItemNo(0),
        last: ItemNo(0),
    }
}

fn read_course(c: Course, h: Heading) -> Course
    ensures { result ≡ read_course c h }
{
    if h.kind == 51 {
        no_course(c.classed, c.priority)
    } else {
        with_heading(c, h)
    }
}

fn read_marks(basis: Basis, c: Course, h: Heading, kc: First<Payment>, span: First<Range>) -> u64
    ensures { (result ≡ course_marks basis c h kc span) × (result < 2 ^ 23) }
{
    let own = own_marks(basis, h, kc);
    if h.kind == 51 {
        own + ending_marks(c, h, span)
    } else {
        own + open_marks(c, h)
    }
}

// An item is closed, by value.
pub fn close_item(c: Course, it: Outline, basis: Basis) -> Accounted
    ensures { (result ≡ course_model basis c it) × (result.marks < 2 ^ 23) }
{
    match it.head {
        None => {
            let course = with_unreadable(c);
            Accounted { course, marks: 0 }
        }
        Some(h) => {
            let course = read_course(c, h);
            let marks = read_marks(basis, c, h, it.kc, it.span);
            Accounted { course, marks }
        }
    }
}

// The account before the first item.
pub fn start() -> Block
    ensures { result ≡ summary [] }
{
    Block {
        course: no_course(false, false),
        counts: [0; 10],
        sums: [0; 10],
    }
}

// The parts of an account, and an account of its parts.
pub fn course_of(b: Block) -> Course
    ensures { result ≡ course_of b }
{
    b.course
}

pub fn block_of(c: Course, counts: [u64; 10], sums: [u64; 10]) -> Block
    ensures { result ≡ block_of c counts sums }
{
    Block {
        course: c,
        counts,
        sums,
    }
}
