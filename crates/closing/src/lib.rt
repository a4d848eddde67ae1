// An item closes: the course of its block, its heading's marks, and the heading that waits for rule 16. Each function promises its result
// by a definition of specs/Closing.antt, for every input; the rules at headings come from `blocks` by way of `lending`. The laws join what
// is kept to the tree (proofs/Shutting.antt): what is entered of headings is what `rules` declares.
// Stands on `blocks`, `account` and `lending`, and on `items` for the pass that is told without code.
#![tactic(auto)]

ghost use Rattle.std.specs.Prelude.{◌≡◌, ◌+◌, ◌-◌, ◌≤◌, ◌<◌, ◌^◌};
ghost use Rattle.laws.specs.Tests.{mark};
ghost use Rattle.rules.specs.Said.{is_unreadable};
ghost use Rattle.blocks.specs.Model.{group_marks};
ghost use Rattle.closing.specs.Closing.{no_wait, last_marks, close_by};

use account::Outline;
use blocks::Course;
use blocks::groups::group_marks;
use blocks::marks::{MARK_6, MARK_16, flag};
use headings::Heading;
use own_rules::Basis;
use rules::{First, Payment, Range, Sums};

// The first heading of the open block with its marks, which waits for rule 16.
#[derive(Clone, Copy)]
pub struct Wait {
    pub line: u32,
    pub marks: u64,
}

// The course of the account after an item, and who waits then; the marks of the one who waited, where the block ends; the heading's own
// marks, where they are complete. The groups of the account are counted in apart, where they are lent.
#[derive(Clone, Copy)]
pub struct Shut {
    pub course: Course,
    pub wait: Wait,
    pub told: u64,
    pub marks: u64,
}

pub fn no_wait() -> Wait
    ensures { result ≡ no_wait }
{
    Wait { line: 0, marks: 0 }
}

fn is_unreadable(read: Option<Heading>) -> bool
    ensures { result ≡ is_unreadable read }
{
    read.is_none()
}

// 30 to 39 at a 51 that reads.
pub fn group_marks_of(counts: [u64; 10], sums: [u64; 10], stated: Sums) -> u64
    ensures { (result ≡ group_marks counts sums stated.groups) × (result ≤ 2 ^ 40 - 2 ^ 30) }
{
    group_marks(counts, sums, stated.groups)
}

// All marks of the open heading but 16: those of its line, those that its course gives, and 30 to 39.
fn head_marks(own: u64, read: Option<Heading>, marks: u64, groups: u64) -> u64
    requires { (marks < 2 ^ 23) × (own ≤ 18) × (groups ≤ 2 ^ 40 - 2 ^ 30) }
    ensures { (result ≡ own + mark 6 (is_unreadable read) + marks + groups) × (result < 2 ^ 41) }
{
    own + flag(is_unreadable(read), MARK_6) + marks + groups
}

// The open item closes, whose heading stands at the line `no` (0: none) and has the marks `own` of its line; `groups` are its marks 30 to 39.
pub fn close_item(
    basis: Basis,
    c: Course,
    w: Wait,
    no: u32,
    own: u64,
    read: Option<Heading>,
    kc: First<Payment>,
    span: First<Range>,
    groups: u64,
) -> Shut
    requires { (w.marks < 2 ^ 41) × (own ≤ 18) × (groups ≤ 2 ^ 40 - 2 ^ 30) }
    ensures { (result ≡ close_by basis c w no own read kc span groups) × (result.wait.marks < 2 ^ 41) × (result.told < 2 ^ 41) × (result.marks < 2 ^ 41) }
{
    if no == 0 {
        return Shut {
            course: c,
            wait: w,
            told: 0,
            marks: 0,
        };
    }
    let any = c.any;
    let it = Outline {
        head: read,
        kc,
        span,
    };
    let a = lending::advance(c, it, basis);
    let course = a.course;
    let m = head_marks(own, read, a.marks, groups);
    if account::closes_block(read) {
        return Shut {
            course,
            wait: no_wait(),
            told: flag(any, w.marks),
            marks: m,
        };
    }
    if any {
        return Shut {
            course,
            wait: w,
            told: 0,
            marks: m,
        };
    }
    Shut {
        course,
        wait: Wait { line: no, marks: m },
        told: 0,
        marks: 0,
    }
}

// At the file's end the one who waits has 16; `any` says whether the open block has a heading.
pub fn last_marks(any: bool, w: Wait) -> u64
    requires { w.marks < 2 ^ 41 }
    ensures { (result ≡ last_marks any w) × (result < 2 ^ 42) }
{
    flag(any, w.marks + MARK_16)
}
