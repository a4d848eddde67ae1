// The course of a block's running account, lent by `&mut`: `step` takes it out, has `account` close an item by value, and stores it back;
// `advance` lends a local course to `step`, for callers that hold theirs by value. Promised, for every course, item and basis: the course
// and the marks that `course_model` of `account` says. It judges no rule; the rules as functions and the record of the account stand in
// `blocks`, the account by value and its model in `account`.
#![tactic(auto)]

ghost use Rattle.std.specs.Prelude.{◌≡◌, ◌<◌, ◌^◌};
ghost use Rattle.account.specs.Model.{course_model};

use account::{Accounted, Outline, close_item};
use blocks::Course;
use own_rules::Basis;

// The course is lent: it is taken out, brought up to date by value, and stored back.
pub fn step(c: &mut Course, it: Outline, basis: Basis) -> u64
    ensures { (c.new ≡ (course_model basis c.old it).course) × (result ≡ (course_model basis c.old it).marks) × (result < 2 ^ 23) }
{
    let r = close_item(*c, it, basis);
    *c = r.course;
    r.marks
}

// The lending of a local course. Its parameters and its result are plain, so its callers need no walk.
pub fn advance(c: Course, it: Outline, basis: Basis) -> Accounted
    ensures { (result ≡ course_model basis c it) × (result.marks < 2 ^ 23) }
{
    let mut own = c;
    let marks = step(&mut own, it, basis);
    Accounted { course: own, marks }
}
