// The marks that every line can have.
ghost use Rattle.std.specs.Prelude.{◌≡◌, ◌≤◌};
ghost use Rattle.judging.specs.Opening.{line_marks_of};

use blocks::marks::{MARK_1, MARK_4, flag};

// 1 and 4.
pub fn line_marks(bad: bool, ended: bool) -> u64
    ensures { (result ≡ line_marks_of bad ended) × (result ≤ 18) }
{
    flag(bad, MARK_1) + flag(!ended, MARK_4)
}
