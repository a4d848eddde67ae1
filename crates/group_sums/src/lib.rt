// The counts and sums of ten groups, lent: one amount more in the group of an item's type. Promised, for all that they hold: what `plus_at`
// of specs/Model.antt says, each up to its cap. Stands on `blocks` for the caps, and on `headings` for the group of a type.
#![tactic(auto)]

ghost use Rattle.std.specs.Prelude.{◌≡◌};
ghost use Rattle.headings.specs.ItemTypes.{group_of};
ghost use Rattle.blocks.specs.Model.{count_cap, sum_cap};
ghost use Rattle.group_sums.specs.Model.{plus_at};

use blocks::groups::{COUNT_CAP, SUM_CAP, capped};

// One amount more in the group of a type.
pub fn add_amount(counts: &mut [u64; 10], sums: &mut [u64; 10], kind: u32, amount: u64)
    ensures counts_after { counts.new ≡ plus_at count_cap counts.old (group_of kind) 1 }
    ensures sums_after { sums.new ≡ plus_at sum_cap sums.old (group_of kind) amount }
{
    let d = (kind / 10) as usize;
    if d < 10 {
        counts[d] = capped(COUNT_CAP, counts[d], 1);
        sums[d] = capped(SUM_CAP, sums[d], amount);
    }
}
