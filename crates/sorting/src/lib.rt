// Numbers put in order in place, for any row whose numbers lie within two bounds. Promised (specs/Sorting.antt): none is below the one before
// it nor below the bound, and each stands as often as before. std's sort needs no room of its own: it calls itself at most twice as deep as
// the length has bits, then sorts by a heap, so that no row takes quadratic time; a row in order takes one walk. Stands on nothing.
#![tactic(auto)]

ghost use Rattle.std.specs.Prelude.{ℕ};
ghost use Rattle.sorting.specs.Sorting.{Within, Ordered};

pub fn sort(s: &mut [u64])
    ensures { (lo : ℕ) (hi : ℕ) → Within lo hi s.old → Ordered lo s.old s.new }
{
    s.sort_unstable();
}
