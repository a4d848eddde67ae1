// The ground floor: which bytes may stand in a text, fixed strings and layouts, and numbers as digits.
// Each function promises that its result is a definition of specs/, for every input that its `requires` lets in.
// Stands on `laws` alone.
#![tactic(auto)]

ghost use Rattle.std.specs.Prelude.{◌≡◌, ◌⊎◌, ◌≤◌};

pub mod characters;
pub mod decimals;
pub mod digits;
pub mod forms;
pub mod strings;

// The lesser of two.
pub fn least(a: usize, b: usize) -> usize
    ensures { (result ≤ a) × (result ≤ b) × ((result ≡ a) ⊎ (result ≡ b)) }
{
    a.min(b)
}
