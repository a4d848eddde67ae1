// The types of items. Each set is one list in specs/ItemTypes.antt.
ghost use Rattle.std.specs.Prelude.{◌≡◌};
ghost use Rattle.headings.specs.ItemTypes.{is_input, is_trilateral, is_priority, is_payment};

#[tactic(auto, unfolding(crate::specs::ItemTypes::is_input))]
pub fn is_input(kind: u32) -> bool
    ensures { result ≡ is_input kind }
{
    matches!(
        kind,
        1 | 11 | 12 | 13 | 14 | 21 | 32 | 33 | 35 | 37 | 44 | 45 | 51 | 55 | 96 | 97 | 98
    )
}

#[tactic(auto, unfolding(crate::specs::ItemTypes::is_trilateral))]
pub fn is_trilateral(kind: u32) -> bool
    ensures { result ≡ is_trilateral kind }
{
    matches!(kind, 35 | 37 | 45)
}

#[tactic(auto, unfolding(crate::specs::ItemTypes::is_priority))]
pub fn is_priority(kind: u32) -> bool
    ensures { result ≡ is_priority kind }
{
    matches!(kind, 1 | 21 | 44 | 45)
}

#[tactic(auto, unfolding(crate::specs::ItemTypes::is_payment))]
pub fn is_payment(kind: u32) -> bool
    ensures { result ≡ is_payment kind }
{
    is_input(kind) && kind != 51
}
