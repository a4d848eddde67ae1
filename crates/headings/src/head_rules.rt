// The rules on a readable heading's own parts, as tests.
ghost use Rattle.std.specs.Prelude.{◌≡◌};
ghost use Rattle.headings.specs.HeadRules.{rule10, rule13, rule14};

use super::Heading;
use super::item_types::{is_input, is_trilateral};

#[tactic(auto, unfolding(crate::specs::HeadRules::rule10))]
pub fn breaks_ten(h: Heading) -> bool
    ensures { result ≡ rule10 h }
{
    !is_input(h.kind)
}

#[tactic(auto, unfolding(crate::specs::HeadRules::rule13))]
pub fn breaks_thirteen(h: Heading) -> bool
    ensures { result ≡ rule13 h }
{
    h.output.0 != 0
}

#[tactic(auto, unfolding(crate::specs::HeadRules::rule14))]
pub fn breaks_fourteen(h: Heading) -> bool
    ensures { result ≡ rule14 h }
{
    is_input(h.kind) && (h.second.0 == 0 || is_trilateral(h.kind) == (h.third.0 == 0))
}
