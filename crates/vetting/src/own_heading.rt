// A heading, and the rules that look at it alone.
ghost use Rattle.std.specs.Prelude.{◌≡◌, ◌<◌, length};
ghost use Rattle.text.specs.Characters.{answers};
ghost use Rattle.rules.specs.Terms.{Terms};
ghost use Rattle.own_rules.specs.Model.{basis_of};
ghost use Rattle.item_reader.specs.Slips.{Headed};
ghost use Rattle.vetting.specs.Parts.{head_breaks, HeadTo, HeadLeads};

use crate::own_line::{judged_at, low_at};
use headings::Heading;
use headings::head_rules::{breaks_fourteen, breaks_ten, breaks_thirteen};
use own_rules::{Basis, breaks_eleven};

// A heading that breaks nothing so far, and where the line below it starts.
#[derive(Clone, Copy)]
pub struct Started {
    pub heading: Heading,
    pub next: usize,
}

fn head_breaks(basis: Basis, h: Heading) -> bool
    ensures { result ≡ head_breaks basis h }
{
    breaks_ten(h) | breaks_eleven(basis, h.day) | breaks_thirteen(h) | breaks_fourteen(h)
}

// The heading at a place; none where it bars its item. A continuation of it makes it unreadable, and a line of no kind breaks 2: nothing may
// stand between it and the next field or heading.
pub fn head_at(table: &[bool; 256], s: &[u8], at: usize, basis: Basis) -> Option<Started>
    requires { (table.now ≡ answers) × (at < length s.now) × Headed s.now at }
    ensures head_to { (terms : Terms) → basis ≡ basis_of terms → HeadTo terms s.now at result }
    ensures head_leads { HeadLeads s.now at result }
{
    let l = judged_at(table, s, at);
    let end = l.end;
    let next = l.next;
    let low = low_at(s, next);
    let heading = headings::reading::read(&s[at..end])?;
    let breaks = l.bad | low | head_breaks(basis, heading);
    if breaks {
        return None;
    }
    Some(Started { heading, next })
}
