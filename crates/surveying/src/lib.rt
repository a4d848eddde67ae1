// The items of a slice, asked one after the other (document 02, A7): how many there are, whether each is sent, whether they are of one class,
// and the groups of their derived types. Promised by definitions of specs/Model.antt, which follow the code; specs/Items.antt has what is asked, for
// the statement of `delivery`. Stands on `vetting` for an item's lines, on `turning` and `outcome_tables` for its derived heading, on `account` for
// groups, and on `item_reader`.
#![tactic(auto)]

ghost use Rattle.std.specs.Prelude.{◌≡◌, ◌+◌, ◌≤◌, ◌<◌, min, length, replicate};
ghost use Rattle.text.specs.Characters.{answers};
ghost use Rattle.rules.specs.Terms.{Terms, input};
ghost use Rattle.rules.specs.BlockRules.{unlike};
ghost use Rattle.own_rules.specs.Model.{basis_of};
ghost use Rattle.item_reader.specs.Slips.{Headed};
ghost use Rattle.vetting.specs.Vetting.{Stamped};
ghost use Rattle.outgoing_lines.specs.Outgoing.{Orders};
ghost use Rattle.surveying.specs.Items.{is_alone, items_of};
ghost use Rattle.surveying.specs.Model.{strays, way_of, Asks, Steps, Surveys, Leads, LeadsIf};

use group_sums::add_amount;
use headings::item_types::is_priority;
use headings::{Code, Heading, ItemNo};
use outcome_tables::in_class;
use outgoing_lines::{as_derived, at_or_zero};
use own_rules::{Basis, basis_of};
use turning::turn;
use vetting::{take_item, unstamped};

// The type and the recipient of a derived heading.
#[derive(Clone, Copy)]
pub struct Way {
    pub kind: u32,
    pub to: u32,
}

// What the first item says of all: the recipient, the class, and whether the derived type stands alone.
#[derive(Clone, Copy)]
pub struct Lead {
    pub to: u32,
    pub priority: bool,
    pub alone: bool,
}

// One item that is sent: the place of the next, and whether it is of another class than the first.
#[derive(Clone, Copy)]
pub struct Step {
    pub next: usize,
    pub differs: bool,
}

fn is_alone(kind: u32) -> bool
    ensures { result ≡ is_alone kind }
{
    (kind == 44) | (kind == 84)
}

fn unlike(a: bool, b: bool) -> bool
    ensures { result ≡ unlike a b }
{
    a != b
}

// Whether a recipient is no house, or not the first one's.
fn strays(first: u32, to: u32) -> bool
    ensures { result ≡ strays first to }
{
    !matches!(to, 1..=9999) | (to != first)
}

// Where an item goes, if deriving does not refuse it.
fn way_of(h: Heading, outcome: u32, standing: u32, number: u64) -> Option<Way>
    ensures { result ≡ way_of h outcome standing number }
{
    if 9999999 < number {
        return None;
    }
    match turn(h, as_derived(outcome), standing) {
        Err(_) => None,
        Ok(g) => {
            if !in_class(h.kind, ItemNo(number as u32)) {
                return None;
            }
            Some(Way {
                kind: g.kind,
                to: g.second.0,
            })
        }
    }
}

// One item, where k stand above it: it is judged, and counted in the group of its derived type; none where it is not sent.
fn one_item(
    table: &[bool; 256],
    stood: &mut [usize; 1296],
    s: &[u8],
    at: usize,
    k: usize,
    basis: Basis,
    outcome: u32,
    standing: u32,
    number: u64,
    lead: Lead,
    counts: &mut [u64; 10],
    sums: &mut [u64; 10],
) -> Option<Step>
    requires { (table.now ≡ answers) × (at < length s.now) × Headed s.now at × Stamped stood.old (k + 1) × (k < 30000) }
    ensures stamped { Stamped stood.new (k + 2) }
    ensures steps { (q : Orders) (terms : Terms) → basis ≡ basis_of terms → Asks q k outcome standing number → Steps q terms lead s.now at k counts.old sums.old result counts.new sums.new }
{
    let item = take_item(table, stood, s, at, k + 1, basis)?;
    let h = item.heading;
    let way = way_of(h, outcome, standing, number)?;
    if strays(lead.to, way.to) {
        return None;
    }
    add_amount(counts, sums, way.kind, item.amount.0);
    let other = unlike(is_priority(h.kind), lead.priority);
    Some(Step {
        next: item.next,
        differs: other | unlike(is_alone(way.kind), lead.alone),
    })
}

// All items of a slice that begins with a heading, by what the first one says: whether one is of another class; none where one is not sent.
pub fn survey_all(
    s: &[u8],
    outcomes: &[u32],
    standings: &[u32],
    start: u32,
    code: u32,
    day: u32,
    lead: Lead,
    counts: &mut [u64; 10],
    sums: &mut [u64; 10],
) -> Option<bool>
    requires { Headed s.now 0 × (0 < length s.now) × (length (items_of s.now) ≤ 30000) × (counts.old ≡ replicate 10 0) × (sums.old ≡ replicate 10 0) }
    ensures { Surveys (record { outcomes = outcomes.now; standings = standings.now; start = start }) (input code day) lead s.now result counts.new sums.new }
{
    let table = text::characters::table();
    let basis = basis_of(Code(code), day);
    let mut stood = unstamped();
    let mut at = 0;
    let mut k = 0;
    let mut other = false;
    // A `while`: each item tells where the next one starts, so k is counted beside it.
    while at < s.len() {
        let outcome = at_or_zero(outcomes, k);
        let standing = at_or_zero(standings, k);
        let number = (start as u64) + (k as u64);
        let step = one_item(
            &table, &mut stood, s, at, k, basis, outcome, standing, number, lead, counts, sums,
        )?;
        at = step.next;
        k += 1;
        other |= step.differs;
    }
    Some(other)
}

// What the first item says of all, if deriving does not refuse it.
pub fn lead_if_derived(s: &[u8], outcome: u32, standing: u32, number: u64) -> Option<Lead>
    requires { Headed s.now 0 × (0 < length s.now) }
    ensures { (q : Orders) → Asks q 0 outcome standing number → LeadsIf q (items_of s.now) result }
{
    let f = lines::line_near(s, 0);
    let end = f.end;
    let h = headings::reading::read(&s[..end])?;
    let way = way_of(h, outcome, standing, number)?;
    Some(Lead {
        to: way.to,
        priority: is_priority(h.kind),
        alone: is_alone(way.kind),
    })
}

// What the first item says of all; zeros, of which nothing is promised, where deriving refuses it.
pub fn lead_of(s: &[u8], outcome: u32, standing: u32, number: u64) -> Lead
    requires { Headed s.now 0 × (0 < length s.now) }
    ensures { (q : Orders) → Asks q 0 outcome standing number → Leads q (items_of s.now) result }
{
    lead_if_derived(s, outcome, standing, number).unwrap_or(Lead {
        to: 0,
        priority: false,
        alone: false,
    })
}

// How many items a slice has; of more than 30,000, that they are more.
pub fn count_items(s: &[u8]) -> usize
    ensures { result ≡ min 30001 (length (items_of s.now)) }
{
    let mut n = 0;
    let mut at = item_reader::heading_from(s, 0);
    // A `while`: each item tells where the next one starts.
    while at < s.len() {
        if 30000 < n {
            return n;
        }
        let x = item_reader::slip_at(s, at);
        at = x.next;
        n += 1;
    }
    n
}
