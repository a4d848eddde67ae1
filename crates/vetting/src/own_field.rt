// One field with its continuations.
ghost use Rattle.std.specs.Prelude.{◌≡◌, suc, min, ◌≤◌, ◌<◌, length, drop};
ghost use Rattle.text.specs.Characters.{answers};
ghost use Rattle.fields.specs.declared.classes.Class.{Class};
ghost use Rattle.fields.specs.declared.kinds.Kind.TheVariants.{Field};
ghost use Rattle.fields.specs.Kinds.{kind_of};
ghost use Rattle.fields.specs.Codes.{code_by, code_of};
ghost use Rattle.fields.specs.Readings.{text_of, reading_of};
ghost use Rattle.rules.specs.Terms.{Terms};
ghost use Rattle.own_rules.specs.Model.{basis_of};
ghost use Rattle.vetting.specs.Parts.{own_breaks, kc_here, TailTo, FieldTo, FieldLeads};

use crate::Passed;
use crate::own_line::{continues, judged_at, kind_at, low_at};
use fields::readings::Reading;
use fields::{classes, readings};
use headings::Heading;
use items::claiming;
use judging::opening;
use own_rules::Basis;
use rules::{First, Payment};

// One more, four standing for more than three.
fn one_more(n: u32) -> u32
    ensures { result ≡ min 4 (suc n) }
{
    n.min(3) + 1
}

// Where the lines from a place on, below a field of a class, come to the next heading or field; none where they break the field, or one of
// them a rule of its own.
fn tail_end(table: &[bool; 256], s: &[u8], at: usize, class: u8) -> Option<usize>
    requires { (table.now ≡ answers) × (at ≤ length s.now) }
    ensures { TailTo s.now at class result }
{
    let mut p = at;
    let mut tail: u32 = 0;
    // A `while`: each line tells where the next one starts.
    while continues(kind_at(s, p)) {
        let l = judged_at(table, s, p);
        tail = one_more(tail);
        if l.bad | opening::breaks_tail(class, tail, l.end - p) {
            return None;
        }
        p = l.next;
    }
    if low_at(s, p) {
        return None;
    }
    Some(p)
}

// What a field line says by its own text.
fn said_at(class: u8, line: &[u8]) -> Reading
    ensures { (k : Class) → code_by k ≡ class → result ≡ reading_of k (text_of line.now) }
{
    if (class == 1) | (5 <= class) {
        return readings::read_claim(class, line);
    }
    readings::read_plain(class, line)
}

// Whether a field's own line breaks a rule. A KC that stood already breaks 5, so each that is asked for 8 and 9 is the first.
fn own_breaks(basis: Basis, h: Heading, ident: usize, again: bool, bad: bool, said: Reading) -> bool
    ensures { result ≡ own_breaks basis h ident again bad said }
{
    bad | again | (opening::said_marks(basis, ident == classes::KC, true, h, said) != 0)
}

// The KC that a field is.
fn kc_of(ident: usize, said: Reading) -> First<Payment>
    ensures { result ≡ kc_here ident said }
{
    if ident == classes::KC {
        return claiming::kc_by(said);
    }
    First::Missing
}

// The field at a place; none where a line of it bars the item. `again` says whether its identifier stood already in the item.
pub fn field_at(
    table: &[bool; 256],
    s: &[u8],
    at: usize,
    ident: usize,
    class: u8,
    again: bool,
    basis: Basis,
    h: Heading,
) -> Option<Passed>
    requires { (table.now ≡ answers) × (at < length s.now) × (kind_of (drop at s.now) ≡ Field ident) × (class ≡ code_of ident) }
    ensures field_to { (terms : Terms) → basis ≡ basis_of terms → FieldTo terms h s.now at ident again result }
    ensures field_leads { FieldLeads s.now at result }
{
    let l = judged_at(table, s, at);
    let end = l.end;
    let said = said_at(class, &s[at..end]);
    if own_breaks(basis, h, ident, again, l.bad, said) {
        return None;
    }
    let next = tail_end(table, s, l.next, class)?;
    Some(Passed {
        kc: kc_of(ident, said),
        next,
    })
}
