// The open field: it is judged at its own line, and only its marks are kept. A continuation can only break it.
ghost use Rattle.std.specs.Prelude.{◌≡◌, Option, false, cond, not, ℕ, ◌+◌, ◌≤◌, ◌<◌, ◌^◌, eqb};
ghost use Rattle.laws.specs.Tests.{mark};
ghost use Rattle.fields.specs.declared.classes.Class.{Class};
ghost use Rattle.fields.specs.Classes.{class_of};
ghost use Rattle.fields.specs.Codes.{code_by, code_of, claims};
ghost use Rattle.fields.specs.Readings.{text_of, reading_of};
ghost use Rattle.rules.specs.declared.First.{First};
ghost use Rattle.rules.specs.declared.Payment.{Payment};
ghost use Rattle.rules.specs.Said.{is_unreadable};
ghost use Rattle.rules.specs.FieldRules.{is_failing, is_zero};
ghost use Rattle.judging.specs.Opening.{breaks_tail, broken_by, no_open, more_open, low_open, read_as, halves_marks, plain_marks, said_marks, said_closed, span_closed, stated_closed, heading_in, no_pend, pend_of, open_own, open_loose, low_marks_at};

use blocks::marks::{
    MARK_2, MARK_3, MARK_5, MARK_6, MARK_7, MARK_8, MARK_9, MARK_23, MARK_24, flag,
};
use fields::readings::Reading;
use fields::{classes, readings};
use figures::parts::{Halves, Number};
use headings::Heading;
use items::claiming;
use own_rules::Basis;
use rules::{First, Payment, Range, Sums};

// Its line (0: none), its marks as they stand, the number of its class, its continuations.
#[derive(Clone, Copy)]
pub struct Open {
    pub no: u32,
    pub marks: u64,
    pub class: u8,
    pub tail: u32,
}

// What a field that is claimed when it closes says by its own line: an IN, an S0 to S9.
#[derive(Clone, Copy)]
pub struct Pend {
    pub ident: usize,
    pub said: Reading,
}

pub fn none_open() -> Open
    ensures { result ≡ no_open }
{
    Open {
        no: 0,
        marks: 0,
        class: 0,
        tail: 0,
    }
}

pub fn no_pend() -> Pend
    ensures { result ≡ no_pend }
{
    Pend {
        ident: 0,
        said: Reading::Plain,
    }
}

// Whether a field of a class may not go on with so many continuations, the last of so many bytes.
pub fn breaks_tail(class: u8, tail: u32, length: usize) -> bool
    ensures { result ≡ breaks_tail class tail length }
{
    (((class == 2) | (class == 3)) | ((class == 5) | (class == 6)))
        | ((class == 4) & ((3 < tail) | (38 < length)))
}

fn broken_by(breaks: bool, marks: u64) -> u64
    ensures { result ≡ broken_by breaks marks }
{
    if breaks {
        marks % MARK_6 + MARK_6
    } else {
        marks
    }
}

// One continuation more: where the class does not let it, the field is broken, and 7, 23 and 24 fall away.
fn with_more(o: Open, length: usize) -> Open
    requires { o.tail < 2 ^ 31 }
    ensures { result ≡ more_open o length }
{
    let tail = o.tail + 1;
    let marks = broken_by(breaks_tail(o.class, tail, length), o.marks);
    Open { marks, tail, ..o }
}

// A continuation, or a line of no kind.
pub fn with_low(o: Open, continues: bool, length: usize) -> Open
    requires { o.tail < 2 ^ 31 }
    ensures { result ≡ low_open continues o length }
{
    if continues & !(o.no == 0) {
        return with_more(o, length);
    }
    o
}

// The marks of such a line; `since` is the line of the open heading, `no` that of the open field.
pub fn low_marks(own: u64, since: u32, no: u32, continues: bool) -> u64
    requires { own ≤ 18 }
    ensures { result ≡ low_marks_at own since no continues }
{
    own + flag(((since == 0) & (no == 0)) | !continues, MARK_2) + flag(since == 0, MARK_3)
}

// 23 or 24.
fn number_marks(n: Number) -> u64
    ensures { (result ≡ mark 23 (is_failing n) + mark 24 (is_zero n)) × (result ≤ 2 ^ 24) }
{
    match n {
        Number::Good => 0,
        Number::Failing => MARK_23,
        Number::Zero => MARK_24,
    }
}

// 7, and 23 or 24.
fn halves_marks(h: Halves) -> u64
    ensures { (result ≡ halves_marks h) × (result ≤ 2 ^ 25) }
{
    flag(!h.prefix, MARK_7) + number_marks(h.number)
}

// 6 to 9, 23 and 24; 8 and 9 only where it is the item's first KC, and the heading reads.
pub fn said_marks(basis: Basis, first: bool, reads: bool, h: Heading, said: Reading) -> u64
    ensures { (result ≡ said_marks basis first (read_as reads h) said) × (result ≤ 2 ^ 25) }
{
    match said {
        Reading::Broken => MARK_6,
        Reading::Paid(amount, day) => {
            flag(
                (first & reads) & own_rules::breaks_eight(basis, h.kind, day),
                MARK_8,
            ) + flag(
                (first & reads) & own_rules::breaks_nine(h.kind, amount),
                MARK_9,
            )
        }
        Reading::Party(halves) => halves_marks(halves),
        _ => 0,
    }
}

// What a field says that closes, by its own line: whether it fits is bit 6 of its marks.
fn said_closed(o: Open, p: Pend) -> Reading
    ensures { result ≡ said_closed o p }
{
    readings::if_fits(o.marks % MARK_7 < MARK_6, p.said)
}

// The first IN, with the open field, which closes.
pub fn span_closed(span: First<Range>, o: Open, p: Pend) -> First<Range>
    ensures { result ≡ span_closed span o p }
{
    if o.class == 5 {
        return claiming::first_of(span, claiming::span_by(said_closed(o, p)));
    }
    span
}

// The first S0 to S9, with it.
pub fn stated_closed(stated: Sums, o: Open, p: Pend) -> Sums
    ensures { result ≡ stated_closed stated o p }
{
    if o.class == 6 {
        return claiming::group_claims(stated, classes::sum_group(p.ident), said_closed(o, p));
    }
    stated
}

// An IN or an S0 to S9 is kept until it closes.
pub fn keep_own(pend: Pend, class: u8, ident: usize, said: Reading) -> Pend
    requires { class ≡ code_of ident }
    ensures { result ≡ pend_of pend ident said }
{
    if 5 <= class {
        return Pend { ident, said };
    }
    pend
}

// A field opens; `kc` is the item's first KC above it, `again` says whether its identifier stood already in the item.
pub fn field_open(
    basis: Basis,
    kc: First<Payment>,
    since: u32,
    reads: bool,
    h: Heading,
    no: u32,
    own: u64,
    again: bool,
    ident: usize,
    class: u8,
    said: Reading,
) -> Open
    requires { (class ≡ code_of ident) × (own ≤ 18) }
    ensures { result ≡ cond (eqb since 0) (open_loose no own) (open_own basis kc (read_as reads h) no own again ident said) }
{
    if since == 0 {
        return Open {
            no,
            marks: own + MARK_3,
            class: 0,
            tail: 0,
        };
    }
    let first = (ident == classes::KC) & own_rules::has_no_kc(kc);
    Open {
        no,
        marks: own + flag(again, MARK_5) + said_marks(basis, first, reads, h, said),
        class,
        tail: 0,
    }
}

// 6, 7, 23 and 24 of a field that claims nothing.
fn plain_marks(class: u8, line: &[u8]) -> u64
    ensures { ((k : Class) → code_by k ≡ class → claims class ≡ false → result ≡ plain_marks (reading_of k (text_of line.now))) × (result ≤ 2 ^ 25) }
{
    match readings::read_plain(class, line) {
        Reading::Broken => MARK_6,
        Reading::Party(halves) => halves_marks(halves),
        _ => 0,
    }
}

// A field opens that claims nothing: the item's heading and its first KC do not matter. It is called at one place, and so are those below
// it: they are inlined, and no `Reading` is made.
pub fn plain_open(since: u32, no: u32, own: u64, again: bool, class: u8, line: &[u8]) -> Open
    requires { own ≤ 18 }
    ensures { (j : Basis) (kc : First Payment) (h : Option Heading) (ident : ℕ) → class ≡ code_of ident → claims class ≡ false → result ≡ cond (eqb since 0) (open_loose no own) (open_own j kc h no own again ident (reading_of (class_of ident) (text_of line.now))) }
{
    if since == 0 {
        return Open {
            no,
            marks: own + MARK_3,
            class: 0,
            tail: 0,
        };
    }
    Open {
        no,
        marks: own + flag(again, MARK_5) + plain_marks(class, line),
        class,
        tail: 0,
    }
}

// The heading of the open item.
pub fn read_as(reads: bool, h: Heading) -> Option<Heading>
    ensures { result ≡ read_as reads h }
{
    if reads { Some(h) } else { None }
}

pub fn heading_in(read: Option<Heading>, old: Heading) -> Heading
    ensures { result ≡ heading_in read old }
{
    read.unwrap_or(old)
}

pub fn does_read(read: Option<Heading>) -> bool
    ensures { result ≡ not (is_unreadable read) }
{
    read.is_some()
}
