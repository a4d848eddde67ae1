// One forward pass over the lines of a body: no line is looked at again, and none ahead. A field is judged at its own line and entered
// when the next heading or field comes, a heading when the next heading comes, and the first heading of a block when the block ends or the file does.
// Promised by `enter_faults`, for every body of at most 10,000,000 bytes and three lent slices of equal length: the slices and the
// total are those of `faults_in` of `rules`, beside each fault the offset of its line. It is `start`, one `feed` of the whole body and
// `finish`; fed one text after the other the pass goes on where it stood, and what it holds means the same (specs/Standing.antt).
// It judges no rule: lines and fields are judged by `judging`, items by `closing`, and entered as they close by `shutting`. The list stands in `ledger`,
// the cut in `lines`, the table of characters in `text`.
#![tactic(auto)]

ghost use Rattle.std.specs.Prelude.{◌≡◌, ◌+◌, ◌≤◌, length};
ghost use Rattle.lines.specs.Lines.{offset_of};
ghost use Rattle.rules.specs.Terms.{input};
ghost use Rattle.rules.specs.Faults.{faults_in};
ghost use Rattle.ledger.specs.Slices.{Listed};
ghost use Rattle.pass.specs.Standing.{fresh, Bounded, Fed, Finished};

use blocks::Block;
use closing::Wait;
use fields::kinds::Kind;
use fields::{classes, kinds, readings};
use headings::{Code, Heading, ItemNo};
use items::claiming;
use judging::opening::{Open, Pend};
use judging::{marking, opening};
use ledger::Ledger;
use own_rules::Basis;
use rules::{First, Payment, Range, Sums};
use shutting::{Starts, again, count_item, shut_all, unseen};

// No heading yet.
fn no_heading() -> Heading {
    Heading {
        kind: 0,
        day: 0,
        first: Code(0),
        number: ItemNo(0),
        second: Code(0),
        output: ItemNo(0),
        third: Code(0),
    }
}

// All that the pass knows between two lines, but for what stands in the lent slices and in the array of identifiers: the list, the open
// field and what it will claim, the line and the marks of the open heading, whether it reads and as what, its item's first KC, first IN
// and first S0 to S9, the account, the heading that waits, where these lines start, and how many lines there were.
#[derive(Clone, Copy)]
pub struct Pass {
    pub ledger: Ledger,
    pub field: Open,
    pub pend: Pend,
    pub since: u32,
    pub top: u64,
    pub reads: bool,
    pub heading: Heading,
    pub kc: First<Payment>,
    pub span: First<Range>,
    pub stated: Sums,
    pub block: Block,
    pub wait: Wait,
    pub starts: Starts,
    pub n: u32,
}

// Before the first line.
pub fn start() -> Pass
    ensures { result ≡ fresh result.heading }
{
    let ledger = ledger::empty();
    let field = opening::none_open();
    let pend = opening::no_pend();
    let heading = no_heading();
    let stated = claiming::no_sums();
    let block = account::start();
    let wait = closing::no_wait();
    let starts = Starts {
        field: 0,
        head: 0,
        wait: 0,
    };
    Pass {
        ledger,
        field,
        pend,
        since: 0,
        top: 0,
        reads: false,
        heading,
        kc: First::Missing,
        span: First::Missing,
        stated,
        block,
        wait,
        starts,
        n: 0,
    }
}

// Judges the lines of a text after all that came before it; the text begins at the offset `base` of the file. What is kept stands in
// locals over the loop: handed on whole at each line it is slower. So is an item that closes with the groups by value: those of the account are
// lent, and what it states of them is asked at a 51 alone. A KC line touches the first KC and nothing else of the item's claims.
pub fn feed(
    s: &[u8],
    base: u32,
    basis: Basis,
    lines: &mut [u32],
    rules: &mut [u32],
    offsets: &mut [u32],
    stood: &mut [u32; 1296],
    p: Pass,
) -> Pass
    requires s_bound { base + length s.now ≤ 10000000 }
    requires bounded { Bounded base p lines.old rules.old offsets.old }
    ensures bounded_2 { Bounded (base + length s.now) result lines.new rules.new offsets.new }
    ensures fed { Fed s.now base basis lines.old rules.old offsets.old stood.old p lines.new rules.new offsets.new stood.new result }
{
    let places = kinds::places();
    let table = text::characters::table();
    let codes = classes::codes();
    let mut g = p.ledger;
    let mut open = p.field;
    let mut pend = p.pend;
    let mut since = p.since;
    let mut top = p.top;
    let mut reads = p.reads;
    let mut h = p.heading;
    let mut kc = p.kc;
    let mut span = p.span;
    let mut stated = p.stated;
    let whole = p.block;
    let mut course = account::course_of(whole);
    let mut counts = whole.counts;
    let mut sums = whole.sums;
    let mut wait = p.wait;
    let mut starts = p.starts;
    let mut at = 0;
    let mut n = p.n;
    while at < s.len() {
        let f = lines::line_from(s, at);
        let end = f.end;
        let from = at;
        let here = base + at as u32;
        n += 1;
        let bad = text::characters::holds_inadmissible(&table, &s[from..end], f.odd);
        let own = marking::line_marks(bad, f.ended);
        let x = kinds::kind_from(&places, &s[from..end]);
        at = f.next;
        match x {
            Kind::Heading => {
                if 5 <= open.class {
                    span = opening::span_closed(span, open, pend);
                    stated = opening::stated_closed(stated, open, pend);
                }
                let mut groups: u64 = 0;
                if reads & (h.kind == 51) {
                    groups = closing::group_marks_of(counts, sums, stated);
                }
                let t = shut_all(
                    lines, rules, offsets, g, starts, basis, open, since, top, reads, h, kc, span,
                    groups, course, wait,
                );
                count_item(&mut counts, &mut sums, since, reads, h, kc);
                g = t.ledger;
                course = t.course;
                wait = t.wait;
                starts = Starts {
                    field: 0,
                    head: here,
                    wait: t.start,
                };
                kc = First::Missing;
                span = First::Missing;
                stated = claiming::no_sums();
                open = opening::none_open();
                let read = headings::reading::read(&s[from..end]);
                h = opening::heading_in(read, h);
                reads = opening::does_read(read);
                top = own;
                since = n;
            }
            Kind::Continuation => {
                g = ledger::enter(
                    lines,
                    rules,
                    offsets,
                    g,
                    n,
                    here,
                    opening::low_marks(own, since, open.no, true),
                );
                reads = reads & !(open.no == 0);
                open = opening::with_low(open, true, end - from);
            }
            Kind::Field(ident) => {
                g = ledger::enter(lines, rules, offsets, g, open.no, starts.field, open.marks);
                starts.field = here;
                if 5 <= open.class {
                    span = opening::span_closed(span, open, pend);
                    stated = opening::stated_closed(stated, open, pend);
                }
                let stands = again(stood, ident, n, since);
                let class = codes[ident];
                if (class == 1) | (5 <= class) {
                    let said = readings::read_claim(class, &s[from..end]);
                    open = opening::field_open(
                        basis, kc, since, reads, h, n, own, stands, ident, class, said,
                    );
                    if since != 0 {
                        kc = claiming::kc_own(kc, ident, said);
                        pend = opening::keep_own(pend, class, ident, said);
                    }
                } else {
                    open = opening::plain_open(since, n, own, stands, class, &s[from..end]);
                }
            }
            Kind::Other => {
                g = ledger::enter(
                    lines,
                    rules,
                    offsets,
                    g,
                    n,
                    here,
                    opening::low_marks(own, since, open.no, false),
                );
            }
        }
    }
    let block = account::block_of(course, counts, sums);
    Pass {
        ledger: g,
        field: open,
        pend,
        since,
        top,
        reads,
        heading: h,
        kc,
        span,
        stated,
        block,
        wait,
        starts,
        n,
    }
}

// The file ends: all that is open closes, and the heading that waits for rule 16 has it.
pub fn finish(
    basis: Basis,
    lines: &mut [u32],
    rules: &mut [u32],
    offsets: &mut [u32],
    p: Pass,
) -> Ledger
    requires { Bounded 10000000 p lines.old rules.old offsets.old }
    ensures { Finished basis lines.old rules.old offsets.old p result lines.new rules.new offsets.new }
{
    let g = p.ledger;
    let starts = p.starts;
    let open = p.field;
    let pend = p.pend;
    let h = p.heading;
    let kc = p.kc;
    let first = p.span;
    let before = p.stated;
    let whole = p.block;
    let course = account::course_of(whole);
    let counts = whole.counts;
    let sums = whole.sums;
    let wait = p.wait;
    let span = opening::span_closed(first, open, pend);
    let stated = opening::stated_closed(before, open, pend);
    let mut groups: u64 = 0;
    if p.reads & (h.kind == 51) {
        groups = closing::group_marks_of(counts, sums, stated);
    }
    let t = shut_all(
        lines, rules, offsets, g, starts, basis, open, p.since, p.top, p.reads, h, kc, span,
        groups, course, wait,
    );
    let after = t.course;
    let last = closing::last_marks(after.any, t.wait);
    ledger::enter(lines, rules, offsets, t.ledger, t.wait.line, t.start, last)
}

// Enters the faults of a body, for the submitter's code and the accounting day.
pub fn enter_faults(
    s: &[u8],
    code: u32,
    day: u32,
    lines: &mut [u32],
    rules: &mut [u32],
    offsets: &mut [u32],
) -> Ledger
    requires s_len_bound { length s.now ≤ 10000000 }
    requires lines_len { length lines.old ≡ length rules.old }
    requires lines_len_2 { length lines.old ≡ length offsets.old }
    ensures { Listed (offset_of s.now) (faults_in (input code day) s.now) lines.old rules.old offsets.old result lines.new rules.new offsets.new }
{
    let basis = own_rules::basis_of(Code(code), day);
    let mut stood = unseen();
    let first = start();
    let p = feed(s, 0, basis, lines, rules, offsets, &mut stood, first);
    finish(basis, lines, rules, offsets, p)
}
