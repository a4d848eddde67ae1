// What the pass does with lent memory. What is open closes: the field, and the item with its heading and the one that waits for rule 16 are
// entered in the lent slices, each beside where its line starts; and an array keeps at which line each identifier last stood. Promised:
// what is entered is what `by_faults` of `closing` says, and the third slice stays a function of the lines. It stands on `closing`, `judging` and
// `ledger`.
#![tactic(auto)]

ghost use Rattle.std.specs.Prelude.{◌≡◌, ◌++◌, ◌-◌, ◌≤◌, ◌<◌, ◌^◌, ltb, length, get_or, set, replicate};
ghost use Rattle.ledger.specs.Slices.{Ready, Entered, Kept};
ghost use Rattle.ledger.specs.Marks.{marked};
ghost use Rattle.closing.specs.Closing.{close_by, by_faults, counts_by, sums_by};
ghost use Rattle.judging.specs.Opening.{read_as};
ghost use Rattle.shutting.specs.Starts.{Stands, WaitsAt, start_of};

use blocks::Course;
use closing::Wait;
use headings::Heading;
use judging::opening;
use judging::opening::Open;
use ledger::Ledger;
use own_rules::Basis;
use rules::{First, Payment, Range};

// No identifier stood.
pub fn unseen() -> [u32; 1296]
    ensures { result ≡ replicate 1296 0 }
{
    [0; 1296]
}

// Whether an identifier stood since a line; from now on it last stood at `no`. So nothing is cleared when an item ends.
pub fn again(stood: &mut [u32; 1296], ident: usize, no: u32, since: u32) -> bool
    requires { ident < 1296 }
    ensures value { result ≡ ltb since (get_or stood.old ident 0) }
    ensures stood_after { stood.new ≡ set stood.old ident no }
{
    let last = stood[ident];
    stood[ident] = no;
    since < last
}

// Where the lines start that are not entered yet: that of the open field, of the open heading, and of the heading that waits.
#[derive(Clone, Copy)]
pub struct Starts {
    pub field: u32,
    pub head: u32,
    pub wait: u32,
}

#[derive(Clone, Copy)]
pub struct Closed {
    pub ledger: Ledger,
    pub course: Course,
    pub wait: Wait,
    pub start: u32,
}

// Where the heading starts that waits when an item has closed: none (0), the item's own, or the one that waited.
fn start_of(starts: Starts, line: u32, no: u32) -> u32
    ensures { result ≡ start_of starts line no }
{
    if line == 0 {
        return 0;
    }
    if line == no { starts.head } else { starts.wait }
}

// The groups of the account with the item that closes counted in, whose heading stands at the line `no` (0: none).
pub fn count_item(
    counts: &mut [u64; 10],
    sums: &mut [u64; 10],
    no: u32,
    reads: bool,
    h: Heading,
    kc: First<Payment>,
)
    ensures counts_after { counts.new ≡ counts_by counts.old no (read_as reads h) kc }
    ensures sums_after { sums.new ≡ sums_by sums.old no (read_as reads h) kc }
{
    if no == 0 {
        return;
    }
    let read = opening::read_as(reads, h);
    account::count_in(counts, sums, read, kc);
}

// The open item closes, whose heading stands at the line `no` (0: none); `groups` are its heading's marks 30 to 39.
fn shut_item(
    lines: &mut [u32],
    rules: &mut [u32],
    offsets: &mut [u32],
    g: Ledger,
    starts: Starts,
    basis: Basis,
    no: u32,
    own: u64,
    read: Option<Heading>,
    kc: First<Payment>,
    span: First<Range>,
    groups: u64,
    c: Course,
    w: Wait,
) -> Closed
    requires ready { Ready g.kept lines.old rules.old }
    requires lines_len { length lines.old ≡ length offsets.old }
    requires total_bound { (g.total < 2 ^ 62) × (w.marks < 2 ^ 41) × (own ≤ 18) × (groups ≤ 2 ^ 40 - 2 ^ 30) }
    ensures entered { Entered (by_faults basis c w no own read kc span groups) g lines.old rules.old result.ledger lines.new rules.new }
    ensures course_value { (result.course ≡ (close_by basis c w no own read kc span groups).course) × (result.wait ≡ (close_by basis c w no own read kc span groups).wait) × (result.wait.marks < 2 ^ 41) }
    ensures kept { Kept (λ off. Stands off starts no w.line) g.kept lines.old offsets.old result.ledger.kept lines.new offsets.new }
    ensures waits_at { WaitsAt starts no w.line result.wait.line result.start }
{
    let s = closing::close_item(basis, c, w, no, own, read, kc, span, groups);
    let first = ledger::enter(lines, rules, offsets, g, w.line, starts.wait, s.told);
    let ledger = ledger::enter(lines, rules, offsets, first, no, starts.head, s.marks);
    Closed {
        ledger,
        course: s.course,
        wait: s.wait,
        start: start_of(starts, s.wait.line, no),
    }
}

// All that is open closes.
pub fn shut_all(
    lines: &mut [u32],
    rules: &mut [u32],
    offsets: &mut [u32],
    g: Ledger,
    starts: Starts,
    basis: Basis,
    o: Open,
    no: u32,
    own: u64,
    reads: bool,
    h: Heading,
    kc: First<Payment>,
    span: First<Range>,
    groups: u64,
    c: Course,
    w: Wait,
) -> Closed
    requires ready { Ready g.kept lines.old rules.old }
    requires lines_len { length lines.old ≡ length offsets.old }
    requires total_bound { (g.total < 2 ^ 61) × (w.marks < 2 ^ 41) × (own ≤ 18) × (groups ≤ 2 ^ 40 - 2 ^ 30) }
    ensures entered { Entered (marked o.no o.marks ++ by_faults basis c w no own (read_as reads h) kc span groups) g lines.old rules.old result.ledger lines.new rules.new }
    ensures course_value { (result.course ≡ (close_by basis c w no own (read_as reads h) kc span groups).course) × (result.wait ≡ (close_by basis c w no own (read_as reads h) kc span groups).wait) × (result.wait.marks < 2 ^ 41) }
    ensures kept { Kept (λ off. (off o.no ≡ starts.field) × Stands off starts no w.line) g.kept lines.old offsets.old result.ledger.kept lines.new offsets.new }
    ensures waits_at { WaitsAt starts no w.line result.wait.line result.start }
{
    let g1 = ledger::enter(lines, rules, offsets, g, o.no, starts.field, o.marks);
    let read = opening::read_as(reads, h);
    shut_item(
        lines, rules, offsets, g1, starts, basis, no, own, read, kc, span, groups, c, w,
    )
}
