// Writing an output file (document 02, A7): the items of a slice, their headings derived, as one block under a closing item, then the end mark.
// Promised, with no `requires`: `Delivers` of specs/Delivery.antt, which one answer and one target meet. Stands on `surveying` for what is asked
// of the items, on `outgoing_lines` and `closing_lines` for the lines, on `headings` for the 51, and on `listing` for what a code and an accounting
// day are. specs/Model.antt has what the parts promise each other.
#![tactic(auto)]

ghost use Rattle.std.specs.Prelude.{◌≡◌, false, not, ◌||◌, ◌++◌, ◌≤◌, ◌<◌, eqb, ltb, length};
ghost use Rattle.std.specs.List.{list_any};
ghost use Rattle.laws.specs.Lists.{any_of};
ghost use Rattle.laws.specs.Refusals.{first};
ghost use Rattle.text.specs.Strings.{Wrote};
ghost use Rattle.lines.specs.Lines.{lines};
ghost use Rattle.lines.specs.Texts.{file_of};
ghost use Rattle.rules.specs.Rows.{rows_from};
ghost use Rattle.item_reader.specs.Slips.{Headed};
ghost use Rattle.outgoing_lines.specs.Outgoing.{any_underived, items_text};
ghost use Rattle.surveying.specs.Items.{items_of};
ghost use Rattle.delivery.specs.Delivery.{is_large_sum, output_file, undelivered_number, delivered_number, Delivers};
ghost use Rattle.delivery.specs.Model.{Answers, closing_rows, lines_refusals, items_refusals, sent_file};

use closing_lines::put_closing;
use heading_writer::put_heading;
use headings::{Code, Heading, ItemNo};
use listing::checking;
use outgoing_lines::{at_or_zero, put_lines, size_of};
use surveying::{count_items, lead_if_derived, survey_all};
use text::strings::{put, starts};

// Why no file is written.
#[derive(Clone, Copy, Debug, PartialEq, Eq)]
pub enum DeliverError {
    BadCode,
    BadDay,
    NotItems,
    NotSent,
    Mixed,
    TooLarge,
    TooShort,
}

// Document 02's number of a refusal.
impl From<DeliverError> for u32 {
    ghost from_gives = { λ error number. number ≡ undelivered_number error };

    fn from(error: DeliverError) -> u32 {
        match error {
            DeliverError::BadCode => 1,
            DeliverError::BadDay => 2,
            DeliverError::NotItems => 30,
            DeliverError::NotSent => 31,
            DeliverError::Mixed => 32,
            DeliverError::TooLarge => 33,
            DeliverError::TooShort => 34,
        }
    }
}

// A closing item and the end mark, from the start on.
fn put_end(
    out: &mut [u8],
    certis: u32,
    day: u32,
    to: u32,
    first: u64,
    last: u64,
    counts: &[u64; 10],
    sums: &[u64; 10],
) -> usize
    requires { 753 ≤ length out.old }
    ensures text { Wrote out.old 0 (file_of (closing_rows certis day to first last counts.now sums.now)) out.new result }
    ensures end { result ≤ 753 }
{
    let h = Heading {
        kind: 51,
        day,
        first: Code(certis),
        number: ItemNo(0),
        second: Code(to),
        output: ItemNo(0),
        third: Code(0),
    };
    let mut next = put_heading(out, 0, h);
    next = put(out, next, b"\r\n");
    next = put_closing(out, next, first, last, counts, sums);
    put(out, next, b"\x1a")
}

// Whether a sum has more digits than a closing item takes.
fn any_large(sums: &[u64]) -> bool
    ensures { result ≡ list_any is_large_sum sums.now }
{
    sums.iter().any(|sum| 100000000000000000 <= *sum)
}

// The items' lines, and what follows them.
fn put_file(
    items: &[u8],
    outcomes: &[u32],
    standings: &[u32],
    start: u32,
    rest: &[u8],
    target: &mut [u8],
) -> Result<u64, DeliverError>
    requires value { any_underived (record { outcomes = outcomes.now; standings = standings.now; start = start }) 0 (rows_from 1 (lines items.now)) ≡ false }
    requires rest_len_bound { length rest.now ≤ 753 }
    ensures { Answers (first (lines_refusals false (items_text (record { outcomes = outcomes.now; standings = standings.now; start = start }) items.now ++ rest.now) (length target.old))) (items_text (record { outcomes = outcomes.now; standings = standings.now; start = start }) items.now ++ rest.now) target.old result target.new }
{
    let size = size_of(items, outcomes) + (rest.len() as u64);
    if 4000000000 < size {
        return Err(DeliverError::TooLarge);
    }
    if (target.len() as u64) < size {
        return Err(DeliverError::TooShort);
    }
    let next = put_lines(target, items, outcomes, standings, start);
    let end = put(target, next, rest);
    Ok(end as u64)
}

// Items that are sent, n of them and of one class, by their groups.
fn deliver_sent(
    items: &[u8],
    outcomes: &[u32],
    standings: &[u32],
    certis: u32,
    day: u32,
    start: u32,
    n: usize,
    to: u32,
    counts: &[u64; 10],
    sums: &[u64; 10],
    target: &mut [u8],
) -> Result<u64, DeliverError>
    requires value { any_underived (record { outcomes = outcomes.now; standings = standings.now; start = start }) 0 (rows_from 1 (lines items.now)) ≡ false }
    requires le_n { (1 ≤ n) × (n ≤ 30000) }
    ensures { Answers (first (lines_refusals (any_of is_large_sum sums.now) (sent_file items.now (record { outcomes = outcomes.now; standings = standings.now; start = start }) certis day n to counts.now sums.now) (length target.old))) (sent_file items.now (record { outcomes = outcomes.now; standings = standings.now; start = start }) certis day n to counts.now sums.now) target.old result target.new }
{
    if any_large(sums) {
        return Err(DeliverError::TooLarge);
    }
    let mut rest = [0u8; 753];
    let last = (start as u64) + ((n - 1) as u64);
    let m = put_end(&mut rest, certis, day, to, start as u64, last, counts, sums);
    put_file(items, outcomes, standings, start, &rest[..m], target)
}

// The items of a slice that begins with a heading, n of them.
fn deliver_items(
    items: &[u8],
    outcomes: &[u32],
    standings: &[u32],
    certis: u32,
    day: u32,
    start: u32,
    n: usize,
    target: &mut [u8],
) -> Result<u64, DeliverError>
    requires headed { Headed items.now 0 × (0 < length items.now) }
    requires n_value { (n ≡ length (items_of items.now)) × (1 ≤ n) × (n ≤ 30000) }
    ensures { Answers (first (items_refusals items.now (record { outcomes = outcomes.now; standings = standings.now; start = start }) certis day (length target.old))) (output_file items.now (record { outcomes = outcomes.now; standings = standings.now; start = start }) certis day) target.old result target.new }
{
    let outcome = at_or_zero(outcomes, 0);
    let standing = at_or_zero(standings, 0);
    let Some(lead) = lead_if_derived(items, outcome, standing, start as u64) else {
        return Err(DeliverError::NotSent);
    };
    let mut counts = [0u64; 10];
    let mut sums = [0u64; 10];
    let Some(other) = survey_all(
        items,
        outcomes,
        standings,
        start,
        certis,
        day,
        lead,
        &mut counts,
        &mut sums,
    ) else {
        return Err(DeliverError::NotSent);
    };
    if other {
        return Err(DeliverError::Mixed);
    }
    deliver_sent(
        items, outcomes, standings, certis, day, start, n, lead.to, &counts, &sums, target,
    )
}

// No items, too many, or not as many outcomes or standings.
fn not_items(n: usize, outcomes: usize, standings: usize) -> bool
    ensures { result ≡ (eqb n 0 || (ltb 30000 n || (not (eqb outcomes n) || not (eqb standings n)))) }
{
    (n == 0) | (30000 < n) | (outcomes != n) | (standings != n)
}

pub fn deliver(
    items: &[u8],
    outcomes: &[u32],
    standings: &[u32],
    certis: u32,
    day: u32,
    start: u32,
    target: &mut [u8],
) -> Result<u64, DeliverError>
    ensures { Delivers items.now (record { outcomes = outcomes.now; standings = standings.now; start = start }) certis day target.old result target.new }
{
    if !checking::is_code(certis) {
        return Err(DeliverError::BadCode);
    }
    if !checking::is_accounting_day(day) {
        return Err(DeliverError::BadDay);
    }
    let n = count_items(items);
    if not_items(n, outcomes.len(), standings.len()) {
        return Err(DeliverError::NotItems);
    }
    // A line before the first heading breaks rule 3.
    if !starts(items, b"HD:") {
        return Err(DeliverError::NotSent);
    }
    deliver_items(items, outcomes, standings, certis, day, start, n, target)
}

// Document 02's number of an answer, 0 for a file that was written.
pub fn number_of(answer: Result<u64, DeliverError>) -> u32
    ensures { result ≡ delivered_number answer }
{
    match answer {
        Ok(_) => 0,
        Err(error) => u32::from(error),
    }
}
