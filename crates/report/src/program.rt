// The listing program's job: what it prints for an input.
ghost use Rattle.std.specs.Prelude.{◌≡◌, ◌≤◌, min, length, Some};
ghost use Rattle.ledger.specs.Slices.{held};
ghost use Rattle.listing_texts.specs.Printing.{Begins};
ghost use Rattle.report.specs.Program.{answer_text, file_text, list_of};

use listing::checking::{check, number_of};
use listing_texts::job::{Job, read_job};
use listing_texts::printing::{put_listing, put_refused};

// How many rows a listing with room for 256 pairs has.
fn rows_of(total: u64) -> usize
    ensures { result ≡ min 256 total }
{
    total.min(256) as usize
}

// The line of a refusal, or for 0 the listing, from the first byte on. 256 rows and two lines take 13,362 bytes at most.
pub fn put_answer(
    out: &mut [u8],
    refusal: u32,
    code: u32,
    day: u32,
    lines: &[u32; 256],
    rules: &[u32; 256],
    total: u64,
) -> usize
    requires { 13362 ≤ length out.old }
    ensures { Begins out.old (answer_text refusal code day (held (min 256 total) lines.now rules.now) total) out.new result }
{
    if refusal != 0 {
        return put_refused(out, refusal);
    }
    let n = rows_of(total);
    put_listing(out, code, day, lines, rules, n, total)
}

// Checks the file of a job, with room for 256 pairs. The listing has no offsets: document 01 fixes its lines.
fn list_file(file: &[u8], job: Job, out: &mut [u8]) -> usize
    requires { 13362 ≤ length out.old }
    ensures { Begins out.old (file_text (Some job) file.now) out.new result }
{
    let mut lines: [u32; 256] = [0; 256];
    let mut rules: [u32; 256] = [0; 256];
    let mut offsets: [u32; 256] = [0; 256];
    let Job { code, day } = job;
    let answer = check(file, code, day, &mut lines, &mut rules, &mut offsets);
    put_answer(
        out,
        number_of(answer),
        code,
        day,
        &lines,
        &rules,
        answer.unwrap_or(0),
    )
}

// Writes what the program prints for an input, an open job.
pub fn list(input: &[u8], out: &mut [u8; 16384]) -> usize
    ensures { Begins out.old (list_of input.now) out.new result }
{
    if 65536 < input.len() {
        return put_refused(out, 7);
    }
    match read_job(input) {
        Some(job) => list_file(&input[14..], job, out),
        None => put_refused(out, 8),
    }
}
