// The job line at the start of the program's input.
ghost use Rattle.std.specs.Prelude.{◌≡◌};
ghost use Rattle.listing_texts.specs.Job.{job_line_of, job_of};

use text::forms::{has_form, part};

// The code and the day that it gives.
#[derive(Clone, Copy, Debug, PartialEq, Eq)]
pub struct Job {
    pub code: u32,
    pub day: u32,
}

fn read_line(line: &[u8]) -> Option<Job>
    ensures { result ≡ job_line_of line.now }
{
    if !has_form(b"0000 00000000\n", line) {
        return None;
    }
    Some(Job {
        code: part(line, 0, 4),
        day: part(line, 5, 8),
    })
}

// Reads the 14 bytes of the job line, if they are one; what follows them is the file.
pub fn read_job(input: &[u8]) -> Option<Job>
    ensures { result ≡ job_of input.now }
{
    if input.len() < 14 {
        return None;
    }
    read_line(&input[..14])
}
