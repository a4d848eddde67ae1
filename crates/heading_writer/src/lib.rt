// Writing a heading: an open job that takes every input, refuses with 17 or 16 and then changes no lent byte, and the writer of the 54
// bytes that it shares with other writers. What is written reads as the heading, and what was read is written as the same bytes
// (proofs/RoundTrips.antt). Stands on `headings` (the parts, the layout, reading) and `text` (digits, strings, forms).
#![tactic(auto)]

ghost use Rattle.std.specs.Prelude.{◌≡◌, ◌+◌, ◌≤◌, length};
ghost use Rattle.text.specs.Strings.{Wrote};
ghost use Rattle.heading_writer.specs.Writing.{fits_heading, heading_text, refusal_number, Writes};

use headings::Heading;
use text::forms::{put_digits, put_spaced};
use text::strings::put;

// Why a heading is not written.
#[derive(Clone, Copy, Debug, PartialEq, Eq)]
pub enum WriteError {
    TooLarge,
    TooShort,
}

// A refusal's number by document 01.
impl From<WriteError> for u32 {
    ghost from_gives = { λ e n. n ≡ refusal_number e };

    fn from(error: WriteError) -> u32 {
        match error {
            WriteError::TooLarge => 17,
            WriteError::TooShort => 16,
        }
    }
}

// Whether each part of a heading fits its digits.
#[tactic(auto, unfolding(crate::specs::Writing::fits_heading, text::specs::Forms::numbers_fit))]
fn fits(h: Heading) -> bool
    ensures { result ≡ fits_heading h }
{
    h.kind < 100
        && h.day < 100000000
        && h.first.0 < 10000000
        && h.number.0 < 10000000
        && h.second.0 < 10000000
        && h.output.0 < 10000000
        && h.third.0 < 10000000
}

// Writes a heading's 54 bytes from a place on, of each part its last digits, and answers the place after them.
pub fn put_heading(out: &mut [u8], at: usize, h: Heading) -> usize
    requires { at + 54 ≤ length out.old }
    ensures text { Wrote out.old at (heading_text h) out.new result }
    ensures end { result ≡ at + 54 }
{
    let mut next = put(out, at, b"HD:");
    next = put_digits(out, next, 2, h.kind as u64);
    next = put_spaced(out, next, 8, h.day as u64);
    next = put_spaced(out, next, 7, h.first.0 as u64);
    next = put_spaced(out, next, 7, h.number.0 as u64);
    next = put_spaced(out, next, 7, h.second.0 as u64);
    next = put_spaced(out, next, 7, h.output.0 as u64);
    put_spaced(out, next, 7, h.third.0 as u64)
}

// Writes a heading at a target's start, or leaves the target as it was.
#[tactic(auto, unfolding(crate::specs::Writing::written_target))]
pub fn write(h: Heading, target: &mut [u8]) -> Result<(), WriteError>
    ensures { Writes h target.old result target.new }
{
    if !fits(h) {
        return Err(WriteError::TooLarge);
    }
    if target.len() < 54 {
        return Err(WriteError::TooShort);
    }
    put_heading(target, 0, h);
    Ok(())
}
