// Reading a heading's text, an open job: 54 bytes in the layout, or refusal 11.
ghost use Rattle.std.specs.Prelude.{◌≡◌};
ghost use Rattle.headings.specs.Reading.{read_number, ReadsAs};

use super::{Code, Heading, ItemNo};
use text::forms::{has_form, part};

pub fn read(text: &[u8]) -> Option<Heading>
    ensures { ReadsAs text.now result }
{
    if has_form(
        b"HD:00 00000000 0000000 0000000 0000000 0000000 0000000",
        text,
    ) {
        Some(Heading {
            kind: part(text, 3, 2),
            day: part(text, 6, 8),
            first: Code(part(text, 15, 7)),
            number: ItemNo(part(text, 23, 7)),
            second: Code(part(text, 31, 7)),
            output: ItemNo(part(text, 39, 7)),
            third: Code(part(text, 47, 7)),
        })
    } else {
        None
    }
}

// Document 01's number of an answer, 0 where nothing is refused. By hand: an Option carries no error that a From could number.
pub fn number_of(r: Option<Heading>) -> u32
    ensures { result ≡ read_number r }
{
    match r {
        Some(h) => 0,
        None => 11,
    }
}
