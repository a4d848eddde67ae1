// What a field's own text says, class by class.
ghost use Rattle.std.specs.Prelude.{◌≡◌, true, false, ◌≤◌, length, drop};
ghost use Rattle.figures.specs.Layouts.{fits, no_more, maybe_rest, maybe_name};
ghost use Rattle.fields.specs.Codes.{code_by, claims};
ghost use Rattle.fields.specs.Readings.{text_of, reading_of, if_fits};

use crate::classes::Class;
use figures::parts;
use figures::parts::Halves;
use headings::{Amount, ItemNo};

// `Broken` where the text has not its layout. An amount and its day; the first and the last number; a group's count and sum;
// the halves of an account.
#[derive(Clone, Copy)]
pub enum Reading {
    Broken,
    Plain,
    Paid(Amount, u32),
    Span(ItemNo, ItemNo),
    Stated(u32, Amount),
    Party(Halves),
}

pub fn if_fits(fits: bool, said: Reading) -> Reading
    ensures { result ≡ if_fits fits said }
{
    if fits { said } else { Reading::Broken }
}

// Whether nothing stands from a place on.
fn ends(t: &[u8], at: usize) -> bool
    ensures { result ≡ fits no_more (drop at t.now) }
{
    t.len() <= at
}

// Whether nothing stands from a place on, or a space and any rest.
fn ends_or_rest(t: &[u8], at: usize) -> bool
    ensures { result ≡ fits maybe_rest (drop at t.now) }
{
    t.len() <= at || t[at] == b' '
}

// Whether nothing stands from a place on, or a space and a name.
fn ends_or_name(t: &[u8], at: usize) -> bool
    ensures { result ≡ fits maybe_name (drop at t.now) }
{
    t.len() <= at || (t[at] == b' ' && t.len() - (at + 1) <= 20)
}

fn read_money(t: &[u8]) -> Reading
    ensures { result ≡ reading_of Class.Money t.now }
{
    let Some(two) = number_reader::read_two(t, 1, 15, 8, 8) else {
        return Reading::Broken;
    };
    if_fits(
        ends_or_rest(t, two.end),
        Reading::Paid(Amount(two.first), two.second as u32),
    )
}

fn read_range(t: &[u8]) -> Reading
    ensures { result ≡ reading_of Class.Range t.now }
{
    let Some(two) = number_reader::read_two(t, 1, 7, 1, 7) else {
        return Reading::Broken;
    };
    if_fits(
        ends(t, two.end),
        Reading::Span(ItemNo(two.first as u32), ItemNo(two.second as u32)),
    )
}

fn read_group(t: &[u8]) -> Reading
    ensures { result ≡ reading_of Class.Group t.now }
{
    let Some(two) = number_reader::read_two(t, 1, 7, 1, 17) else {
        return Reading::Broken;
    };
    if_fits(
        ends(t, two.end),
        Reading::Stated(two.first as u32, Amount(two.second)),
    )
}

// Each part is read and weighed in one loop, where it stands.
fn read_account(t: &[u8]) -> Reading
    ensures { result ≡ reading_of Class.Account t.now }
{
    let a = parts::weighed_at(t, 0, 6);
    let mid = a.end;
    if t.len() <= mid || t[mid] != b' ' {
        return Reading::Broken;
    }
    let b = parts::weighed_at(t, mid + 1, 10);
    let end = b.end;
    if end < mid + 2 {
        return Reading::Broken;
    }
    if_fits(
        ends_or_name(t, end),
        Reading::Party(Halves {
            prefix: a.sum % 11 == 0,
            number: parts::number_by(b.any == 0, b.sum % 11 == 0),
        }),
    )
}

fn read_number(t: &[u8]) -> Reading
    ensures { result ≡ reading_of Class.Number t.now }
{
    let n = number_reader::number_at(t, 0, 10);
    let end = n.end;
    if_fits((1 <= end) & ends(t, end), Reading::Plain)
}

// The text of a field line: what stands after the colon.
fn text_of(line: &[u8]) -> &[u8]
    ensures { result.now ≡ text_of line.now }
{
    &line[line.len().min(3)..]
}

// What a field line says whose class, by its number, claims something.
pub fn read_claim(class: u8, line: &[u8]) -> Reading
    ensures { (k : Class) → code_by k ≡ class → claims class ≡ true → result ≡ reading_of k (text_of line.now) }
{
    let t = text_of(line);
    if class == 1 {
        return read_money(t);
    }
    if class == 5 {
        return read_range(t);
    }
    read_group(t)
}

// What a field line says of any other class; of most only a text's length is asked, which takes no branch. The library calls it at one
// place, so that it is inlined there and no `Reading` is made.
pub fn read_plain(class: u8, line: &[u8]) -> Reading
    ensures { (k : Class) → code_by k ≡ class → claims class ≡ false → result ≡ reading_of k (text_of line.now) }
{
    let t = text_of(line);
    if class == 2 {
        return read_number(t);
    }
    if class == 3 {
        return read_account(t);
    }
    if_fits(
        (class != 4) | ((1 <= t.len()) & (t.len() <= 35)),
        Reading::Plain,
    )
}
