// Closing a file that came in portions: no more comes, and it is answered for. `close` is an open job without a `requires`: 18 for a state that
// is not open, and nothing changes; else checking's own answer for all bytes that came, and the state is closed, refused or not. Read
// specs/Closing.antt. Proved in proofs/Cut.antt: however a file is cut, closing answers and lists what checking the whole does with room for 256
// (`cut_anyhow`), so two cuttings give the same (`cut_same`); and a state that was closed stays closed (`closed_stays`). Stands on
// `portions` for the state, on `going` for its end, and on `listing` for the refusals.
#![tactic(auto)]

ghost use Rattle.std.specs.Prelude.{◌≡◌, true, ◌≤◌, min};
ghost use Rattle.portions.specs.Usable.{is_open};
ghost use Rattle.portions.specs.States.{shut_of};
ghost use Rattle.answering.specs.Closing.{HandsOut, Settles, Closes, unclosed_number, closing_number};
ghost use Rattle.answering.specs.declared.CloseError.TheVariants.{Refused};

use headings::Code;
use ledger::Ledger;
use listing::checking::Unchecked;
use portions::{Portions, usable};

// Why there is no total: checking's refusals, or 18.
#[derive(Clone, Copy, Debug, PartialEq, Eq)]
pub enum CloseError {
    Refused(Unchecked),
    Late,
}

impl From<Unchecked> for CloseError {
    ghost from_gives = { λ refusal error. error ≡ Refused refusal };

    fn from(refusal: Unchecked) -> CloseError {
        CloseError::Refused(refusal)
    }
}

// The number of a refusal.
impl From<CloseError> for u32 {
    ghost from_gives = { λ error number. number ≡ unclosed_number error };

    fn from(error: CloseError) -> u32 {
        match error {
            CloseError::Refused(refusal) => u32::from(refusal),
            CloseError::Late => 18,
        }
    }
}

// The answer, and the state after it.
#[derive(Clone, Copy)]
pub struct Closed {
    pub answer: Result<u64, CloseError>,
    pub state: Portions,
}

// How many pairs are handed out: a list has 256 places.
fn handed(kept: usize) -> usize
    ensures { result ≡ min 256 kept }
{
    kept.min(256)
}

// The file ends, and the first pairs that fit are copied out.
fn list_out(
    p: Portions,
    lines: &mut [u32; 256],
    rules: &mut [u32; 256],
    offsets: &mut [u32; 256],
    stood: &mut [u32; 1296],
    first: &mut [u32; 256],
    second: &mut [u32; 256],
    third: &mut [u32; 256],
) -> Ledger
    requires offsets_value { is_open p lines.old rules.old offsets.old ≡ true }
    requires bytes_bound { p.bytes ≤ 10000000 }
    ensures { HandsOut p lines.old rules.old offsets.old stood.old first.old second.old third.old result first.new second.new third.new }
{
    let basis = own_rules::basis_of(Code(p.code), p.day);
    let g = going::finish(basis, lines, rules, offsets, stood, p.going);
    let n = handed(g.kept);
    handing::hand_out(lines, n, first);
    handing::hand_out(rules, n, second);
    handing::hand_out(offsets, n, third);
    g
}

// Answers for what came, by checking's numbers.
fn settle(
    p: Portions,
    lines: &mut [u32; 256],
    rules: &mut [u32; 256],
    offsets: &mut [u32; 256],
    stood: &mut [u32; 1296],
    first: &mut [u32; 256],
    second: &mut [u32; 256],
    third: &mut [u32; 256],
) -> Result<u64, Unchecked>
    requires { is_open p lines.old rules.old offsets.old ≡ true }
    ensures { Settles p lines.old rules.old offsets.old stood.old first.old second.old third.old result lines.new rules.new offsets.new stood.new first.new second.new third.new }
{
    let body = p.going.came;
    if 10000000 < p.bytes {
        return Err(Unchecked::TooLong);
    }
    if !p.seen {
        return Err(Unchecked::NoMark);
    }
    if body + 1 < p.bytes {
        return Err(Unchecked::Leftovers);
    }
    if body == 0 {
        return Err(Unchecked::StartsWithMark);
    }
    let g = list_out(p, lines, rules, offsets, stood, first, second, third);
    Ok(g.total)
}

// No more may come.
fn shut(p: Portions) -> Portions
    ensures { result ≡ shut_of p }
{
    Portions { takes: false, ..p }
}

pub fn close(
    p: Portions,
    lines: &mut [u32; 256],
    rules: &mut [u32; 256],
    offsets: &mut [u32; 256],
    stood: &mut [u32; 1296],
    first: &mut [u32; 256],
    second: &mut [u32; 256],
    third: &mut [u32; 256],
) -> Closed
    ensures { Closes p lines.old rules.old offsets.old stood.old first.old second.old third.old result lines.new rules.new offsets.new stood.new first.new second.new third.new }
{
    if !usable::is_open(p, lines, rules, offsets) {
        return Closed {
            answer: Err(CloseError::Late),
            state: p,
        };
    }
    let settled = settle(p, lines, rules, offsets, stood, first, second, third);
    Closed {
        answer: settled.map_err(CloseError::from),
        state: shut(p),
    }
}

// The number of an answer, 0 for a total.
pub fn number_of(answer: Result<u64, CloseError>) -> u32
    ensures { result ≡ closing_number answer }
{
    match answer {
        Ok(_) => 0,
        Err(error) => u32::from(error),
    }
}
