// How far a file is read: `body_len` counts the bytes before the first 1A, sixty-four at a time. Promised, for every file: the length of
// its `body` (specs/Lines.antt of `lines`); what stands behind the body is told in proofs/Body.antt. It stands on crates `laws` and
// `lines`.
#![tactic(auto)]

ghost use Rattle.std.specs.Prelude.{◌≡◌, not, length, position};
ghost use Rattle.laws.specs.Lists.{any_of};
ghost use Rattle.laws.specs.Tests.{is_byte};
ghost use Rattle.lines.specs.Lines.{body};

const MARK: u8 = 0x1a;

// Whether no mark stands in a block. A loop that only keeps a flag is compiled to wide compares; std's `contains` took twice as long.
fn is_clear(block: &[u8; 64]) -> bool
    ensures { result ≡ not (any_of (is_byte 0x1a) block.now) }
{
    let mut clear = true;
    for b in block {
        clear &= *b != MARK;
    }
    clear
}

fn first_mark(s: &[u8]) -> Option<usize>
    ensures { result ≡ position (is_byte 0x1a) s.now }
{
    s.iter().position(|b| *b == MARK)
}

// How many bytes stand before the first 1A, or all where there is none. Blocks without it are passed by at wide compares.
pub fn body_len(file: &[u8]) -> usize
    ensures { result ≡ length (body file.now) }
{
    let mut rest = file;
    while let Some((block, after)) = rest.split_first_chunk::<64>() {
        if !is_clear(block) {
            break;
        }
        rest = after;
    }
    file.len() - rest.len() + first_mark(rest).unwrap_or(rest.len())
}
