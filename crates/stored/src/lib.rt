// A file that comes in portions, as plain numbers that a caller holds: what the pass holds as `carried` writes it, what is kept of the
// open line, and a frame:
//
//   frame    0 the mark of an open state   1 code   2 day   3 bytes   4-5 the open line's place, and how many bytes of the body came
//            6 whether the end mark came   7 whether a CR stands at the end of what is kept
//
// Promised: a state that was stored reads back as itself; any numbers read as some state, and they are open only with the mark, which
// closing takes away. It judges nothing; which states can go on is `portions`' to say.
#![tactic(auto)]

ghost use Rattle.std.specs.Prelude.{◌≡◌, cond, set};
ghost use Rattle.stored.specs.Stored.{frame_of, state_in, Puts};

use carried::Words;
use going::Going;
use joining::Held;
use portions::Portions;

// Any other number says that a state is closed.
const OPEN: u32 = 0x43455254;

// The state that stands in some numbers.
#[tactic(auto, unfolding(crate::specs::Stored::state_in))]
pub fn state_in(
    wide: &[u64; 38],
    length: u64,
    narrow: &[u32; 33],
    frame: &[u32; 8],
    small: &[u8; 19],
    text: &[u8; 68],
) -> Portions
    ensures { result ≡ state_in wide.now length narrow.now frame.now small.now text.now }
{
    let words = Words {
        wide: *wide,
        narrow: *narrow,
        small: *small,
    };
    Portions {
        going: Going {
            pass: carried::pass_of(words),
            held: Held {
                text: *text,
                len: length as usize,
                cr: frame[7] != 0,
            },
            at: frame[4],
            came: frame[5],
        },
        code: frame[1],
        day: frame[2],
        bytes: frame[3],
        seen: frame[6] != 0,
        takes: frame[0] == OPEN,
    }
}

fn mark_of(takes: bool) -> u32
    ensures { result ≡ cond takes 0x43455254 0 }
{
    if takes { OPEN } else { 0 }
}

fn frame_of(p: Portions) -> [u32; 8]
    ensures { result ≡ frame_of p }
{
    let going = p.going;
    [
        mark_of(p.takes),
        p.code,
        p.day,
        p.bytes,
        going.at,
        going.came,
        p.seen as u32,
        going.held.cr as u32,
    ]
}

// Stores a state, where the job is done.
pub fn store(
    done: bool,
    p: Portions,
    wide: &mut [u64; 38],
    length: &mut u64,
    narrow: &mut [u32; 33],
    frame: &mut [u32; 8],
    small: &mut [u8; 19],
    text: &mut [u8; 68],
)
    ensures { Puts done p wide.old length.old narrow.old frame.old small.old text.old wide.new length.new narrow.new frame.new small.new text.new }
{
    if !done {
        return;
    }
    let going = p.going;
    let words = carried::words_of(going.pass);
    // An array of a field goes by way of a variable: a straight `*wide = words.wide` was tried, and the borrow checker does not cover it.
    let w = words.wide;
    let n = words.narrow;
    let s = words.small;
    let t = going.held.text;
    *wide = w;
    *narrow = n;
    *small = s;
    *length = going.held.len as u64;
    *text = t;
    *frame = frame_of(p);
}

// Takes the mark away, where the job is done.
pub fn shut_frame(done: bool, frame: &mut [u32; 8])
    ensures { frame.new ≡ cond done (set frame.old 0 0) frame.old }
{
    if !done {
        return;
    }
    frame[0] = 0;
}
