// The numbers that a file uses and the ranges that a register keeps, as keys: a day and a number in one. Promised: the keys of the items of
// an accepted file, these in order, and the ends of the ranges that stay. Stands on `item_reader` for the items, `register` for the bytes, and
// `sorting`; its proofs cite `merging`.
#![tactic(auto)]

ghost use Rattle.std.specs.Prelude.{◌≡◌, true, ◌+◌, ◌*◌, ◌≤◌, length, drop};
ghost use Rattle.item_reader.specs.Slips.{slips_from};
ghost use Rattle.item_reader.specs.Accepted.{Readable, Each};
ghost use Rattle.register.specs.Register.{ranges_in};
ghost use Rattle.register.specs.Entering.{used, kept};
ghost use Rattle.register.specs.Spans.{day_key, spans_of};
ghost use Rattle.sorting.specs.Sorting.{Within, Ordered};
ghost use Rattle.gathering.specs.Keys.{Gathered, Kept};

use register::bytes;

// A day and a number in one.
fn day_key(day: u32, number: u32) -> u64
    ensures { result ≡ day_key day number }
{
    (day as u64) * 10000000 + (number as u64)
}

// The keys of the items of a file whose headings read, in the order of the file. A heading has 54 bytes, so that they have room.
pub fn gather(s: &[u8], keys: &mut [u64]) -> usize
    requires { (length s.now ≤ 54 * length keys.old) × Each Readable (slips_from 1 s.now) }
    ensures { Gathered (length s.now) (used (slips_from 1 s.now)) result keys.new }
{
    let mut n = 0;
    // A day, and bytes that stand for it: no heading has these.
    let mut word: u64 = 0;
    let mut day: u32 = 0;
    let mut at = item_reader::heading_from(s, 0);
    // No range: how far an item reaches is known once it is read.
    while at < s.len() {
        let x = item_reader::number_at(s, at, word, day);
        let number = x.number;
        word = x.word;
        day = x.day;
        at = x.next;
        if number != 0 {
            keys[n] = day_key(day, number);
            n += 1;
        }
    }
    n
}

// The usual file has its numbers in order: there it is one walk.
pub fn put_in_order(keys: &mut [u64])
    requires { Within 0 1000000000000000 keys.old }
    ensures { Ordered 0 keys.old keys.new }
{
    sorting::sort(keys);
}

// The first and last keys of the ranges that stay for an accounting day.
pub fn keep(register: &[u8], day: u32, n: usize, starts: &mut [u64], ends: &mut [u64]) -> usize
    requires { (13 + 12 * n ≤ length register.now) × (n ≤ length starts.old) × (n ≤ length ends.old) }
    ensures { Kept (spans_of (kept day (ranges_in n (drop 13 register.now)))) result starts.new ends.new }
{
    let mut k = 0;
    for i in 0..n {
        let at = 13 + 12 * i;
        let then = bytes::read(register, at, 4);
        let from = bytes::read(register, at + 4, 4);
        let to = bytes::read(register, at + 8, 4);
        let old = register_reader::later(day, then, 10);
        if old {
            continue;
        }
        starts[k] = day_key(then, from);
        ends[k] = day_key(then, to);
        k += 1;
    }
    k
}
