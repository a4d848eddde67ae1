// Keys in order and spans in order, made one row of spans that never touch. Promised (specs/Merging.antt): whether one begins at or before
// the end of the one before it, and if none does, the row closed up; that it is then the spans with the keys added one at a time, and that
// it hits itself just where a number is used already, are laws (proofs/Members.antt, Clashes.antt). Stands on `register` for what spans and
// adding are, and on `sorting` for what order is.
#![tactic(auto)]

ghost use Rattle.std.specs.Prelude.{◌≡◌, ◌+◌, ◌≤◌, ◌<◌, length, set};
ghost use Rattle.merging.specs.Merging.{Takes, Merges};

// The next of both rows, and how many of each have gone by with it.
#[derive(Clone, Copy)]
pub struct Turn {
    pub from: u64,
    pub to: u64,
    pub keys: usize,
    pub spans: usize,
}

// The span that begins first; of a key and a span that begin together the span.
fn next(keys: &[u64], starts: &[u64], ends: &[u64], i: usize, j: usize) -> Turn
    requires { (i + j < length keys.now + length starts.now) × (i ≤ length keys.now) × (j ≤ length starts.now) × (length starts.now ≡ length ends.now) }
    ensures { Takes keys.now starts.now ends.now i j result }
{
    if keys.len() <= i {
        return Turn {
            from: starts[j],
            to: ends[j],
            keys: i,
            spans: j + 1,
        };
    }
    let key = keys[i];
    if starts.len() <= j {
        return Turn {
            from: key,
            to: key,
            keys: i + 1,
            spans: j,
        };
    }
    let start = starts[j];
    if key < start {
        return Turn {
            from: key,
            to: key,
            keys: i + 1,
            spans: j,
        };
    }
    Turn {
        from: start,
        to: ends[j],
        keys: i,
        spans: j + 1,
    }
}

// Stores a number where there is room. With `row.get_mut(at)` it was tried, and what the row is afterwards did not prove.
fn store(row: &mut [u64], at: usize, v: u64)
    ensures { row.new ≡ set row.old at v }
{
    if at < row.len() {
        row[at] = v;
    }
}

// How many spans it is, or none where one begins at or before the end of the one before it. Spans that touch become one. The first span is
// that of 0, a key that nobody has, so that one is always open.
pub fn merge(
    keys: &[u64],
    starts: &[u64],
    ends: &[u64],
    froms: &mut [u64],
    tos: &mut [u64],
) -> Option<usize>
    requires { (length keys.now + length starts.now ≤ 1000000) × (length starts.now ≡ length ends.now) }
    ensures { Merges keys.now starts.now ends.now result froms.new tos.new }
{
    let mut from = 0;
    let mut to = 0;
    let mut count = 0;
    let mut i = 0;
    let mut j = 0;
    // No iterator: how far both places move is what `next` says, and an iterator of turns would be an impl of its own about the same two.
    while i + j < keys.len() + starts.len() {
        let t = next(keys, starts, ends, i, j);
        i = t.keys;
        j = t.spans;
        if t.from <= to {
            return None;
        }
        if to < t.from - 1 {
            store(froms, count, from);
            store(tos, count, to);
            count += 1;
            from = t.from;
        }
        to = t.to;
    }
    store(froms, count, from);
    store(tos, count, to);
    Some(count + 1)
}
