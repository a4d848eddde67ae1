// A body that comes in pieces, judged line by line: the bytes of a file before its end mark, however they are cut. The lines that a
// piece holds whole are judged where they stand. Of the line that it leaves open a short form is kept, and when the line's CR LF has
// come, or the end, that is judged in its place.
// Promised (specs/Reached.antt): after any pieces, one behind the other, what is known is what would be known of the text that they
// make (`go_on`); at the end the faults of that text are listed, beside each the offset of its line (`finish`), as `pass` lists those
// of a whole body. Proved over a list of pieces in proofs/Reached.antt (`over_all`, `all_listed`). No rule is judged here: lines are
// judged by `pass`, and what of a text is whole and what is kept of it is said by `joining`.
#![tactic(auto)]

ghost use Rattle.std.specs.Prelude.{◌≡◌, ◌+◌, ◌≤◌, length};
ghost use Rattle.pass.specs.Standing.{Bounded, Fed};
ghost use Rattle.joining.specs.Held.{kept_in, ended_text};
ghost use Rattle.going.specs.Reached.{Sound, Begun, Gone, Done, Judged};

use joining::Held;
use ledger::Ledger;
use own_rules::Basis;
use pass::Pass;

// What is known of a body of which a part has come: the pass after its whole lines, what is kept of the line that has not ended, where
// that line begins, and how many bytes came.
#[derive(Clone, Copy)]
pub struct Going {
    pub pass: Pass,
    pub held: Held,
    pub at: u32,
    pub came: u32,
}

// Nothing has come.
pub fn start() -> Going
    ensures { Begun result }
{
    let pass = pass::start();
    let held = joining::none();
    Going {
        pass,
        held,
        at: 0,
        came: 0,
    }
}

// Judges the line that is kept and begins at `at`, with CR LF behind it.
fn judge_kept(
    held: Held,
    at: u32,
    basis: Basis,
    lines: &mut [u32],
    rules: &mut [u32],
    offsets: &mut [u32],
    stood: &mut [u32; 1296],
    p: Pass,
) -> Pass
    requires held_bound { at + length (ended_text (kept_in held)) ≤ 10000000 }
    requires bounded { Bounded at p lines.old rules.old offsets.old }
    ensures bounded_2 { Bounded (at + length (ended_text (kept_in held))) result lines.new rules.new offsets.new }
    ensures fed { Fed (ended_text (kept_in held)) at basis lines.old rules.old offsets.old stood.old p lines.new rules.new offsets.new stood.new result }
{
    let t = joining::ended(held);
    let text = t.text;
    let len = t.len;
    pass::feed(&text[..len], at, basis, lines, rules, offsets, stood, p)
}

// Judges the whole lines of a text that begins a line, `came` bytes into the body, and keeps its rest.
fn judge_whole(
    s: &[u8],
    came: u32,
    basis: Basis,
    lines: &mut [u32],
    rules: &mut [u32],
    offsets: &mut [u32],
    stood: &mut [u32; 1296],
    p: Pass,
) -> Going
    requires s_bound { came + length s.now ≤ 10000000 }
    requires bounded { Bounded came p lines.old rules.old offsets.old }
    ensures sound { Sound result lines.new rules.new offsets.new }
    ensures judged { Judged s.now came basis lines.old rules.old offsets.old stood.old p lines.new rules.new offsets.new stood.new result }
{
    let n = joining::whole_len(s);
    let pass = pass::feed(&s[..n], came, basis, lines, rules, offsets, stood, p);
    let none = joining::none();
    let held = joining::add(none, &s[n..]);
    Going {
        pass,
        held,
        at: came + n as u32,
        came: came + s.len() as u32,
    }
}

// A piece of the body comes.
pub fn go_on(
    s: &[u8],
    basis: Basis,
    lines: &mut [u32],
    rules: &mut [u32],
    offsets: &mut [u32],
    stood: &mut [u32; 1296],
    g: Going,
) -> Going
    requires s_bound { g.came + length s.now ≤ 10000000 }
    requires sound { Sound g lines.old rules.old offsets.old }
    ensures came_value { result.came ≡ g.came + length s.now }
    ensures sound_2 { Sound result lines.new rules.new offsets.new }
    ensures gone { Gone s.now basis lines.old rules.old offsets.old stood.old g lines.new rules.new offsets.new stood.new result }
{
    let pass = g.pass;
    let held = g.held;
    if (held.len == 0) & !held.cr {
        return judge_whole(s, g.came, basis, lines, rules, offsets, stood, pass);
    }
    let j = joining::join(held, s);
    let line = j.held;
    let next = j.next;
    if !j.ended {
        return Going {
            held: line,
            came: g.came + s.len() as u32,
            ..g
        };
    }
    let p = judge_kept(line, g.at, basis, lines, rules, offsets, stood, pass);
    judge_whole(
        &s[next..],
        g.came + next as u32,
        basis,
        lines,
        rules,
        offsets,
        stood,
        p,
    )
}

// No more comes: what is kept is a last line, and the file ends.
pub fn finish(
    basis: Basis,
    lines: &mut [u32],
    rules: &mut [u32],
    offsets: &mut [u32],
    stood: &mut [u32; 1296],
    g: Going,
) -> Ledger
    requires came_bound { g.came ≤ 10000000 }
    requires sound { Sound g lines.old rules.old offsets.old }
    ensures { Done basis lines.old rules.old offsets.old stood.old g result lines.new rules.new offsets.new }
{
    let pass = g.pass;
    let held = g.held;
    let t = joining::closing(held);
    let text = t.text;
    let len = t.len;
    let p = pass::feed(
        &text[..len],
        g.at,
        basis,
        lines,
        rules,
        offsets,
        stood,
        pass,
    );
    pass::finish(basis, lines, rules, offsets, p)
}
