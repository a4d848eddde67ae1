// Runs the open account check over data/accounts, a line for each account: its prefix, `-`, its number, a space, and `+` where both
// halves are good, else `-`. The verdicts are those of python-stdnum 1.18 (Debian python3-stdnum 1.18-1), `is_valid` of
// stdnum.cz.bankaccount with a bank's code after the account. No number there is zero, which stdnum lets pass and document 01 does not.
// Writes how many accounts it agrees on, and every line that it does not.
#![tactic(auto)]

use anyhow::Context;
use figures::accounts;
use figures::parts::Number;
use std::io;

// Whether both halves of a line's account are good, by the check and by the line's verdict; `None` where the two differ, or where the
// line is not laid out as said above.
fn agreed(line: &[u8]) -> Option<bool> {
    let dash = line.iter().position(|&b| b == b'-')?;
    let rest = &line[dash + 1..];
    let gap = rest.iter().position(|&b| b == b' ')?;
    let verdict = *rest.get(gap + 1)?;
    let halves = accounts::check(&line[..dash], &rest[..gap]).ok()?;
    let good = halves.prefix && halves.number == Number::Good;
    (verdict == if good { b'+' } else { b'-' }).then_some(good)
}

fn show_all(rt: &impl Print, s: &[u8]) -> io::Result<()> {
    let mut hold: usize = 0;
    let mut fail: usize = 0;
    let mut differ: usize = 0;
    let mut at = 0;
    // A `for` over `split_inclusive` was tried: the invariant that bounds the counts by its iterator does not check.
    while at < s.len() {
        let end = data_file::find(s, at, b'\n');
        let line = &s[at..end];
        match agreed(line) {
            Some(true) => hold += 1,
            Some(false) => fail += 1,
            None => {
                rt.write_all(line)?;
                rt.write_all(b" differs\n")?;
                differ += 1;
            }
        }
        at = end + 1;
    }
    println!(rt; "both hold {hold}")?;
    println!(rt; "both fail {fail}")?;
    println!(rt; "differ {differ}")
}

fn main(rt: HostRuntime) -> anyhow::Result<()> {
    let mut input = [0u8; 65536];
    let n = data_file::load(&rt, b"accounts", &mut input).context("reading accounts")?;
    show_all(&rt, &input[..n])?;
    Ok(())
}
