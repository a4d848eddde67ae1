// Data files of the programs that run tables of cases: a file's bytes, and where a byte stands next in them. The search promises
// its place by a definition; no contract can say what was read. Stands on `place` of `fields`.
#![tactic(auto)]

ghost use Rattle.std.specs.Prelude.{◌≡◌, ◌+◌, ◌≤◌, length, take, drop, min, IfOk, IfSome, OnErr};
ghost use Rattle.std.specs.Io.{ReadsAtMost};
ghost use Rattle.fields.specs.Kinds.{place};

use std::alloc::Allocator;
use std::io::Read;
use std::rt::Files;
use std::{fs, io, str};

// How many bytes of a file stand at the start of `into`. A file that cannot be opened or read is an error, and so is too little
// memory; `into` is then as it was.
pub fn load<R: Files + Alloc>(rt: &R, path: &[u8], into: &mut [u8]) -> io::Result<usize>
    ensures bound { ReadsAtMost result into.new }
    ensures rest { IfOk result (λ n. drop n into.new ≡ drop n into.old) }
    ensures err { OnErr result (into.new ≡ into.old) }
{
    let Ok(path) = str::from_utf8(path) else {
        return Err(io::Error::from(io::ErrorKind::InvalidInput));
    };
    fill(rt.alloc(), fs::open(rt, path)?, into)
}

// As many bytes of a reader as `into` takes, at its start.
fn fill<A: Allocator, F: Read + Drop>(alloc: A, from: F, into: &mut [u8]) -> io::Result<usize>
    ensures bound { ReadsAtMost result into.new }
    ensures bytes { IfSome (F.remaining from) (λ xs. IfOk result (λ n. take n into.new ≡ take (length into.old) xs)) }
    ensures rest { IfOk result (λ n. drop n into.new ≡ drop n into.old) }
    ensures err { OnErr result (into.new ≡ into.old) }
{
    let mut bytes = Vec::new(alloc);
    from.take(into.len() as u64).read_to_end(&mut bytes)?;
    let n = bytes.len().min(into.len());
    into[..n].copy_from_slice(&bytes[..n]);
    Ok(n)
}

// The first place of a byte from a place on, and the end where there is none.
pub fn find(s: &[u8], at: usize, x: u8) -> usize
    requires { at ≤ length s.now }
    ensures { (result ≡ at + place x (drop at s.now)) × (at ≤ result) × (result ≤ length s.now) }
{
    let left = &s[at..];
    at + left.iter().position(|b| *b == x).unwrap_or(left.len())
}
