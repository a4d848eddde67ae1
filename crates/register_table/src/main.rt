// Runs worked files and registers through entering, and prints the number answered and the bytes written, for the gate to hold
// against `stdout`. What is right was reasoned by hand from document 02, A2 and A9.
#![tactic(auto)]

ghost use Rattle.std.specs.Prelude.{◌+◌, ◌*◌, ◌≤◌, length};

use entering::{blanking, entering as job};
use std::io;

fn number(rt: &impl Print, name: &str, k: u32) -> io::Result<()> {
    println!(rt; "{name}: {k}")
}

fn print_bytes(rt: &impl Print, s: &[u8]) -> io::Result<()> {
    for &b in s {
        print!(rt; "{b:02x}")?;
    }
    rt.println("")
}

fn shown(
    rt: &impl Print,
    name: &str,
    register: &[u8],
    file: &[u8],
    code: u32,
    day: u32,
    target: &mut [u8],
) -> io::Result<()> {
    let r = job::enter(register, file, code, day, target);
    number(rt, name, job::number_of(r))?;
    let n = r.unwrap_or(0);
    if n <= target.len() {
        print_bytes(rt, &target[..n])?;
    }
    Ok(())
}

fn enter(
    rt: &impl Print,
    name: &str,
    register: &[u8],
    file: &[u8],
    code: u32,
    day: u32,
) -> io::Result<()> {
    let mut target = [0u8; 49];
    shown(rt, name, register, file, code, day, &mut target)
}

// Numbers on a new register, and next to what it has: of version 1, and once of version 2.
fn joining(rt: &impl Print) -> io::Result<()> {
    let new = b"CRG\0\x01\x01,\0\0\0\0\0\0";
    enter(
        rt,
        "1 and 2 on a new register",
        new,
        b"HD:11 20240304 0000300 0000001 0000710 0000000 0000000\r\nKC:1 20240304 CZK\r\nHD:11 20240304 0000300 0000002 0000710 0000000 0000000\r\nKC:1 20240304 CZK\r\nHD:51 20240304 0000300 0000000 0000999 0000000 0000000\r\nIN:1 2\r\nS1:2 2\r\n\x1A",
        300,
        20240304,
    )?;
    enter(
        rt,
        "a closing item numbered 3",
        new,
        b"HD:11 20240304 0000300 0000001 0000710 0000000 0000000\r\nKC:1 20240304 CZK\r\nHD:11 20240304 0000300 0000002 0000710 0000000 0000000\r\nKC:1 20240304 CZK\r\nHD:51 20240304 0000300 0000003 0000999 0000000 0000000\r\nIN:1 2\r\nS1:2 2\r\n\x1A",
        300,
        20240304,
    )?;
    enter(
        rt,
        "3 before 1",
        new,
        b"HD:11 20240304 0000300 0000003 0000710 0000000 0000000\r\nKC:1 20240304 CZK\r\nHD:51 20240304 0000300 0000000 0000999 0000000 0000000\r\nIN:3 3\r\nS1:1 1\r\nHD:11 20240304 0000300 0000001 0000710 0000000 0000000\r\nKC:1 20240304 CZK\r\nHD:51 20240304 0000300 0000000 0000999 0000000 0000000\r\nIN:1 1\r\nS1:1 1\r\n\x1A",
        300,
        20240304,
    )?;
    enter(
        rt,
        "5 between two ranges",
        b"CRG\0\x01\x01,\x014\xD7\xB0\0\x02\x014\xD7\xB0\0\0\0\x01\0\0\0\x04\x014\xD7\xB0\0\0\0\x06\0\0\0\x09",
        b"HD:11 20240304 0000300 0000005 0000710 0000000 0000000\r\nKC:1 20240304 CZK\r\nHD:51 20240304 0000300 0000000 0000999 0000000 0000000\r\nIN:5 5\r\nS1:1 1\r\n\x1A",
        300,
        20240304,
    )?;
    enter(
        rt,
        "5 between two ranges of version 2",
        b"CRG\0\x02\x01,\x014\xD7\xB0\0\x02\x014\xD7\xB0\0\0\0\x01\0\0\0\x04\x014\xD7\xB0\0\0\0\x06\0\0\0\x09",
        b"HD:11 20240304 0000300 0000005 0000710 0000000 0000000\r\nKC:1 20240304 CZK\r\nHD:51 20240304 0000300 0000000 0000999 0000000 0000000\r\nIN:5 5\r\nS1:1 1\r\n\x1A",
        300,
        20240304,
    )?;
    enter(
        rt,
        "1 and 2 before a range",
        b"CRG\0\x01\x01,\x014\xD7\xB0\0\x01\x014\xD7\xB0\0\0\0\x03\0\0\0\x09",
        b"HD:11 20240304 0000300 0000001 0000710 0000000 0000000\r\nKC:1 20240304 CZK\r\nHD:11 20240304 0000300 0000002 0000710 0000000 0000000\r\nKC:1 20240304 CZK\r\nHD:51 20240304 0000300 0000000 0000999 0000000 0000000\r\nIN:1 2\r\nS1:2 2\r\n\x1A",
        300,
        20240304,
    )
}

fn used_already(rt: &impl Print) -> io::Result<()> {
    enter(
        rt,
        "the same file again",
        b"CRG\0\x02\x01,\x014\xD7\xB0\0\x01\x014\xD7\xB0\0\0\0\x01\0\0\0\x02",
        b"HD:11 20240304 0000300 0000001 0000710 0000000 0000000\r\nKC:1 20240304 CZK\r\nHD:11 20240304 0000300 0000002 0000710 0000000 0000000\r\nKC:1 20240304 CZK\r\nHD:51 20240304 0000300 0000000 0000999 0000000 0000000\r\nIN:1 2\r\nS1:2 2\r\n\x1A",
        300,
        20240304,
    )?;
    enter(
        rt,
        "2 closes a block and opens the next",
        b"CRG\0\x02\x01,\0\0\0\0\0\0",
        b"HD:11 20240304 0000300 0000001 0000710 0000000 0000000\r\nKC:1 20240304 CZK\r\nHD:51 20240304 0000300 0000002 0000999 0000000 0000000\r\nIN:1 1\r\nS1:1 1\r\nHD:11 20240304 0000300 0000002 0000710 0000000 0000000\r\nKC:1 20240304 CZK\r\nHD:51 20240304 0000300 0000000 0000999 0000000 0000000\r\nIN:2 2\r\nS1:1 1\r\n\x1A",
        300,
        20240304,
    )
}

// A day more than ten before is dropped, and days do not touch.
fn days_of_ranges(rt: &impl Print) -> io::Result<()> {
    let one_two =
        b"HD:11 20240304 0000300 0000001 0000710 0000000 0000000\r\nKC:1 20240304 CZK\r\nHD:11 20240304 0000300 0000002 0000710 0000000 0000000\r\nKC:1 20240304 CZK\r\nHD:51 20240304 0000300 0000000 0000999 0000000 0000000\r\nIN:1 2\r\nS1:2 2\r\n\x1A";
    enter(
        rt,
        "the eleventh day before",
        b"CRG\0\x02\x01,\x014\xD7\xAF\0\x02\x014\xD7^\0\0\0\x01\0\0\0\x05\x014\xD7_\0\0\0\x01\0\0\0\x05",
        one_two,
        300,
        20240304,
    )?;
    enter(
        rt,
        "all numbers of the day before",
        b"CRG\0\x02\x01,\x014\xD7\xB0\0\x01\x014\xD7\xAF\0\0\0\x01\0\x98\x96\x7F",
        one_two,
        300,
        20240304,
    )
}

// The keys of the odd numbers of a day.
fn odd(keys: &mut [u64])
    requires { length keys.old ≤ 1025 }
{
    for (i, key) in keys.iter_mut().enumerate() {
        *key = 202403040000001 + 2 * (i as u64);
    }
}

// The length of what was written, its head and its last range.
fn print_ends(rt: &impl Print, s: &[u8]) -> io::Result<()> {
    let len = s.len();
    println!(rt; "{len} bytes")?;
    if 13 <= s.len() {
        print_bytes(rt, &s[..13])?;
        print_bytes(rt, &s[s.len() - 12..])?;
    }
    Ok(())
}

fn enter_ends(
    rt: &impl Print,
    name: &str,
    register: &[u8],
    file: &[u8],
    target: &mut [u8],
) -> io::Result<()> {
    let r = job::enter(register, file, 300, 20240304, target);
    number(rt, name, job::number_of(r))?;
    let n = r.unwrap_or(0);
    if n <= target.len() {
        print_ends(rt, &target[..n])?;
    }
    Ok(())
}

// A register with a range for each key, in a version.
fn lay(
    rt: &impl Print,
    name: &str,
    version: u8,
    keys: &[u64],
    file: &[u8],
    register: &mut [u8],
) -> io::Result<()>
    requires { 13 + 12 * length keys.now ≤ length register.old }
{
    let n = register_writer::put_register(register, 300, 20240304, keys, keys);
    register[4] = version;
    let mut target = [0u8; 12301];
    enter_ends(rt, name, &register[..n], file, &mut target)
}

fn lay_first(
    rt: &impl Print,
    name: &str,
    version: u8,
    count: usize,
    keys: &[u64],
    file: &[u8],
) -> io::Result<()>
    requires { length keys.now ≤ 1025 }
{
    let mut register = [0u8; 12313];
    if count <= keys.len() {
        lay(rt, name, version, &keys[..count], file, &mut register)?;
    }
    Ok(())
}

// A register of the first odd numbers, a range each.
fn counted(rt: &impl Print, name: &str, version: u8, count: usize, file: &[u8]) -> io::Result<()> {
    let mut keys = [0u64; 1025];
    odd(&mut keys);
    lay_first(rt, name, version, count, &keys, file)
}

// 64 ranges at most in version 1, 1,024 in version 2, which is written.
fn versions(rt: &impl Print) -> io::Result<()> {
    let n128 =
        b"HD:11 20240304 0000300 0000128 0000710 0000000 0000000\r\nKC:1 20240304 CZK\r\nHD:51 20240304 0000300 0000000 0000999 0000000 0000000\r\nIN:128 128\r\nS1:1 1\r\n\x1A";
    let n2048 =
        b"HD:11 20240304 0000300 0002048 0000710 0000000 0000000\r\nKC:1 20240304 CZK\r\nHD:51 20240304 0000300 0000000 0000999 0000000 0000000\r\nIN:2048 2048\r\nS1:1 1\r\n\x1A";
    let n3000 =
        b"HD:11 20240304 0000300 0003000 0000710 0000000 0000000\r\nKC:1 20240304 CZK\r\nHD:51 20240304 0000300 0000000 0000999 0000000 0000000\r\nIN:3000 3000\r\nS1:1 1\r\n\x1A";
    counted(
        rt,
        "version 1, one that touches the last of 64",
        1,
        64,
        n128,
    )?;
    counted(rt, "version 1, a range more than 64", 1, 64, n3000)?;
    counted(rt, "version 1, 65 ranges", 1, 65, n3000)?;
    counted(rt, "version 2, 65 ranges", 2, 65, n3000)?;
    counted(rt, "version 2, one that makes 1024", 2, 1023, n3000)?;
    counted(
        rt,
        "version 2, one that touches the last of 1024",
        2,
        1024,
        n2048,
    )?;
    counted(rt, "version 2, a range more than 1024", 2, 1024, n3000)?;
    counted(rt, "version 2, 1025 ranges", 2, 1025, n2048)?;
    counted(rt, "version 3", 3, 1, n3000)?;
    counted(rt, "version 0", 0, 1, n3000)
}

// Checking's own refusals, and those of the register's head and of the file.
fn refused(rt: &impl Print) -> io::Result<()> {
    let new = b"CRG\0\x02\x01,\0\0\0\0\0\0";
    let one_two =
        b"HD:11 20240304 0000300 0000001 0000710 0000000 0000000\r\nKC:1 20240304 CZK\r\nHD:11 20240304 0000300 0000002 0000710 0000000 0000000\r\nKC:1 20240304 CZK\r\nHD:51 20240304 0000300 0000000 0000999 0000000 0000000\r\nIN:1 2\r\nS1:2 2\r\n\x1A";
    enter(
        rt,
        "latest day later",
        b"CRG\0\x02\x01,\x014\xD7\xB1\0\0",
        one_two,
        300,
        20240304,
    )?;
    enter(
        rt,
        "another code, latest day later",
        b"CRG\0\x02\x01-\x014\xD7\xB1\0\0",
        one_two,
        300,
        20240304,
    )?;
    enter(rt, "code 0", new, one_two, 0, 20240304)?;
    enter(rt, "empty file", new, b"", 300, 20240304)?;
    enter(
        rt,
        "wrong IN",
        new,
        b"HD:11 20240304 0000300 0000001 0000710 0000000 0000000\r\nKC:1 20240304 CZK\r\nHD:51 20240304 0000300 0000000 0000999 0000000 0000000\r\nIN:1 2\r\nS1:1 1\r\n\x1A",
        300,
        20240304,
    )
}

fn not_registers(rt: &impl Print) -> io::Result<()> {
    let one_two =
        b"HD:11 20240304 0000300 0000001 0000710 0000000 0000000\r\nKC:1 20240304 CZK\r\nHD:11 20240304 0000300 0000002 0000710 0000000 0000000\r\nKC:1 20240304 CZK\r\nHD:51 20240304 0000300 0000000 0000999 0000000 0000000\r\nIN:1 2\r\nS1:2 2\r\n\x1A";
    enter(
        rt,
        "ranges that touch",
        b"CRG\0\x02\x01,\x014\xD7\xB0\0\x02\x014\xD7\xB0\0\0\0\x01\0\0\0\x02\x014\xD7\xB0\0\0\0\x03\0\0\0\x04",
        one_two,
        300,
        20240304,
    )?;
    enter(
        rt,
        "a day that is not real",
        b"CRG\0\x02\x01,\x014\xD7\xB0\0\x01\x014\xB0U\0\0\0\x01\0\0\0\x02",
        one_two,
        300,
        20240304,
    )?;
    enter(
        rt,
        "one byte more",
        b"CRG\0\x02\x01,\0\0\0\0\0\0\0",
        one_two,
        300,
        20240304,
    )?;
    enter(
        rt,
        "one byte less",
        b"CRG\0\x02\x01,\0\0\0\0\0",
        one_two,
        300,
        20240304,
    )?;
    enter(
        rt,
        "code 10000",
        b"CRG\0\x02'\x10\0\0\0\0\0\0",
        one_two,
        300,
        20240304,
    )?;
    enter(
        rt,
        "number 10000000",
        b"CRG\0\x02\x01,\x014\xD7\xB0\0\x01\x014\xD7\xB0\0\0\0\x01\0\x98\x96\x80",
        one_two,
        300,
        20240304,
    )?;
    enter(
        rt,
        "a range with latest day 0",
        b"CRG\0\x02\x01,\0\0\0\0\0\x01\x014\xD7\xB0\0\0\0\x01\0\0\0\x01",
        one_two,
        300,
        20240304,
    )
}

// A register of 25 bytes in targets of 24 and 25.
fn targets(rt: &impl Print) -> io::Result<()> {
    let new = b"CRG\0\x02\x01,\0\0\0\0\0\0";
    let one_two =
        b"HD:11 20240304 0000300 0000001 0000710 0000000 0000000\r\nKC:1 20240304 CZK\r\nHD:11 20240304 0000300 0000002 0000710 0000000 0000000\r\nKC:1 20240304 CZK\r\nHD:51 20240304 0000300 0000000 0000999 0000000 0000000\r\nIN:1 2\r\nS1:2 2\r\n\x1A";
    let mut short = [0xEEu8; 24];
    shown(
        rt,
        "a target of 24 bytes",
        new,
        one_two,
        300,
        20240304,
        &mut short,
    )?;
    print_bytes(rt, &short)?;
    let mut exact = [0xEEu8; 25];
    shown(
        rt,
        "a target of 25 bytes",
        new,
        one_two,
        300,
        20240304,
        &mut exact,
    )
}

fn new_registers(rt: &impl Print) -> io::Result<()> {
    let mut room = [0xEEu8; 15];
    number(
        rt,
        "a new register",
        blanking::number_of(blanking::blank(300, &mut room)),
    )?;
    print_bytes(rt, &room)?;
    number(
        rt,
        "code 10000",
        blanking::number_of(blanking::blank(10000, &mut room)),
    )?;
    let mut little = [0xEEu8; 12];
    number(
        rt,
        "12 bytes",
        blanking::number_of(blanking::blank(300, &mut little)),
    )
}

fn main(rt: HostRuntime) -> io::Result<()> {
    joining(&rt)?;
    used_already(&rt)?;
    days_of_ranges(&rt)?;
    versions(&rt)?;
    refused(&rt)?;
    not_registers(&rt)?;
    targets(&rt)?;
    new_registers(&rt)
}
