// Prints what the ground floor answers at document 01's boundaries, for the gate to hold against `stdout`.
#![tactic(auto)]

use std::io;

fn show(rt: &impl Print, name: &str, value: u64) -> io::Result<()> {
    println!(rt; "{name} {value}")
}

fn flag(b: bool) -> u64 {
    if b { 1 } else { 0 }
}

fn admissible_bytes() -> usize {
    (0..=255u8)
        .filter(|&b| text::characters::is_admissible(b))
        .count()
}

fn bad_byte(rt: &impl Print, name: &str, s: &[u8]) -> io::Result<()> {
    let table = text::characters::table();
    show(
        rt,
        name,
        flag(text::characters::holds_inadmissible(&table, s, true)),
    )
}

fn admissible(rt: &impl Print, name: &str, b: u8) -> io::Result<()> {
    show(rt, name, flag(text::characters::is_admissible(b)))
}

fn characters(rt: &impl Print) -> io::Result<()> {
    show(rt, "admissible bytes", admissible_bytes() as u64)?;
    admissible(rt, "admissible 1F", 0x1F)?;
    admissible(rt, "admissible 20", 0x20)?;
    admissible(rt, "admissible 7E", 0x7E)?;
    admissible(rt, "admissible 7F", 0x7F)?;
    admissible(rt, "admissible DE", 0xDE)?;
    admissible(rt, "admissible DF", 0xDF)?;
    bad_byte(
        rt,
        "bad byte in plain text",
        b"DI:plain text of some length",
    )?;
    bad_byte(
        rt,
        "bad byte among A0 and FD",
        b"DI:\xA0 and \xFD stand here",
    )?;
    bad_byte(
        rt,
        "bad byte at the seventeenth place",
        b"0123456789ABCDEF\x7F",
    )
}

fn digits(rt: &impl Print) -> io::Result<()> {
    let mut out = [46u8; 12];
    text::digits::write(&mut out, 2, 7, 17);
    rt.write_all(&out)?;
    rt.write_all(b"\n")
}

fn real(rt: &impl Print, name: &str, day: u32) -> io::Result<()> {
    show(rt, name, flag(days::is_real(day)))
}

fn apart(rt: &impl Print, name: &str, from: u32, to: u32) -> io::Result<()> {
    show(
        rt,
        name,
        std::num::wrapping_sub_u64(days::day_number(to) as u64, days::day_number(from) as u64),
    )
}

fn day_of(rt: &impl Print, name: &str, number: u32) -> io::Result<()> {
    show(rt, name, days::day_of(number) as u64)
}

fn days(rt: &impl Print) -> io::Result<()> {
    real(rt, "real 20240229", 20240229)?;
    real(rt, "real 20230229", 20230229)?;
    real(rt, "real 19000229", 19000229)?;
    real(rt, "real 20000229", 20000229)?;
    real(rt, "real 20240431", 20240431)?;
    real(rt, "real 20241301", 20241301)?;
    real(rt, "real 00000101", 101)?;
    real(rt, "real 00010101", 10101)?;
    real(rt, "real 99991231", 99991231)?;
    real(rt, "real 100000101", 100000101)?;
    apart(rt, "20240223 to 20240304", 20240223, 20240304)?;
    apart(rt, "20240222 to 20240304", 20240222, 20240304)?;
    apart(rt, "20240304 to 20240403", 20240304, 20240403)?;
    apart(rt, "19991231 to 20000101", 19991231, 20000101)?;
    apart(rt, "20000101 to 20991231", 20000101, 20991231)?;
    day_of(rt, "day of 366", 366)?;
    day_of(rt, "day of 367", 367)?;
    day_of(rt, "day of 730485", 730485)?;
    day_of(rt, "day of 730486", 730486)?;
    day_of(rt, "day of 730545", 730545)?;
    day_of(rt, "day of 730546", 730546)?;
    day_of(rt, "day of 3652425", 3652425)?;
    day_of(rt, "day of 3652426", 3652426)
}

fn main(rt: HostRuntime) -> io::Result<()> {
    characters(&rt)?;
    digits(&rt)?;
    days(&rt)
}
