// The listing program: reads a job line and a file from standard input, and writes the listing, or the line of a refusal, to
// standard output. What stands between the two is `report::program::list`, proved for every input; this file only moves bytes.
// Where the input cannot be read, or memory runs out, it ends with that error and writes no listing; where the listing cannot be
// written it says so on standard error, and ends with the error. Stands on `report`.
#![tactic(auto)]

use std::io;
use std::io::Read;

fn main(rt: HostRuntime) -> io::Result<()> {
    let mut input = Vec::new(rt.alloc());
    // One byte more than is taken, so that an input that is too long is told from the longest one.
    rt.reader().take(65537).read_to_end(&mut input)?;
    let mut out = [0u8; 16384];
    let m = report::program::list(&input, &mut out);
    let written = rt.write_all(&out[..m]);
    if written.is_err() {
        eprintln!(rt; "certis: the listing cannot be written")?;
    }
    written
}
