// Cuts a problem file (docs/FILE.md): reads it from standard input, and writes the compact problem as a file, or "refused " and a number, to
// standard output. One byte more than the longest file is read, so that a file that is too long is noticed.
#![tactic(auto)]

use std::io;

fn main(rt: HostRuntime) -> io::Result<()> {
    let mut file = [0u8; 8193];
    let length = compact_file::read_full(&mut rt.reader(), &mut file)?;
    let mut out = [0u8; 65536];
    let written = compact_file::cut_file(&file[..length], &mut out);
    rt.write_all(&out[..written])
}
