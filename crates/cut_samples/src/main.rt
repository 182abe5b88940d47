// Cuts each sample file of data/ and compares the result with the file stored beside it (docs/FILE.md): prints a line for each.
#![tactic(auto)]

ghost use Rattle.std.specs.Io.{ReadsAtMost};

use std::rt::Files;
use std::{fs, io};

// Reads the file `name` into `out`. Returns the number of bytes read: all, or as many as `out` has room for.
fn load(rt: &impl Files, name: &str, out: &mut [u8]) -> io::Result<usize>
    ensures { ReadsAtMost result out.new }
{
    compact_file::read_full(&mut fs::open(rt, name)?, out)
}

// Cuts the file `name`, and prints whether the result has the bytes of the file `stored`.
fn cut_sample(rt: &(impl Files + Print), name: &str, stored: &str) -> io::Result<()> {
    let mut file = [0u8; 8193];
    let length = load(rt, name, &mut file)?;
    let mut out = [0u8; 65536];
    let written = compact_file::cut_file(&file[..length], &mut out);
    let mut kept = [0u8; 65536];
    let count = load(rt, stored, &mut kept)?;
    if out[..written] == kept[..count] {
        println!(rt; "{name}: as stored")
    } else {
        println!(rt; "{name}: not what is stored")
    }
}

fn main(rt: HostRuntime) -> io::Result<()> {
    cut_sample(&rt, "three_projectors.bin", "three_projectors.compact.bin")?;
    cut_sample(&rt, "load.bin", "load.compact.bin")
}
