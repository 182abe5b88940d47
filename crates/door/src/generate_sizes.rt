// Writes the length of each table of a generated problem.
ghost use Rattle.layout.specs.Calls.GenerateSizes.{GenerateSizes};

use constants::number_of;

#[unsafe(no_mangle)]
pub extern "C" fn chordal_generate_sizes(seed: u64, v: u32, w: u32, n: u32, out: &mut [u32]) -> u32
    ensures { GenerateSizes seed v w n out.old out.new result }
{
    number_of(generator::generate_sizes(seed, v, w, n, out))
}
