// Writes the svec index of a pair of row and column, in the packed upper triangle.
ghost use Rattle.layout.specs.Calls.PairIndex.{PairIndex};

use constants::number_of;

#[unsafe(no_mangle)]
pub extern "C" fn chordal_pair_index(i: u32, j: u32, out: &mut [u32]) -> u32
    ensures { PairIndex i j out.old out.new result }
{
    number_of(scalarmath::pair_index(i, j, out))
}
