// Writes the row and the column of an svec index, in the packed upper triangle.
ghost use Rattle.layout.specs.Calls.PairBack.{PairBack};

use constants::number_of;

#[unsafe(no_mangle)]
pub extern "C" fn chordal_pair_back(index: u32, out: &mut [u32]) -> u32
    ensures { PairBack index out.old out.new result }
{
    number_of(scalarmath::pair_back(index, out))
}
