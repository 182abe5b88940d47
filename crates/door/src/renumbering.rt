// Renumbers the vertices of one pattern so that each snode's are consecutive.
ghost use Rattle.layout.specs.Calls.Renumber.{Renumber};

use constants::number_of;

#[unsafe(no_mangle)]
pub extern "C" fn chordal_renumber(words: &[u32], out: &mut [u32]) -> u32
    ensures { Renumber words.now out.old out.new result }
{
    number_of(reorder::reorder_snode_consecutively(words, out))
}
