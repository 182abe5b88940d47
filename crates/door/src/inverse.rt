// Writes the inverse of a permutation.
ghost use Rattle.layout.specs.Calls.Inverse.{Inverse};

use constants::number_of;

#[unsafe(no_mangle)]
pub extern "C" fn chordal_inverse(p: &[u32], out: &mut [u32]) -> u32
    ensures { Inverse p.now out.old out.new result }
{
    number_of(inverse_permutation::inverse(p, out))
}
