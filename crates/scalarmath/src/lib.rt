// clarabel's algebra/scalarmath.rs: triangular numbers, the exact integer root, and the svec index of a pair (its
// index in the packed upper triangle) and back. The Rust's triangular_index(k - 1) + 1 is triangular_number(k)
// here, so that column 0 needs no special case.
#![tactic(auto)]

mod column_starts;

ghost use Rattle.std.specs.Prelude.{◌≡◌, ◌+◌, ◌*◌, ◌≤◌, ◌<◌};
ghost use Rattle.layout.specs.General.Triangle.{triangle, pair_index, index_row, index_column};
ghost use Rattle.layout.specs.Calls.PairIndex.{PairIndex};
ghost use Rattle.layout.specs.Calls.PairBack.{PairBack};
ghost use Rattle.constants.specs.Refusals.{refusal_of};

use constants::{Refusal, limit};

// Returns the number of pairs i <= j < `k`, which is also the svec index where column `k` starts.
pub fn triangular_number(k: u32) -> u32
    requires { k ≤ 65535 }
    ensures { result ≡ triangle k }
{
    (k * (k + 1)) >> 1
}

// Returns the largest r with r * r <= `v`, by Newton's iteration. The leading zeros of `v` give the first guess, a
// power of two whose square is above `v`; guesses fall while their square is above `v`, but never below the root.
pub fn isqrt(v: u32) -> u32
    ensures { (result * result ≤ v) × (v < (result + 1) * (result + 1)) }
{
    if v == 0 {
        return 0;
    }
    let mut r = 65536 >> (u32::leading_zeros(v) / 2);
    let mut q = v / r;
    while q < r {
        r = (r + q) / 2;
        q = v / r;
    }
    r
}

// Returns the svec index of the pair (`i`, `j`), in either order: the start of its column plus its row.
pub fn coord_to_upper_triangular_index(i: u32, j: u32) -> u32
    requires { (i ≤ 255) × (j ≤ 255) }
    ensures { result ≡ pair_index i j }
{
    if i <= j {
        column_starts::column_start(j) + i
    } else {
        column_starts::column_start(i) + j
    }
}

#[derive(Clone, Copy)]
pub struct Coord {
    pub row: u32,
    pub col: u32,
}

// Returns the pair at the svec index `index`.
pub fn upper_triangular_index_to_coord(index: u32) -> Coord
    requires { index ≤ 32895 }
    ensures { (result.row ≡ index_row index) × (result.col ≡ index_column index) }
{
    let col = ((isqrt(8 * index + 1) + 1) >> 1) - 1;
    Coord {
        row: index - triangular_number(col),
        col,
    }
}

// Writes the svec index of the pair (`i`, `j`) to `out[0]`. Public call.
pub fn pair_index(i: u32, j: u32, out: &mut [u32]) -> Result<(), Refusal>
    ensures { PairIndex i j out.old out.new (refusal_of result) }
{
    if limit::INDEX < i {
        return Err(Refusal::Bound);
    }
    if limit::INDEX < j {
        return Err(Refusal::Bound);
    }
    if out.is_empty() {
        return Err(Refusal::Short);
    }
    out[0] = coord_to_upper_triangular_index(i, j);
    Ok(())
}

// Writes the row of the svec index `index` to `out[0]` and its column to `out[1]`. Public call.
pub fn pair_back(index: u32, out: &mut [u32]) -> Result<(), Refusal>
    ensures { PairBack index out.old out.new (refusal_of result) }
{
    if limit::PLACE < index {
        return Err(Refusal::Bound);
    }
    if out.len() < 2 {
        return Err(Refusal::Short);
    }
    let at = upper_triangular_index_to_coord(index);
    out[0] = at.row;
    out[1] = at.col;
    Ok(())
}
