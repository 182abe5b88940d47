// The codes of one block's entries on the compact route: the original row for an owned entry, and for an overlap the row of the same pair in the
// parent's block. This is where the row that an overlap is tied to is decided.
#![tactic(auto)]

ghost use Rattle.std.specs.Prelude.{◌≡◌, cond, map, suc, ◌+◌, ◌-◌, ◌<◌, ◌≤◌, length, get_or, replicate, T, eqb};
ghost use Rattle.layout.specs.General.Lists.{written, rises, Below};
ghost use Rattle.layout.specs.General.Triangle.{triangle};
ghost use Rattle.layout.specs.Rows.Blocks.{pairs};
ghost use Rattle.rows_blocks.specs.Columns.{column_pairs, ColumnsFit};
ghost use Rattle.rows_parent.specs.Places.{Places, Climbing, place_code, tied_entry};

use rows_blocks::row_column;
use rows_codes::FIRST_OVERLAP;
use scalarmath::triangular_number;

// ---- places in the parent's block

// Writes to `out`, which must be all zeros, one more than its place for each of the sorted `vertices`, at the vertex's index.
pub fn note_places(vertices: &[u32], out: &mut [u32])
    requires t { T (rises vertices.now) × Below (length out.old) vertices.now × (length vertices.now ≤ 256) }
    requires out_value { out.old ≡ replicate (length out.old) 0 }
    ensures { Places vertices.now out.new }
{
    for (i, &v) in vertices.iter().enumerate() {
        out[v as usize] = i as u32 + 1;
    }
}

// ---- codes

// Returns `tied` + `place` - 1, the row in the parent's block, where the vertex has a place there; `own` where `place` is 0.
fn tied_row(own: u32, tied: u32, place: u32) -> u32
    requires { tied + place ≤ 4294967295 }
    ensures { result ≡ cond (eqb place 0) own (tied + (place - 1)) }
{
    if place == 0 { own } else { tied + (place - 1) }
}

// Writes the codes of the block's column `j` to `out`: counted from `tied` for each vertex that has a place, from `row` for every other vertex.
fn tied_entries(out: &mut [u32], vertices: &[u32], places: &[u32], j: usize, row: u32, tied: u32)
    requires j_in_bounds { (j < length vertices.now) × (j < length out.old) × T (rises vertices.now) × Below (length places.now) vertices.now }
    requires j_bound { (row + get_or vertices.now j 0 ≤ 65536) × (tied ≤ 393216) × Climbing places.now }
    ensures { out.new ≡ written (map (tied_entry places.now row tied) (column_pairs vertices.now j)) out.old }
{
    for (i, &v) in vertices[..=j].iter().enumerate() {
        out[i] = tied_row(row + v, tied, places[v as usize]);
    }
}

// Writes the codes of the block's column `j` to `out`: where its vertex has a place in the parent's block, whose first row is `start`, entries whose
// row vertex has one too are tied to rows there; all other entries get their original row, from `base` on.
fn tied_column(out: &mut [u32], vertices: &[u32], places: &[u32], j: usize, base: u32, start: u32)
    requires j_in_bounds { (j < length vertices.now) × (j < length out.old) × T (rises vertices.now) × Below (length places.now) vertices.now }
    requires j_bound { (base + triangle (suc (get_or vertices.now j 0)) ≤ 65536) × (start ≤ 262144) × Climbing places.now }
    ensures { out.new ≡ written (map (place_code places.now base start) (column_pairs vertices.now j)) out.old }
{
    let c = vertices[j];
    let noted = places[c as usize];
    if noted == 0 {
        row_column(out, vertices, j, base);
        return;
    }
    let row = base + triangular_number(c);
    let place = noted - 1;
    let tied = FIRST_OVERLAP + start + triangular_number(place);
    tied_entries(out, vertices, places, j, row, tied);
}

// Writes the codes of a block to `out`, column by column. Returns their number.
pub fn code_block(out: &mut [u32], vertices: &[u32], places: &[u32], base: u32, start: u32) -> usize
    requires t { T (rises vertices.now) × Below (length places.now) vertices.now × ColumnsFit base vertices.now 65536 }
    requires start_bound { (start ≤ 262144) × Climbing places.now × (triangle (length vertices.now) ≤ length out.old) }
    ensures value { result ≡ triangle (length vertices.now) }
    ensures out_after { out.new ≡ written (map (place_code places.now base start) (pairs vertices.now)) out.old }
{
    let mut t = 0;
    for j in 0..vertices.len() {
        tied_column(&mut out[t..], vertices, places, j, base, start);
        t += j + 1;
    }
    t
}
