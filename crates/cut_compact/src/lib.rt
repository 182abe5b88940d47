// The constraints of the compact cut: A and its right sides over the augmented rows of a problem that the route accepts.
#![tactic(auto)]

ghost use Rattle.std.specs.Prelude.{◌≡◌, [], map, ◌*◌, ◌≤◌, length};
ghost use Rattle.layout.specs.General.Lists.{written};
ghost use Rattle.layout.specs.Rows.Blocks.{compact_rows, block_row_count};
ghost use Rattle.layout.specs.Checks.{Sound};
ghost use Rattle.layout.specs.Calls.Join.{joined_parts};
ghost use Rattle.rows_codes.specs.Codes.{cut_code, RowsInside};
ghost use Rattle.layout.specs.Calls.CutMany.{sides_b};
ghost use Rattle.csc.specs.Matrix.{matrix};
ghost use Rattle.sparsevector.specs.Sides.{moved_sides};
ghost use Rattle.augment_standard.specs.Constraints.{constraints};
ghost use Rattle.cut_compact.specs.System.{SystemFits, MovableSides, HoldsA};

use constants::scratch;
use rows_tables::Table;

// Writes the codes of the `rows` augmented rows to `table`, and from these codes the augmented right sides of two lists: the `side_count` of
// `sides` and the `other_count` of `others`, each of `m` values.
fn write_sides(
    m: u32,
    sides: &[f64],
    side_count: u32,
    others: &[f64],
    other_count: u32,
    cones: &[u32],
    count: u32,
    words: &[u32],
    rows: usize,
    table: &mut [u32],
    sides_out: &mut [f64],
    others_out: &mut [f64],
)
    requires sound { Sound m cones.now count words.now }
    requires rows_value { (rows ≡ block_row_count (joined_parts cones.now count words.now)) × (rows ≤ 262144) × (rows ≤ length table.old) }
    requires rows_inside { RowsInside m (map cut_code (compact_rows (joined_parts cones.now count words.now))) }
    requires movable_sides { MovableSides m rows sides.now side_count sides_out.old × MovableSides m rows others.now other_count others_out.old }
    ensures table_after { table.new ≡ written (map cut_code (compact_rows (joined_parts cones.now count words.now))) table.old }
    ensures sides_out_after { sides_out.new ≡ written (moved_sides m (map cut_code (compact_rows (joined_parts cones.now count words.now))) sides.now side_count) sides_out.old }
    ensures others_out_after { others_out.new ≡ written (moved_sides m (map cut_code (compact_rows (joined_parts cones.now count words.now))) others.now other_count) others_out.old }
{
    rows_tables::write_table(Table::CutRows, m, cones, count, words, &mut *table);
    sparsevector::move_sides(sides_out, &table[..rows], m as usize, sides, side_count);
    sparsevector::move_sides(others_out, &table[..rows], m as usize, others, other_count);
}

// Writes A with its `k` overlap columns, and the augmented right sides of both lists, with tables for `ROWS` augmented rows, one flag for each 64 of
// them, and `PLACES` original rows. It has its own stack frame for each size, so that a small problem never enters the frame of large tables.
#[inline(never)]
fn with_tables<const ROWS: usize, const FLAGS: usize, const PLACES: usize>(
    n: u32,
    m: u32,
    a_starts: &[u32],
    a_rows: &[u32],
    a_values: &[f64],
    sides: &[f64],
    side_count: u32,
    others: &[f64],
    other_count: u32,
    cones: &[u32],
    count: u32,
    words: &[u32],
    rows: usize,
    k: usize,
    a_starts_out: &mut [u32],
    a_rows_out: &mut [u32],
    a_values_out: &mut [f64],
    sides_out: &mut [f64],
    others_out: &mut [f64],
)
    requires fact { let p = constraints n m a_starts.now a_rows.now a_values.now [] cones.now count words.now in
        SystemFits p rows k (matrix a_starts_out.old a_rows_out.old a_values_out.old) }
    requires movable_sides { MovableSides m rows sides.now side_count sides_out.old × MovableSides m rows others.now other_count others_out.old }
    requires rows_bound { (rows ≤ ROWS) × (rows ≤ 64 * FLAGS) × (m ≤ PLACES) }
    requires sizes { (ROWS ≤ 262144) × (FLAGS ≤ 4096) × (PLACES ≤ 65536) }
    ensures { let p = constraints n m a_starts.now a_rows.now a_values.now [] cones.now count words.now in
        let before = matrix a_starts_out.old a_rows_out.old a_values_out.old in
        let after = matrix a_starts_out.new a_rows_out.new a_values_out.new in
        HoldsA p before after × (sides_out.new ≡ written (sides_b p side_count sides.now) sides_out.old)
        × (others_out.new ≡ written (sides_b p other_count others.now) others_out.old) }
{
    let mut table = [0u32; ROWS];
    let mut place = [0u32; PLACES];
    let mut chunks = [false; FLAGS];
    augment_compact::write_starts(&mut *a_starts_out, n, a_starts, a_rows, k);
    write_sides(
        m,
        sides,
        side_count,
        others,
        other_count,
        cones,
        count,
        words,
        rows,
        &mut table,
        sides_out,
        others_out,
    );
    let end = (rows + 63) / 64;
    augment_compact::write_entries(
        a_rows_out,
        a_values_out,
        &mut table[..rows],
        &mut place,
        &mut chunks[..end],
        n,
        a_starts,
        a_rows,
        a_values,
        &*a_starts_out,
        k,
    );
}

// Writes A with its `k` overlap columns, and the augmented right sides of two lists, over `rows` augmented rows, with tables that suit their
// number. The codes of the rows are made once for all of them; a cut with one right side has no `others`.
pub fn write_compact_a(
    n: u32,
    m: u32,
    a_starts: &[u32],
    a_rows: &[u32],
    a_values: &[f64],
    sides: &[f64],
    side_count: u32,
    others: &[f64],
    other_count: u32,
    cones: &[u32],
    count: u32,
    words: &[u32],
    rows: usize,
    k: usize,
    a_starts_out: &mut [u32],
    a_rows_out: &mut [u32],
    a_values_out: &mut [f64],
    sides_out: &mut [f64],
    others_out: &mut [f64],
)
    requires fact { let p = constraints n m a_starts.now a_rows.now a_values.now [] cones.now count words.now in
        SystemFits p rows k (matrix a_starts_out.old a_rows_out.old a_values_out.old) }
    requires movable_sides { MovableSides m rows sides.now side_count sides_out.old × MovableSides m rows others.now other_count others_out.old }
    ensures { let p = constraints n m a_starts.now a_rows.now a_values.now [] cones.now count words.now in
        let before = matrix a_starts_out.old a_rows_out.old a_values_out.old in
        let after = matrix a_starts_out.new a_rows_out.new a_values_out.new in
        HoldsA p before after × (sides_out.new ≡ written (sides_b p side_count sides.now) sides_out.old)
        × (others_out.new ≡ written (sides_b p other_count others.now) others_out.old) }
{
    // Clearing 2048 rows takes less time than such a cut.
    if rows <= 2048 && m <= 2048 {
        with_tables::<2048, 32, 2048>(
            n,
            m,
            a_starts,
            a_rows,
            a_values,
            sides,
            side_count,
            others,
            other_count,
            cones,
            count,
            words,
            rows,
            k,
            a_starts_out,
            a_rows_out,
            a_values_out,
            sides_out,
            others_out,
        );
    } else {
        with_tables::<{ scratch::AUGMENTED_ROWS }, 4096, { scratch::ROWS }>(
            n,
            m,
            a_starts,
            a_rows,
            a_values,
            sides,
            side_count,
            others,
            other_count,
            cones,
            count,
            words,
            rows,
            k,
            a_starts_out,
            a_rows_out,
            a_values_out,
            sides_out,
            others_out,
        );
    }
}
