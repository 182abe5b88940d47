// The columns of the generated problem (Q-5): counts and writes their entries, over given rows.
#![tactic(auto)]

ghost use Rattle.std.specs.Prelude.{◌≡◌, ◌+◌, ◌-◌, ◌/◌, ◌%◌, ◌≤◌, ◌<◌, map, length, take};
ghost use Rattle.layout.specs.General.Lists.{written};
ghost use Rattle.layout.specs.Cuts.Compact.{rows_of};
ghost use Rattle.layout.specs.Calls.Generate.{drawn_value, drawn_column, after_column};
ghost use Rattle.layout.proofs.Columns.Compressed.{values_of};

use generator_draws::{draw, draw_value};

// The result of drawing a column: the number of its entries, and the state after its draws.
#[derive(Clone, Copy)]
pub struct ColumnDraw {
    pub count: usize,
    pub state: u64,
}

// Returns 1 where the draw after `d` is a value: where `d` is odd and was not a value itself (`due` is 0). Returns 0 otherwise. A product would be
// compiled to a branch.
fn due_after(d: u64, due: u64) -> u64
    requires { due ≤ 1 }
    ensures { result ≡ (d % 2 + (1 - due)) / 2 }
{
    (d % 2 + (1 - due)) / 2
}

// Draws a column over `rows` and counts its entries. It goes draw by draw: `due` is 1 where the next draw is the value of an entry at
// row `i`, and 0 where it decides whether that row stores one. No branch depends on a draw, since none could be predicted.
pub fn count_column(s: u64, rows: &[u32]) -> ColumnDraw
    ensures { (result.count ≡ length (drawn_column s rows.now)) × (result.state ≡ after_column s rows.now) }
{
    let mut state = s;
    let mut count = 0;
    let mut due = 0;
    let mut i = 0;
    while i < rows.len() {
        state = draw(state);
        count += due as usize;
        due = due_after(state, due);
        i += 1 - due as usize;
    }
    ColumnDraw { count, state }
}

// Does what `count_column` does, and writes the row of each entry to `kept_rows` and the draw of its value to `kept`. What is written after the
// last entry is overwritten by the next one.
pub fn keep_column(s: u64, rows: &[u32], kept_rows: &mut [u32], kept: &mut [u64]) -> ColumnDraw
    requires { (length rows.now < length kept_rows.old) × (length rows.now < length kept.old) }
    ensures count_value { (result.count ≡ length (drawn_column s rows.now)) × (result.state ≡ after_column s rows.now) }
    ensures kept_rows_after { take result.count kept_rows.new ≡ rows_of (drawn_column s rows.now) }
    ensures kept_after { map drawn_value (take result.count kept.new) ≡ values_of (drawn_column s rows.now) }
{
    let mut state = s;
    let mut count = 0;
    let mut due = 0;
    let mut i = 0;
    while i < rows.len() {
        state = draw(state);
        kept_rows[count] = rows[i];
        kept[count] = state;
        count += due as usize;
        due = due_after(state, due);
        i += 1 - due as usize;
    }
    ColumnDraw { count, state }
}

// Writes kept entries to the front of `rows_out` and `values_out`.
pub fn write_kept(kept_rows: &[u32], kept: &[u64], rows_out: &mut [u32], values_out: &mut [f64])
    requires { (length kept.now ≡ length kept_rows.now) × (length kept.now ≤ length rows_out.old) × (length kept.now ≤ length values_out.old) }
    ensures rows_out_after { rows_out.new ≡ written kept_rows.now rows_out.old }
    ensures values_out_after { values_out.new ≡ written (map drawn_value kept.now) values_out.old }
{
    rows_out[..kept_rows.len()].copy_from_slice(kept_rows);
    for (i, &d) in kept.iter().enumerate() {
        values_out[i] = draw_value(d);
    }
}

// Draws a column over at most 63 `rows` and writes its entries to the front of `rows_out` and `values_out`. Returns the count and the state.
fn write_few(s: u64, rows: &[u32], rows_out: &mut [u32], values_out: &mut [f64]) -> ColumnDraw
    requires rows_len_bound { length rows.now ≤ 63 }
    requires rows_in_bounds { (length (drawn_column s rows.now) ≤ length rows_out.old) × (length (drawn_column s rows.now) ≤ length values_out.old) }
    ensures count_value { (result.count ≡ length (drawn_column s rows.now)) × (result.state ≡ after_column s rows.now) }
    ensures rows_out_after { rows_out.new ≡ written (rows_of (drawn_column s rows.now)) rows_out.old }
    ensures values_out_after { values_out.new ≡ written (values_of (drawn_column s rows.now)) values_out.old }
{
    let mut kept_rows = [0u32; 64];
    let mut kept = [0u64; 64];
    let d = keep_column(s, rows, &mut kept_rows, &mut kept);
    write_kept(
        &kept_rows[..d.count],
        &kept[..d.count],
        rows_out,
        values_out,
    );
    d
}

// Returns how many of the `left` rows are drawn in one call: at most 63.
fn few_of(left: usize) -> usize
    ensures { (result ≤ left) × (result ≤ 63) × (0 < left → 0 < result) }
{
    left.min(63)
}

// Draws a column over `rows` and writes its entries to the front of `rows_out` and `values_out`. Returns their number and the state after it.
pub fn write_column(
    s: u64,
    rows: &[u32],
    rows_out: &mut [u32],
    values_out: &mut [f64],
) -> ColumnDraw
    requires { (length (drawn_column s rows.now) ≤ length rows_out.old) × (length (drawn_column s rows.now) ≤ length values_out.old) }
    ensures count_value { (result.count ≡ length (drawn_column s rows.now)) × (result.state ≡ after_column s rows.now) }
    ensures rows_out_after { rows_out.new ≡ written (rows_of (drawn_column s rows.now)) rows_out.old }
    ensures values_out_after { values_out.new ≡ written (values_of (drawn_column s rows.now)) values_out.old }
{
    let mut state = s;
    let mut count = 0;
    let mut i = 0;
    while i < rows.len() {
        let few = few_of(rows.len() - i);
        let d = write_few(
            state,
            &rows[i..i + few],
            &mut rows_out[count..],
            &mut values_out[count..],
        );
        state = d.state;
        count += d.count;
        i += few;
    }
    ColumnDraw { count, state }
}
