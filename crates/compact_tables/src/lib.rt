// Writes the file of the compact problem (Q-2): P, q and α as in the file that was read, P and q extended for the added columns, A, b and the cones
// as the cut makes them, and no patterns.
#![tactic(auto)]

ghost use Rattle.std.specs.Prelude.{◌≡◌, ◌++◌, ◌≤◌, ◌+◌, length, replicate};
ghost use Rattle.layout.specs.General.Lists.{written};
ghost use Rattle.layout.specs.General.Floats.{bits, floats};
ghost use Rattle.layout.specs.Files.File.{file_of, compact_tables};
ghost use Rattle.layout.specs.Files.FileWords.{pairs_of, word_tables};
ghost use Rattle.file_shape.specs.Parts.{WellShaped};
ghost use Rattle.compact_tables.specs.Writers.{Writes, extended_tables, Extends};

use constants::{file_table, header};

// The longest file that is written, and the largest numbers of words and doubles in it.
pub const OUT_BYTES: usize = 65536;

const OUT_WORDS: usize = OUT_BYTES / file_table::WORD_BYTES;

const OUT_DOUBLES: usize = OUT_BYTES / file_table::DOUBLE_BYTES;

// Writes to `out` the file of a compact problem with `columns` columns: P, q and α as in `words`, P extended by empty columns and q by zeros,
// and A, b and the cones as passed, with doubles as bit patterns.
fn write_extended(
    words: &[u32],
    patterns: &[u64],
    columns: usize,
    a_starts: &[u32],
    a_rows: &[u32],
    a_values: &[u64],
    b: &[u64],
    cones: &[u32],
    out: &mut [u8],
)
    requires well_shaped { WellShaped words.now × (patterns.now ≡ pairs_of words.now) }
    requires extends { Extends (word_tables words.now) columns a_starts.now a_rows.now a_values.now b.now cones.now × (65536 ≤ length out.old) }
    ensures { let t = extended_tables (word_tables words.now) columns a_starts.now a_rows.now a_values.now b.now cones.now in
        out.new ≡ written (file_of t) out.old }
{
    let n = file_shape::count_at(words, header::N);
    let mut starts = [0u32; OUT_WORDS];
    csc::extend_front(
        &mut starts,
        file_views::words_of(words, file_table::P_STARTS),
        columns - n,
        words[header::P_ENTRIES],
    );
    let mut costs = [0u64; OUT_DOUBLES];
    file_bytes::write_patterns(file_views::words_of(words, file_table::Q), &mut costs);
    // Not refused: the problem passes the checks, and its file is short enough.
    let _ = file_writer::write_file(
        columns as u32,
        b.len() as u32,
        &starts[..columns + 1],
        file_views::words_of(words, file_table::P_ROWS),
        file_views::patterns_of(words, patterns, file_table::P_VALUES),
        &costs[..columns],
        a_starts,
        a_rows,
        a_values,
        b,
        cones,
        file_views::patterns_of(words, patterns, file_table::ALPHAS),
        0,
        &words[..0],
        out,
    );
}

// Does what `write_extended` does, with the doubles of A and b as values.
fn write_compact(
    words: &[u32],
    patterns: &[u64],
    columns: usize,
    a_starts: &[u32],
    a_rows: &[u32],
    a_values: &[f64],
    b: &[f64],
    cones: &[u32],
    out: &mut [u8],
)
    requires well_shaped { WellShaped words.now × (patterns.now ≡ pairs_of words.now) }
    requires extends { Extends (word_tables words.now) columns a_starts.now a_rows.now (bits a_values.now) (bits b.now) cones.now × (65536 ≤ length out.old) }
    ensures { let t = extended_tables (word_tables words.now) columns a_starts.now a_rows.now (bits a_values.now) (bits b.now) cones.now in
        out.new ≡ written (file_of t) out.old }
{
    let mut entries = [0u64; OUT_DOUBLES];
    file_bytes::write_bits(a_values, &mut entries);
    let mut side = [0u64; OUT_DOUBLES];
    file_bytes::write_bits(b, &mut side);
    write_extended(
        words,
        patterns,
        columns,
        a_starts,
        a_rows,
        &entries[..a_values.len()],
        &side[..b.len()],
        cones,
        out,
    );
}

// Cuts the accepted problem of a file on the compact route and writes the file of the compact problem to `out`. `lengths` are its tables' lengths.
pub fn write_cut(words: &[u32], patterns: &[u64], values: &[f64], lengths: &[u32], out: &mut [u8])
    requires well_shaped { WellShaped words.now × (patterns.now ≡ pairs_of words.now) × (values.now ≡ floats (pairs_of words.now)) }
    requires writes { Writes (word_tables words.now) lengths.now × (65536 ≤ length out.old) }
    ensures { out.new ≡ written (file_of (compact_tables (word_tables words.now))) out.old }
{
    let n = file_shape::count_at(words, header::N);
    let columns = file_shape::count_at(lengths, file_table::Q);
    let entries = file_shape::count_at(lengths, file_table::A_ROWS);
    let rows = file_shape::count_at(lengths, file_table::B);
    let records = file_shape::count_at(lengths, file_table::CONES);
    let mut a_starts_out = [0u32; OUT_WORDS];
    let mut a_rows_out = [0u32; OUT_WORDS];
    let mut a_values_out = [0.0; OUT_DOUBLES];
    let mut b_out = [0.0; OUT_DOUBLES];
    let mut cones_out = [0u32; OUT_WORDS];
    compact_parts::cut_constraints(
        words,
        values,
        rows,
        columns - n,
        &mut a_starts_out,
        &mut a_rows_out,
        &mut a_values_out,
        &mut b_out,
        &mut cones_out,
    );
    write_compact(
        words,
        patterns,
        columns,
        &a_starts_out[..columns + 1],
        &a_rows_out[..entries],
        &a_values_out[..entries],
        &b_out[..rows],
        &cones_out[..records],
        out,
    );
}
