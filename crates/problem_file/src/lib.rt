// Reads a problem from the words of its file (Q-2). Tables of floats are written as 64-bit patterns, so that a NaN keeps its bits.
#![tactic(auto)]

ghost use Rattle.std.specs.Prelude.{◌≡◌, suc, ◌≤◌, length};
ghost use Rattle.layout.specs.General.Lists.{written};
ghost use Rattle.layout.specs.Files.File.{count_words, counts_in};
ghost use Rattle.layout.specs.Files.FileWords.{word_tables};
ghost use Rattle.layout.specs.Calls.ReadFile.{file_outputs, ReadFile};
ghost use Rattle.file_shape.specs.Parts.{WellShaped};
ghost use Rattle.constants.specs.Refusals.{refusal_of};

use constants::{Refusal, file_table, header};

// Writes the eight counts of the header to `counts_out`.
fn read_counts(words: &[u32], counts_out: &mut [u32])
    requires { WellShaped words.now × (8 ≤ length counts_out.old) }
    ensures { counts_out.new ≡ written (count_words (counts_in words.now)) counts_out.old }
{
    csc::copy_front(counts_out, &words[..header::COUNTS]);
}

// Writes the tables of P, and q.
fn read_objective(
    words: &[u32],
    starts_out: &mut [u32],
    rows_out: &mut [u32],
    values_out: &mut [u64],
    q_out: &mut [u64],
)
    requires well_shaped { WellShaped words.now }
    requires fact { let c = counts_in words.now in (suc c.n ≤ length starts_out.old) × (c.entries_p ≤ length rows_out.old) × (c.entries_p ≤ length values_out.old) × (c.n ≤ length q_out.old) }
    ensures starts_out_after { let t = word_tables words.now in starts_out.new ≡ written t.p_starts starts_out.old }
    ensures rows_out_after { let t = word_tables words.now in rows_out.new ≡ written t.p_rows rows_out.old }
    ensures values_out_after { let t = word_tables words.now in values_out.new ≡ written t.p_values values_out.old }
    ensures q_out_after { let t = word_tables words.now in q_out.new ≡ written t.q q_out.old }
{
    let n = file_shape::count_at(words, header::N);
    let p = file_shape::count_at(words, header::P_ENTRIES);
    file_tables::read_matrix(
        words,
        file_table::P_STARTS,
        n,
        p,
        n,
        starts_out,
        rows_out,
        values_out,
        q_out,
    );
}

// Writes the tables of A, and b.
fn read_constraints(
    words: &[u32],
    starts_out: &mut [u32],
    rows_out: &mut [u32],
    values_out: &mut [u64],
    b_out: &mut [u64],
)
    requires well_shaped { WellShaped words.now }
    requires fact { let c = counts_in words.now in (suc c.n ≤ length starts_out.old) × (c.entries_a ≤ length rows_out.old) × (c.entries_a ≤ length values_out.old) × (c.m ≤ length b_out.old) }
    ensures starts_out_after { let t = word_tables words.now in starts_out.new ≡ written t.a_starts starts_out.old }
    ensures rows_out_after { let t = word_tables words.now in rows_out.new ≡ written t.a_rows rows_out.old }
    ensures values_out_after { let t = word_tables words.now in values_out.new ≡ written t.a_values values_out.old }
    ensures b_out_after { let t = word_tables words.now in b_out.new ≡ written t.b b_out.old }
{
    let n = file_shape::count_at(words, header::N);
    let m = file_shape::count_at(words, header::M);
    let a = file_shape::count_at(words, header::A_ENTRIES);
    file_tables::read_matrix(
        words,
        file_table::A_STARTS,
        n,
        a,
        m,
        starts_out,
        rows_out,
        values_out,
        b_out,
    );
}

// Reads the words of a file of `length` bytes: writes the counts of its header and its tables, each to the front of its output. Returns the
// first refusal: of checks 13, 14, 1 to 7, or that an output is too short.
pub fn read_file(
    words: &[u32],
    length: usize,
    counts_out: &mut [u32],
    p_starts_out: &mut [u32],
    p_rows_out: &mut [u32],
    p_values_out: &mut [u64],
    q_out: &mut [u64],
    a_starts_out: &mut [u32],
    a_rows_out: &mut [u32],
    a_values_out: &mut [u64],
    b_out: &mut [u64],
    cones_out: &mut [u32],
    alphas_out: &mut [u64],
    pattern_words_out: &mut [u32],
) -> Result<(), Refusal>
    ensures { let before = file_outputs counts_out.old p_starts_out.old p_rows_out.old p_values_out.old q_out.old a_starts_out.old a_rows_out.old a_values_out.old b_out.old cones_out.old alphas_out.old pattern_words_out.old in
        let after = file_outputs counts_out.new p_starts_out.new p_rows_out.new p_values_out.new q_out.new a_starts_out.new a_rows_out.new a_values_out.new b_out.new cones_out.new alphas_out.new pattern_words_out.new in
        ReadFile words.now length before after (refusal_of result) }
{
    let rooms = [
        counts_out.len(),
        p_starts_out.len(),
        p_rows_out.len(),
        p_values_out.len(),
        q_out.len(),
        a_starts_out.len(),
        a_rows_out.len(),
        a_values_out.len(),
        b_out.len(),
        cones_out.len(),
        alphas_out.len(),
        pattern_words_out.len(),
    ];
    file_refusals::refuse_read(words, length, &rooms)?;
    read_counts(words, counts_out);
    read_objective(words, p_starts_out, p_rows_out, p_values_out, q_out);
    read_constraints(words, a_starts_out, a_rows_out, a_values_out, b_out);
    file_tables::read_layout(words, cones_out, alphas_out, pattern_words_out);
    Ok(())
}
