// Writes a problem as a file (Q-2). Tables of floats are passed as 64-bit patterns, so that a NaN keeps its bits.
#![tactic(auto)]

ghost use Rattle.layout.specs.Files.File.{bit_tables as tables_of};
ghost use Rattle.layout.specs.Calls.WriteFile.{WriteFile};
ghost use Rattle.constants.specs.Refusals.{refusal_of};

use constants::{Refusal, header};

// Writes the file of a problem to `out`. Returns the first refusal: of checks 1 to 7, or that `out` is too short.
pub fn write_file(
    n: u32,
    m: u32,
    p_starts: &[u32],
    p_rows: &[u32],
    p_values: &[u64],
    q: &[u64],
    a_starts: &[u32],
    a_rows: &[u32],
    a_values: &[u64],
    b: &[u64],
    cones: &[u32],
    alphas: &[u64],
    pattern_count: u32,
    pattern_words: &[u32],
    out: &mut [u8],
) -> Result<(), Refusal>
    ensures { let t = tables_of n m p_starts.now p_rows.now p_values.now q.now a_starts.now a_rows.now a_values.now b.now cones.now alphas.now pattern_count pattern_words.now in
        WriteFile t out.old out.new (refusal_of result) }
{
    check_problem::check_lengths(
        n,
        m,
        p_starts,
        p_rows,
        p_values.len(),
        q.len(),
        a_starts,
        a_rows,
        a_values.len(),
        b.len(),
        cones,
        alphas.len(),
        pattern_count,
        pattern_words,
    )?;
    let mut header = [0u32; header::WORDS];
    file_tables::make_header(
        n,
        m,
        p_starts,
        p_rows,
        p_values,
        q,
        a_starts,
        a_rows,
        a_values,
        b,
        cones,
        alphas,
        pattern_count,
        pattern_words,
        &mut header,
    );
    if out.len() < header[header::LENGTH] as usize {
        return Err(Refusal::Short);
    }
    file_bytes::write_words(&header, &mut *out);
    file_tables::lay_tables(
        p_starts,
        p_rows,
        p_values,
        q,
        a_starts,
        a_rows,
        a_values,
        b,
        cones,
        alphas,
        pattern_words,
        &mut out[header::BYTES..],
    );
    Ok(())
}
