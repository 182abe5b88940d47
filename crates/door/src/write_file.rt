// Writes a problem as a file.
ghost use Rattle.layout.specs.Files.File.{bit_tables};
ghost use Rattle.layout.specs.Calls.WriteFile.{WriteFile};

use constants::number_of;

#[unsafe(no_mangle)]
pub extern "C" fn chordal_write_file(
    n: u32,
    m: u32,
    p_starts: &[u32],
    p_rows: &[u32],
    p_values: &[u64],
    q: &[u64],
    a_starts: &[u32],
    a_rows: &[u32],
    a_values: &[u64],
    b: &[u64],
    cones: &[u32],
    alphas: &[u64],
    pattern_count: u32,
    pattern_words: &[u32],
    out: &mut [u8],
) -> u32
    ensures { let t = bit_tables n m p_starts.now p_rows.now p_values.now q.now a_starts.now a_rows.now a_values.now b.now cones.now alphas.now pattern_count pattern_words.now in
        WriteFile t out.old out.new result }
{
    number_of(file_writer::write_file(
        n,
        m,
        p_starts,
        p_rows,
        p_values,
        q,
        a_starts,
        a_rows,
        a_values,
        b,
        cones,
        alphas,
        pattern_count,
        pattern_words,
        out,
    ))
}
