// Reads a problem from the words of its file.
ghost use Rattle.layout.specs.Calls.ReadFile.{file_outputs, ReadFile};

use constants::number_of;

#[unsafe(no_mangle)]
pub extern "C" fn chordal_read_file(
    words: &[u32],
    length: usize,
    counts_out: &mut [u32],
    p_starts_out: &mut [u32],
    p_rows_out: &mut [u32],
    p_values_out: &mut [u64],
    q_out: &mut [u64],
    a_starts_out: &mut [u32],
    a_rows_out: &mut [u32],
    a_values_out: &mut [u64],
    b_out: &mut [u64],
    cones_out: &mut [u32],
    alphas_out: &mut [u64],
    pattern_words_out: &mut [u32],
) -> u32
    ensures { let before = file_outputs counts_out.old p_starts_out.old p_rows_out.old p_values_out.old q_out.old a_starts_out.old a_rows_out.old a_values_out.old b_out.old cones_out.old alphas_out.old pattern_words_out.old in
        let after = file_outputs counts_out.new p_starts_out.new p_rows_out.new p_values_out.new q_out.new a_starts_out.new a_rows_out.new a_values_out.new b_out.new cones_out.new alphas_out.new pattern_words_out.new in
        ReadFile words.now length before after result }
{
    number_of(problem_file::read_file(
        words,
        length,
        counts_out,
        p_starts_out,
        p_rows_out,
        p_values_out,
        q_out,
        a_starts_out,
        a_rows_out,
        a_values_out,
        b_out,
        cones_out,
        alphas_out,
        pattern_words_out,
    ))
}
