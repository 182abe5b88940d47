// The tables of a problem file (Q-2), each as the reader and the writer handle it. Floats are kept as their 64-bit patterns (u64), so that
// a NaN keeps its bits.
#![tactic(auto)]

ghost use Rattle.std.specs.Prelude.{◌≡◌, map, [], ◌∷◌, ◌++◌, cond, ◌≤◌, ◌<◌, ◌+◌, ◌*◌, length, get_or};
ghost use Rattle.layout.specs.General.Lists.{written};
ghost use Rattle.layout.specs.General.Bytes.{table_bytes};
ghost use Rattle.layout.specs.Calls.Answers.{roomy, problem_refusal};
ghost use Rattle.layout.specs.Files.File.{aligned, counts_in, counted_lengths, widths, products, offsets_from, end_from, header_of, bit_tables as tables_of, problem_of, counts_of, laid_from};
ghost use Rattle.layout.specs.Files.FileWords.{pairs_of, words_at};
ghost use Rattle.file_shape.specs.Parts.{WellShaped, Inside};
ghost use Rattle.file_tables.specs.Groups.{matrix_bytes, layout_bytes};
ghost use Rattle.constants.specs.Refusals.{refusal_of};

use constants::file_table::{DOUBLE_BYTES, WORD_BYTES};
use constants::{Refusal, file_table, header, record};

// ---- the reader

const COUNTS: u32 = header::COUNTS as u32;

const RECORD_WORDS: u32 = record::WORDS as u32;

// Makes check 11 of the reader: `rooms` holds the lengths of its outputs, for the eight counts and for each table. Refuses where one is too short.
pub fn check_room(words: &[u32], rooms: &[usize]) -> Result<(), Refusal>
    requires { WellShaped words.now }
    ensures { refusal_of result ≡ cond (roomy (8 ∷ counted_lengths (counts_in words.now)) rooms.now) 0 11 }
{
    let starts = words[header::N] + 1;
    let records = RECORD_WORDS * words[header::CONES];
    let needs = [
        COUNTS,
        starts,
        words[header::P_ENTRIES],
        words[header::P_ENTRIES],
        words[header::N],
        starts,
        words[header::A_ENTRIES],
        words[header::A_ENTRIES],
        words[header::M],
        records,
        words[header::ALPHAS],
        words[header::PATTERN_WORDS],
    ];
    utils::check_rooms(&needs, rooms)
}

// Copies the `count` words of table `i` of the file to the front of `out`.
fn copy_table(words: &[u32], i: usize, count: usize, out: &mut [u32])
    requires { Inside words.now i count × (count ≤ length out.old) }
    ensures { out.new ≡ written (words_at words.now i count) out.old }
{
    let at = file_shape::start_of(words, i);
    csc::copy_front(out, &words[at..at + count]);
}

// Writes the `count` floats of table `i`, as 64-bit patterns, to the front of `out`.
fn copy_patterns(words: &[u32], i: usize, count: usize, out: &mut [u64])
    requires { Inside words.now i (2 * count) × (count ≤ length out.old) }
    ensures { out.new ≡ written (pairs_of (words_at words.now i (2 * count))) out.old }
{
    let at = file_shape::start_of(words, i);
    file_bytes::write_patterns(&words[at..at + 2 * count], out);
}

// Writes the tables of P and q, or of A and b: the four tables from number `first` on, with `n` columns, `entries` entries, and `rows`
// values in the vector.
pub fn read_matrix(
    words: &[u32],
    first: usize,
    n: usize,
    entries: usize,
    rows: usize,
    starts_out: &mut [u32],
    rows_out: &mut [u32],
    values_out: &mut [u64],
    side_out: &mut [u64],
)
    requires first_bound { (first ≤ 4) × (n < 4294967296) }
    requires inside { Inside words.now first (n + 1) × Inside words.now (first + 1) entries × Inside words.now (first + 2) (2 * entries) × Inside words.now (first + 3) (2 * rows) }
    requires n_in_bounds { (n + 1 ≤ length starts_out.old) × (entries ≤ length rows_out.old) × (entries ≤ length values_out.old) × (rows ≤ length side_out.old) }
    ensures starts_out_after { starts_out.new ≡ written (words_at words.now first (n + 1)) starts_out.old }
    ensures rows_out_after { rows_out.new ≡ written (words_at words.now (first + 1) entries) rows_out.old }
    ensures values_out_after { values_out.new ≡ written (pairs_of (words_at words.now (first + 2) (2 * entries))) values_out.old }
    ensures side_out_after { side_out.new ≡ written (pairs_of (words_at words.now (first + 3) (2 * rows))) side_out.old }
{
    copy_table(words, first, n + 1, starts_out);
    copy_table(words, first + 1, entries, rows_out);
    copy_patterns(words, first + 2, entries, values_out);
    copy_patterns(words, first + 3, rows, side_out);
}

// Writes the tables of cones, α and pattern words to the fronts of the outputs.
pub fn read_layout(
    words: &[u32],
    cones_out: &mut [u32],
    alphas_out: &mut [u64],
    pattern_words_out: &mut [u32],
)
    requires well_shaped { WellShaped words.now }
    requires fact { let c = counts_in words.now in (3 * c.cones ≤ length cones_out.old) × (c.alphas ≤ length alphas_out.old) × (c.words ≤ length pattern_words_out.old) }
    ensures cones_out_after { let c = counts_in words.now in cones_out.new ≡ written (words_at words.now 8 (3 * c.cones)) cones_out.old }
    ensures alphas_out_after { let c = counts_in words.now in alphas_out.new ≡ written (pairs_of (words_at words.now 9 (2 * c.alphas))) alphas_out.old }
    ensures pattern_words_out_after { let c = counts_in words.now in pattern_words_out.new ≡ written (words_at words.now 10 c.words) pattern_words_out.old }
{
    let cones = file_shape::count_at(words, header::CONES);
    let alphas = file_shape::count_at(words, header::ALPHAS);
    let size = file_shape::count_at(words, header::PATTERN_WORDS);
    copy_table(words, file_table::CONES, record::WORDS * cones, cones_out);
    copy_patterns(words, file_table::ALPHAS, alphas, alphas_out);
    copy_table(words, file_table::PATTERN_WORDS, size, pattern_words_out);
}

// ---- the writer's header

// Returns the byte where table `i` ends, if the table before it ends at byte `end`. Table `k` has `lengths[k]` numbers.
fn next_end(end: usize, lengths: &[u32], i: usize) -> usize
    requires { (end < 1099511627776) × (length lengths.now ≡ 11) × (i < 11) }
    ensures { (result ≡ aligned end + get_or (products widths lengths.now) i 0) × (result ≤ end + 34359738375) }
{
    let bytes = [
        WORD_BYTES,
        WORD_BYTES,
        DOUBLE_BYTES,
        DOUBLE_BYTES,
        WORD_BYTES,
        WORD_BYTES,
        DOUBLE_BYTES,
        DOUBLE_BYTES,
        WORD_BYTES,
        DOUBLE_BYTES,
        WORD_BYTES,
    ];
    (end + 7) / 8 * 8 + bytes[i] * (lengths[i] as usize)
}

// Returns the byte where a file ends whose eleven tables have these lengths.
pub fn end_of(lengths: &[u32]) -> usize
    requires { length lengths.now ≡ 11 }
    ensures { (result ≡ end_from 80 (products widths lengths.now)) × (result < 1099511627776) }
{
    let mut end = header::BYTES;
    for i in 0..file_table::COUNT {
        end = next_end(end, lengths, i);
    }
    end
}

// Writes the byte offset of each table, for tables of these lengths, and then the byte where the last table ends.
fn write_offsets(lengths: &[u32], out: &mut [u32])
    requires { (length lengths.now ≡ 11) × (12 ≤ length out.old) × (end_from 80 (products widths lengths.now) < 4294967296) }
    ensures { out.new ≡ written (offsets_from 80 (products widths lengths.now) ++ (end_from 80 (products widths lengths.now) ∷ [])) out.old }
{
    let mut end = header::BYTES;
    for i in 0..file_table::COUNT {
        out[i] = ((end + 7) / 8 * 8) as u32;
        end = next_end(end, lengths, i);
    }
    out[file_table::COUNT] = end as u32;
}

// Writes the eight counts, then the offsets of tables of these lengths and the file's length.
fn write_header(counts: &[u32], lengths: &[u32], out: &mut [u32])
    requires { (length counts.now ≡ 8) × (length lengths.now ≡ 11) × (20 ≤ length out.old) × (end_from 80 (products widths lengths.now) < 4294967296) }
    ensures { out.new ≡ written (counts.now ++ (offsets_from 80 (products widths lengths.now) ++ (end_from 80 (products widths lengths.now) ∷ []))) out.old }
{
    csc::copy_front(&mut *out, counts);
    write_offsets(lengths, &mut out[header::OFFSETS..]);
}

// Writes the header of the file of a problem that passes checks 1 to 7.
pub fn make_header(
    n: u32,
    m: u32,
    p_starts: &[u32],
    p_rows: &[u32],
    p_values: &[u64],
    q: &[u64],
    a_starts: &[u32],
    a_rows: &[u32],
    a_values: &[u64],
    b: &[u64],
    cones: &[u32],
    alphas: &[u64],
    pattern_count: u32,
    pattern_words: &[u32],
    out: &mut [u32],
)
    requires { let t = tables_of n m p_starts.now p_rows.now p_values.now q.now a_starts.now a_rows.now a_values.now b.now cones.now alphas.now pattern_count pattern_words.now in
        (problem_refusal (problem_of t) ≡ 0) × (20 ≤ length out.old) }
    ensures { let t = tables_of n m p_starts.now p_rows.now p_values.now q.now a_starts.now a_rows.now a_values.now b.now cones.now alphas.now pattern_count pattern_words.now in
        out.new ≡ written (header_of (counts_of t)) out.old }
{
    let counts = [
        n,
        m,
        p_values.len() as u32,
        a_values.len() as u32,
        (cones.len() / record::WORDS) as u32,
        alphas.len() as u32,
        pattern_count,
        pattern_words.len() as u32,
    ];
    let lengths = [
        p_starts.len() as u32,
        p_rows.len() as u32,
        p_values.len() as u32,
        q.len() as u32,
        a_starts.len() as u32,
        a_rows.len() as u32,
        a_values.len() as u32,
        b.len() as u32,
        cones.len() as u32,
        alphas.len() as u32,
        pattern_words.len() as u32,
    ];
    write_header(&counts, &lengths, out);
}

// ---- the writer's tables: the front of `out` is byte `end` of the file, where the table before ends

// Writes the zero bytes of the gap, then the bytes of `words`. Returns the byte of the file where they end.
fn lay_words(end: usize, words: &[u32], out: &mut [u8]) -> usize
    requires { (end < 4294967296) × (end_from end (map length (table_bytes 4 words.now ∷ [])) ≤ end + length out.old) }
    ensures value { result ≡ end_from end (map length (table_bytes 4 words.now ∷ [])) }
    ensures out_after { out.new ≡ written (laid_from end (table_bytes 4 words.now ∷ [])) out.old }
{
    let up = (end + 7) / 8 * 8;
    file_bytes::write_zeros(up - end, &mut *out);
    file_bytes::write_words(words, &mut out[up - end..]);
    up + WORD_BYTES * words.len()
}

// Writes the zero bytes of the gap, then the bytes of `values`. Returns the byte of the file where they end.
fn lay_doubles(end: usize, values: &[u64], out: &mut [u8]) -> usize
    requires { (end < 4294967296) × (end_from end (map length (table_bytes 8 values.now ∷ [])) ≤ end + length out.old) }
    ensures value { result ≡ end_from end (map length (table_bytes 8 values.now ∷ [])) }
    ensures out_after { out.new ≡ written (laid_from end (table_bytes 8 values.now ∷ [])) out.old }
{
    let up = (end + 7) / 8 * 8;
    file_bytes::write_zeros(up - end, &mut *out);
    file_bytes::write_doubles(values, &mut out[up - end..]);
    up + DOUBLE_BYTES * values.len()
}

// Writes the tables of P and q, or of A and b, with their gaps. Returns the byte of the file where they end.
fn lay_matrix(
    end: usize,
    starts: &[u32],
    rows: &[u32],
    values: &[u64],
    side: &[u64],
    out: &mut [u8],
) -> usize
    requires side_bound { end_from end (map length (matrix_bytes starts.now rows.now values.now side.now)) ≤ end + length out.old }
    requires side_bound_2 { end_from end (map length (matrix_bytes starts.now rows.now values.now side.now)) < 4294967296 }
    ensures value { result ≡ end_from end (map length (matrix_bytes starts.now rows.now values.now side.now)) }
    ensures out_after { out.new ≡ written (laid_from end (matrix_bytes starts.now rows.now values.now side.now)) out.old }
{
    let end1 = lay_words(end, starts, &mut *out);
    let end2 = lay_words(end1, rows, &mut out[end1 - end..]);
    let end3 = lay_doubles(end2, values, &mut out[end2 - end..]);
    lay_doubles(end3, side, &mut out[end3 - end..])
}

// Writes the tables of cones, α and pattern words, with their gaps.
fn lay_layout(end: usize, cones: &[u32], alphas: &[u64], words: &[u32], out: &mut [u8])
    requires words_bound { end_from end (map length (layout_bytes cones.now alphas.now words.now)) ≤ end + length out.old }
    requires words_bound_2 { end_from end (map length (layout_bytes cones.now alphas.now words.now)) < 4294967296 }
    ensures { out.new ≡ written (laid_from end (layout_bytes cones.now alphas.now words.now)) out.old }
{
    let end1 = lay_words(end, cones, &mut *out);
    let end2 = lay_doubles(end1, alphas, &mut out[end1 - end..]);
    lay_words(end2, words, &mut out[end2 - end..]);
}

// Writes all tables of a file, with their gaps; the front of `out` is the byte after the header.
pub fn lay_tables(
    p_starts: &[u32],
    p_rows: &[u32],
    p_values: &[u64],
    q: &[u64],
    a_starts: &[u32],
    a_rows: &[u32],
    a_values: &[u64],
    b: &[u64],
    cones: &[u32],
    alphas: &[u64],
    pattern_words: &[u32],
    out: &mut [u8],
)
    requires { let ts = matrix_bytes p_starts.now p_rows.now p_values.now q.now ++ (matrix_bytes a_starts.now a_rows.now a_values.now b.now ++ layout_bytes cones.now alphas.now pattern_words.now) in
        (end_from 80 (map length ts) ≤ 80 + length out.old) × (end_from 80 (map length ts) < 4294967296) }
    ensures { let ts = matrix_bytes p_starts.now p_rows.now p_values.now q.now ++ (matrix_bytes a_starts.now a_rows.now a_values.now b.now ++ layout_bytes cones.now alphas.now pattern_words.now) in
        out.new ≡ written (laid_from 80 ts) out.old }
{
    let end1 = lay_matrix(header::BYTES, p_starts, p_rows, p_values, q, &mut *out);
    let end2 = lay_matrix(
        end1,
        a_starts,
        a_rows,
        a_values,
        b,
        &mut out[end1 - header::BYTES..],
    );
    lay_layout(
        end2,
        cones,
        alphas,
        pattern_words,
        &mut out[end2 - header::BYTES..],
    );
}
