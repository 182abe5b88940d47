// The compact cut from the bytes of a problem file to the bytes of another (Q-2). A file of at most 8,192 bytes is read and cut on the compact route;
// the compact problem, which has no patterns, is written as a file of at most 65,536 bytes. If anything is refused, a line with the number is written.
#![tactic(auto)]

ghost use Rattle.std.specs.Prelude.{◌≡◌, ◌≤◌, ◌<◌, length};
ghost use Rattle.std.specs.Io.{ReadsAtMost};
ghost use Rattle.layout.specs.General.Lists.{written};
ghost use Rattle.layout.specs.General.Floats.{floats};
ghost use Rattle.layout.specs.Files.File.{refused_text};
ghost use Rattle.layout.specs.Files.FileWords.{pairs_of, word_tables, word_shape_failing};
ghost use Rattle.file_shape.specs.Parts.{WellShaped};
ghost use Rattle.compact_file.specs.Program.{cut_tables_output, Small, words_output, CutFile};
ghost use Rattle.constants.specs.Refusals.{number, refusal_of};

use compact_tables::OUT_BYTES;
use constants::{Refusal, file_table};
use std::io::{self, Read};

// The longest file that is read, and the largest numbers of words and doubles in it.
const IN_BYTES: usize = 8192;

const IN_WORDS: usize = IN_BYTES / file_table::WORD_BYTES;

const IN_DOUBLES: usize = IN_BYTES / file_table::DOUBLE_BYTES;

// ---- the input

// Reads from `input` until it ends or `out` is full. Returns the number of bytes read.
pub fn read_full<R: Read>(input: &mut R, out: &mut [u8]) -> io::Result<usize>
    ensures { ReadsAtMost result out.new }
{
    let mut length = 0;
    while length < out.len() {
        let count = input.read(&mut out[length..])?;
        if count == 0 {
            break;
        }
        length += count;
    }
    Ok(length)
}

// ---- the refusal line

// Writes "refused ", the number of `refusal` and a line feed to `out`. Returns the number of bytes written.
fn refuse(refusal: Refusal, out: &mut [u8]) -> usize
    requires { 11 ≤ length out.old }
    ensures { (result ≡ length (refused_text (number refusal))) × (out.new ≡ written (refused_text (number refusal)) out.old) }
{
    let number = refusal.number();
    out[..8].copy_from_slice(b"refused ");
    if number < 10 {
        out[8] = b'0' + number as u8;
        out[9] = b'\n';
        return 10;
    }
    out[8] = b'0' + (number / 10) as u8;
    out[9] = b'0' + (number % 10) as u8;
    out[10] = b'\n';
    11
}

// ---- the output

// Writes to `out` the compact file of the problem in a file's `words`, or a refusal line; `patterns` and `values` are the doubles that the words form in
// pairs. Returns the number of bytes written.
fn cut_doubles(words: &[u32], patterns: &[u64], values: &[f64], out: &mut [u8]) -> usize
    requires well_shaped { WellShaped words.now × (patterns.now ≡ pairs_of words.now) × (values.now ≡ floats (pairs_of words.now)) }
    requires small { Small words.now × (65536 ≤ length out.old) }
    ensures { let t = word_tables words.now in
        (result ≡ length (cut_tables_output t)) × (out.new ≡ written (cut_tables_output t) out.old) }
{
    let mut lengths = [0u32; file_table::COUNT];
    match compact_parts::size_tables(words, values, &mut lengths) {
        Ok(()) => (),
        Err(refusal) => return refuse(refusal, out),
    }
    lengths[file_table::PATTERN_WORDS] = 0;
    let end = file_tables::end_of(&lengths);
    if OUT_BYTES < end {
        return refuse(Refusal::TooLarge, out);
    }
    compact_tables::write_cut(words, patterns, values, &lengths, out);
    end
}

// Writes to `out` the compact file of the problem in a file's `words`, or a refusal line. Returns the number of bytes written.
fn cut_tables(words: &[u32], out: &mut [u8]) -> usize
    requires { WellShaped words.now × Small words.now × (65536 ≤ length out.old) }
    ensures { let t = word_tables words.now in
        (result ≡ length (cut_tables_output t)) × (out.new ≡ written (cut_tables_output t) out.old) }
{
    let half = words.len() / 2;
    let mut patterns = [0u64; IN_DOUBLES];
    file_bytes::write_patterns(&words[..2 * half], &mut patterns);
    let mut values = [0.0; IN_DOUBLES];
    file_bytes::write_floats(&patterns[..half], &mut values);
    cut_doubles(words, &patterns[..half], &values[..half], out)
}

// Makes checks 13 and 14 on the `words` of a file of `bytes` bytes. Writes to `out` a refusal line, or else what `cut_tables` writes.
// Returns the number of bytes written.
fn cut_words(words: &[u32], bytes: usize, out: &mut [u8]) -> usize
    requires { (word_shape_failing words.now bytes ≡ 0 → Small words.now) × (65536 ≤ length out.old) }
    ensures { (result ≡ length (words_output words.now bytes)) × (out.new ≡ written (words_output words.now bytes) out.old) }
{
    match file_shape::shape_refusal(words, bytes) {
        Ok(()) => cut_tables(words, out),
        Err(refusal) => refuse(refusal, out),
    }
}

// Writes to `out` what the program prints for `file`: the compact file, or "refused " and the number. Returns the number of bytes written;
// 0, with nothing written, where `out` has less than 65,536 bytes, the longest output.
pub fn cut_file(file: &[u8], out: &mut [u8]) -> usize
    ensures { CutFile file.now out.old out.new result }
{
    if out.len() < OUT_BYTES {
        return 0;
    }
    if IN_BYTES < file.len() {
        return refuse(Refusal::Bound, out);
    }
    let mut words = [0u32; IN_WORDS];
    // Not refused: `words` has room for a file of this length.
    let _ = file_bytes::file_words(file, &mut words);
    cut_words(&words[..file.len() / 4], file.len(), out)
}
