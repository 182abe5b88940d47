// The shape of a problem file (Q-2): its counts, where its tables start in its words, and whether they are where they must be (checks 13 and 14).
#![tactic(auto)]

ghost use Rattle.std.specs.Prelude.{◌≡◌, ◌≤◌, ◌<◌, ◌+◌, ◌/◌, ◌*◌, length, get_or};
ghost use Rattle.layout.specs.Files.File.{counts_in, table_sizes};
ghost use Rattle.layout.specs.Files.FileWords.{gap_zero, words_length_right, word_tables_right, word_shape_failing};
ghost use Rattle.constants.specs.Refusals.{refusal_of};

use constants::file_table::{DOUBLE_BYTES, WORD_BYTES};
use constants::{Refusal, file_table, header, record};

// Returns word `i`, as a count.
pub fn count_at(words: &[u32], i: usize) -> usize
    requires { i < length words.now }
    ensures { (result ≡ get_or words.now i 0) × (result < 4294967296) }
{
    words[i] as usize
}

// Returns the index of the word at which table `i` starts.
pub fn start_of(words: &[u32], i: usize) -> usize
    requires { 8 + i < length words.now }
    ensures { (result ≡ get_or words.now (8 + i) 0 / 4) × (result < 4294967296) }
{
    count_at(words, header::OFFSETS + i) / WORD_BYTES
}

// Returns the number of bytes of table `i`, computed from the counts.
pub fn table_size(words: &[u32], i: usize) -> usize
    requires { (20 ≤ length words.now) × (i < 11) }
    ensures { (result ≡ get_or (table_sizes (counts_in words.now)) i 0) × (result < 68719476736) }
{
    if i == file_table::P_STARTS {
        return WORD_BYTES * (count_at(words, header::N) + 1);
    }
    if i == file_table::P_ROWS {
        return WORD_BYTES * count_at(words, header::P_ENTRIES);
    }
    if i == file_table::P_VALUES {
        return DOUBLE_BYTES * count_at(words, header::P_ENTRIES);
    }
    if i == file_table::Q {
        return DOUBLE_BYTES * count_at(words, header::N);
    }
    if i == file_table::A_STARTS {
        return WORD_BYTES * (count_at(words, header::N) + 1);
    }
    if i == file_table::A_ROWS {
        return WORD_BYTES * count_at(words, header::A_ENTRIES);
    }
    if i == file_table::A_VALUES {
        return DOUBLE_BYTES * count_at(words, header::A_ENTRIES);
    }
    if i == file_table::B {
        return DOUBLE_BYTES * count_at(words, header::M);
    }
    if i == file_table::CONES {
        return WORD_BYTES * (record::WORDS * count_at(words, header::CONES));
    }
    if i == file_table::ALPHAS {
        return DOUBLE_BYTES * count_at(words, header::ALPHAS);
    }
    WORD_BYTES * count_at(words, header::PATTERN_WORDS)
}

// Returns whether the gap from byte `a` to the next multiple of 8 is zero; true where it lies beyond `words`.
fn gap_zero(words: &[u32], a: usize) -> bool
    requires { (a ≡ 4 * (a / 4)) × (a + 7 < 18446744073709551616) }
    ensures { result ≡ gap_zero a words.now }
{
    if (a + 7) / 8 * 8 == a {
        return true;
    }
    if words.len() <= a / WORD_BYTES {
        return true;
    }
    words[a / WORD_BYTES] == 0
}

// Returns whether `words` are those of a file of `bytes` bytes with a complete header, whose length word is `bytes`.
fn length_right(words: &[u32], bytes: usize) -> bool
    ensures { result ≡ words_length_right words.now bytes }
{
    if words.len() != bytes / WORD_BYTES {
        return false;
    }
    if words.len() < header::WORDS {
        return false;
    }
    let said = count_at(words, header::LENGTH);
    said == bytes
}

// Returns whether the tables start where the counts require, with zero gaps, and the file ends after the last one.
fn tables_right(words: &[u32]) -> bool
    ensures { result ≡ word_tables_right words.now }
{
    if words.len() < header::WORDS {
        return false;
    }
    let mut a = header::BYTES;
    for i in 0..file_table::COUNT {
        let up = (a + 7) / 8 * 8;
        if count_at(words, header::OFFSETS + i) != up {
            return false;
        }
        if !gap_zero(words, a) {
            return false;
        }
        a = up + table_size(words, i);
    }
    count_at(words, header::LENGTH) == a
}

// Makes checks 13 and 14: whether `words` are those of a file of `bytes` bytes, and whether its tables are where they must be. Returns the first
// refusal.
pub fn shape_refusal(words: &[u32], bytes: usize) -> Result<(), Refusal>
    ensures { refusal_of result ≡ word_shape_failing words.now bytes }
{
    let whole = length_right(words, bytes);
    let laid = tables_right(words);
    if !whole {
        return Err(Refusal::FileLength);
    }
    if !laid {
        return Err(Refusal::FileTables);
    }
    Ok(())
}
