// The tables of a problem file (Q-2) as slices: of its words, or of the doubles or bit patterns that all its words form in pairs. Every table of
// doubles starts at a multiple of 8 bytes.
#![tactic(auto)]

ghost use Rattle.std.specs.Prelude.{◌≡◌, ◌<◌};
ghost use Rattle.layout.specs.General.Floats.{floats};
ghost use Rattle.layout.specs.Files.FileWords.{pairs_of};
ghost use Rattle.file_shape.specs.Parts.{WellShaped};
ghost use Rattle.file_views.specs.Views.{table_words};

use constants::file_table::{DOUBLE_BYTES, WORD_BYTES};

// Returns the words of table `i`.
pub fn words_of(words: &[u32], i: usize) -> &[u32]
    requires { WellShaped words.now × (i < 11) }
    ensures { result.now ≡ table_words words.now i }
{
    let from = file_shape::start_of(words, i);
    let size = file_shape::table_size(words, i);
    &words[from..from + size / WORD_BYTES]
}

// Returns the bit patterns of table `i`, where `patterns` are those of all words.
pub fn patterns_of<'a>(words: &[u32], patterns: &'a [u64], i: usize) -> &'a [u64]
    requires { WellShaped words.now × (patterns.now ≡ pairs_of words.now) × (i < 11) }
    ensures { result.now ≡ pairs_of (table_words words.now i) }
{
    let from = file_shape::start_of(words, i) / 2;
    let size = file_shape::table_size(words, i);
    &patterns[from..from + size / DOUBLE_BYTES]
}

// Returns the doubles of table `i`, where `values` are those of all words.
pub fn doubles_of<'a>(words: &[u32], values: &'a [f64], i: usize) -> &'a [f64]
    requires { WellShaped words.now × (values.now ≡ floats (pairs_of words.now)) × (i < 11) }
    ensures { result.now ≡ floats (pairs_of (table_words words.now i)) }
{
    let from = file_shape::start_of(words, i) / 2;
    let size = file_shape::table_size(words, i);
    &values[from..from + size / DOUBLE_BYTES]
}
