// The refusals of the file reader (Q-2) in order, computed from the words of the file.
#![tactic(auto)]

ghost use Rattle.std.specs.Prelude.{◌≡◌};
ghost use Rattle.layout.specs.Calls.Answers.{problem_refusal};
ghost use Rattle.layout.specs.Files.FileWords.{words_failing, unvalued_problem};
ghost use Rattle.layout.specs.Calls.ReadFile.{read_words_refusal};
ghost use Rattle.file_shape.specs.Parts.{WellShaped};
ghost use Rattle.constants.specs.Refusals.{refusal_of};

use constants::{Refusal, file_table, header};

// Makes checks 1 to 7 on the tables in `words`. Returns the first refusal.
pub fn check_words(words: &[u32]) -> Result<(), Refusal>
    requires { WellShaped words.now }
    ensures { refusal_of result ≡ problem_refusal (unvalued_problem words.now) }
{
    check_problem::check_lengths(
        words[header::N],
        words[header::M],
        file_views::words_of(words, file_table::P_STARTS),
        file_views::words_of(words, file_table::P_ROWS),
        file_shape::count_at(words, header::P_ENTRIES),
        file_shape::count_at(words, header::N),
        file_views::words_of(words, file_table::A_STARTS),
        file_views::words_of(words, file_table::A_ROWS),
        file_shape::count_at(words, header::A_ENTRIES),
        file_shape::count_at(words, header::M),
        file_views::words_of(words, file_table::CONES),
        file_shape::count_at(words, header::ALPHAS),
        words[header::PATTERNS],
        file_views::words_of(words, file_table::PATTERN_WORDS),
    )
}

// Makes checks 13, 14 and 1 to 7 on the `words` of a file of `bytes` bytes. Returns the first refusal.
pub fn refuse_words(words: &[u32], bytes: usize) -> Result<(), Refusal>
    ensures { refusal_of result ≡ words_failing words.now bytes }
{
    file_shape::shape_refusal(words, bytes)?;
    check_words(words)
}

// Makes all checks of the reader, for outputs of the lengths `rooms`. Returns the first refusal.
pub fn refuse_read(words: &[u32], bytes: usize, rooms: &[usize]) -> Result<(), Refusal>
    ensures { refusal_of result ≡ read_words_refusal words.now bytes rooms.now }
{
    refuse_words(words, bytes)?;
    file_tables::check_room(words, rooms)
}
