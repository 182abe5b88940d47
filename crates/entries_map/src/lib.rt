// An entry of the cone map as a struct, and its conversion from and to five words.
#![tactic(auto)]

ghost use Rattle.std.specs.Prelude.{◌≡◌, ◌+◌, ◌*◌, ◌≤◌, ◌<◌, length, get_or};
ghost use Rattle.entries_map.specs.Entries.{struct_words, struct_at};

use constants::entry;

// An entry of the cone map: the original cone that a new cone comes from, the pattern number and clique number of its block (`None` for an
// undecomposed cone), its first augmented row and its row count.
#[derive(Clone, Copy)]
pub struct ConeMapEntry {
    pub orig_index: u32,
    pub tree_and_clique: Option<(u32, u32)>,
    pub first_row: u32,
    pub row_count: u32,
}

impl ConeMapEntry {
    // Returns word `j` of the entry: orig_index, pattern, clique, first row or row count. A pattern number equal to the no-pattern mark gets
    // clique word 1, which no cone map has beside the mark, so that such an entry differs from one without a pattern.
    pub fn word(self, j: usize) -> u32
        requires { j < 5 }
        ensures { result ≡ get_or (struct_words self) j 0 }
    {
        match j {
            entry::ORIG_INDEX => self.orig_index,
            entry::PATTERN => match self.tree_and_clique {
                Some((pattern, _)) => pattern,
                None => entry::NO_PATTERN,
            },
            entry::CLIQUE => match self.tree_and_clique {
                Some((entry::NO_PATTERN, _)) => 1,
                Some((_, clique)) => clique,
                None => 0,
            },
            entry::FIRST_ROW => self.first_row,
            _ => self.row_count,
        }
    }

    // Reads entry `k` of a cone map's `words`.
    pub fn read(words: &[u32], k: usize) -> ConeMapEntry
        requires { k * 5 + 5 ≤ length words.now }
        ensures { result ≡ struct_at words.now k }
    {
        let at = k * entry::WORDS;
        let pattern = words[at + entry::PATTERN];
        let clique = words[at + entry::CLIQUE];
        ConeMapEntry {
            orig_index: words[at],
            tree_and_clique: (pattern != entry::NO_PATTERN).then_some((pattern, clique)),
            first_row: words[at + entry::FIRST_ROW],
            row_count: words[at + entry::ROW_COUNT],
        }
    }
}
