// Converts the cone map between words and a slice of entry structs. The work on one entry is in crate entries_map.
#![tactic(auto)]

ghost use Rattle.std.specs.Prelude.{◌≡◌, map, ◌*◌, ◌≤◌, length, take};
ghost use Rattle.layout.specs.General.Lists.{below, written};
ghost use Rattle.entries_map.specs.Entries.{all_words, struct_at};

use constants::entry;
use entries_map::ConeMapEntry;

// Reads the first `count` entries of the cone map in `words` and writes them to the front of `entries`.
pub fn write_entries(words: &[u32], count: usize, entries: &mut [ConeMapEntry])
    requires { (count * 5 ≤ length words.now) × (count ≤ length entries.old) }
    ensures { entries.new ≡ written (map (struct_at words.now) (below count)) entries.old }
{
    for k in 0..count {
        entries[k] = ConeMapEntry::read(words, k);
    }
}

// Writes the first `count` words of `entries` (five words for each entry) to the front of `out`.
pub fn write_words(entries: &[ConeMapEntry], count: usize, out: &mut [u32])
    requires { (count ≤ length entries.now * 5) × (count ≤ length out.old) }
    ensures { out.new ≡ written (take count (all_words entries.now)) out.old }
{
    for w in 0..count {
        out[w] = entries[w / entry::WORDS].word(w % entry::WORDS);
    }
}
