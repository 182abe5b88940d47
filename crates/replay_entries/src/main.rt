// Replays stored answers with the cone map as entries: runs each case in the files of data/ through the compact cut or joining, and prints
// a line for each file. A map has at most 64 entries. Crate replay describes the form of a case; pick.py chooses which of its cases are here.
#![tactic(auto)]

ghost use Rattle.std.specs.Prelude.{◌*◌, ◌≤◌, length};

use constants::number_of;
use entries_cut::cut_compact_entries;
use entries_join::join_compact_entries;
use entries_map::ConeMapEntry;
use std::io;
use std::rt::Files;
use stored::{
    Case, DIFFERS, Outputs, Problem, Reader, Solution, SolutionOutputs, Tables, item, report, room,
    text_of,
};

const MOST_ENTRIES: usize = 64;

const ENTRY_WORDS: usize = 5;

// The words of the largest map, 64 entries of five words.
const MOST_WORDS: usize = 320;

// Counts the complete entries in `words` words. Returns at most 64.
fn entries_in(words: usize) -> usize
    ensures { (result ≤ 64) × (result * 5 ≤ words) }
{
    (words / ENTRY_WORDS).min(MOST_ENTRIES)
}

// ---- the calls with entries
//
// A function that makes a call returns the number that the call returned, or `None` where an output differs from the stored one.

// Cuts a case's problem. The map has as many entries as the stored one, filled from its words before the call.
fn cut(case: Case) -> Option<u32> {
    let given = case.words_at(0);
    let p = Problem::of(case);
    let mut before = [0u32; MOST_WORDS];
    room(&mut before, case.words_at(13));
    let mut tables = Tables::<4096>::filled(0, 0.0);
    let Outputs {
        p_starts,
        p_rows,
        p_values,
        q,
        a_starts,
        a_rows,
        a_values,
        b,
        cones,
        alphas,
        last,
    } = tables.outputs(case);
    let entries = entries_in(last.len());
    let mut map = [ConeMapEntry::read(&before, 0); MOST_ENTRIES];
    entries_maps::write_entries(&before, entries, &mut map[..entries]);
    let problem = p.sized(item(given, 1), item(given, 2), item(given, 3));
    let r = number_of(cut_compact_entries(
        &problem,
        p_starts,
        p_rows,
        p_values,
        q,
        a_starts,
        a_rows,
        a_values,
        b,
        cones,
        alphas,
        &mut map[..entries],
    ));
    entries_maps::write_words(&map[..entries], entries * ENTRY_WORDS, last);
    tables.hold(case).then_some(r)
}

// Joins a case's solution.
fn join(case: Case) -> Option<u32> {
    let given = case.words_at(0);
    let scalars = case.values_at(19);
    let stored_map = case.words_at(4);
    let entries = entries_in(stored_map.len());
    let mut words = [0u32; MOST_WORDS];
    for (i, word) in words.iter_mut().enumerate() {
        *word = item(stored_map, i);
    }
    let mut map = [ConeMapEntry::read(&words, 0); MOST_ENTRIES];
    entries_maps::write_entries(&words, entries, &mut map[..entries]);
    let mut solution = Solution::<4096>::filled(0.0);
    let SolutionOutputs {
        x,
        s,
        z,
        scalars: both,
    } = solution.outputs(case);
    let r = number_of(join_compact_entries(
        item(given, 1),
        item(given, 2),
        case.words_at(2),
        item(given, 3),
        case.words_at(3),
        case.values_at(16),
        case.values_at(17),
        case.values_at(18),
        item(scalars, 0),
        item(scalars, 1),
        &map[..entries],
        x,
        s,
        z,
        both,
    ));
    solution.hold(case).then_some(r)
}

// ---- a case

#[derive(Clone, Copy)]
enum Family {
    Cut,
    Join,
}

impl Family {
    // Returns the name of the family's file.
    fn name(self) -> &'static str {
        match self {
            Family::Cut => "cut",
            Family::Join => "join",
        }
    }

    fn answer(self, case: Case) -> Option<u32> {
        match self {
            Family::Cut => cut(case),
            Family::Join => join(case),
        }
    }
}

// Takes the next case from a file, of at most 16,384 elements of each type, and returns whether it agrees with its stored answer, the
// first number of list 1.
fn next_agrees(reader: &mut Reader, family: Family) -> bool {
    let mut words = [0u32; 16384];
    let mut values = [0f64; 16384];
    reader.case(&mut words, &mut values);
    let case = Case {
        words: &words,
        values: &values,
    };
    family.answer(case).unwrap_or(DIFFERS) == item(case.words_at(1), 0)
}

// Runs a family's cases up to the first that differs and prints the family's line. A missing file counts as 0 cases, which the line shows.
fn replay(rt: &(impl Files + Alloc + Print), family: Family) -> io::Result<()> {
    let text = text_of(rt, family.name())?;
    let mut reader = Reader { rest: &text };
    let cases = reader.word();
    for k in 0..cases {
        if !next_agrees(&mut reader, family) {
            return report(rt, family.name().as_bytes(), cases, k);
        }
    }
    report(rt, family.name().as_bytes(), cases, cases)
}

fn main(rt: HostRuntime) -> io::Result<()> {
    replay(&rt, Family::Cut)?;
    replay(&rt, Family::Join)
}
