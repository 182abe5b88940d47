// The cut on the compact route with the cone map written as a slice of entry structs.
#![tactic(auto)]

ghost use Rattle.std.specs.Prelude.{◌≡◌, map as mapped, ◌≤◌, length};
ghost use Rattle.layout.specs.General.Lists.{written};
ghost use Rattle.layout.specs.Rows.Blocks.{block_row_count};
ghost use Rattle.layout.specs.Checks.{Sound};
ghost use Rattle.layout.specs.Cuts.Compact.{cone_map};
ghost use Rattle.layout.specs.Calls.CutEntries.{entry_outputs, CutEntries};
ghost use Rattle.constants.specs.Refusals.{refusal_of};
ghost use Rattle.problemdata.specs.Tables.{parts_of, problem_of};
ghost use Rattle.entries_map.specs.Entries.{struct_of};
ghost use Rattle.entries_cut.specs.Rooms.{room_words};

use constants::{Refusal, entry, limit, route, scratch};
use entries_map::ConeMapEntry;
use problemdata::Problem;
use rows_tables::Table;

// Returns the words that `entries` entries take, capped at the words of 16,384 entries, the most that an accepted problem has.
fn words_of(entries: usize) -> usize
    ensures { result ≡ room_words entries }
{
    if limit::MAP_ENTRIES < entries {
        return scratch::MAP_WORDS;
    }
    entries * entry::WORDS
}

// Writes the cone map of a problem that the compact route accepts, as entries.
fn write_map(problem: &Problem, map_out: &mut [ConeMapEntry])
    requires sound { Sound problem.now.m problem.now.cones.now problem.now.count problem.now.words.now }
    requires rows_bound { block_row_count (parts_of problem.now) ≤ 262144 }
    requires in_bounds { length (cone_map (parts_of problem.now)) ≤ length map_out.old }
    ensures { map_out.new ≡ written (mapped struct_of (cone_map (parts_of problem.now))) map_out.old }
{
    let mut table = [0u32; scratch::MAP_WORDS];
    let taken = rows_tables::write_table(
        Table::ConeMap,
        problem.m,
        problem.cones,
        problem.count,
        problem.words,
        &mut table,
    );
    entries_maps::write_entries(&table, taken / entry::WORDS, map_out);
}

// Cuts a problem on the compact route: writes each output of the cut to the front of its slice. A refused call leaves all
// outputs unchanged.
pub fn cut_compact_entries(
    problem: &Problem,
    p_starts_out: &mut [u32],
    p_rows_out: &mut [u32],
    p_values_out: &mut [f64],
    q_out: &mut [f64],
    a_starts_out: &mut [u32],
    a_rows_out: &mut [u32],
    a_values_out: &mut [f64],
    b_out: &mut [f64],
    cones_out: &mut [u32],
    alphas_out: &mut [f64],
    map_out: &mut [ConeMapEntry],
) -> Result<(), Refusal>
    ensures { let p = problem_of problem.now in
        let before = entry_outputs p_starts_out.old p_rows_out.old p_values_out.old q_out.old a_starts_out.old a_rows_out.old a_values_out.old b_out.old cones_out.old alphas_out.old map_out.old in
        let after = entry_outputs p_starts_out.new p_rows_out.new p_values_out.new q_out.new a_starts_out.new a_rows_out.new a_values_out.new b_out.new cones_out.new alphas_out.new map_out.new in
        CutEntries struct_of p before after (refusal_of result) }
{
    let rooms = [
        p_starts_out.len(),
        p_rows_out.len(),
        p_values_out.len(),
        q_out.len(),
        a_starts_out.len(),
        a_rows_out.len(),
        a_values_out.len(),
        b_out.len(),
        cones_out.len(),
        alphas_out.len(),
        words_of(map_out.len()),
    ];
    let c = decomp::refuse_cut(route::COMPACT, problem, &rooms)?;
    cut_constraints::decomp_augment_compact(
        problem.n,
        problem.m,
        problem.a.starts,
        problem.a.rows,
        problem.a.values,
        problem.b,
        problem.cones,
        problem.count,
        problem.words,
        c.rows,
        c.columns,
        a_starts_out,
        a_rows_out,
        a_values_out,
        b_out,
        cones_out,
    );
    cut_standard::write_objective(
        problem.n,
        problem.p.starts,
        problem.p.rows,
        problem.p.values,
        problem.q,
        problem.alphas,
        c.columns,
        p_starts_out,
        p_rows_out,
        p_values_out,
        q_out,
        alphas_out,
    );
    write_map(problem, map_out);
    Ok(())
}
