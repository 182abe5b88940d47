// The joining on the compact route with the cone map as a slice of entries: the map is written as words, and the joining by words does the rest.
#![tactic(auto)]

ghost use Rattle.std.specs.Prelude.{◌≡◌, map as mapped, ◌≤◌, length, take};
ghost use Rattle.layout.specs.Problems.Problem.{solution};
ghost use Rattle.layout.specs.Calls.Join.{rejoined, Join};
ghost use Rattle.layout.specs.Calls.JoinEntries.{JoinEntries};
ghost use Rattle.entries_map.specs.Entries.{meant};
ghost use Rattle.entries_join.specs.Refusals.{given_words};
ghost use Rattle.constants.specs.Refusals.{refusal_of};

use constants::{Refusal, entry, limit, route, scratch};
use entries_map::ConeMapEntry;

// Returns the number of words to compare for a map of `entries` entries: all of them, or 1 where there are more entries than any problem has. One word
// is no map, so such a map fails check 12.
fn words_of(entries: usize) -> usize
    ensures { result ≡ given_words entries }
{
    if limit::MAP_ENTRIES < entries {
        return 1;
    }
    entries * entry::WORDS
}

// Joins a compact solution, with the first `taken` words of `table` as the cone map. A refused call leaves the outputs unchanged.
fn join_words(
    n: u32,
    m: u32,
    cones: &[u32],
    count: u32,
    words: &[u32],
    x: &[f64],
    s: &[f64],
    z: &[f64],
    tau: f64,
    kappa: f64,
    taken: usize,
    table: &[u32],
    x_out: &mut [f64],
    s_out: &mut [f64],
    z_out: &mut [f64],
    scalars_out: &mut [f64],
) -> Result<(), Refusal>
    requires { taken ≤ length table.now }
    ensures { let sol = solution x.now s.now z.now tau kappa in
        let before = rejoined x_out.old s_out.old z_out.old scalars_out.old in
        let after = rejoined x_out.new s_out.new z_out.new scalars_out.new in
        Join 1 n m cones.now count words.now sol (take taken table.now) before after (refusal_of result) }
{
    join_on_route::join(
        route::COMPACT,
        n,
        m,
        cones,
        count,
        words,
        x,
        s,
        z,
        tau,
        kappa,
        &table[..taken],
        x_out,
        s_out,
        z_out,
        scalars_out,
    )
}

// Joins a solution of the compact route's augmented problem to one of the original: writes x, s, z, and τ and κ. A refused call leaves the
// outputs unchanged.
pub fn join_compact_entries(
    n: u32,
    m: u32,
    cones: &[u32],
    count: u32,
    words: &[u32],
    x: &[f64],
    s: &[f64],
    z: &[f64],
    tau: f64,
    kappa: f64,
    map: &[ConeMapEntry],
    x_out: &mut [f64],
    s_out: &mut [f64],
    z_out: &mut [f64],
    scalars_out: &mut [f64],
) -> Result<(), Refusal>
    ensures { let sol = solution x.now s.now z.now tau kappa in
        let before = rejoined x_out.old s_out.old z_out.old scalars_out.old in
        let after = rejoined x_out.new s_out.new z_out.new scalars_out.new in
        JoinEntries n m cones.now count words.now sol (mapped meant map.now) before after (refusal_of result) }
{
    let mut table = [0u32; scratch::MAP_WORDS];
    let taken = words_of(map.len());
    entries_maps::write_words(map, taken, &mut table);
    join_words(
        n,
        m,
        cones,
        count,
        words,
        x,
        s,
        z,
        tau,
        kappa,
        taken,
        &table,
        x_out,
        s_out,
        z_out,
        scalars_out,
    )
}
