// The joining on either route (0 standard, 1 compact): clarabel's `decomp_reverse`, with dual completion off.
#![tactic(auto)]

ghost use Rattle.std.specs.Prelude.{◌≡◌, true, ◌&&◌, [], ◌∷◌, map as mapped, ◌+◌, ◌≤◌, ◌<◌, length, drop, eqb};
ghost use Rattle.layout.specs.General.Lists.{all, same_numbers, sum, written};
ghost use Rattle.layout.specs.Problems.Problem.{solution};
ghost use Rattle.layout.specs.Rows.Blocks.{cut, block_rows, block_row_count};
ghost use Rattle.layout.specs.Checks.{Sound, RightPattern};
ghost use Rattle.layout.specs.Cuts.Compact.{cone_map, map_part, map_words};
ghost use Rattle.layout.specs.Calls.Answers.{roomy, route_of};
ghost use Rattle.layout.specs.Calls.Join.{joined_parts, rejoined, Join};
ghost use Rattle.supernode_tree.specs.Reads.{pattern_at, Whole, cliques_from};
ghost use Rattle.supernode_tree.specs.Sizes.{block_at_most, dim_of};
ghost use Rattle.rows_tables.specs.Tables.{entries_down};
ghost use Rattle.join_on_route.specs.Begins.{begins, Tells};
ghost use Rattle.join_on_route.specs.Fits.{lengths_fit, counted_refusal, refusal_by};
ghost use Rattle.constants.specs.Refusals.{refusal_of};

use constants::entry::NO_PATTERN;
use constants::{Refusal, entry, limit, route};
use reverse_standard::Scalars;
use supernode_tree::{Clique, Pattern};
use walk_cones::{Met, Place};

// ---- the cone map

// Returns whether `entries` from index `t` on start with the words of this map entry.
fn entry_right(
    entries: &[u32],
    t: usize,
    cone: u32,
    pattern: u32,
    clique: u32,
    first: u32,
    rows: u32,
) -> bool
    requires { t ≤ length entries.now }
    ensures { result ≡ begins (drop t entries.now) (cone ∷ pattern ∷ clique ∷ first ∷ rows ∷ []) }
{
    entries[t..].starts_with(&[cone, pattern, clique, first, rows])
}

// Reads where the rows of a pattern of `count` cliques end, in the last of its `entries` from index `t` on: the one of its first clique, whose rows come last.
// So no walk over the cliques counts their rows before `blocks_right` compares them. Returns the end, or 0 if entries are missing or it is above check 10's bound.
fn told_end(entries: &[u32], t: usize, count: u32) -> u32
    requires { (t ≤ length entries.now) × (0 < count) }
    ensures { Tells (drop t entries.now) count result }
{
    if entries.len() - t < count as usize * entry::WORDS {
        return 0;
    }
    let last = t + (count as usize - 1) * entry::WORDS;
    let end = entries[last + entry::FIRST_ROW] as u64 + entries[last + entry::ROW_COUNT] as u64;
    if limit::AUGMENTED_ROWS < end {
        return 0;
    }
    end as u32
}

// Returns whether `entries` from index `t` on start with those of the `count` cliques of one pattern, from last to first, whose rows are those from `start`
// up to `end`. The first clique is read first; its rows and its entry come last, so entries are compared from the last on, and rows are counted down from `end`.
fn blocks_right(
    entries: &[u32],
    t: usize,
    cone: u32,
    pattern: u32,
    words: &[u32],
    first: usize,
    count: u32,
    start: u32,
    end: u32,
) -> bool
    requires whole { Whole words.now first count × (t ≤ length entries.now) }
    requires count_value { all (block_at_most 256) (cliques_from words.now first count) ≡ true }
    ensures { result ≡ (begins (drop t entries.now) (map_words (entries_down cone pattern 0 start (cliques_from words.now first count))) && eqb end (start + sum (mapped dim_of (cliques_from words.now first count)))) }
{
    if entries.len() - t < count as usize * entry::WORDS {
        return false;
    }
    let mut at = first;
    let mut row = end;
    for clique in 0..count {
        let q = Clique::here(words, at);
        let rows = scalarmath::triangular_number(q.get_nblk() as u32);
        if row < rows {
            return false;
        }
        row -= rows;
        let left = (count - 1 - clique) as usize;
        if !entry_right(
            entries,
            t + left * entry::WORDS,
            cone,
            pattern,
            clique,
            row,
            rows,
        ) {
            return false;
        }
        at = q.next;
    }
    row == start
}

// Returns whether `entries` from index `t` on start with those of the pattern at offset `at`, whose rows are those from `start` up to `end`.
fn pattern_right(
    entries: &[u32],
    t: usize,
    cone: u32,
    pattern: u32,
    words: &[u32],
    at: usize,
    start: u32,
    end: u32,
) -> bool
    requires { RightPattern (pattern_at words.now at) × ((pattern_at words.now at).vertex_count ≤ 256) × (t ≤ length entries.now) }
    ensures { result ≡ (begins (drop t entries.now) (map_words (map_part start (cut cone 0 pattern (pattern_at words.now at)))) && eqb end (start + block_rows (pattern_at words.now at))) }
{
    let p = Pattern::here(words, at);
    blocks_right(
        entries,
        t,
        cone,
        pattern,
        words,
        p.cliques,
        p.clique_count,
        start,
        end,
    )
}

// Returns whether `entries` are the words of the cone map. They are compared during the walk over the cones, so the map is not stored.
fn map_right(m: u32, cones: &[u32], count: u32, words: &[u32], entries: &[u32]) -> bool
    requires { Sound m cones.now count words.now × (block_row_count (joined_parts cones.now count words.now) ≤ 262144) }
    ensures { result ≡ same_numbers entries.now (map_words (cone_map (joined_parts cones.now count words.now))) }
{
    let mut place = Place::start(m, cones, count, words);
    let mut t = 0;
    let mut first = 0u32;
    loop {
        match place.next(m, cones, words) {
            Some(Met::Whole(rows, next)) => {
                if !entry_right(entries, t, place.cone as u32, NO_PATTERN, 0, first, rows) {
                    return false;
                }
                t += entry::WORDS;
                first += rows;
                place = next;
            }
            Some(Met::Cut(at, next)) => {
                let cliques = walk_cones::clique_count(words, at);
                let end = told_end(entries, t, cliques);
                if !pattern_right(
                    entries,
                    t,
                    place.cone as u32,
                    place.pattern,
                    words,
                    at,
                    first,
                    end,
                ) {
                    return false;
                }
                t += entry::WORDS * cliques as usize;
                first = end;
                place = next;
            }
            None => {
                return t == entries.len();
            }
        }
    }
}

// ---- the checks

// The number of scalars of a solution: τ and κ.
const SCALARS: usize = 2;

// Makes check 11: returns whether the outputs, of the given lengths, have room for x, s, z and the two scalars.
pub fn room_enough(n: u32, m: u32, x: usize, s: usize, z: usize, scalars: usize) -> bool
    ensures { result ≡ roomy (n ∷ m ∷ m ∷ 2 ∷ []) (x ∷ s ∷ z ∷ scalars ∷ []) }
{
    n as usize <= x && m as usize <= s && m as usize <= z && SCALARS <= scalars
}

// Returns whether `x` is `columns`, and `s` and `z` are `rows`.
fn lengths_are(x: usize, s: usize, z: usize, columns: usize, rows: usize) -> bool
    ensures { result ≡ (eqb x columns && eqb s rows && eqb z rows) }
{
    x == columns && s == rows && z == rows
}

// Makes the part of check 12 about lengths: returns whether `x`, `s` and `z` are the lengths that an augmented problem with these block rows and
// overlaps has on the route.
pub fn lengths_fit(
    route: u32,
    n: u32,
    m: u32,
    rows: u64,
    overlaps: u64,
    x: usize,
    s: usize,
    z: usize,
) -> bool
    requires { (rows ≤ 262144) × (overlaps ≤ rows) }
    ensures { result ≡ lengths_fit (route_of route) n m rows overlaps x s z }
{
    let k = rows as usize;
    if route == route::STANDARD {
        lengths_are(x, s, z, n as usize + k, m as usize + k)
    } else {
        lengths_are(x, s, z, n as usize + overlaps as usize, k)
    }
}

// Makes checks 10 to 12 in order, except for the cone map, from counts and lengths. Returns the first refusal.
fn refuse_counted(
    route: u32,
    n: u32,
    m: u32,
    rows: u64,
    overlaps: u64,
    x: usize,
    s: usize,
    z: usize,
    x_room: usize,
    s_room: usize,
    z_room: usize,
    scalars_room: usize,
) -> Result<(), Refusal>
    requires { overlaps ≤ rows }
    ensures { refusal_of result ≡ counted_refusal (route_of route) n m rows overlaps x s z (x_room ∷ s_room ∷ z_room ∷ scalars_room ∷ []) }
{
    chordal_info::rows_refusal(route, m, rows, overlaps)?;
    if !room_enough(n, m, x_room, s_room, z_room, scalars_room) {
        return Err(Refusal::Short);
    }
    if !lengths_fit(route, n, m, rows, overlaps, x, s, z) {
        return Err(Refusal::Solution);
    }
    Ok(())
}

// Makes the checks of a joining in order, with the lengths of x, s and z and the room of each output. Returns the first refusal.
// Any `route` but 0 is taken as compact. The rows of the blocks are counted once for all checks.
fn refuse_join(
    route: u32,
    n: u32,
    m: u32,
    cones: &[u32],
    count: u32,
    words: &[u32],
    x: usize,
    s: usize,
    z: usize,
    entries: &[u32],
    x_room: usize,
    s_room: usize,
    z_room: usize,
    scalars_room: usize,
) -> Result<(), Refusal>
    ensures { refusal_of result ≡ refusal_by (route_of route) n m cones.now count words.now x s z entries.now (x_room ∷ s_room ∷ z_room ∷ scalars_room ∷ []) }
{
    let c = check_problem::check_joined(n, m, cones, count, words)?;
    refuse_counted(
        route,
        n,
        m,
        c.rows,
        c.overlaps,
        x,
        s,
        z,
        x_room,
        s_room,
        z_room,
        scalars_room,
    )?;
    if route == route::STANDARD {
        return Ok(());
    }
    if map_right(m, cones, count, words, entries) {
        return Ok(());
    }
    Err(Refusal::Solution)
}

// ---- the joining

// Writes τ and κ to the first two values of `out`.
pub fn write_scalars(scalars: Scalars, out: &mut [f64])
    requires { 2 ≤ length out.old }
    ensures { out.new ≡ written (scalars.tau ∷ scalars.kappa ∷ []) out.old }
{
    out[0] = scalars.tau;
    out[1] = scalars.kappa;
}

// Joins a solution of the augmented problem to one of the original, and writes x, s, z, and τ and κ to the outputs; the standard route ignores `map`.
// A refused call leaves the outputs unchanged.
pub fn join(
    route: u32,
    n: u32,
    m: u32,
    cones: &[u32],
    count: u32,
    words: &[u32],
    x: &[f64],
    s: &[f64],
    z: &[f64],
    tau: f64,
    kappa: f64,
    map: &[u32],
    x_out: &mut [f64],
    s_out: &mut [f64],
    z_out: &mut [f64],
    scalars_out: &mut [f64],
) -> Result<(), Refusal>
    ensures { let sol = solution x.now s.now z.now tau kappa in
        let before = rejoined x_out.old s_out.old z_out.old scalars_out.old in
        let after = rejoined x_out.new s_out.new z_out.new scalars_out.new in
        Join route n m cones.now count words.now sol map.now before after (refusal_of result) }
{
    if route::COMPACT < route {
        return Err(Refusal::Bound);
    }
    refuse_join(
        route,
        n,
        m,
        cones,
        count,
        words,
        x.len(),
        s.len(),
        z.len(),
        map,
        x_out.len(),
        s_out.len(),
        z_out.len(),
        scalars_out.len(),
    )?;
    join_rows::copy_x(n, x, x_out);
    join_rows::decomp_reverse(
        route == route::STANDARD,
        m,
        cones,
        count,
        words,
        map,
        s,
        z,
        s_out,
        z_out,
    );
    let scalars = Scalars { tau, kappa };
    write_scalars(scalars.joined(), scalars_out);
    Ok(())
}
