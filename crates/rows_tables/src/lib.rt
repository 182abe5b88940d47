// Writes the tables that depend on the cones and patterns only: the rows of H, the compact route's rows, the cones, and the cone map.
#![tactic(auto)]

ghost use Rattle.std.specs.Prelude.{◌≡◌, true, [], ◌∷◌, map, reverse, ◌+◌, ◌-◌, ◌*◌, ◌≤◌, ◌<◌, length, get_or, set};
ghost use Rattle.layout.specs.General.Lists.{all, join, sum, up_from, written};
ghost use Rattle.layout.specs.General.Triangle.{triangle};
ghost use Rattle.layout.specs.Problems.Cones.{records, row_count};
ghost use Rattle.layout.specs.Problems.Patterns.{block_size, clique_count, patterns};
ghost use Rattle.layout.specs.Rows.Blocks.{cut, parts, block_rows, block_row_count};
ghost use Rattle.layout.specs.Checks.{Sound, RightPattern, no_cone};
ghost use Rattle.layout.specs.Cuts.Compact.{cone_words, map_part, map_words, psd_words};
ghost use Rattle.supernode_tree.specs.Reads.{pattern_at, Whole, cliques_from};
ghost use Rattle.supernode_tree.specs.Sizes.{block_at_most, dim_of};
ghost use Rattle.rows_tables.specs.Tables.{table_of, whole_codes, cut_codes, entries_down, Few};

use constants::entry::NO_PATTERN;
use constants::{entry, record};
use rows_overlaps::compact_pattern_rows;
use supernode_tree::{Clique, Pattern};
use supportedcone::SupportedCone;
use walk_cones::{Met, Place};

// The tables: the rows of H; the compact route's rows, coded for its cut; the cones of each route; the cone map.
#[derive(Clone, Copy)]
pub enum Table {
    HRows,
    CutRows,
    StandardCones,
    CompactCones,
    ConeMap,
}

// ---- an undecomposed cone

// Writes the `count` numbers `first`, `first + 1`, .. to `out`. Returns how many.
fn count_up(out: &mut [u32], first: u32, count: u32) -> usize
    requires { (count ≤ length out.old) × (first + count < 4294967296) }
    ensures value { result ≡ count }
    ensures out_after { out.new ≡ written (up_from first count) out.old }
{
    for i in 0..count {
        out[i as usize] = first + i;
    }
    count as usize
}

// Writes three words to `out` from index `t` on.
fn put(out: &mut [u32], t: usize, a: u32, b: u32, c: u32)
    requires { t + 3 ≤ length out.old }
    ensures { out.new ≡ set (set (set out.old t a) (t + 1) b) (t + 2) c }
{
    out[t] = a;
    out[t + 1] = b;
    out[t + 2] = c;
}

// Writes the five words of a cone map entry to `out` from index `t` on.
fn put_entry(out: &mut [u32], t: usize, cone: u32, pattern: u32, clique: u32, first: u32, rows: u32)
    requires { t + 5 ≤ length out.old }
    ensures { out.new ≡ set (set (set (set (set out.old t cone) (t + 1) pattern) (t + 2) clique) (t + 3) first) (t + 4) rows }
{
    put(&mut *out, t, cone, pattern, clique);
    out[t + entry::FIRST_ROW] = first;
    out[t + entry::ROW_COUNT] = rows;
}

// Copies cone record `i` to `out`. Returns its number of words.
fn copy_record(cones: &[u32], i: usize, out: &mut [u32]) -> usize
    requires { (i * 3 + 3 ≤ length cones.now) × (i < 1024) × (3 ≤ length out.old) }
    ensures value { result ≡ 3 }
    ensures out_after { out.new ≡ written (cone_words (get_or (records cones.now) i no_cone)) out.old }
{
    let at = i * record::WORDS;
    out[..record::WORDS].copy_from_slice(&cones[at..at + record::WORDS]);
    record::WORDS
}

// Writes the part of `table` for the undecomposed cone at `place`, with `first` augmented rows before it. Returns the number of words.
fn write_whole(
    table: Table,
    place: Place,
    first: u64,
    rows: u32,
    cones: &[u32],
    out: &mut [u32],
) -> usize
    requires rows_value { (rows ≡ row_count (get_or (records cones.now) place.cone no_cone)) × (place.row + rows ≤ 65536) × (place.cone < 1024) × (place.cone * 3 + 3 ≤ length cones.now) }
    requires few { Few table (first + rows) }
    requires row_in_bounds { length (whole_codes table first place.cone (get_or (records cones.now) place.cone no_cone) place.row) ≤ length out.old }
    ensures value { result ≡ length (whole_codes table first place.cone (get_or (records cones.now) place.cone no_cone) place.row) }
    ensures out_after { out.new ≡ written (whole_codes table first place.cone (get_or (records cones.now) place.cone no_cone) place.row) out.old }
{
    match table {
        Table::HRows | Table::CutRows => count_up(out, place.row, rows),
        Table::StandardCones | Table::CompactCones => copy_record(cones, place.cone, out),
        Table::ConeMap => {
            put_entry(out, 0, place.cone as u32, NO_PATTERN, 0, first as u32, rows);
            entry::WORDS
        }
    }
}

// ---- a decomposed cone

// Writes the record of a PSD cone for each of `count` cliques that start at offset `first`, from first to last. Returns the number of words.
fn cones_up(words: &[u32], first: usize, count: u32, out: &mut [u32]) -> usize
    requires whole { Whole words.now first count × (count * 3 ≤ length out.old) }
    requires count_value { all (block_at_most 256) (cliques_from words.now first count) ≡ true }
    ensures value { result ≡ count * 3 }
    ensures out_after { out.new ≡ written (join psd_words (map block_size (cliques_from words.now first count))) out.old }
{
    let mut at = first;
    for i in 0..count as usize {
        let q = Clique::here(words, at);
        put(
            &mut *out,
            i * record::WORDS,
            SupportedCone::PSD_TRIANGLE,
            q.get_nblk() as u32,
            0,
        );
        at = q.next;
    }
    count as usize * record::WORDS
}

// Does the same from last to first: the cliques are read from the first on, and `out` is filled from its end.
fn cones_down(words: &[u32], first: usize, count: u32, out: &mut [u32]) -> usize
    requires whole { Whole words.now first count × (count * 3 ≤ length out.old) }
    requires count_value { all (block_at_most 256) (cliques_from words.now first count) ≡ true }
    ensures value { result ≡ count * 3 }
    ensures out_after { out.new ≡ written (join psd_words (reverse (map block_size (cliques_from words.now first count)))) out.old }
{
    let mut at = first;
    for i in (0..count as usize).rev() {
        let q = Clique::here(words, at);
        put(
            &mut *out,
            i * record::WORDS,
            SupportedCone::PSD_TRIANGLE,
            q.get_nblk() as u32,
            0,
        );
        at = q.next;
    }
    count as usize * record::WORDS
}

// Writes the map entries of the `count` cliques of one pattern, from last to first; their augmented rows end before row `end`. The first clique, whose rows
// come last, is read first, so `out` is filled from its end. Returns the number of words.
fn entries_down(
    cone: u32,
    pattern: u32,
    words: &[u32],
    first: usize,
    count: u32,
    end: u32,
    out: &mut [u32],
) -> usize
    requires whole { Whole words.now first count × (count * 5 ≤ length out.old) }
    requires count_value { all (block_at_most 256) (cliques_from words.now first count) ≡ true }
    requires count_bound { sum (map dim_of (cliques_from words.now first count)) ≤ end }
    ensures value { result ≡ count * 5 }
    ensures out_after { out.new ≡ written (map_words (entries_down cone pattern 0 (end - sum (map dim_of (cliques_from words.now first count))) (cliques_from words.now first count))) out.old }
{
    let mut at = first;
    let mut row = end;
    for clique in 0..count {
        let q = Clique::here(words, at);
        let rows = scalarmath::triangular_number(q.get_nblk() as u32);
        let left = count - 1 - clique;
        row -= rows;
        put_entry(
            &mut *out,
            left as usize * entry::WORDS,
            cone,
            pattern,
            clique,
            row,
            rows,
        );
        at = q.next;
    }
    count as usize * entry::WORDS
}

// Writes the map entries of the pattern at offset `at`, with `first` augmented rows before its own. Returns the number of words.
fn pattern_entries(
    cone: u32,
    pattern: u32,
    words: &[u32],
    at: usize,
    first: u32,
    out: &mut [u32],
) -> usize
    requires right_pattern { RightPattern (pattern_at words.now at) × ((pattern_at words.now at).vertex_count ≤ 256) × (first + block_rows (pattern_at words.now at) ≤ 262144) }
    requires at_in_bounds { clique_count (pattern_at words.now at) * 5 ≤ length out.old }
    ensures value { result ≡ clique_count (pattern_at words.now at) * 5 }
    ensures out_after { out.new ≡ written (map_words (map_part first (cut cone 0 pattern (pattern_at words.now at)))) out.old }
{
    let p = Pattern::here(words, at);
    let blocks = supernode_tree::get_decomposed_dim_and_overlaps(words, at);
    entries_down(
        cone,
        pattern,
        words,
        p.cliques,
        p.clique_count,
        first + blocks.dim as u32,
        out,
    )
}

// Writes the part of `table` for the cone at `place`, which the pattern at offset `at` decomposes, with `first` augmented rows before it. Returns the
// number of words.
fn write_cut(
    table: Table,
    place: Place,
    first: u64,
    words: &[u32],
    at: usize,
    out: &mut [u32],
) -> usize
    requires right_pattern { RightPattern (pattern_at words.now at) × ((pattern_at words.now at).vertex_count ≤ 256) × (place.row + triangle (pattern_at words.now at).vertex_count ≤ 65536) × (place.cone < 1024) }
    requires few { Few table (first + block_rows (pattern_at words.now at)) }
    requires at_in_bounds { length (cut_codes table first place.cone place.row place.pattern (pattern_at words.now at)) ≤ length out.old }
    ensures value { result ≡ length (cut_codes table first place.cone place.row place.pattern (pattern_at words.now at)) }
    ensures out_after { out.new ≡ written (cut_codes table first place.cone place.row place.pattern (pattern_at words.now at)) out.old }
{
    match table {
        Table::HRows => rows_blocks::standard_pattern_rows(words, at, place.row, out),
        Table::CutRows => compact_pattern_rows(words, at, place.row, first as u32, out),
        Table::StandardCones => {
            let p = Pattern::here(words, at);
            cones_up(words, p.cliques, p.clique_count, out)
        }
        Table::CompactCones => {
            let p = Pattern::here(words, at);
            cones_down(words, p.cliques, p.clique_count, out)
        }
        Table::ConeMap => pattern_entries(
            place.cone as u32,
            place.pattern,
            words,
            at,
            first as u32,
            out,
        ),
    }
}

// ---- the tables

// Writes `table` for all cones, in order, to `out`. Returns the number of words.
pub fn write_table(
    table: Table,
    m: u32,
    cones: &[u32],
    count: u32,
    words: &[u32],
    out: &mut [u32],
) -> usize
    requires sound { Sound m cones.now count words.now }
    requires few { Few table (block_row_count (parts (records cones.now) (patterns count words.now))) }
    requires words_in_bounds { length (table_of table (parts (records cones.now) (patterns count words.now))) ≤ length out.old }
    ensures value { result ≡ length (table_of table (parts (records cones.now) (patterns count words.now))) }
    ensures out_after { out.new ≡ written (table_of table (parts (records cones.now) (patterns count words.now))) out.old }
{
    let mut place = Place::start(m, cones, count, words);
    let mut t = 0;
    let mut first = 0u64;
    loop {
        match place.next(m, cones, words) {
            Some(Met::Whole(rows, next)) => {
                t += write_whole(table, place, first, rows, cones, &mut out[t..]);
                first += rows as u64;
                place = next;
            }
            Some(Met::Cut(at, next)) => {
                t += write_cut(table, place, first, words, at, &mut out[t..]);
                let blocks = supernode_tree::get_decomposed_dim_and_overlaps(words, at);
                first += blocks.dim;
                place = next;
            }
            None => {
                return t;
            }
        }
    }
}
