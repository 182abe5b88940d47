// The band of the generated problem (Q-5): the rows that its pattern covers, and the pattern's words.
#![tactic(auto)]

ghost use Rattle.std.specs.Prelude.{◌≡◌, ◌∷◌, ◌++◌, map, suc, ◌+◌, ◌-◌, ◌*◌, ◌≤◌, ◌<◌, length};
ghost use Rattle.layout.specs.General.Lists.{keep, below, up_from, join, written, Below};
ghost use Rattle.layout.specs.General.Triangle.{triangle};
ghost use Rattle.layout.specs.Problems.Patterns.{pattern_words_of, clique_words};
ghost use Rattle.layout.specs.Calls.Generate.{band_clique, last_clique, band as band_of};
ghost use Rattle.layout.proofs.Generators.BandRows.{within, in_band_at};

const NO_PARENT: u32 = 4294967295;

// ---- the covered rows

// Returns whether `a` and `b` differ by at most `w`.
fn is_within(w: u32, a: u32, b: u32) -> bool
    requires { (w ≤ 64) × (a < 64) × (b < 64) }
    ensures { result ≡ within w a b }
{
    a <= b + w && b <= a + w
}

// Writes to `rows` the covered rows of column `j` of the triangle, whose first row is `first`: those of vertices whose places in the ordering are
// at most `w` from the place of vertex `j`. Returns their number.
fn cover_column(places: &[u32], w: u32, j: usize, first: u32, rows: &mut [u32]) -> usize
    requires j_in_bounds { (j < length places.now) × (length places.now ≤ 64) × Below 64 places.now × (w ≤ 64) }
    requires first_value { (first ≡ triangle j) × (j + 1 ≤ length rows.old) }
    ensures value { result ≡ length (keep (in_band_at places.now w) (up_from (triangle j) (j + 1))) }
    ensures rows_after { rows.new ≡ written (keep (in_band_at places.now w) (up_from (triangle j) (j + 1))) rows.old }
{
    let place = places[j];
    let mut count = 0;
    for i in 0..j + 1 {
        if is_within(w, places[i], place) {
            rows[count] = first + i as u32;
            count += 1;
        }
    }
    count
}

// Writes to `rows` the covered rows of the whole triangle, increasing; `places` has the place of each vertex in the ordering. Returns their number.
pub fn cover_rows(places: &[u32], w: u32, rows: &mut [u32]) -> usize
    requires { (length places.now ≤ 64) × Below 64 places.now × (w ≤ 64) × (triangle (length places.now) ≤ length rows.old) }
    ensures value { result ≡ length (keep (in_band_at places.now w) (below (triangle (length places.now)))) }
    ensures rows_after { rows.new ≡ written (keep (in_band_at places.now w) (below (triangle (length places.now)))) rows.old }
{
    let mut count = 0;
    let mut first = 0;
    for j in 0..places.len() {
        count += cover_column(places, w, j, first, &mut rows[count..]);
        first += j as u32 + 1;
    }
    count
}

// ---- the pattern's words

// Writes `count` members to `out`, consecutive from `first`.
fn write_members(first: u32, count: u32, out: &mut [u32])
    requires { (count ≤ length out.old) × (first + count ≤ 64) }
    ensures { out.new ≡ written (up_from first count) out.old }
{
    for i in 0..count {
        out[i as usize] = first + i;
    }
}

// Writes the words of a clique to `out`; its members, the snode's and then the separator's, are consecutive from `first`.
fn write_clique(parent: u32, snode: u32, separator: u32, first: u32, out: &mut [u32])
    requires { (3 + (snode + separator) ≤ length out.old) × (first + (snode + separator) ≤ 64) }
    ensures { out.new ≡ written (parent ∷ snode ∷ separator ∷ up_from first (snode + separator)) out.old }
{
    let head = [parent, snode, separator];
    csc::copy_front(&mut *out, &head);
    write_members(first, snode + separator, &mut out[3..]);
}

// Writes the words of the cliques of a band of width `w` over `v` vertices to `out`.
fn write_cliques(v: u32, w: u32, out: &mut [u32])
    requires { (w < v) × (v ≤ 64) × ((v - w) * (w + 4) ≤ length out.old) }
    ensures { out.new ≡ written (join clique_words (map (band_clique w) (below (v - suc w))) ++ clique_words (last_clique v w)) out.old }
{
    let last = v - w - 1;
    let mut at = 0;
    for c in 0..last {
        write_clique(c + 1, 1, w, c, &mut out[at..]);
        at += w as usize + 4;
    }
    write_clique(NO_PARENT, w + 1, 0, last, &mut out[at..]);
}

// Writes the words of the band pattern of width `w` with this `ordering` to `out`.
pub fn write_words(ordering: &[u32], w: u32, out: &mut [u32])
    requires { (w < length ordering.now) × (length ordering.now ≤ 64) × (3 + length ordering.now + (length ordering.now - w) * (w + 4) ≤ length out.old) }
    ensures { out.new ≡ written (pattern_words_of (band_of ordering.now (length ordering.now) w)) out.old }
{
    let count = ordering.len();
    let v = count as u32;
    let head = [0, v, v - w];
    csc::copy_front(&mut *out, &head);
    csc::copy_front(&mut out[3..], ordering);
    write_cliques(v, w, &mut out[3 + count..]);
}
