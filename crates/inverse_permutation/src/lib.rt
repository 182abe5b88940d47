// Writes the inverse of a permutation, in tables of several sizes.
#![tactic(auto)]

ghost use Rattle.std.specs.Prelude.{◌≡◌, ◌≤◌, true, not, length, replicate, ltb, eqb};
ghost use Rattle.layout.specs.General.Lists.{all, is_permutation};
ghost use Rattle.layout.specs.Calls.Inverse.{Inverse, inverse_refusal};
ghost use Rattle.utils.specs.Scattered.{scattered};
ghost use Rattle.constants.specs.Refusals.{refusal_of};

use constants::Refusal;

// ---- the inverse made in a table

const UNPLACED: u32 = utils::UNPLACED;

// Writes `k` at index `p[k]` of `table`, for k = 0, 1, .. in order, up to the first number that is not below `p.len()`; of numbers written to
// the same index the last remains. Returns false if there is such a number, and true otherwise.
fn place(p: &[u32], table: &mut [u32]) -> bool
    requires { (length p.now ≤ length table.old) × (length p.now ≤ 4294967295) }
    ensures value { result ≡ all (λ x. ltb x (length p.now)) p.now }
    ensures table_after { result ≡ true → table.new ≡ scattered 0 p.now table.old }
{
    for (k, &number) in p.iter().enumerate() {
        let w = number as usize;
        if p.len() <= w {
            return false;
        }
        table[w] = k as u32;
    }
    true
}

// Returns whether a number has been written to each index of `table`. The walk goes on after one without, so that the compiler tests several at
// a time.
fn all_placed(table: &[u32]) -> bool
    ensures { result ≡ all (λ x. not (eqb x 4294967295)) table.now }
{
    let mut placed = true;
    for &k in table {
        if k == UNPLACED {
            placed = false;
        }
    }
    placed
}

// Makes the inverse of `p` at the front of `table`. n numbers below n fill n indices only if none of them is a repeat, so it is enough to test
// the indices afterwards, several at a time. Where `early` is set, each is tested before it is written: `early` decides the speed, not the
// result. Returns whether `p` is a permutation.
fn invert(p: &[u32], table: &mut [u32], early: bool) -> bool
    requires table_value { table.old ≡ replicate (length table.old) 4294967295 }
    requires p_in_bounds { (length p.now ≤ length table.old) × (length p.now ≤ 4294967295) }
    ensures value { result ≡ is_permutation p.now }
    ensures table_after { result ≡ true → table.new ≡ scattered 0 p.now table.old }
{
    if early {
        return utils::invperm(p, table);
    }
    if !place(p, &mut *table) {
        return false;
    }
    all_placed(&table[..p.len()])
}

// Makes the inverse of `p` in `table` and copies it to the front of `out`, where that has room, so that each number is placed once and `out` is
// unchanged where `p` is refused. `early` is for `invert`. Returns what `inverse_with` returns.
fn inverse_by(p: &[u32], table: &mut [u32], early: bool, out: &mut [u32]) -> bool
    requires table_value { table.old ≡ replicate (length table.old) 4294967295 }
    requires p_in_bounds { (length p.now ≤ length table.old) × (length p.now ≤ 4294967295) }
    ensures value { result ≡ is_permutation p.now }
    ensures out_after { Inverse p.now out.old out.new (inverse_refusal p.now (length out.old)) }
{
    if !invert(p, &mut *table, early) {
        return false;
    }
    if p.len() <= out.len() {
        csc::copy_front(out, &table[..p.len()]);
    }
    true
}

// Makes the inverse of up to `N` numbers. `early` is for `invert`. Returns what `inverse_with` returns.
//
// Each table is in a function of its own, which is not to be inlined, because a call touches every page of its function's tables. The second walk over
// the indices is timed to pay from 65 to 1,024 numbers; in a long table the test of an index before it is written fetches it in time.
#[inline(never)]
fn inverse_in<const N: usize>(p: &[u32], early: bool, out: &mut [u32]) -> bool
    requires p_fits { length p.now ≤ N }
    requires size { N ≤ 4294967295 }
    ensures value { result ≡ is_permutation p.now }
    ensures out_after { Inverse p.now out.old out.new (inverse_refusal p.now (length out.old)) }
{
    let mut table = [UNPLACED; N];
    inverse_by(p, &mut table, early, out)
}

// ---- the inverse of a long permutation, tested first

// Writes the inverse of a permutation `p` of any length to the front of `out`, where that has room, and tests `p` first. Returns what
// `inverse_with` returns.
fn long_inverse(p: &[u32], out: &mut [u32]) -> bool
    ensures value { result ≡ is_permutation p.now }
    ensures out_after { Inverse p.now out.old out.new (inverse_refusal p.now (length out.old)) }
{
    if !inverse_marks::is_long_permutation(p) {
        return false;
    }
    if p.len() <= out.len() {
        utils::scatter(p, out);
    }
    true
}

// ---- the call

// Writes the inverse of a permutation `p` to the front of `out`, where that has room. A shorter `p` has a smaller table, which is faster to fill.
// Returns whether `p` is a permutation: a walk that returned the refusal itself would set it again at each number.
fn inverse_with(p: &[u32], out: &mut [u32]) -> bool
    ensures value { result ≡ is_permutation p.now }
    ensures out_after { Inverse p.now out.old out.new (inverse_refusal p.now (length out.old)) }
{
    if p.len() <= 16 {
        return inverse_in::<16>(p, true, out);
    }
    if p.len() <= 64 {
        return inverse_in::<64>(p, true, out);
    }
    if p.len() <= 256 {
        return inverse_in::<256>(p, false, out);
    }
    if p.len() <= 1024 {
        return inverse_in::<1024>(p, false, out);
    }
    if p.len() <= 4096 {
        return inverse_in::<4096>(p, true, out);
    }
    if p.len() <= 16384 {
        return inverse_in::<16384>(p, true, out);
    }
    if p.len() <= 65536 {
        return inverse_in::<65536>(p, true, out);
    }
    if p.len() <= 131072 {
        return inverse_in::<131072>(p, true, out);
    }
    if p.len() <= 262144 {
        return inverse_in::<262144>(p, true, out);
    }
    long_inverse(p, out)
}

// Writes the inverse of the permutation `p` (the index of each number in `p`) to the front of `out`. Refuses a `p` that is no permutation of the
// numbers below its length, and an `out` that is too short.
pub fn inverse(p: &[u32], out: &mut [u32]) -> Result<(), Refusal>
    ensures { Inverse p.now out.old out.new (refusal_of result) }
{
    if !inverse_with(p, &mut *out) {
        return Err(Refusal::Patterns);
    }
    if out.len() < p.len() {
        return Err(Refusal::Short);
    }
    Ok(())
}
