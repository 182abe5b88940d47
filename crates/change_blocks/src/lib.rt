// Copies runs of values from an index of one list to an index of another, for one list or for s and z together.
#![tactic(auto)]

ghost use Rattle.std.specs.Prelude.{◌≡◌, ◌+◌, ◌≤◌, length, take, drop};
ghost use Rattle.join_cones.specs.Parts.{written_at};

// Copies the `N` values from index `from` of `values` on to index `to` of `out`. All are read before the first is written, and `N` is a constant, so
// that the compiler moves them two at a time, without a loop.
fn move_run<const N: usize>(from: usize, values: &[f64], to: usize, out: &mut [f64])
    requires { (from + N ≤ length values.now) × (to + N ≤ length out.old) }
    ensures { out.new ≡ written_at to (take N (drop from values.now)) out.old }
{
    let mut run = [0.0; N];
    run.copy_from_slice(&values[from..from + N]);
    out[to..to + N].copy_from_slice(&run);
}

// Copies `k` values from index `from` of `values` on to index `to` of `out`.
pub fn move_values(k: usize, from: usize, values: &[f64], to: usize, out: &mut [f64])
    requires { (from + k ≤ length values.now) × (to + k ≤ length out.old) }
    ensures { out.new ≡ written_at to (take k (drop from values.now)) out.old }
{
    csc::copy_front(&mut out[to..to + k], &values[from..from + k]);
}

// Copies `k` values of `s` and of `z` in one loop: four at a time, then two, then one.
fn move_few(
    k: usize,
    from: usize,
    s: &[f64],
    z: &[f64],
    to: usize,
    s_out: &mut [f64],
    z_out: &mut [f64],
)
    requires k_in_bounds { (from + k ≤ length s.now) × (from + k ≤ length z.now) }
    requires k_in_bounds_2 { (to + k ≤ length s_out.old) × (to + k ≤ length z_out.old) }
    ensures s_out_after { s_out.new ≡ written_at to (take k (drop from s.now)) s_out.old }
    ensures z_out_after { z_out.new ≡ written_at to (take k (drop from z.now)) z_out.old }
{
    let mut i = 0;
    while 4 <= k - i {
        move_run::<4>(from + i, s, to + i, &mut *s_out);
        move_run::<4>(from + i, z, to + i, &mut *z_out);
        i += 4;
    }
    if 2 <= k - i {
        move_run::<2>(from + i, s, to + i, &mut *s_out);
        move_run::<2>(from + i, z, to + i, &mut *z_out);
        i += 2;
    }
    if i < k {
        move_run::<1>(from + i, s, to + i, s_out);
        move_run::<1>(from + i, z, to + i, z_out);
    }
}

// The number of values from which s and z are copied one after the other.
const MANY: usize = 16;

// Copies `k` values of `s` and of `z` from index `from` on to index `to` of `s_out` and `z_out`. Small blocks are frequent, so both lists share a loop
// for them.
pub fn move_both(
    k: usize,
    from: usize,
    s: &[f64],
    z: &[f64],
    to: usize,
    s_out: &mut [f64],
    z_out: &mut [f64],
)
    requires k_in_bounds { (from + k ≤ length s.now) × (from + k ≤ length z.now) }
    requires k_in_bounds_2 { (to + k ≤ length s_out.old) × (to + k ≤ length z_out.old) }
    ensures s_out_after { s_out.new ≡ written_at to (take k (drop from s.now)) s_out.old }
    ensures z_out_after { z_out.new ≡ written_at to (take k (drop from z.now)) z_out.old }
{
    if k < MANY {
        move_few(k, from, s, z, to, s_out, z_out);
        return;
    }
    move_values(k, from, s, to, s_out);
    move_values(k, from, z, to, z_out);
}
