// What the two routes of a joining do differently with values. The standard one sums every row from +0.0, counts where each block's values start, adds z
// and averages it where blocks overlap. The compact one reads the starts from the cone map and keeps the last z. `standard` is true on the standard route.
#![tactic(auto)]

ghost use Rattle.std.specs.Prelude.{◌≡◌, map, ◌≤◌, ◌<◌, length, cond, ltb, pos};
ghost use Rattle.std.specs.Float.Ieee.{add, div, of_int};
ghost use Rattle.std.specs.Float.{binary64};
ghost use Rattle.layout.specs.General.Lists.{below};
ghost use Rattle.layout.specs.General.Floats.{zero64, one64};
ghost use Rattle.reverse_standard.specs.Averages.{averaged_by, shared, Clears};
ghost use Rattle.reverse_standard.specs.Routes.{z_value, start_of, HasEntry};

// The number of words of a cone map entry, and the index of its first augmented row among them.
const ENTRY_WORDS: usize = 5;

const FIRST_ROW: usize = 3;

// The two scalars of a solution, τ and κ.
#[derive(Clone, Copy)]
pub struct Scalars {
    pub tau: f64,
    pub kappa: f64,
}

impl Scalars {
    // Returns the scalars of a joined solution: 1.0 for both, whatever they were.
    pub fn joined(self) -> Scalars
        ensures { (result.tau ≡ one64) × (result.kappa ≡ one64) }
    {
        Scalars {
            tau: 1.0,
            kappa: 1.0,
        }
    }
}

// Writes the rows of an undecomposed cone on the standard route: `out[i]` becomes 0.0 + `values[i]`, as H has one entry in each such row.
pub fn sum_rows(out: &mut [f64], values: &[f64])
    requires { length values.now ≡ length out.old }
    ensures { out.new ≡ map (add binary64 zero64) values.now }
{
    for (i, &v) in values.iter().enumerate() {
        out[i] = 0.0 + v;
    }
}

// Returns the new z of a row that has `old` and to which a block brings `new`: their sum on the standard route, `new` on the compact one.
pub fn z_value(standard: bool, old: f64, new: f64) -> f64
    ensures { result ≡ z_value standard old new }
{
    if standard { old + new } else { new }
}

// Returns where the values of the route's next block start: `counted` on the standard route, the first row in entry `entry` of the cone map on the
// compact one.
pub fn block_start(standard: bool, counted: usize, map: &[u32], entry: usize) -> usize
    requires { HasEntry standard map.now entry }
    ensures { result ≡ start_of standard counted map.now entry }
{
    if standard {
        counted
    } else {
        map[entry * ENTRY_WORDS + FIRST_ROW] as usize
    }
}

// Divides `v` by `count`, which must be above 0: a division by zero would raise a floating-point flag that a caller may trap. Returns the quotient.
fn quotient(v: f64, count: u32) -> f64
    requires { 0 < count }
    ensures { result ≡ div binary64 v (of_int binary64 (pos count)) }
{
    v / count as f64
}

// Returns `count`, or 1 where it is 0, as a divisor that is never 0.
fn at_least_one(count: u32) -> u32
    ensures { result ≡ cond (ltb 1 count) count 1 }
{
    if 1 < count { count } else { 1 }
}

// Averages the sum `v` of `count` columns of H in a row of z. It divides by 1 where `count` is below 2, which gives `v` itself, so that no branch
// and no selection between `v` and the quotient depends on counts that cannot be predicted. Returns the quotient where `count` is above 1, and `v`
// otherwise.
fn row_average(v: f64, count: u32) -> f64
    ensures { result ≡ shared count v }
{
    quotient(v, at_least_one(count))
}

// Divides each row of `z` by its number of columns of H where that is above 1, and sets these counts in `counts` to 0 for the next use.
pub fn take_averages(z: &mut [f64], counts: &mut [u32])
    requires { length z.old ≤ length counts.old }
    ensures z_after { z.new ≡ map (averaged_by counts.old z.old) (below (length z.old)) }
    ensures clears { Clears (length z.old) counts.old counts.new }
{
    for i in 0..z.len() {
        z[i] = row_average(z[i], counts[i]);
        counts[i] = 0;
    }
}
