// The standard cut's matrix: A beside H, over zero beside -I. H has a single 1 per column, in the original row of the block entry.
#![tactic(auto)]

ghost use Rattle.std.specs.Prelude.{◌≡◌, ◌+◌, ◌*◌, ◌≤◌, ◌<◌, length, take, drop};
ghost use Rattle.layout.specs.General.Lists.{written};
ghost use Rattle.augment_standard.specs.Beside.{h_starts, h_rows, pair_values, beside_starts, beside_values};

// Writes the ends of `k` columns of H over -I, which have two entries each, to `out`; there are `entries` entries before them.
pub fn write_h_starts(out: &mut [u32], entries: u32, k: usize)
    requires { (k ≤ length out.old) × (entries + 2 * k < 4294967296) }
    ensures { out.new ≡ written (h_starts entries k) out.old }
{
    let mut end = entries;
    for i in 0..k {
        end += 2;
        out[i] = end;
    }
}

// Writes the row indices of H over -I to `out`: column i has its original row, and row `m` + i. The `k` original rows are passed in `out[k..2k]`, where
// each is read before it is overwritten.
pub fn spread_rows(out: &mut [u32], k: usize, m: u32)
    requires { (2 * k ≤ length out.old) × (m + k ≤ 262144) }
    ensures { out.new ≡ written (h_rows m (take k (drop k out.old))) out.old }
{
    for i in 0..k {
        out[2 * i] = out[k + i];
        out[2 * i + 1] = m + i as u32;
    }
}

// Writes the values of `k` columns to `out`: `first` and `second` for each.
pub fn write_pairs(out: &mut [f64], k: usize, first: f64, second: f64)
    requires { 2 * k ≤ length out.old }
    ensures { out.new ≡ written (pair_values first second k) out.old }
{
    for i in 0..k {
        out[2 * i] = first;
        out[2 * i + 1] = second;
    }
}

// Writes the starts of A beside the `k` columns of H to `out`; `entries` is the number of A's entries.
pub fn write_starts(out: &mut [u32], starts: &[u32], entries: u32, k: usize)
    requires { (length starts.now + k ≤ length out.old) × (entries + 2 * k < 4294967296) }
    ensures { out.new ≡ written (beside_starts starts.now entries k) out.old }
{
    csc::copy_front(&mut *out, starts);
    write_h_starts(&mut out[starts.len()..], entries, k);
}

// Writes the values of A beside the `k` columns of H over -I to `out`: 1 and -1 for each column of H.
pub fn write_values(out: &mut [f64], values: &[f64], k: usize)
    requires { length values.now + 2 * k ≤ length out.old }
    ensures { out.new ≡ written (beside_values values.now k) out.old }
{
    csc::copy_front(&mut *out, values);
    write_pairs(&mut out[values.len()..], k, 1.0, -1.0);
}
