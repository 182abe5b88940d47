// b over the augmented rows: values other than zero move to the rows that own them, and all other rows get +0.0.
#![tactic(auto)]

ghost use Rattle.std.specs.Prelude.{◌≡◌, map, ◌*◌, ◌≤◌, length};
ghost use Rattle.layout.specs.General.Lists.{written};
ghost use Rattle.rows_codes.specs.Codes.{RowInside, RowsInside};
ghost use Rattle.sparsevector.specs.Values.{code_value};
ghost use Rattle.sparsevector.specs.Sides.{moved_sides};

use rows_codes::FIRST_OVERLAP;

// Returns the value of `b` at an augmented row with this `code`: +0.0 at an overlap; a zero of either sign becomes +0.0, and a NaN is kept.
pub fn code_value(code: u32, b: &[f64]) -> f64
    requires { RowInside (length b.now) code }
    ensures { result ≡ code_value b.now code }
{
    if code >= FIRST_OVERLAP {
        return 0.0;
    }
    let v = b[code as usize];
    if v == 0.0 {
        return 0.0;
    }
    v
}

// Writes to `out` the value of `b` at each augmented row, given by its code in `codes`.
pub fn move_values(out: &mut [f64], codes: &[u32], b: &[f64])
    requires { (length codes.now ≤ length out.old) × RowsInside (length b.now) codes.now }
    ensures { out.new ≡ written (map (code_value b.now) codes.now) out.old }
{
    for (r, &code) in codes.iter().enumerate() {
        out[r] = code_value(code, b);
    }
}

// Writes the values of `count` right sides of `m` values each, taken from `sides`, to `out`: side after side, one value per row code in `codes`.
pub fn move_sides(out: &mut [f64], codes: &[u32], m: usize, sides: &[f64], count: u32)
    requires { (count * length codes.now ≤ length out.old) × (count * m ≤ length sides.now) × RowsInside m codes.now }
    ensures { out.new ≡ written (moved_sides m codes.now sides.now count) out.old }
{
    for k in 0..count as usize {
        let side = &sides[k * m..k * m + m];
        move_values(&mut out[k * codes.len()..], codes, side);
    }
}
