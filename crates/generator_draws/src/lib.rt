// The random draws of the test load generator (Q-5): a draw, a drawn value, the ranges of its arguments, the ordering, and a right side over given
// rows. The state is a u64; each function takes it and returns the next one.
#![tactic(auto)]

ghost use Rattle.std.specs.Prelude.{◌≡◌, ◌-◌, ◌≤◌, ◌<◌, length};
ghost use Rattle.layout.specs.General.Lists.{below, Below};
ghost use Rattle.layout.specs.Calls.Generate.{draw as draw_of, draws as draws_of, drawn_value, exchange, exchanges, drawn_ordering, drawn_side, in_ranges};

// Returns the state after `s`, which is also the draw: exclusive or with itself shifted left 13, then right 7, then left 17. Bits above 64 are
// lost.
pub fn draw(s: u64) -> u64
    ensures { result ≡ draw_of s }
{
    let a = s ^ (s << 13);
    let b = a ^ (a >> 7);
    b ^ (b << 17)
}

// Returns the value of the draw `d`: a whole number from -100 to 100.
pub fn draw_value(d: u64) -> f64
    ensures { result ≡ drawn_value d }
{
    ((d % 201) as i32 - 100) as f64
}

// Returns whether the arguments are in their ranges.
pub fn in_ranges(seed: u64, v: u32, w: u32, n: u32) -> bool
    ensures { result ≡ in_ranges seed v w n }
{
    seed != 0 && (2 <= v && v <= 64) && (1 <= w && w < v) && (1 <= n && n <= 64)
}

// ---- the ordering

// Writes 0, 1, 2, .. to `out`.
fn count_up(out: &mut [u32])
    requires { length out.old ≤ 64 }
    ensures { out.new ≡ below (length out.old) }
{
    for i in 0..out.len() {
        out[i] = i as u32;
    }
}

// Exchanges entries `i` and `k` of `out`.
fn exchange_entries(i: usize, k: usize, out: &mut [u32])
    requires { (i < length out.old) × (k < length out.old) }
    ensures { out.new ≡ exchange i k out.old }
{
    let x = out[i];
    out[i] = out[k];
    out[k] = x;
}

// Exchanges each entry of `out`, from the last down to entry 1, with a drawn one at the same or a smaller index. Returns the state after these
// draws.
fn exchange_all(seed: u64, out: &mut [u32]) -> u64
    requires { (0 < length out.old) × (length out.old ≤ 64) }
    ensures value { result ≡ draws_of (length out.old - 1) seed }
    ensures out_after { out.new ≡ exchanges (length out.old - 1) seed out.old }
{
    let count = out.len();
    let mut s = seed;
    for done in 1..count {
        let i = count - done;
        s = draw(s);
        let k = s % (i as u64 + 1);
        exchange_entries(i, k as usize, &mut *out);
    }
    s
}

// Writes to `out` a drawn ordering of as many vertices as it is long. Returns the state after it.
pub fn draw_ordering(seed: u64, out: &mut [u32]) -> u64
    requires { (0 < length out.old) × (length out.old ≤ 64) }
    ensures value { result ≡ draws_of (length out.old - 1) seed }
    ensures out_after { out.new ≡ drawn_ordering seed (length out.old) }
{
    count_up(&mut *out);
    exchange_all(seed, out)
}

// ---- the right side

// Writes a drawn value to each of the `rows` of the right side `out`, without the draws that would decide whether it is stored.
pub fn draw_side(s: u64, rows: &[u32], out: &mut [f64])
    requires { Below (length out.old) rows.now }
    ensures { out.new ≡ drawn_side s rows.now out.old }
{
    let mut state = s;
    for &r in rows {
        state = draw(state);
        out[r as usize] = draw_value(state);
    }
}
