// From clarabel's algebra/utils.rs: the test for a permutation and the inverse permutation, `invperm`. Also check 11 for several outputs.
#![tactic(auto)]

ghost use Rattle.std.specs.Prelude.{◌≡◌, ◌≤◌, ◌<◌, true, false, cond, length, replicate, ltb};
ghost use Rattle.layout.specs.General.Lists.{all, Below, is_permutation};
ghost use Rattle.layout.specs.Calls.Answers.{roomy};
ghost use Rattle.constants.specs.Refusals.{refusal_of};
ghost use Rattle.utils.specs.Windows.{MarksMore};
ghost use Rattle.utils.specs.Scattered.{scattered};

use constants::Refusal;

// ---- the test for a permutation

// Sets every mark to false.
pub fn clear(marks: &mut [bool])
    ensures { marks.new ≡ replicate (length marks.old) false }
{
    marks.fill(false);
}

// Marks each number of `words` that lies in the window of `marks.len()` numbers from `low` on.
// Returns false at the first number that is already marked, and true if there is no such number.
pub fn mark(words: &[u32], low: usize, marks: &mut [bool]) -> bool
    ensures { MarksMore low marks.old words.now result marks.new }
{
    for i in 0..words.len() {
        let x = words[i] as usize;
        if x < low {
            continue;
        }
        let v = x - low;
        if marks.len() <= v {
            continue;
        }
        if marks[v] {
            return false;
        }
        marks[v] = true;
    }
    true
}

// Checks that every number of `words` is below `n`. The walk goes on after one that is not, so that the compiler tests several at a time.
pub fn all_below(words: &[u32], n: usize) -> bool
    ensures { result ≡ all (λ x. ltb x n) words.now }
{
    let mut holds = true;
    for &word in words {
        if n <= word as usize {
            holds = false;
        }
    }
    holds
}

// Checks that each number below the length occurs in `words` exactly once, in windows of `marks.len()` numbers. `marks` is overwritten;
// its length decides the speed, not the result.
fn permutation_by(words: &[u32], marks: &mut [bool]) -> bool
    requires { 0 < length marks.old }
    ensures { result ≡ is_permutation words.now }
{
    let n = words.len();
    if !all_below(words, n) {
        return false;
    }
    let mut low = 0;
    loop {
        clear(&mut *marks);
        if !mark(words, low, &mut *marks) {
            return false;
        }
        if n - low <= marks.len() {
            return true;
        }
        low += marks.len();
    }
}

// Window sizes for few, some and many numbers.
const FEW: usize = 256;

const SOME: usize = 8192;

const MANY: usize = 262144;

// Makes the same check with `N` marks of its own.
fn permutation_in<const N: usize>(words: &[u32]) -> bool
    requires { (0 < N) × (N ≤ 262144) }
    ensures { result ≡ is_permutation words.now }
{
    let mut marks = [false; N];
    permutation_by(words, &mut marks)
}

// Checks that `words` is a permutation of the numbers below its length, with little stack: windows of 256 numbers.
pub fn is_short_permutation(words: &[u32]) -> bool
    ensures { result ≡ is_permutation words.now }
{
    permutation_in::<FEW>(words)
}

// Checks that `words` is a permutation of the numbers below its length, in linear time up to 262,144 numbers (the largest window).
// Shorter lists use smaller windows, which are faster to clear.
pub fn is_permutation(words: &[u32]) -> bool
    ensures { result ≡ is_permutation words.now }
{
    if words.len() <= FEW {
        return permutation_in::<FEW>(words);
    }
    if words.len() <= SOME {
        return permutation_in::<SOME>(words);
    }
    permutation_in::<MANY>(words)
}

// ---- the inverse

// Writes `k` at index `words[k]` of `out`, for k = 0, 1, .. in order; of numbers written to the same index the last remains. Each index is read
// first, because reads of a long `out` wait for memory side by side and writes one after another.
pub fn scatter(words: &[u32], out: &mut [u32])
    requires below { Below (length out.old) words.now }
    requires words_len_bound { length words.now ≤ 4294967296 }
    ensures { out.new ≡ scattered 0 words.now out.old }
{
    for (k, &word) in words.iter().enumerate() {
        let w = word as usize;
        if out[w] != k as u32 {
            out[w] = k as u32;
        }
    }
}

// The number at an index of a table to which none has been written: every index of a list is smaller.
pub const UNPLACED: u32 = constants::NONE;

// Writes `k` at index `words[k]` of `table`, for k = 0, 1, .. in order, up to the first number that is not below `words.len()` or is a
// repeat. Returns false if there is such a number, and true otherwise: then the inverse of `words` is at the front of `table`.
pub fn invperm(words: &[u32], table: &mut [u32]) -> bool
    requires table_value { table.old ≡ replicate (length table.old) 4294967295 }
    requires words_in_bounds { (length words.now ≤ length table.old) × (length words.now ≤ 4294967295) }
    ensures value { result ≡ is_permutation words.now }
    ensures table_after { result ≡ true → table.new ≡ scattered 0 words.now table.old }
{
    for (k, &word) in words.iter().enumerate() {
        let w = word as usize;
        if words.len() <= w || table[w] != UNPLACED {
            return false;
        }
        table[w] = k as u32;
    }
    true
}

// ---- check 11

// Makes check 11 on several outputs: `needs` are the required lengths, `rooms` the actual ones.
pub fn check_rooms(needs: &[u32], rooms: &[usize]) -> Result<(), Refusal>
    ensures { refusal_of result ≡ cond (roomy needs.now rooms.now) 0 11 }
{
    for (i, &need) in needs.iter().enumerate() {
        if rooms.len() <= i || rooms[i] < need as usize {
            return Err(Refusal::Short);
        }
    }
    Ok(())
}
