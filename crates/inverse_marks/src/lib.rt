// Tests long permutations with a bit for each number.
#![tactic(auto)]

ghost use Rattle.std.specs.Prelude.{◌≡◌, ◌*◌, ◌≤◌, length, replicate};
ghost use Rattle.layout.specs.General.Lists.{keep, distinct, is_permutation};
ghost use Rattle.utils.specs.Windows.{within};

// The number of words of marks, and the most numbers that they can mark. Fewer words are faster to clear.
const WORDS: usize = 131072;

const MOST: usize = 8388608;

const FEWER_WORDS: usize = 16384;

const FEWER: usize = 1048576;

// ---- one walk

// Marks each number of `words` by a bit of `marks`, 64 numbers to a word, up to the first number that is not below `words.len()` or is already
// marked: setting its bit does not change the word. Returns false if there is such a number, and true otherwise.
fn mark_each(words: &[u32], marks: &mut [u64]) -> bool
    requires marks_value { marks.old ≡ replicate (length marks.old) 0 }
    requires words_len_bound { length words.now ≤ 64 * length marks.old }
    ensures { result ≡ is_permutation words.now }
{
    for &word in words {
        let x = word as usize;
        if words.len() <= x {
            return false;
        }
        let at = x / 64;
        let w = marks[at];
        let more = w | (1 << (x % 64));
        if more == w {
            return false;
        }
        marks[at] = more;
    }
    true
}

// Checks that `words`, of at most 64 numbers for each of the `N` words of marks, is a permutation of the numbers below its length. Returns
// whether it is.
fn permutation_by_bits<const N: usize>(words: &[u32]) -> bool
    requires size { N ≤ 131072 }
    requires words_len_bound { length words.now ≤ 64 * N }
    ensures { result ≡ is_permutation words.now }
{
    let mut marks = [0; N];
    mark_each(words, &mut marks)
}

// ---- a walk for each window

// Marks each number of `words` that lies in the window, as `mark_each` does. A number outside sets no bit of its word, so that no branch
// depends on the window. Returns false at the first number that is already marked, and true if there is no such number.
fn mark_window(words: &[u32], window: usize, marks: &mut [u64]) -> bool
    requires { marks.old ≡ replicate 131072 0 }
    ensures { result ≡ distinct (keep (within (window * 8388608) 8388608) words.now) }
{
    for &word in words {
        let x = word as usize;
        let v = x % MOST;
        let bit = if x / MOST == window { 1 << (v % 64) } else { 0 };
        let at = v / 64;
        let w = marks[at];
        if w & bit != 0 {
            return false;
        }
        marks[at] = w | bit;
    }
    true
}

// Checks that no number in the window occurs twice in `words`. Returns whether none does.
fn distinct_within(words: &[u32], window: usize) -> bool
    ensures { result ≡ distinct (keep (within (window * 8388608) 8388608) words.now) }
{
    let mut marks = [0; WORDS];
    mark_window(words, window, &mut marks)
}

// Checks that `words` is a permutation of the numbers below its length, of any length. Returns whether it is.
fn permutation_by_windows(words: &[u32]) -> bool
    ensures { result ≡ is_permutation words.now }
{
    if !utils::all_below(words, words.len()) {
        return false;
    }
    for window in 0..words.len().div_ceil(MOST) {
        if !distinct_within(words, window) {
            return false;
        }
    }
    true
}

// ---- the test

// Checks that `words` is a permutation of the numbers below its length: up to 8,388,608 numbers in one walk, more of them in windows of
// as many. Returns whether it is.
pub fn is_long_permutation(words: &[u32]) -> bool
    ensures { result ≡ is_permutation words.now }
{
    if words.len() <= FEWER {
        return permutation_by_bits::<FEWER_WORDS>(words);
    }
    if words.len() <= MOST {
        return permutation_by_bits::<WORDS>(words);
    }
    permutation_by_windows(words)
}
