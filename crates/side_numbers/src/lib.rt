// The refusals of a compact cut with several right sides: puts those of the single checks in the order of document 02.
#![tactic(auto)]

ghost use Rattle.std.specs.Prelude.{◌≡◌, ℕ, cond, ◌&&◌, ◌≤◌, leb};
ghost use Rattle.layout.specs.Calls.Answers.{or_else};
ghost use Rattle.layout.specs.Calls.CutBetween.{at_most};
ghost use Rattle.side_numbers.specs.Order.{limits_order, sides_order};
ghost use Rattle.constants.specs.Refusals.{number, refusal_of};

use check_covered::Covered;
use constants::Refusal;

// The largest number of right sides in one call.
const MOST_SIDES: u32 = 64;

// ---- the order of numbers

// What a check gives: a number, or a `Result`. Its number is that of the refusal, and 0 where the check passed.
pub trait Numbered: Copy {
    ghost as_number: { Self → ℕ };

    fn refused(refusal: Refusal) -> Self
        ensures { as_number result ≡ number refusal };

    fn number(self) -> u32
        ensures { result ≡ as_number self };
}

impl Numbered for u32 {
    ghost as_number = { λ number. number };

    fn refused(refusal: Refusal) -> u32 {
        refusal.number()
    }

    fn number(self) -> u32 {
        self
    }
}

impl<T: Copy> Numbered for Result<T, Refusal> {
    ghost as_number = { refusal_of };

    fn refused(refusal: Refusal) -> Result<T, Refusal> {
        Err(refusal)
    }

    fn number(self) -> u32 {
        match self {
            Ok(_) => 0,
            Err(refusal) => refusal.number(),
        }
    }
}

// Returns the refusal `first`, or `second` where `first` has none.
fn first_of<R: Numbered>(first: Result<(), Refusal>, second: R) -> R
    ensures refusal_value { R.as_number result ≡ or_else (refusal_of first) (R.as_number second) }
    ensures kept { R.as_number result ≡ 0 → result ≡ second }
{
    match first {
        Err(refusal) => R::refused(refusal),
        Ok(()) => second,
    }
}

// Returns the number of `counted` where it is at most the one of `last`, and 0 otherwise.
fn up_to<R: Numbered>(counted: R, last: Refusal) -> u32
    ensures { result ≡ cond (leb (R.as_number counted) (number last)) (R.as_number counted) 0 }
{
    let found = counted.number();
    if found <= last.number() {
        return found;
    }
    0
}

// Returns the refusal of check 9, made on a right side, where it did not pass (`right`).
fn check_nine(right: bool) -> Result<(), Refusal>
    ensures { refusal_of result ≡ cond right 0 9 }
{
    if right {
        return Ok(());
    }
    Err(Refusal::Uncovered)
}

// ---- limits of a right side

// Returns whether the lists are equally long and each value of `low` is at most the one of `high`; false where either is NaN.
// The walk goes on after a value that is not, so that the compiler tests several at a time.
fn at_most(low: &[f64], high: &[f64]) -> bool
    ensures { result ≡ at_most low.now high.now }
{
    if low.len() != high.len() {
        return false;
    }
    let mut holds = true;
    for i in 0..low.len() {
        if !(low[i] <= high[i]) {
            holds = false;
        }
    }
    holds
}

// Makes check 16.
fn check_limits(low: &[f64], high: &[f64]) -> Result<(), Refusal>
    ensures { refusal_of result ≡ cond (at_most low.now high.now) 0 16 }
{
    if at_most(low, high) {
        return Ok(());
    }
    Err(Refusal::Limits)
}

// Makes checks 1 to 7 and 16 with limits, where checks 1 to 7 with `low` alone gave `counted`: the length of `high` belongs to 4, and 16 comes
// after 4. Returns the first refusal, or `counted` where there is none.
pub fn refuse_limits<R: Numbered>(counted: R, m: u32, low: &[f64], high: &[f64]) -> R
    ensures refusal_value { R.as_number result ≡ limits_order (R.as_number counted) m low.now high.now }
    ensures kept { R.as_number result ≡ 0 → result ≡ counted }
{
    if up_to(counted, Refusal::Cones) != 0 {
        return counted;
    }
    if high.len() != m as usize {
        return R::refused(Refusal::Cones);
    }
    first_of(check_limits(low, high), counted)
}

// Makes checks 9 and 10 with limits, where check 10 gave `ten`: 9 for low, then 9 for high, then 10. Returns the first refusal.
pub fn refuse_limits_rows<R: Numbered>(c: Covered, ten: R) -> R
    ensures { R.as_number result ≡ or_else (cond c.first 0 9) (or_else (cond c.further 0 9) (R.as_number ten)) }
{
    first_of(check_nine(c.first), first_of(check_nine(c.further), ten))
}

// ---- many right sides

// Makes check 1 of a number of right sides.
pub fn check_count(count: u32) -> Result<(), Refusal>
    ensures { refusal_of result ≡ cond (leb 1 count && leb count 64) 0 1 }
{
    if count < 1 {
        return Err(Refusal::Bound);
    }
    if MOST_SIDES < count {
        return Err(Refusal::Bound);
    }
    Ok(())
}

// Makes checks 1 to 7 of `count` right sides, where those with the first side alone gave `counted`: the length `size` of the whole list belongs
// to 4. Returns the first refusal, or `counted` where there is none.
pub fn refuse_lengths<R: Numbered>(counted: R, m: u32, count: u32, size: usize) -> R
    requires { count ≤ 64 }
    ensures refusal_value { R.as_number result ≡ sides_order (R.as_number counted) m count size }
    ensures kept { R.as_number result ≡ 0 → result ≡ counted }
{
    if up_to(counted, Refusal::Rows) != 0 {
        return counted;
    }
    if size != count as usize * m as usize {
        return R::refused(Refusal::Cones);
    }
    counted
}

// Makes checks 9 and 10 of the first of several right sides, where check 10 gave `ten`. Returns the first refusal.
pub fn refuse_first<R: Numbered>(c: Covered, ten: R) -> R
    ensures { R.as_number result ≡ or_else (cond c.first 0 9) (R.as_number ten) }
{
    first_of(check_nine(c.first), ten)
}

// Makes check 9 of the right sides after the first, then check 11, which gave `eleven`. Returns the first refusal.
pub fn refuse_further<R: Numbered>(c: Covered, eleven: R) -> R
    ensures { R.as_number result ≡ or_else (cond c.further 0 9) (R.as_number eleven) }
{
    first_of(check_nine(c.further), eleven)
}

// Returns the length of the first right side in a list of length `size`: `m`, or `size` where the list is shorter.
pub fn first_size(m: u32, size: usize) -> usize
    ensures { result ≡ cond (leb m size) m size }
{
    size.min(m as usize)
}
