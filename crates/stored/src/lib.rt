// Reads and compares stored answers. A file is text of hexadecimal numbers, 8 digits for a u32 and 16 for the bits of an f64, each
// followed by one byte, a space or a line feed. A program reads the whole file (`text_of`) and takes its numbers with a `Reader`.
//
// A file begins with its number of cases. A case is its number of u32 lists, then each list as its length
// and its numbers; then the same for its f64 lists. A case is kept in a u32 buffer and an f64 buffer, its lists
// one after the other. The u32 lists are numbered from 0 and the f64 lists from 16; word k of the u32 buffer is
// the start of list k, which ends where list k + 1 starts. No contract can say what a file contains, so the
// functions that read one promise only bounds and lengths.
#![tactic(auto)]

ghost use Rattle.std.specs.Prelude.{◌≡◌, ℕ, ◌<◌, ◌≤◌, ◌++◌, Bool, length, take, drop, map, get_or, eqb};
ghost use Rattle.std.specs.Float.{binary64};
ghost use Rattle.std.specs.Float.Ieee.{of_bits};
ghost use Rattle.stored.specs.Lists.{list_at, word_before, value_before, CaseRoom};
ghost use Rattle.layout.specs.General.Lists.{below, same_by};
ghost use Rattle.stored.specs.Same.{alike_values};

mod problem;

pub use problem::{Outputs, Problem, Solution, SolutionOutputs, Tables};
use std::fs;
use std::io::{self, ErrorKind};
use std::rt::Files;

// Reads the file `name`. A missing file counts as an empty one.
pub fn text_of<R: Files + Alloc>(rt: &R, name: &str) -> io::Result<Vec<u8, R::A>> {
    match fs::read(rt, name) {
        Err(e) if e.kind() == ErrorKind::NotFound => Ok(Vec::new(rt.alloc())),
        read => read,
    }
}

// ---- reading

// Takes numbers from the front of a file's text; `rest` is what is left of it.
#[derive(Drop)]
pub struct Reader<'a> {
    pub rest: &'a [u8],
}

impl<'a> Reader<'a> {
    // Takes bytes from the front of the text, as many as `bytes` has room for, and writes them to the front of `bytes`.
    pub fn fill(&mut self, bytes: &mut [u8])
        ensures bytes { bytes.new ≡ take (length bytes.old) self.old.rest.now ++ drop (length self.old.rest.now) bytes.old }
        ensures rest { self.new.rest.now ≡ drop (length bytes.old) self.old.rest.now }
    {
        let all = self.rest;
        let n = all.len().min(bytes.len());
        bytes[..n].copy_from_slice(&all[..n]);
        self.rest = &all[n..];
    }

    // Takes the next u32 from the front of the text and returns it; 0 at the end of the file.
    pub fn word(&mut self) -> u32
        ensures { result < 4294967296 }
    {
        let mut text = [0u8; 9];
        self.fill(&mut text);
        (number(&text[..8]) % 0x1_0000_0000) as u32
    }

    // Takes a case from the front of the text into `words` and `values`.
    pub fn case(&mut self, words: &mut [u32], values: &mut [f64])
        requires words_room { CaseRoom (length words.old) }
        requires values_room { CaseRoom (length values.old) }
        ensures words_length { length words.new ≡ length words.old }
        ensures values_length { length values.new ≡ length values.old }
    {
        self.words(words);
        self.values(words, values);
    }

    // Takes a case's u32 lists, at most 15, from the front of the text into `words`, and their starts into its first words. Lists
    // are cut off where the buffer ends.
    pub fn words(&mut self, words: &mut [u32])
        requires { CaseRoom (length words.old) }
        ensures { length words.new ≡ length words.old }
    {
        let (starts, items) = words.split_at_mut(32);
        self.lists(&mut starts[..16], 32, items);
    }

    // Takes a case's f64 lists, at most 15, from the front of the text into `values`, and their starts into `words` from index 16 on.
    pub fn values(&mut self, words: &mut [u32], values: &mut [f64])
        requires { CaseRoom (length words.old) × CaseRoom (length values.old) }
        ensures { (length words.new ≡ length words.old) × (length values.new ≡ length values.old) }
    {
        self.lists(&mut words[16..32], 0, values);
    }

    // Takes at most 15 lists from the front of the text into `items`, and their starts into `starts`, counted from `first` on.
    fn lists<T: Element>(&mut self, starts: &mut [u32], first: usize, items: &mut [T])
        requires starts_room { length starts.old ≡ 16 }
        requires first_bound { first ≤ 32 }
        requires items_bound { length items.old ≤ 65536 }
        ensures starts_length { length starts.new ≡ length starts.old }
        ensures items_length { length items.new ≡ length items.old }
    {
        let lists = (self.word() % 16) as usize;
        let mut end = 0;
        starts[0] = first as u32;
        for k in 0..lists {
            let from = end;
            end = items.len().min(from + self.word() as usize);
            for item in items[from..end].iter_mut() {
                *item = T::read(self);
            }
            starts[k + 1] = (first + end) as u32;
        }
    }
}

// Returns the number that the hexadecimal `digits` spell; only the last 16 digits count.
fn number(digits: &[u8]) -> u64 {
    let mut n = 0;
    for &b in digits {
        n = n % 0x1000_0000_0000_0000 * 16 + u64::from((b % 16 + b / 64 * 9) % 16);
    }
    n
}

// Returns the f64 with the bit pattern `bits`. NaNs come from a division, as `from_bits` is not defined for them; which NaN it is does not matter.
fn of_bits(bits: u64) -> f64
    ensures { result ≡ of_bits binary64 bits }
{
    if 0x7ff0_0000_0000_0000 < bits % 0x8000_0000_0000_0000 {
        0.0 / 0.0
    } else {
        f64::from_bits(bits)
    }
}

// ---- the two types of number

// A type of number that lists hold.
pub trait Element: Copy {
    const ZERO: Self;

    ghost ZERO: { Self };

    // The fill value at an index, and whether two numbers are equal.
    ghost before: { ℕ → Self };

    ghost alike: { Self → Self → Bool };

    // Returns what element `i` of an output is before a call.
    fn unwritten(i: usize) -> Self
        ensures { result ≡ before i };

    fn is_alike(self, other: Self) -> bool
        ensures { result ≡ alike self other };

    // Takes the next number from the front of the text; 0 at the end of the file.
    fn read(reader: &mut Reader) -> Self;
}

impl Element for u32 {
    const ZERO: u32 = 0;

    ghost ZERO = { 0 };

    ghost before = { word_before };

    ghost alike = { eqb };

    fn unwritten(i: usize) -> u32 {
        0xf000_0000 + (i % 65536) as u32
    }

    fn is_alike(self, other: u32) -> bool {
        self == other
    }

    fn read(reader: &mut Reader) -> u32 {
        reader.word()
    }
}

// Two values are alike if they are equal bit for bit; all NaNs are.
impl Element for f64 {
    const ZERO: f64 = 0.0;

    ghost ZERO = { of_bits binary64 0 };

    ghost before = { value_before };

    ghost alike = { alike_values };

    fn unwritten(i: usize) -> f64 {
        -0.5 - f64::from((i % 65536) as u32)
    }

    fn is_alike(self, other: f64) -> bool {
        if self.is_nan() || other.is_nan() {
            self.is_nan() && other.is_nan()
        } else {
            self.to_bits() == other.to_bits()
        }
    }

    fn read(reader: &mut Reader) -> f64 {
        let mut text = [0u8; 17];
        reader.fill(&mut text);
        of_bits(number(&text[..16]))
    }
}

// ---- the lists of a case

// Returns element `i` of `list`; 0 where there is none.
pub fn item<T: Element>(list: &[T], i: usize) -> T
    ensures { result ≡ get_or list.now i T.ZERO }
{
    list.get(i).copied().unwrap_or(T::ZERO)
}

// Returns the first `n` elements of `table`; all where it has fewer.
pub fn front<T>(table: &[T], n: usize) -> &[T]
    ensures { result.now ≡ take n table.now }
{
    table.get(..n).unwrap_or(table)
}

// Returns list `k` of `items`; empty where the starts give no bounds within `items`.
pub fn list_at<'a, T: Copy>(starts: &[u32], items: &'a [T], k: u8) -> &'a [T]
    ensures { result.now ≡ list_at items.now starts.now k }
{
    let from = item(starts, usize::from(k)) as usize;
    let end = item(starts, usize::from(k) + 1) as usize;
    if from <= end && end <= items.len() {
        &items[from..end]
    } else {
        &items[..0]
    }
}

// The buffers of a case.
#[derive(Clone, Copy)]
pub struct Case<'a> {
    pub words: &'a [u32],
    pub values: &'a [f64],
}

impl<'a> Case<'a> {
    // Returns the u32 list `k`; empty where there is none.
    pub fn words_at(&self, k: u8) -> &'a [u32]
        ensures { result.now ≡ list_at self.now.words.now self.now.words.now k }
    {
        list_at(self.words, self.words, k)
    }

    // Returns the f64 list `k`; empty where there is none.
    pub fn values_at(&self, k: u8) -> &'a [f64]
        ensures { result.now ≡ list_at self.now.values.now self.now.words.now k }
    {
        list_at(self.words, self.values, k)
    }
}

// ---- the outputs of a call

// Fills `out` with values that differ from index to index, so that an element that a call does not write is noticed.
// Returns its prefix with the length of `list`.
pub fn room<'a, T: Element>(out: &'a mut [T], list: &[T]) -> &'a mut [T]
    ensures { result.now ≡ take (length list.now) (map T.before (below (length out.old))) }
{
    for (i, slot) in out.iter_mut().enumerate() {
        *slot = T::unwritten(i);
    }
    let n = list.len().min(out.len());
    &mut out[..n]
}

// Returns whether `list` is a prefix of `out`.
pub fn same<T: Element>(out: &[T], list: &[T]) -> bool
    ensures { result ≡ same_by T.alike (take (length list.now) out.now) list.now }
{
    if out.len() < list.len() {
        return false;
    }
    for (k, &x) in list.iter().enumerate() {
        if !out[k].is_alike(x) {
            return false;
        }
    }
    true
}

// The number that counts where the outputs of a call differ from the stored ones: no call returns it.
pub const DIFFERS: u32 = 4294967295;

// Prints the line of a family of cases: how many cases it has, or how many were equal before the first that was not.
pub fn report(rt: &impl Print, name: &[u8], cases: u32, equal: u32) -> io::Result<()> {
    rt.write_all(name)?;
    if equal == cases {
        println!(rt; ": {equal} cases, all equal")
    } else {
        println!(rt; ": {equal} cases equal and the next one not")
    }
}
