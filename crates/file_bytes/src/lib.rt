// The bytes of a problem file (Q-2), little-endian: words of four bytes, 64-bit patterns of two words, and the doubles with these bit
// patterns.
#![tactic(auto)]

ghost use Rattle.std.specs.Prelude.{◌≡◌, ◌≤◌, ◌<◌, ◌+◌, ◌/◌, ◌*◌, length, get_or, replicate};
ghost use Rattle.std.specs.Float.{binary64};
ghost use Rattle.std.specs.Float.Ieee.{of_bits, to_bits};
ghost use Rattle.layout.specs.General.Lists.{written};
ghost use Rattle.layout.specs.General.Floats.{floats, bits};
ghost use Rattle.layout.specs.General.Bytes.{table_bytes};
ghost use Rattle.layout.specs.Files.FileWords.{pairs_of};
ghost use Rattle.layout.specs.Calls.FileWords.{FileWords};
ghost use Rattle.layout.proofs.Files.FileWalks.{put_word};
ghost use Rattle.constants.specs.Refusals.{refusal_of};

use constants::Refusal;
use constants::file_table::{DOUBLE_BYTES, WORD_BYTES};

// ---- words from bytes

// Returns the word whose lowest byte is at index `a` of `file`.
fn word_at(file: &[u8], a: usize) -> u32
    requires { a + 4 ≤ length file.now }
    ensures { result ≡ get_or file.now a 0 + 256 * get_or file.now (a + 1) 0 + 65536 * get_or file.now (a + 2) 0 + 16777216 * get_or file.now (a + 3) 0 }
{
    u32::from_le_bytes([file[a], file[a + 1], file[a + 2], file[a + 3]])
}

// Writes the complete words of `file` to `out`; 1 to 3 bytes after them are left out. Refuses where `out` is too short.
pub fn file_words(file: &[u8], out: &mut [u32]) -> Result<(), Refusal>
    ensures { FileWords file.now out.old out.new (refusal_of result) }
{
    let count = file.len() / WORD_BYTES;
    if out.len() < count {
        return Err(Refusal::Short);
    }
    for i in 0..count {
        out[i] = word_at(file, WORD_BYTES * i);
    }
    Ok(())
}

// ---- 64-bit patterns from words

fn pattern(low: u32, high: u32) -> u64
    ensures { result ≡ low + 4294967296 * high }
{
    low as u64 + 4294967296 * (high as u64)
}

// Writes the 64-bit patterns of `words`, two words each, the low word first, to `out`.
pub fn write_patterns(words: &[u32], out: &mut [u64])
    requires { (length words.now ≡ 2 * (length words.now / 2)) × (length words.now / 2 ≤ length out.old) }
    ensures { out.new ≡ written (pairs_of words.now) out.old }
{
    for i in 0..words.len() / 2 {
        out[i] = pattern(words[2 * i], words[2 * i + 1]);
    }
}

// ---- bytes from words and 64-bit patterns

// Writes the four bytes of `v` to `out` from index `a` on, the lowest first.
fn put_word(out: &mut [u8], a: usize, v: u32)
    requires { a + 4 ≤ length out.old }
    ensures { out.new ≡ put_word out.old a v }
{
    out[a..a + 4].copy_from_slice(&v.to_le_bytes());
}

// Writes the bytes of `words` to `out`.
pub fn write_words(words: &[u32], out: &mut [u8])
    requires { 4 * length words.now ≤ length out.old }
    ensures { out.new ≡ written (table_bytes 4 words.now) out.old }
{
    for (i, &v) in words.iter().enumerate() {
        put_word(&mut *out, WORD_BYTES * i, v);
    }
}

// Writes the bytes of `values`, 64-bit patterns of doubles, to `out`.
pub fn write_doubles(values: &[u64], out: &mut [u8])
    requires { 8 * length values.now ≤ length out.old }
    ensures { out.new ≡ written (table_bytes 8 values.now) out.old }
{
    for (i, &v) in values.iter().enumerate() {
        put_word(&mut *out, DOUBLE_BYTES * i, (v % 4294967296) as u32);
        put_word(
            &mut *out,
            DOUBLE_BYTES * i + WORD_BYTES,
            (v / 4294967296) as u32,
        );
    }
}

// Writes `count` zero bytes to `out`.
pub fn write_zeros(count: usize, out: &mut [u8])
    requires { count ≤ length out.old }
    ensures { out.new ≡ written (replicate count 0) out.old }
{
    out[..count].fill(0);
}

// ---- doubles and their bit patterns

// The bit pattern of +infinity, above which those of NaNs lie once the sign is removed, and that of −0.0, which is the sign bit alone.
const INFINITY: u64 = 9218868437227405312;

const SIGN: u64 = 9223372036854775808;

// The bit pattern that is written for every NaN.
const NAN: u64 = 9221120237041090560;

// Returns the double with the bit pattern `pattern`; NaNs are not told apart.
fn float_of(pattern: u64) -> f64
    ensures { result ≡ of_bits binary64 pattern }
{
    if INFINITY < pattern % SIGN {
        return 0.0 / 0.0;
    }
    f64::from_bits(pattern)
}

// Returns the bit pattern of `x`.
fn bits_of(x: f64) -> u64
    ensures { result ≡ to_bits binary64 x }
{
    if x != x {
        return NAN;
    }
    f64::to_bits(x)
}

// Writes the doubles with the bit patterns `patterns` to `out`.
pub fn write_floats(patterns: &[u64], out: &mut [f64])
    requires { length patterns.now ≤ length out.old }
    ensures { out.new ≡ written (floats patterns.now) out.old }
{
    for (i, &pattern) in patterns.iter().enumerate() {
        out[i] = float_of(pattern);
    }
}

// Writes the bit patterns of `values` to `out`.
pub fn write_bits(values: &[f64], out: &mut [u64])
    requires { length values.now ≤ length out.old }
    ensures { out.new ≡ written (bits values.now) out.old }
{
    for (i, &x) in values.iter().enumerate() {
        out[i] = bits_of(x);
    }
}
