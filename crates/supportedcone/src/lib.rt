// Cones as in clarabel's solver/core/cones/supportedcone.rs: reading records, counting rows and α values, and checks 1 and 4 of the records.
#![tactic(auto, using(layout::proofs::Patterns::Records::record_count_lem))]

ghost use Rattle.std.specs.Prelude.{◌≡◌, true, cond, length};
ghost use Rattle.layout.specs.General.Lists.{all};
ghost use Rattle.layout.specs.Problems.Cones.{records, reads, row_count, alpha_count};
ghost use Rattle.layout.specs.Checks.{sizes_bounded, cones_bounded, cones_read, alphas_as_many};
ghost use Rattle.layout.specs.Files.FileWords.{unvalued};
ghost use Rattle.constants.specs.Refusals.{refusal_of};
ghost use Rattle.supportedcone.specs.Cases.{cone_record, record_of, told, reads_as, reads_with, record_at};
ghost use Rattle.supportedcone.specs.Ranges.{is_psd_of};

use constants::{Refusal, limit, record};
use scalarmath::triangular_number;

// A cone as a value: its dimension, its exponent, or its two counts. GenPower holds its α count first; its α values stay in the table of α.
#[derive(Clone, Copy)]
pub enum SupportedCone {
    ZeroConeT(u32),
    NonnegativeConeT(u32),
    SecondOrderConeT(u32),
    ExponentialConeT,
    PowerConeT(f64),
    GenPowerConeT(u32, u32),
    PSDTriangleConeT(u32),
}

impl SupportedCone {
    // codes of the kinds
    pub const ZERO: u32 = 0;

    pub const NONNEGATIVE: u32 = 1;

    pub const SECOND_ORDER: u32 = 2;

    pub const EXPONENTIAL: u32 = 3;

    pub const POWER: u32 = 4;

    pub const GEN_POWER: u32 = 5;

    pub const PSD_TRIANGLE: u32 = 6;

    // Reads a record. `alpha` is the exponent of a power cone (kind 4) and is ignored for other kinds.
    // Returns `None` for an unknown kind or an unused size other than 0.
    pub fn read(kind: u32, first: u32, second: u32, alpha: f64) -> Option<SupportedCone>
        ensures { told result ≡ reads_as (cone_record kind first second) alpha }
    {
        match (kind, first, second) {
            (SupportedCone::ZERO, dim, 0) => Some(SupportedCone::ZeroConeT(dim)),
            (SupportedCone::NONNEGATIVE, dim, 0) => Some(SupportedCone::NonnegativeConeT(dim)),
            (SupportedCone::SECOND_ORDER, dim, 0) => Some(SupportedCone::SecondOrderConeT(dim)),
            (SupportedCone::EXPONENTIAL, 0, 0) => Some(SupportedCone::ExponentialConeT),
            (SupportedCone::POWER, 0, 0) => Some(SupportedCone::PowerConeT(alpha)),
            (SupportedCone::GEN_POWER, alphas, dim2) => {
                Some(SupportedCone::GenPowerConeT(alphas, dim2))
            }
            (SupportedCone::PSD_TRIANGLE, dim, 0) => Some(SupportedCone::PSDTriangleConeT(dim)),
            _ => None,
        }
    }

    // Counts the rows of the cone.
    pub fn nvars(self) -> u32
        requires { sizes_bounded (record_of self) ≡ true }
        ensures { result ≡ row_count (record_of self) }
    {
        match self {
            SupportedCone::ZeroConeT(dim) => dim,
            SupportedCone::NonnegativeConeT(dim) => dim,
            SupportedCone::SecondOrderConeT(dim) => dim,
            SupportedCone::ExponentialConeT => 3,
            SupportedCone::PowerConeT(_) => 3,
            SupportedCone::GenPowerConeT(alphas, dim2) => alphas + dim2,
            SupportedCone::PSDTriangleConeT(dim) => triangular_number(dim),
        }
    }

    // Counts the values that the cone takes from the table of α.
    pub fn alpha_count(self) -> u32
        ensures { result ≡ alpha_count (record_of self) }
    {
        match self {
            SupportedCone::PowerConeT(_) => 1,
            SupportedCone::GenPowerConeT(alphas, _) => alphas,
            _ => 0,
        }
    }
}

// Counts the complete records of three words; a partial record at the end is left out.
pub fn record_count(cones: &[u32]) -> usize
    ensures { result ≡ length (records cones.now) }
{
    cones.len() / record::WORDS
}

// Reads record `i`, with `alpha` as the exponent of a power cone. Returns `None` where there is no record `i`.
// A joining has no α table; kinds and row counts do not depend on the exponent, so it may pass any number.
pub fn cone_at(cones: &[u32], i: usize, alpha: f64) -> Option<SupportedCone>
    ensures { told result ≡ reads_as (record_at cones.now i) alpha }
{
    if record_count(cones) <= i {
        return None;
    }
    let at = i * record::WORDS;
    SupportedCone::read(cones[at], cones[at + 1], cones[at + 2], alpha)
}

// Reads record `i`, taking its exponent from `alphas`, the part of the α table that earlier records left.
// Returns `None` where `alphas` has fewer values than the cone takes.
pub fn read_with_alpha(cones: &[u32], i: usize, alphas: &[f64]) -> Option<SupportedCone>
    ensures { told result ≡ reads_with (record_at cones.now i) alphas.now }
{
    let alpha = alphas.first().copied().unwrap_or(0.0);
    let cone = cone_at(cones, i, alpha)?;
    if alphas.len() < cone.alpha_count() as usize {
        return None;
    }
    Some(cone)
}

// Checks that one record's sizes are within check 1's bounds, whatever its kind.
fn sizes_bounded(kind: u32, first: u32, second: u32) -> bool
    ensures { result ≡ sizes_bounded (cone_record kind first second) }
{
    first <= limit::SIZE
        && second <= limit::SIZE
        && (kind != SupportedCone::PSD_TRIANGLE || first <= limit::PSD_SIZE)
}

// Makes check 1 on the cones: at most 1,024 complete records, each with sizes within bounds. A partial record at the end is ignored.
pub fn cones_bounded(cones: &[u32]) -> bool
    ensures { result ≡ cones_bounded cones.now }
{
    let count = record_count(cones);
    if limit::CONES < count {
        return false;
    }
    for i in 0..count {
        let at = i * record::WORDS;
        if !sizes_bounded(cones[at], cones[at + 1], cones[at + 2]) {
            return false;
        }
    }
    true
}

// Makes check 4 on the records: each reads as one of the seven kinds, the last one is complete, and their rows sum to `m`.
pub fn check_cones(m: u32, cones: &[u32]) -> Result<(), Refusal>
    requires { cones_bounded cones.now ≡ true }
    ensures { refusal_of result ≡ cond (cones_read m cones.now) 0 4 }
{
    let count = record_count(cones);
    if count * record::WORDS != cones.len() {
        return Err(Refusal::Cones);
    }
    let mut rows = 0;
    for i in 0..count {
        let Some(cone) = cone_at(cones, i, 0.0) else {
            return Err(Refusal::Cones);
        };
        rows += cone.nvars();
    }
    if rows != m {
        return Err(Refusal::Cones);
    }
    Ok(())
}

// Checks that the table `alphas` has exactly as many values as the cones take.
pub fn alphas_as_many(cones: &[u32], alphas: &[f64]) -> bool
    requires { all reads (records cones.now) ≡ true }
    ensures { result ≡ alphas_as_many cones.now alphas.now }
{
    let count = record_count(cones);
    let mut next = 0;
    for i in 0..count {
        let Some(cone) = read_with_alpha(cones, i, &alphas[next..]) else {
            return false;
        };
        next += cone.alpha_count() as usize;
    }
    next == alphas.len()
}

// Checks that the cones take exactly `count` values of α; needs no table.
pub fn alphas_counted(cones: &[u32], count: usize) -> bool
    requires { all reads (records cones.now) ≡ true }
    ensures { result ≡ alphas_as_many cones.now (unvalued count) }
{
    let records = record_count(cones);
    let mut next = 0;
    for i in 0..records {
        let Some(cone) = cone_at(cones, i, 0.0) else {
            return false;
        };
        let taken = cone.alpha_count() as usize;
        if count - next < taken {
            return false;
        }
        next += taken;
    }
    next == count
}

// Counts the rows of cone `i`. Returns 0 where there is no such cone.
pub fn cone_rows(cones: &[u32], i: usize) -> u32
    requires cones_value { cones_bounded cones.now ≡ true }
    requires cones_value_2 { all reads (records cones.now) ≡ true }
    ensures { result ≡ row_count (record_at cones.now i) }
{
    let Some(cone) = cone_at(cones, i, 0.0) else {
        return 0;
    };
    cone.nvars()
}

// Checks that there is a cone `i` and that it is a PSD cone of dimension `v`.
pub fn is_psd_of(cones: &[u32], i: usize, v: usize) -> bool
    ensures { result ≡ is_psd_of cones.now i v }
{
    if record_count(cones) <= i {
        return false;
    }
    let at = i * record::WORDS;
    cones[at] == SupportedCone::PSD_TRIANGLE && cones[at + 1] as usize == v
}
