ghost use Rattle.std.specs.Prelude.{◌≡◌};
ghost use Rattle.constants.specs.Refusals.{number, refusal_of};

// The check that a call's input fails. Its number, which C callers get, is that of include/chordal.h, which explains each; 8 is not used.
#[derive(Clone, Copy, Debug, PartialEq, Eq)]
pub enum Refusal {
    Bound = 1,
    Starts = 2,
    Rows = 3,
    Cones = 4,
    Patterns = 5,
    Tree = 6,
    Cliques = 7,
    Uncovered = 9,
    TooLarge = 10,
    Short = 11,
    Solution = 12,
    FileLength = 13,
    FileTables = 14,
    Ranges = 15,
    Limits = 16,
    Unknowns = 17,
}

impl Refusal {
    // Returns the number by which C callers know the refusal.
    pub fn number(self) -> u32
        ensures { result ≡ number self }
    {
        self as u32
    }
}

// Returns the number that C callers get: 0 where nothing is refused.
pub fn number_of(answer: Result<(), Refusal>) -> u32
    ensures { result ≡ refusal_of answer }
{
    match answer {
        Ok(()) => 0,
        Err(refusal) => refusal.number(),
    }
}
