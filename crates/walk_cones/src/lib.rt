// The walk over the cones of a problem in order, each not decomposed (whole) or cut by its pattern. All other walks are built on this one.
#![tactic(auto)]

ghost use Rattle.std.specs.Prelude.{◌≡◌};
ghost use Rattle.layout.specs.Problems.Cones.{records};
ghost use Rattle.layout.specs.Rows.Blocks.{parts};
ghost use Rattle.layout.specs.Problems.Patterns.{patterns, clique_count};
ghost use Rattle.layout.specs.Checks.{Sound, RightPattern};
ghost use Rattle.supernode_tree.specs.Reads.{pattern_at};
ghost use Rattle.walk_cones.specs.Ahead.{ahead, Reached, meets, Knows};

// A place in the walk: the next cone and its first row, the number of the next pattern, how many patterns are left, and where its words start.
#[derive(Clone, Copy)]
pub struct Place {
    pub cone: usize,
    pub row: u32,
    pub pattern: u32,
    pub left: u32,
    pub at: usize,
}

// What the walk finds at a place, and the next place: the row count of a whole cone, or where the words of a cut cone's pattern start.
#[derive(Clone, Copy)]
pub enum Met {
    Whole(u32, Place),
    Cut(usize, Place),
}

impl Place {
    // Returns the first place of the walk over accepted `cones` and `count` patterns.
    pub fn start(m: u32, cones: &[u32], count: u32, words: &[u32]) -> Place
        requires { Sound m cones.now count words.now }
        ensures result_value { ahead cones.now words.now result ≡ parts (records cones.now) (patterns count words.now) }
        ensures reached { Reached m cones.now words.now result }
    {
        Place {
            cone: 0,
            row: 0,
            pattern: 0,
            left: count,
            at: 0,
        }
    }

    // Returns what is at this place, with the next place; `None` after the last cone.
    pub fn next(self, m: u32, cones: &[u32], words: &[u32]) -> Option<Met>
        requires { Reached m cones.now words.now self }
        ensures self_value { ahead cones.now words.now self ≡ meets cones.now words.now self result }
        ensures knows { Knows m cones.now words.now self result }
    {
        let i = self.cone;
        if cones.len() / 3 <= i {
            return None;
        }
        let rows = supportedcone::cone_rows(cones, i);
        let row = self.row + rows;
        let at = self.at;
        if 0 < self.left && words[at] as usize == i {
            return Some(Met::Cut(
                at,
                Place {
                    cone: i + 1,
                    row,
                    pattern: self.pattern + 1,
                    left: self.left - 1,
                    at: supernode_tree::pattern_next(words, at),
                },
            ));
        }
        Some(Met::Whole(
            rows,
            Place {
                cone: i + 1,
                row,
                ..self
            },
        ))
    }
}

// Returns the number of cliques of the pattern at word `at`.
pub fn clique_count(words: &[u32], at: usize) -> u32
    requires { RightPattern (pattern_at words.now at) }
    ensures { result ≡ clique_count (pattern_at words.now at) }
{
    let p = supernode_tree::Pattern::here(words, at);
    p.clique_count
}
