// Prints document 01's example "Three projectors, one seam": cuts the problem on each route, and joins a solution of the cut problem
// again. The text is read from standard input, with a # for each number; the numbers come from the tables below or from the calls,
// and show what the text says about the seam.
#![tactic(auto)]

use constants::number_of;
use std::fmt::Display;
use std::io::{self, Read};
use std::num;
use stored::{Problem, Solution, Tables, front, item};

// ---- the problem

const N: u32 = 1;

const M: u32 = 6;

const P_STARTS: [u32; 2] = [0, 0];

const Q: [f64; 1] = [0.0];

const A_STARTS: [u32; 2] = [0, 5];

const A_ROWS: [u32; 5] = [0, 1, 2, 4, 5];

const A_VALUES: [f64; 5] = [10.0, 20.0, 30.0, 40.0, 50.0];

const B: [f64; 6] = [1.0, 2.0, 3.0, 0.0, 4.0, 5.0];

const CONES: [u32; 3] = [6, 3, 0];

// The pattern for cone 0 with 3 vertices, 2 cliques and ordering 0 1 2; at its words 6 and 11 a clique starts: parent, snode count,
// separator count, snode, separator. 4294967295 means no parent.
const PATTERN: [u32; 16] = [0, 3, 2, 0, 1, 2, 1, 1, 1, 0, 1, 4294967295, 2, 0, 1, 2];

// The indices of the pattern words to print: the first clique's snode and separator, its separator again, and the second clique's
// snode.
const TOLD: [u32; 5] = [9, 10, 10, 14, 15];

// An A with one more entry.
const MORE_STARTS: [u32; 2] = [0, 6];

const MORE_ROWS: [u32; 6] = [0, 1, 2, 3, 4, 5];

const MORE_VALUES: [f64; 6] = [10.0, 20.0, 30.0, 60.0, 40.0, 50.0];

// ---- the solutions

const TAU: f64 = 2.0;

const KAPPA: f64 = 3.0;

const COMPACT_X: [f64; 2] = [8.0, 9.0];

const COMPACT_BOTH: [f64; 6] = [3.0, 4.0, 5.0, 1.0, 2.0, 7.0];

const STANDARD_X: [f64; 7] = [8.0, 9.0, 9.0, 9.0, 9.0, 9.0, 9.0];

const STANDARD_BOTH: [f64; 12] = [0.0, 0.0, 0.0, 0.0, 0.0, 0.0, 1.0, 2.0, 7.0, 3.0, 4.0, 5.0];

const POWERS: [f64; 12] = [
    1.0, 2.0, 4.0, 8.0, 16.0, 32.0, 64.0, 128.0, 256.0, 512.0, 1024.0, 2048.0,
];

#[derive(Clone, Copy)]
enum Route {
    Standard,
    Compact,
}

impl Route {
    fn number(self) -> u32 {
        match self {
            Route::Standard => 0,
            Route::Compact => 1,
        }
    }

    // Returns x of a solution of the cut problem, and the values that both s and z have.
    fn solution(self) -> (&'static [f64], &'static [f64]) {
        match self {
            Route::Standard => (&STANDARD_X, &STANDARD_BOTH),
            Route::Compact => (&COMPACT_X, &COMPACT_BOTH),
        }
    }
}

// ---- words and numbers

// Prints the text on standard output, with a number in the place of each #.
#[derive(Drop)]
struct Teller<'a, R: Print> {
    rt: &'a R,
    text: &'a [u8],
}

impl<R: Print> Teller<'_, R> {
    // Prints the text up to the next #, or to its end, and leaves what follows the # there. At most 65,536 bytes are printed.
    fn words(&mut self) -> io::Result<()> {
        let all = self.text;
        let most = all.len().min(65536);
        let piece = &all[..most];
        match piece.iter().position(|&b| b == b'#') {
            Some(i) => {
                self.text = &all[i + 1..];
                self.rt.write_all(&all[..i])
            }
            None => {
                self.text = &all[most..];
                self.rt.write_all(piece)
            }
        }
    }

    // Prints the text up to the next #, then `n`.
    fn number(&mut self, n: impl Display + Copy) -> io::Result<()> {
        self.words()?;
        print!(self.rt; "{n}")
    }

    fn numbers(&mut self, list: &[u32]) -> io::Result<()> {
        for &n in list {
            self.number(n)?;
        }
        Ok(())
    }

    // Prints the text up to the next #, then `v`, which is a whole number in the example.
    fn value(&mut self, v: f64) -> io::Result<()> {
        self.number(num::saturating_f64_to_i64(v))
    }

    fn values(&mut self, list: &[f64]) -> io::Result<()> {
        for &v in list {
            self.value(v)?;
        }
        Ok(())
    }

    // Prints the columns of A: for each its number, then the value and row of each entry.
    fn columns(&mut self, p: Problem, columns: u32) -> io::Result<()> {
        for k in 0..columns {
            self.number(k)?;
            for i in item(p.a_starts, k as usize)..item(p.a_starts, k as usize + 1) {
                self.value(item(p.a_values, i as usize))?;
                self.number(item(p.a_rows, i as usize))?;
            }
        }
        Ok(())
    }

    // Prints each row of the triangle with its pair, and the augmented rows joined to it: `sums` has a power of two for each of these.
    fn rows(&mut self, sums: &[f64]) -> io::Result<()> {
        for row in 0..M {
            let mut pair = [0u32; 2];
            number_of(scalarmath::pair_back(row, &mut pair));
            self.number(row)?;
            self.numbers(&pair)?;
            self.ones(num::saturating_f64_to_u64(item(sums, row as usize)))?;
        }
        Ok(())
    }

    // Prints the positions of the 1 bits of `n`.
    fn ones(&mut self, n: u64) -> io::Result<()> {
        for i in 0..64u32 {
            if n >> i & 1 == 1 {
                self.number(i)?;
            }
        }
        Ok(())
    }

    // ---- the problem

    fn problem(&mut self, p: Problem) -> io::Result<()> {
        self.number(N)?;
        self.number(M)?;
        self.rows(&[])?;
        self.columns(p, N)?;
        self.values(p.b)?;
        self.numbers(p.cones)?;
        self.members(p.pattern)
    }

    // Prints the original vertices of the members at the word indices that `TOLD` lists.
    fn members(&mut self, pattern: &[u32]) -> io::Result<()> {
        for &i in &TOLD {
            let member = item(pattern, i as usize) as usize;
            self.number(item(pattern, 3 + member))?;
        }
        Ok(())
    }

    // ---- the steps

    // Prints one step of the example, the sizes and the cut on a route: the number that the size call returned and, if that is 0,
    // the length of each of the cut's outputs; then the number that the cut returned and what it wrote or, if it refused, how many
    // outputs are unchanged.
    fn step(&mut self, p: Problem, route: Route) -> io::Result<()> {
        let mut lengths = [0u32; 11];
        let problem = p.sized(N, M, 1);
        let answer = number_of(decomp::sizes(route.number(), &problem, &mut lengths));
        self.number(answer)?;
        if answer == 0 {
            self.numbers(&lengths)?;
        }
        let (answer, out) = cut(p, route);
        self.number(answer)?;
        if answer == 0 {
            self.cut(out.problem(lengths), lengths)?;
            self.back(p, route, out.problem(lengths))
        } else {
            self.number(BEFORE)?;
            self.number(unchanged(&out))
        }
    }

    // Prints the augmented problem's sizes, A, b and cones.
    fn cut(&mut self, p: Problem, lengths: [u32; 11]) -> io::Result<()> {
        self.number(lengths[7])?;
        self.number(lengths[3])?;
        self.columns(p, lengths[3])?;
        self.values(p.b)?;
        self.numbers(p.cones)
    }

    // Prints the cone map of the problem `cut`, which augmented rows are joined to each original row, and a solution before and
    // after joining.
    fn back(&mut self, p: Problem, route: Route, cut: Problem) -> io::Result<()> {
        let map = cut.pattern;
        let (x, both) = route.solution();
        self.numbers(map)?;
        let (_, powers) = join(p, route, map, x, front(&POWERS, both.len()));
        self.rows(&powers.s)?;
        self.values(x)?;
        self.values(both)?;
        self.value(TAU)?;
        self.value(KAPPA)?;
        let (answer, joined) = join(p, route, map, x, both);
        self.number(answer)?;
        self.values(&joined.x[..N as usize])?;
        self.values(&joined.s[..M as usize])?;
        self.values(&joined.z[..M as usize])?;
        self.values(&joined.scalars[..2])
    }

    fn story(&mut self) -> io::Result<()> {
        let p = Problem {
            p_starts: &P_STARTS,
            p_rows: &[],
            p_values: &[],
            q: &Q,
            a_starts: &A_STARTS,
            a_rows: &A_ROWS,
            a_values: &A_VALUES,
            b: &B,
            cones: &CONES,
            alphas: &[],
            pattern: &PATTERN,
        };
        let more = Problem {
            a_starts: &MORE_STARTS,
            a_rows: &MORE_ROWS,
            a_values: &MORE_VALUES,
            ..p
        };
        self.problem(p)?;
        self.step(p, Route::Compact)?;
        self.step(p, Route::Standard)?;
        self.columns(more, N)?;
        self.step(more, Route::Compact)?;
        self.words()
    }
}

// ---- the calls

// The contents of each output before the cut, which show where nothing is written.
const BEFORE: u32 = 77;

const BEFORE_VALUE: f64 = 77.0;

// Cuts a problem on a route, with outputs longer than needed. Returns the cut's number and the outputs.
fn cut(p: Problem, route: Route) -> (u32, Tables<32>) {
    let mut out = Tables::<32>::filled(BEFORE, BEFORE_VALUE);
    let problem = p.sized(N, M, 1);
    let answer = number_of(cut_on_route::cut(
        route.number(),
        &problem,
        &mut out.p_starts,
        &mut out.p_rows,
        &mut out.p_values,
        &mut out.q,
        &mut out.a_starts,
        &mut out.a_rows,
        &mut out.a_values,
        &mut out.b,
        &mut out.cones,
        &mut out.alphas,
        &mut out.last,
    ));
    (answer, out)
}

// Counts the outputs that are unchanged.
fn unchanged(out: &Tables<32>) -> usize {
    let tables = [
        out.p_starts.iter().all(|&x| x == BEFORE),
        out.p_rows.iter().all(|&x| x == BEFORE),
        out.p_values.iter().all(|&x| x == BEFORE_VALUE),
        out.q.iter().all(|&x| x == BEFORE_VALUE),
        out.a_starts.iter().all(|&x| x == BEFORE),
        out.a_rows.iter().all(|&x| x == BEFORE),
        out.a_values.iter().all(|&x| x == BEFORE_VALUE),
        out.b.iter().all(|&x| x == BEFORE_VALUE),
        out.cones.iter().all(|&x| x == BEFORE),
        out.alphas.iter().all(|&x| x == BEFORE_VALUE),
        out.last.iter().all(|&x| x == BEFORE),
    ];
    tables.iter().filter(|&&is_unchanged| is_unchanged).count()
}

// Joins a solution whose s and z are both `both`. Returns the joining's number and its outputs.
fn join(p: Problem, route: Route, map: &[u32], x: &[f64], both: &[f64]) -> (u32, Solution<32>) {
    let mut out = Solution::<32>::filled(0.0);
    let answer = number_of(join_on_route::join(
        route.number(),
        N,
        M,
        p.cones,
        1,
        p.pattern,
        x,
        both,
        both,
        TAU,
        KAPPA,
        map,
        &mut out.x,
        &mut out.s,
        &mut out.z,
        &mut out.scalars,
    ));
    (answer, out)
}

fn main(rt: HostRuntime) -> io::Result<()> {
    let mut bytes = Vec::new(rt.alloc());
    rt.reader().read_to_end(&mut bytes)?;
    let mut teller = Teller {
        rt: &rt,
        text: &bytes,
    };
    teller.story()
}
