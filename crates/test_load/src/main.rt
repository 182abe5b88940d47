// Prints a list of test loads (document 02, Q-5): the results of the generator and of both cuts for each, the length of every table, and a
// checksum over all tables of a problem. A site compares its output with ours.
#![tactic(auto)]

use constants::number_of;
use std::{fmt, io};
use stored::{Problem, Tables};

// ---- checksums

// An element of a table, as a checksum takes it.
trait Bits: Copy {
    fn bits(self) -> u64;
}

impl Bits for u32 {
    fn bits(self) -> u64 {
        u64::from(self)
    }
}

// A NaN, whose bits cannot be read and which no load has, counts as 0.
impl Bits for f64 {
    fn bits(self) -> u64 {
        if self.is_nan() { 0 } else { self.to_bits() }
    }
}

// Adds the elements of `table` to the checksum `sum`: each is combined with it by exclusive or, and the generator's next draw from that
// is the new checksum.
fn add<T: Bits>(sum: u64, table: &[T]) -> u64 {
    let mut sum = sum;
    for &x in table {
        sum = generator_draws::draw(sum ^ x.bits());
    }
    sum
}

fn checksum(tables: Problem) -> u64 {
    let mut sum = 1;
    sum = add(sum, tables.p_starts);
    sum = add(sum, tables.p_rows);
    sum = add(sum, tables.p_values);
    sum = add(sum, tables.q);
    sum = add(sum, tables.a_starts);
    sum = add(sum, tables.a_rows);
    sum = add(sum, tables.a_values);
    sum = add(sum, tables.b);
    sum = add(sum, tables.cones);
    sum = add(sum, tables.alphas);
    add(sum, tables.pattern)
}

// Prints the name of a call and the number that it returned and, where that is 0, the lengths and the checksum of the eleven tables that it
// wrote.
fn tell_tables(
    rt: &impl Print,
    name: &str,
    answer: u32,
    lengths: [u32; 11],
    tables: Problem,
) -> io::Result<()> {
    print!(rt; "  {name} {answer}")?;
    if answer == 0 {
        print!(rt; ": lengths")?;
        for n in lengths {
            print!(rt; " {n}")?;
        }
        print!(rt; ", checksum {:016x}", checksum(tables))?;
    }
    println!(rt; "")
}

// ---- a cut

#[derive(Clone, Copy)]
enum Route {
    Standard,
    Compact,
}

impl Route {
    fn number(self) -> u32 {
        match self {
            Route::Standard => 0,
            Route::Compact => 1,
        }
    }

    fn name(self) -> &'static str {
        match self {
            Route::Standard => "standard",
            Route::Compact => "compact",
        }
    }
}

// Cuts a problem of `n` unknowns and `m` rows on a route, and prints what is written.
fn tell_cut(rt: &impl Print, route: Route, n: u32, m: u32, p: Problem) -> io::Result<()> {
    let mut lengths = [0u32; 11];
    let problem = p.sized(n, m, 1);
    number_of(decomp::sizes(route.number(), &problem, &mut lengths));
    // Built in place: the result of a call is copied, and each copy takes 2 MB of stack.
    let mut out = Tables::<32768> {
        p_starts: [0; 32768],
        p_rows: [0; 32768],
        p_values: [0.0; 32768],
        q: [0.0; 32768],
        a_starts: [0; 32768],
        a_rows: [0; 32768],
        a_values: [0.0; 32768],
        b: [0.0; 32768],
        cones: [0; 32768],
        alphas: [0.0; 32768],
        last: [0; 32768],
    };
    let problem = p.sized(n, m, 1);
    let answer = number_of(cut_on_route::cut(
        route.number(),
        &problem,
        &mut out.p_starts,
        &mut out.p_rows,
        &mut out.p_values,
        &mut out.q,
        &mut out.a_starts,
        &mut out.a_rows,
        &mut out.a_values,
        &mut out.b,
        &mut out.cones,
        &mut out.alphas,
        &mut out.last,
    ));
    tell_tables(rt, route.name(), answer, lengths, out.problem(lengths))
}

// ---- a load

// The four numbers of a load.
#[derive(Clone, Copy)]
struct Load {
    seed: u64,
    v: u32,
    w: u32,
    n: u32,
}

impl fmt::Display for Load {
    fn fmt<W: fmt::Write>(&self, f: &mut fmt::Formatter<W>) -> fmt::Result {
        write!(
            f,
            "seed {}, v {}, w {}, n {}",
            self.seed, self.v, self.w, self.n
        )
    }
}

// Generates a load, and prints the result of the generator and, where it was not refused, the problem that it wrote and both its cuts.
fn tell_load(rt: &impl Print, load: Load) -> io::Result<()> {
    println!(rt; "{load}")?;
    let mut tables = Tables::<8192>::filled(0, 0.0);
    let answer = number_of(generator::generate(
        load.seed,
        load.v,
        load.w,
        load.n,
        &mut tables.p_starts,
        &mut tables.p_rows,
        &mut tables.p_values,
        &mut tables.q,
        &mut tables.a_starts,
        &mut tables.a_rows,
        &mut tables.a_values,
        &mut tables.b,
        &mut tables.cones,
        &mut tables.alphas,
        &mut tables.last,
    ));
    let mut lengths = [0u32; 11];
    number_of(generator::generate_sizes(load.seed, load.v, load.w, load.n, &mut lengths));
    let problem = tables.problem(lengths);
    tell_tables(rt, "generate", answer, lengths, problem)?;
    if answer == 0 {
        let (n, m) = (lengths[3], lengths[7]);
        tell_cut(rt, Route::Standard, n, m, problem)?;
        tell_cut(rt, Route::Compact, n, m, problem)?;
    }
    Ok(())
}

// ---- the list

#[rattlefmt::skip]
const LOADS: [Load; 19] = [
    // small
    Load { seed: 1, v: 2, w: 1, n: 1 },
    Load { seed: 1, v: 3, w: 1, n: 1 },
    Load { seed: 2, v: 3, w: 2, n: 2 },
    Load { seed: 3, v: 8, w: 2, n: 4 },
    Load { seed: 18446744073709551615, v: 8, w: 7, n: 1 },
    // larger
    Load { seed: 20261116, v: 16, w: 5, n: 8 },
    Load { seed: 9223372036854775808, v: 20, w: 4, n: 64 },
    Load { seed: 5, v: 32, w: 31, n: 4 },
    Load { seed: 88172645463325252, v: 48, w: 8, n: 16 },
    Load { seed: 7, v: 64, w: 1, n: 32 },
    Load { seed: 11, v: 64, w: 24, n: 2 },
    Load { seed: 13, v: 64, w: 63, n: 3 },
    // refused, each with one number out of its range
    Load { seed: 0, v: 8, w: 2, n: 4 },
    Load { seed: 1, v: 1, w: 1, n: 1 },
    Load { seed: 1, v: 65, w: 2, n: 4 },
    Load { seed: 1, v: 8, w: 0, n: 4 },
    Load { seed: 1, v: 8, w: 8, n: 4 },
    Load { seed: 1, v: 8, w: 2, n: 0 },
    Load { seed: 1, v: 8, w: 2, n: 65 },
];

fn main(rt: HostRuntime) -> io::Result<()> {
    for load in LOADS {
        tell_load(&rt, load)?;
    }
    Ok(())
}
