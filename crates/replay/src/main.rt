// Replays stored answers: runs each case of each file in data/ through the public call that the file is named after, and prints a line
// per file. The answers were computed by make_answers.py and by the comparison's plain reading of document 01
// (compare/run --store crates/replay/data --cases 120 --seed 11); crate `stored` describes the file format.
//
// A new family needs a variant of `Family`, its name there and its call in `answer`, a line in stdout, and a
// function in make_answers.py or the comparison that computes its answers.
#![tactic(auto)]

use constants::number_of;
use std::io;
use std::rt::Files;
use stored::{
    Case, DIFFERS, Outputs, Problem, Reader, Solution, SolutionOutputs, Tables, item, report, room,
    same, text_of,
};

// A case's u32 lists are the call's numbers, its result, its inputs and its outputs; its f64 lists are
// its inputs and its outputs, numbered from 16. An output's list is the whole output slice after the call, so its
// length is also the length of the slice that is passed.
//
// A function that makes a call returns the number that the call returned, or `None` where an output differs from the stored one.

// ---- the calls on numbers and patterns

fn pair_index(case: Case) -> Option<u32> {
    let given = case.words_at(0);
    let mut out = [0u32; 4096];
    let r = number_of(scalarmath::pair_index(
        item(given, 0),
        item(given, 1),
        room(&mut out, case.words_at(2)),
    ));
    same(&out, case.words_at(2)).then_some(r)
}

fn pair_back(case: Case) -> Option<u32> {
    let mut out = [0u32; 4096];
    let r = number_of(scalarmath::pair_back(
        item(case.words_at(0), 0),
        room(&mut out, case.words_at(2)),
    ));
    same(&out, case.words_at(2)).then_some(r)
}

fn inverse(case: Case) -> Option<u32> {
    let mut out = [0u32; 4096];
    let r = number_of(inverse_permutation::inverse(
        case.words_at(1),
        room(&mut out, case.words_at(2)),
    ));
    same(&out, case.words_at(2)).then_some(r)
}

fn renumber(case: Case) -> Option<u32> {
    let mut out = [0u32; 4096];
    let r = number_of(reorder::reorder_snode_consecutively(
        case.words_at(1),
        room(&mut out, case.words_at(2)),
    ));
    same(&out, case.words_at(2)).then_some(r)
}

// ---- the calls on a whole problem

fn check_problem(case: Case) -> Option<u32> {
    let given = case.words_at(0);
    let p = Problem::of(case);
    let problem = p.sized(item(given, 0), item(given, 1), item(given, 2));
    Some(number_of(check_problem::check_problem(&problem)))
}

// The second problem's lists follow the first one's.
fn same_layout(case: Case) -> Option<u32> {
    let given = case.words_at(0);
    let p = Problem::of(case);
    let mut out = [0u32; 4096];
    let problem = p.sized(item(given, 0), item(given, 1), item(given, 2));
    let second = Problem {
        p_starts: case.words_at(8),
        p_rows: case.words_at(9),
        p_values: case.values_at(21),
        q: case.values_at(22),
        a_starts: case.words_at(10),
        a_rows: case.words_at(11),
        a_values: case.values_at(23),
        b: case.values_at(24),
        cones: case.words_at(12),
        alphas: case.values_at(25),
        pattern: case.words_at(13),
    };
    let other = second.sized(item(given, 3), item(given, 4), item(given, 5));
    let r = number_of(same_layout::same_layout(
        &problem,
        &other,
        room(&mut out, case.words_at(14)),
    ));
    same(&out, case.words_at(14)).then_some(r)
}

fn sizes(case: Case) -> Option<u32> {
    let given = case.words_at(0);
    let p = Problem::of(case);
    let mut out = [0u32; 4096];
    let problem = p.sized(item(given, 1), item(given, 2), item(given, 3));
    let r = number_of(decomp::sizes(item(given, 0), &problem, room(&mut out, case.words_at(8))));
    same(&out, case.words_at(8)).then_some(r)
}

fn cut(case: Case) -> Option<u32> {
    let given = case.words_at(0);
    let p = Problem::of(case);
    let mut tables = Tables::<4096>::filled(0, 0.0);
    let Outputs {
        p_starts,
        p_rows,
        p_values,
        q,
        a_starts,
        a_rows,
        a_values,
        b,
        cones,
        alphas,
        last,
    } = tables.outputs(case);
    let problem = p.sized(item(given, 1), item(given, 2), item(given, 3));
    let r = number_of(cut_on_route::cut(
        item(given, 0),
        &problem,
        p_starts,
        p_rows,
        p_values,
        q,
        a_starts,
        a_rows,
        a_values,
        b,
        cones,
        alphas,
        last,
    ));
    tables.hold(case).then_some(r)
}

// The first number is how many right sides there are; `b` has them one after another.
fn cut_many(case: Case) -> Option<u32> {
    let given = case.words_at(0);
    let p = Problem::of(case);
    let mut tables = Tables::<4096>::filled(0, 0.0);
    let Outputs {
        p_starts,
        p_rows,
        p_values,
        q,
        a_starts,
        a_rows,
        a_values,
        b,
        cones,
        alphas,
        last,
    } = tables.outputs(case);
    let problem = p.sized(item(given, 1), item(given, 2), item(given, 3));
    let r = number_of(cut_with_sides::cut_many(
        item(given, 0),
        &problem,
        p_starts,
        p_rows,
        p_values,
        q,
        a_starts,
        a_rows,
        a_values,
        b,
        cones,
        alphas,
        last,
    ));
    tables.hold(case).then_some(r)
}

// The low limits are passed as `b`; the high ones are list 26, and their output is list 27.
fn cut_between(case: Case) -> Option<u32> {
    let given = case.words_at(0);
    let p = Problem::of(case);
    let mut tables = Tables::<4096>::filled(0, 0.0);
    let mut b_high = [0f64; 4096];
    let Outputs {
        p_starts,
        p_rows,
        p_values,
        q,
        a_starts,
        a_rows,
        a_values,
        b,
        cones,
        alphas,
        last,
    } = tables.outputs(case);
    let problem = p.sized(item(given, 0), item(given, 1), item(given, 2));
    let r = number_of(cut_with_limits::cut_between(
        &problem,
        case.values_at(26),
        p_starts,
        p_rows,
        p_values,
        q,
        a_starts,
        a_rows,
        a_values,
        b,
        room(&mut b_high, case.values_at(27)),
        cones,
        alphas,
        last,
    ));
    (tables.hold(case) && same(&b_high, case.values_at(27))).then_some(r)
}

// ---- the calls on a solution

fn join(case: Case) -> Option<u32> {
    let given = case.words_at(0);
    let scalars = case.values_at(19);
    let mut solution = Solution::<4096>::filled(0.0);
    let SolutionOutputs {
        x,
        s,
        z,
        scalars: both,
    } = solution.outputs(case);
    let r = number_of(join_on_route::join(
        item(given, 0),
        item(given, 1),
        item(given, 2),
        case.words_at(2),
        item(given, 3),
        case.words_at(3),
        case.values_at(16),
        case.values_at(17),
        case.values_at(18),
        item(scalars, 0),
        item(scalars, 1),
        case.words_at(4),
        x,
        s,
        z,
        both,
    ));
    solution.hold(case).then_some(r)
}

// A case is that of a joining, whose route and map are not used.
fn change_route(case: Case) -> Option<u32> {
    let given = case.words_at(0);
    let scalars = case.values_at(19);
    let mut solution = Solution::<4096>::filled(0.0);
    let SolutionOutputs {
        x,
        s,
        z,
        scalars: both,
    } = solution.outputs(case);
    let r = number_of(change_route::change_route(
        item(given, 1),
        item(given, 2),
        case.words_at(2),
        item(given, 3),
        case.words_at(3),
        case.values_at(16),
        case.values_at(17),
        case.values_at(18),
        item(scalars, 0),
        item(scalars, 1),
        x,
        s,
        z,
        both,
    ));
    solution.hold(case).then_some(r)
}

// ---- pooling

// The second problem and the outputs are in a case of their own, with the list numbers of a cut; the pooled pattern
// words have the number of the map.
fn pool(case: Case, second: Case) -> Option<u32> {
    let given = case.words_at(0);
    let p = Problem::of(case);
    let p2 = Problem::of(second);
    let mut tables = Tables::<4096>::filled(0, 0.0);
    let Outputs {
        p_starts,
        p_rows,
        p_values,
        q,
        a_starts,
        a_rows,
        a_values,
        b,
        cones,
        alphas,
        last,
    } = tables.outputs(second);
    let problem = p.sized(item(given, 0), item(given, 1), item(given, 2));
    let second_problem = p2.sized(item(given, 3), item(given, 4), item(given, 5));
    let r = number_of(pool::pool(
        &problem,
        &second_problem,
        p_starts,
        p_rows,
        p_values,
        q,
        a_starts,
        a_rows,
        a_values,
        b,
        cones,
        alphas,
        last,
    ));
    tables.hold(second).then_some(r)
}

// ---- the families

#[derive(Clone, Copy)]
enum Family {
    PairIndex,
    PairBack,
    Inverse,
    Renumber,
    CheckProblem,
    SameLayout,
    Sizes,
    Cut,
    Join,
    ChangeRoute,
    CutBetween,
    CutMany,
    Pool,
}

impl Family {
    // Returns the name of the call, which is also that of its file.
    fn name(self) -> &'static str {
        match self {
            Family::PairIndex => "pair_index",
            Family::PairBack => "pair_back",
            Family::Inverse => "inverse",
            Family::Renumber => "renumber",
            Family::CheckProblem => "check_problem",
            Family::SameLayout => "same_layout",
            Family::Sizes => "sizes",
            Family::Cut => "cut",
            Family::Join => "join",
            Family::ChangeRoute => "change_route",
            Family::CutBetween => "cut_between",
            Family::CutMany => "cut_many",
            Family::Pool => "pool",
        }
    }

    // Makes the call of a case. The second case of a pooling follows in the file.
    fn answer(self, case: Case, reader: &mut Reader) -> Option<u32> {
        match self {
            Family::PairIndex => pair_index(case),
            Family::PairBack => pair_back(case),
            Family::Inverse => inverse(case),
            Family::Renumber => renumber(case),
            Family::CheckProblem => check_problem(case),
            Family::SameLayout => same_layout(case),
            Family::Sizes => sizes(case),
            Family::Cut => cut(case),
            Family::Join => join(case),
            Family::ChangeRoute => change_route(case),
            Family::CutBetween => cut_between(case),
            Family::CutMany => cut_many(case),
            Family::Pool => pool_with_next(case, reader),
        }
    }

    // Returns the number that the call of a case must return.
    fn stored_answer(self, case: Case) -> u32 {
        let list = match self {
            Family::Inverse | Family::Renumber => 0,
            _ => 1,
        };
        item(case.words_at(list), 0)
    }
}

fn pool_with_next(case: Case, reader: &mut Reader) -> Option<u32> {
    let mut words = [0u32; 16384];
    let mut values = [0f64; 16384];
    reader.case(&mut words, &mut values);
    let second = Case {
        words: &words,
        values: &values,
    };
    pool(case, second)
}

// Takes the next case from a file, of at most 16,384 elements of each type, and returns whether it agrees.
fn next_agrees(reader: &mut Reader, family: Family) -> bool {
    let mut words = [0u32; 16384];
    let mut values = [0f64; 16384];
    reader.case(&mut words, &mut values);
    let case = Case {
        words: &words,
        values: &values,
    };
    family.answer(case, reader).unwrap_or(DIFFERS) == family.stored_answer(case)
}

// Replays a family's cases up to the first that differs, and prints its line. A missing file counts as one without cases, which the
// line shows.
fn replay(rt: &(impl Files + Alloc + Print), family: Family) -> io::Result<()> {
    let text = text_of(rt, family.name())?;
    let mut reader = Reader { rest: &text };
    let cases = reader.word();
    for k in 0..cases {
        if !next_agrees(&mut reader, family) {
            return report(rt, family.name().as_bytes(), cases, k);
        }
    }
    report(rt, family.name().as_bytes(), cases, cases)
}

fn main(rt: HostRuntime) -> io::Result<()> {
    let families = [
        Family::PairIndex,
        Family::PairBack,
        Family::Inverse,
        Family::Renumber,
        Family::CheckProblem,
        Family::SameLayout,
        Family::Sizes,
        Family::Cut,
        Family::Join,
        Family::ChangeRoute,
        Family::CutBetween,
        Family::CutMany,
        Family::Pool,
    ];
    for family in families {
        replay(&rt, family)?;
    }
    Ok(())
}
