// Runs stored problem files (Q-2), most of them damaged, through the three file calls: each is read and, where it is accepted, written again,
// which must give the same bytes. The stored results were computed by the comparison's plain reading
// (compare/run --file-answers crates/replay_files/data/files --cases 120 --seed 11).
//
// A case is 1,024 bytes: the file, bytes without meaning, and as the last two words the file's length and the number that the reader
// must return.
#![tactic(auto)]

use constants::number_of;
use std::io;
use stored::{DIFFERS, Reader, front, text_of};

const CASES: u32 = 120;

// The value of each count before a call, so that a written one is noticed.
const BEFORE: u32 = 4026531840;

// The tables of a problem as a file has them: doubles are 64-bit patterns.
#[derive(Drop)]
struct Tables {
    p_starts: [u32; 256],
    p_rows: [u32; 256],
    p_values: [u64; 128],
    q: [u64; 128],
    a_starts: [u32; 256],
    a_rows: [u32; 256],
    a_values: [u64; 128],
    b: [u64; 128],
    cones: [u32; 256],
    alphas: [u64; 128],
    pattern_words: [u32; 256],
}

impl Tables {
    fn new() -> Tables {
        Tables {
            p_starts: [0; 256],
            p_rows: [0; 256],
            p_values: [0; 128],
            q: [0; 128],
            a_starts: [0; 256],
            a_rows: [0; 256],
            a_values: [0; 128],
            b: [0; 128],
            cones: [0; 256],
            alphas: [0; 128],
            pattern_words: [0; 256],
        }
    }
}

// Writes a problem that was read, with these `counts`. Returns the writer's number, or `None` where the written bytes are not `file`.
fn write_again(file: &[u8], counts: [u32; 8], tables: &Tables) -> Option<u32> {
    let [n, m, p, a, records, exponents, patterns, words] = counts;
    let mut out = [0u8; 1024];
    let number = number_of(file_writer::write_file(
        n,
        m,
        front(&tables.p_starts, n as usize + 1),
        front(&tables.p_rows, p as usize),
        front(&tables.p_values, p as usize),
        front(&tables.q, n as usize),
        front(&tables.a_starts, n as usize + 1),
        front(&tables.a_rows, a as usize),
        front(&tables.a_values, a as usize),
        front(&tables.b, m as usize),
        front(&tables.cones, 3 * records as usize),
        front(&tables.alphas, exponents as usize),
        patterns,
        front(&tables.pattern_words, words as usize),
        &mut out,
    ));
    (number != 0 || out.starts_with(file)).then_some(number)
}

// Reads `file` and writes it again. Returns the number of the call that refused it, 0 if none did, or `None` where a refusing reader
// has written counts, or where the file written is not `file`.
fn answer(file: &[u8]) -> Option<u32> {
    let mut words = [0u32; 256];
    let number = number_of(file_bytes::file_words(file, &mut words));
    if number != 0 {
        return Some(number);
    }
    let mut counts = [BEFORE; 8];
    let mut tables = Tables::new();
    let refused = number_of(problem_file::read_file(
        front(&words, file.len() / 4),
        file.len(),
        &mut counts,
        &mut tables.p_starts,
        &mut tables.p_rows,
        &mut tables.p_values,
        &mut tables.q,
        &mut tables.a_starts,
        &mut tables.a_rows,
        &mut tables.a_values,
        &mut tables.b,
        &mut tables.cones,
        &mut tables.alphas,
        &mut tables.pattern_words,
    ));
    if refused != 0 {
        return (counts[0] == BEFORE).then_some(refused);
    }
    write_again(file, counts, &tables)
}

// Takes the next case and returns whether the number found is the stored one. Bytes past the end of the file count as 0.
fn next_agrees(reader: &mut Reader) -> bool {
    let mut case = [0u8; 1024];
    reader.fill(&mut case);
    let mut words = [0u32; 256];
    number_of(file_bytes::file_words(&case, &mut words));
    answer(front(&case, words[254] as usize)).unwrap_or(DIFFERS) == words[255]
}

fn main(rt: HostRuntime) -> io::Result<()> {
    let files = text_of(&rt, "files")?;
    let mut reader = Reader { rest: &files };
    for k in 0..CASES {
        if !next_agrees(&mut reader) {
            return println!(rt; "{k} files as stored, and the next one not");
        }
    }
    println!(rt; "{CASES} files, all as stored")
}
