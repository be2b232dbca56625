// Works the sample runs of draws of Specification 10 by the lent call, and prints of each its name, its answer, and the
// three areas whole, which were full of 9 before. An answer is RUN with the number of records and MOVES with the counts
// of the List, or REFUSED with the number and the place. Then come LIST, a line for each row of the list area, and END;
// ANSWERS, a line for each row of the answers area, and END; and GROUP with the numbers of the group area. The file
// `stdout`, with which the check compares this, was not made by a run: its lines were made by tests/outside.py.
#![tactic(auto)]

ghost use Rattle.std.specs.Prelude.{◌≤◌, length};
ghost use Rattle.definitions.specs.Limits.{cells};

use definitions::limits::{CONTINGENCY_LIMIT, FIGURES_WIDTH, WINDOW_LIMIT};
use definitions::{Refusal, Run};
use sample_texts::{show_area, show_group, show_head};
use windows::window;

// The generator of all but P46.
const PAIR: [i32; 2] = [1, -1];

// An order with no images is not bare.
const NO_IMAGES: [i64; 0] = [];

// ---- printing

// Prints an answer.
fn show_run(run: Result<Run, Refusal>) {
    match run {
        Ok(run) => {
            let count = [run.records];
            let counts = [run.rows, run.members, run.stored, run.sums];
            show_head(b"RUN", &count);
            show_head(b"MOVES", &counts);
        }
        Err(Refusal { number, place }) => {
            let counts = [number, place];
            show_head(b"REFUSED", &counts);
        }
    }
}

// ---- calls

// A window over a run on these areas.
fn window_in(
    name: &[u8],
    n: usize,
    generators: &[i32],
    exchanges: &[u8],
    start: &[i32],
    width: usize,
    cell: usize,
    records: &[i32],
    list: &mut [i32],
    group: &mut [u8],
    rows: &mut [i32],
)
    requires sized { (1 ≤ n) × (n ≤ cells) }
    requires few { length group.old ≤ 6 }
{
    let run = window(
        n,
        generators,
        exchanges,
        &NO_IMAGES,
        start,
        width,
        cell,
        records,
        &mut *list,
        &mut *group,
        &mut *rows,
    );
    io::write_all(1, name);
    show_run(run);
    show_area(b"LIST", &*list, n);
    show_area(b"ANSWERS", &*rows, n + FIGURES_WIDTH);
    show_group(&*group);
}

// A window over a run of the pair without exchanges, with one list row and one group row. (Each
// program has its own such function, over its own call.)
fn of_pair(
    name: &[u8],
    start: &[i32],
    width: usize,
    cell: usize,
    records: &[i32],
    rows: &mut [i32],
) {
    let mut list = [9i32; 2];
    let mut group = [9u8; 2];
    window_in(
        name, 2, &PAIR, b"", start, width, cell, records, &mut list, &mut group, rows,
    );
}

// ---- samples

// P46: four records, a window of two, and room for an answer row more.
fn p46() {
    let generators = [1i32, -1, 0, 0, 1, -1];
    let start = [5i32, 5, 5];
    let records = [0i32, 0, 1, 0, 0, 1, 1, 0, -1, 2, 0, 1];
    let mut list = [9i32; 15];
    let mut group = [9u8; 6];
    let mut rows = [9i32; 30];
    window_in(
        b"P46\n",
        3,
        &generators,
        b"",
        &start,
        2,
        1,
        &records,
        &mut list,
        &mut group,
        &mut rows,
    );
}

// P47: one row by three of its images; the fourth record makes an entry negative.
fn p47() {
    let exchanges = [2u8, 1];
    let start = [0i32, 3];
    let records = [0i32, 0, 1, 0, 1, -1, 0, 0, 1, 0, 0, 1, 0, 1, 1];
    let mut list = [9i32; 8];
    let mut group = [9u8; 4];
    let mut rows = [9i32; 25];
    window_in(
        b"P47\n",
        2,
        &PAIR,
        &exchanges,
        &start,
        WINDOW_LIMIT,
        2,
        &records,
        &mut list,
        &mut group,
        &mut rows,
    );
}

// P48: an entry of 1,000,000, and one past it.
fn p48() {
    let start = [CONTINGENCY_LIMIT - 1, 2];
    let records = [0i32, 0, 1, 0, 0, 1];
    let mut rows = [9i32; 10];
    of_pair(b"P48\n", &start, 1, 1, &records, &mut rows);
}

// P49: a sign that is none.
fn p49() {
    let start = [1i32, 1];
    let records = [0i32, 0, 2];
    let mut rows = [9i32; 5];
    of_pair(b"P49\n", &start, 1, 1, &records, &mut rows);
}

// P50: no records.
fn p50() {
    let start = [CONTINGENCY_LIMIT, 0];
    let records = [0i32; 0];
    let mut rows = [9i32; 5];
    of_pair(b"P50\n", &start, WINDOW_LIMIT, 2, &records, &mut rows);
}

// P51: a starting entry below 0.
fn p51() {
    let start = [1i32, -1];
    let records = [0i32, 0, 2];
    let mut rows = [9i32; 5];
    of_pair(b"P51\n", &start, 1, 1, &records, &mut rows);
}

// P52: a starting entry below 0, and a window of 257 records.
fn p52() {
    let start = [1i32, -1];
    let records = [0i32; 0];
    let mut rows = [9i32; 5];
    of_pair(b"P52\n", &start, WINDOW_LIMIT + 1, 1, &records, &mut rows);
}

// P53: more records than answer rows.
fn p53() {
    let start = [1i32, 1];
    let records = [0i32, 0, 1, 0, 0, -1];
    let mut rows = [9i32; 5];
    of_pair(b"P53\n", &start, 1, 1, &records, &mut rows);
}

// P54: no room for a row in the list area, and the cell 0.
fn p54() {
    let start = [1i32, 1];
    let records = [0i32; 0];
    let mut list = [0i32; 0];
    let mut group = [9u8; 2];
    let mut rows = [9i32; 5];
    window_in(
        b"P54\n", 2, &PAIR, b"", &start, 1, 0, &records, &mut list, &mut group, &mut rows,
    );
}

// Every sample, line by line of the table.
fn main() {
    p46();
    p47();
    p48();
    p49();
    p50();
    p51();
    p52();
    p53();
    p54();
}
