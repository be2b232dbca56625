// Works the sample plans of Specification 10 by the lent call, and prints of each its name, its answer, and the three
// areas whole, which were full of 9 before. An answer is CHEAPEST with the number of steps and the counts of the List,
// SPENT with the number of steps, the distance bound and these counts, or REFUSED with the number and the place. Then
// come LIST, a line for each row of the list area, and END; PLAN, the plan area in one line, and END; and GROUP with
// the numbers of the group area. The file `stdout`, with which the check compares this, was not made by a run: its lines
// were made from the table of the sample plans.
#![tactic(auto)]

ghost use Rattle.std.specs.Prelude.{◌≤◌, length};

use definitions::limits::{BOUND_LIMIT, BUDGET_LIMIT, COST_LIMIT};
use definitions::{Planned, Refusal};
use plans::plan;
use sample_texts::{show_area, show_group, show_head};

// The generator of all from P62 on.
const PAIR: [i32; 2] = [1, -1];

// An order with no images is not bare.
const NO_IMAGES: [i64; 0] = [];

// ---- printing

// Prints an answer.
fn show_planned(planned: Result<Planned, Refusal>) {
    match planned {
        Ok(
            Planned::Cheapest {
                steps,
                rows,
                members,
                stored,
                sums,
            },
        ) => {
            let counts = [steps, rows, members, stored, sums];
            show_head(b"CHEAPEST", &counts);
        }
        Ok(
            Planned::Spent {
                steps,
                bound,
                rows,
                members,
                stored,
                sums,
            },
        ) => {
            let counts = [steps, bound, rows, members, stored, sums];
            show_head(b"SPENT", &counts);
        }
        Err(Refusal { number, place }) => {
            let counts = [number, place];
            show_head(b"REFUSED", &counts);
        }
    }
}

// ---- calls

// A search for the best plan on these areas; `row` is the plan area.
fn plan_in(
    name: &[u8],
    n: usize,
    generators: &[i32],
    exchanges: &[u8],
    start: &[i32],
    upper: &[i32],
    costs: &[i32],
    budget: usize,
    list: &mut [i32],
    group: &mut [u8],
    row: &mut [i32],
)
    requires sized { 1 ≤ n }
    requires few { length group.old ≤ 6 }
    requires some { 1 ≤ length row.old }
{
    let planned = plan(
        n,
        generators,
        exchanges,
        &NO_IMAGES,
        start,
        upper,
        costs,
        budget,
        &mut *list,
        &mut *group,
        &mut *row,
    );
    io::write_all(1, name);
    show_planned(planned);
    show_area(b"LIST", &*list, n);
    let width = row.len();
    show_area(b"PLAN", &*row, width);
    show_group(&*group);
}

// A plan by the differences of three cells.
fn of_three(
    name: &[u8],
    start: &[i32],
    upper: &[i32],
    costs: &[i32],
    budget: usize,
    list: &mut [i32],
    group: &mut [u8],
)
    requires few { length group.old ≤ 6 }
{
    let generators = [1i32, -1, 0, 0, 1, -1];
    let mut row = [9i32; 3];
    plan_in(
        name,
        3,
        &generators,
        b"",
        start,
        upper,
        costs,
        budget,
        list,
        group,
        &mut row,
    );
}

// Three steps to a cheapest plan, with room for a list row and a group row more.
fn steep(name: &[u8], budget: usize) {
    let start = [3i32, 0, 0];
    let upper = [3i32, 2, 2];
    let costs = [5i32, 1, 3];
    let mut list = [9i32; 12];
    let mut group = [9u8; 6];
    of_three(name, &start, &upper, &costs, budget, &mut list, &mut group);
}

// One step, by one of two images that gain alike, with the last upper bound.
fn even(name: &[u8], last: i32) {
    let start = [1i32, 1, 1];
    let upper = [2i32, 2, last];
    let costs = [2i32, 1, 1];
    let mut list = [9i32; 9];
    let mut group = [9u8; 3];
    of_three(name, &start, &upper, &costs, 7, &mut list, &mut group);
}

// A plan by the pair without exchanges, with one list row and one group row. (Each
// program has its own such function, over its own call.)
fn of_pair(name: &[u8], start: &[i32], upper: &[i32], costs: &[i32], budget: usize, row: &mut [i32])
    requires some { 1 ≤ length row.old }
{
    let mut list = [9i32; 2];
    let mut group = [9u8; 2];
    plan_in(
        name, 2, &PAIR, b"", start, upper, costs, budget, &mut list, &mut group, row,
    );
}

// ---- samples

// P55: three steps; the first two take the second row, which gains more than the first.
fn p55() {
    steep(b"P55\n", 10);
}

// P56: two steps, and an image that gains 2 is left.
fn p56() {
    steep(b"P56\n", 2);
}

// P57: the budget ends with the last step.
fn p57() {
    steep(b"P57\n", 3);
}

// P58: two images gain 1, and the earlier is taken.
fn p58() {
    even(b"P58\n", 2);
}

// P59: it would pass an upper bound.
fn p59() {
    even(b"P59\n", 1);
}

// P60: a distance bound past 32 bits.
fn p60() {
    let most = COST_LIMIT as i32;
    let generators = [2i32, -2];
    let exchanges = [2u8, 1];
    let start = [BOUND_LIMIT, 0];
    let upper = [BOUND_LIMIT, BOUND_LIMIT];
    let costs = [most, -most];
    let mut list = [9i32; 2];
    let mut group = [9u8; 4];
    let mut row = [9i32; 2];
    plan_in(
        b"P60\n",
        2,
        &generators,
        &exchanges,
        &start,
        &upper,
        &costs,
        1,
        &mut list,
        &mut group,
        &mut row,
    );
}

// P61: no generators, and no budget.
fn p61() {
    let generators = [0i32; 0];
    let start = [2i32];
    let upper = [8i32];
    let costs = [-1i32];
    let mut list = [0i32; 0];
    let mut group = [9u8; 1];
    let mut row = [9i32; 1];
    plan_in(
        b"P61\n",
        1,
        &generators,
        b"",
        &start,
        &upper,
        &costs,
        0,
        &mut list,
        &mut group,
        &mut row,
    );
}

// P62: a starting entry past its bound, behind a cost past its limit.
fn p62() {
    let start = [1i32, 1];
    let upper = [1i32, 0];
    let costs = [COST_LIMIT as i32 + 1, 0];
    let mut row = [9i32; 2];
    of_pair(b"P62\n", &start, &upper, &costs, 0, &mut row);
}

// P63: an upper bound past its limit.
fn p63() {
    let start = [1i32, 1];
    let upper = [BOUND_LIMIT + 1, 1];
    let costs = [0i32; 2];
    let mut row = [9i32; 2];
    of_pair(b"P63\n", &start, &upper, &costs, 0, &mut row);
}

// P64: a cost past its limit.
fn p64() {
    let most = COST_LIMIT as i32;
    let start = [1i32, 1];
    let upper = [1i32, 1];
    let costs = [most, -most - 1];
    let mut row = [9i32; 2];
    of_pair(b"P64\n", &start, &upper, &costs, 0, &mut row);
}

// P65: a budget past its limit, and a starting entry below 0.
fn p65() {
    let start = [-1i32, 1];
    let upper = [1i32, 1];
    let costs = [0i32; 2];
    let mut row = [9i32; 2];
    of_pair(b"P65\n", &start, &upper, &costs, BUDGET_LIMIT + 1, &mut row);
}

// P66: a plan area with a number too many.
fn p66() {
    let start = [1i32, 1];
    let upper = [1i32, 1];
    let costs = [0i32; 2];
    let mut row = [9i32; 3];
    of_pair(b"P66\n", &start, &upper, &costs, 0, &mut row);
}

// P67: no room for a row in the list area, and no costs.
fn p67() {
    let start = [1i32, 1];
    let upper = [1i32, 1];
    let costs = [0i32; 0];
    let mut list = [0i32; 0];
    let mut group = [9u8; 2];
    let mut row = [9i32; 2];
    plan_in(
        b"P67\n", 2, &PAIR, b"", &start, &upper, &costs, 0, &mut list, &mut group, &mut row,
    );
}

// Every sample, line by line of the table.
fn main() {
    p55();
    p56();
    p57();
    p58();
    p59();
    p60();
    p61();
    p62();
    p63();
    p64();
    p65();
    p66();
    p67();
}
