// One order of a session (Specification 3.8): as many sums as steps name it, and its end, on its half of the list area.
#![tactic(auto)]

ghost use Rattle.std.specs.Prelude.{◌≡◌, length};
ghost use Rattle.definitions.specs.Session.{half, steps_of};
ghost use Rattle.moves.specs.Found.{Grouped};
ghost use Rattle.session_orders.specs.Ends.{EndsIn, OrderEnds, Standing, Taken, result_in, taken_in};

use completion::{Sizes, State, begin, step};
use definitions::limits::{GROUP_LIMIT, SESSION_ROWS};
use definitions::{Ending, Refusal};
use moves::KEYS;
use reduction::{Extent, Shape};
use vectors::clear;

// The marks of all images of one order's rows.
const MARKS: usize = SESSION_ROWS * GROUP_LIMIT;

// How many of the steps name an order.
pub fn count_steps(steps: &[u8], byte: u8) -> usize
    ensures counted { result ≡ steps_of byte steps.now }
{
    let mut count = 0;
    for step in steps {
        if *step == byte {
            count += 1;
        }
    }
    count
}

// `count` steps, each trying a sum while one is left (Specification 3.2 to 3.4).
fn take_steps(
    start: Result<State, Refusal>,
    count: usize,
    list: &mut [i32],
    table: &[u8],
    sizes: Sizes,
    marks: &mut [u8],
    keys: &mut [u64],
) -> Result<State, Refusal>
    requires standing { Standing sizes table.now list.old marks.old keys.old start }
    ensures taken { let end = taken_in sizes table.now list.old start count in
        Taken sizes table.now list.new marks.new keys.new end result }
{
    let mut c = start;
    for left in (0..count).rev() {
        let Ok(s) = c else {
            return c;
        };
        if s.stored <= s.i {
            return c;
        }
        c = step(s, &mut *list, table, sizes, &mut *marks, &mut *keys);
    }
    c
}

// The end of an order: its list in its half, with zeros behind, or zeros alone (Specification 3.5 and 3.8).
fn end_order(
    c: Result<State, Refusal>,
    list: &mut [i32],
    table: &[u8],
    sizes: Sizes,
    marks: &[u8],
    keys: &[u64],
) -> Result<Ending, Refusal>
    requires standing { Standing sizes table.now list.old marks.now keys.now c }
    requires sized { length list.old ≡ half sizes.shape.n }
    ensures ended { OrderEnds sizes.shape.n (result_in sizes.shape table.now list.old c) list.new result }
{
    match c {
        Err(refusal) => {
            clear(list, 0, 0);
            Err(refusal)
        }
        Ok(s) => {
            if s.i < s.stored {
                clear(list, 0, 0);
                return Ok(Ending::Unfinished { sums: s.sums });
            }
            let stored = s.stored;
            let shape = sizes.shape;
            let mut flags = [0u8; SESSION_ROWS];
            let extent = Extent { shape, k: stored };
            let rows = sorting::finish(list, table, extent, marks, keys, &mut flags);
            Ok(Ending::Moves {
                rows: rows as u64,
                members: shape.g as u64,
                stored: stored as u64,
                sums: s.sums,
            })
        }
    }
}

// An order that met no test, after `count` steps: its answer, and its half of the list area (Specification 3.8).
pub fn complete_order(
    generators: &[i32],
    list: &mut [i32],
    table: &[u8],
    shape: Shape,
    count: usize,
) -> Result<Ending, Refusal>
    requires grouped { Grouped shape generators.now table.now }
    requires sized { length list.old ≡ half shape.n }
    ensures ended { EndsIn shape generators list table count result }
{
    clear(&mut *list, 0, 0);
    let mut marks = [0u8; MARKS];
    let mut keys = [0u64; KEYS];
    let sizes = Sizes {
        shape,
        limit: SESSION_ROWS,
    };
    let c = begin(generators, &mut *list, table, sizes, &mut marks, &mut keys);
    let last = take_steps(c, count, &mut *list, table, sizes, &mut marks, &mut keys);
    end_order(last, &mut *list, table, sizes, &marks, &keys)
}
