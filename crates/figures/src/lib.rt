// The figures of a window: the smallest and the largest value of a chosen cell, and the number of different rows
// (Specification 3.9). They are kept from record to record, and the window is read afresh only where the value that
// leaves it was the smallest or the largest.
#![tactic(auto)]

ghost use Rattle.std.specs.Prelude.{◌≡◌, cond, [], ◌∷◌, ◌++◌, suc, ◌+◌, ◌-◌, ◌≤◌, ◌<◌, ◌/◌, eqb, length, get_or, set};
ghost use Rattle.definitions.specs.Limits.{record_width, window_limit};
ghost use Rattle.figures.specs.Window.{Counted, Named, Rows, Spans, Viewable};
ghost use Rattle.figures.specs.Window.{is_stale, row_in, value_in, values_in};

use definitions::View;
use definitions::limits::{FIGURES_WIDTH, RECORD_WIDTH};
use vectors::magnitude;

// The smallest and the largest of some numbers.
#[derive(Clone, Copy)]
pub struct Extremes {
    pub smallest: i32,
    pub largest: i32,
}

// ---- rows

// The row that record `j` uses.
fn row_at(records: &[i32], j: usize) -> usize
    requires sent { j < length records.now / record_width }
    ensures row { result ≡ row_in records.now j }
{
    magnitude(records[j * RECORD_WIDTH]) as usize
}

// A use of a row more: 1 if it is the first, else 0.
fn enter(uses: &mut [usize], row: usize) -> usize
    requires room { row < length uses.old }
    requires few { get_or uses.old row 0 ≤ window_limit }
    ensures used { uses.new ≡ set uses.old row (suc (get_or uses.old row 0)) }
    ensures first { result ≡ cond (eqb (get_or uses.old row 0) 0) 1 0 }
{
    let before = uses[row];
    uses[row] = before + 1;
    usize::from(before == 0)
}

// A use of a row less: 1 if it was the only one, else 0.
fn leave(uses: &mut [usize], row: usize) -> usize
    requires room { row < length uses.old }
    requires some { 1 ≤ get_or uses.old row 0 }
    ensures used { uses.new ≡ set uses.old row (get_or uses.old row 0 - 1) }
    ensures only { result ≡ cond (eqb (get_or uses.old row 0) 1) 1 0 }
{
    let before = uses[row];
    uses[row] = before - 1;
    usize::from(before == 1)
}

// Record `i` comes into the window, and the record that is one too many leaves it: the number of different rows.
pub fn count_rows(
    records: &[i32],
    uses: &mut [usize],
    width: usize,
    i: usize,
    before: usize,
) -> usize
    requires wide { (1 ≤ width) × (width ≤ window_limit) }
    requires named { Named records.now i }
    requires counted { Counted records.now width i uses.old before }
    ensures counts { Counted records.now width (suc i) uses.new result }
{
    let mut kept = before;
    if width <= i {
        let row = row_at(records, i - width);
        kept -= leave(uses, row);
    }
    let row = row_at(records, i);
    kept + enter(uses, row)
}

// ---- values

// The value of the chosen cell in answer row `j`.
fn value_at(answers: &[i32], view: View, j: usize) -> i32
    requires viewable { Viewable view }
    requires row { Rows view answers.now (suc j) }
    ensures value { result ≡ value_in view answers.now j }
{
    answers[j * (view.n + FIGURES_WIDTH) + (view.cell - 1)]
}

// The extremes of the values of the answer rows from `from` to before `to`, and of one behind them, read afresh.
fn afresh(answers: &[i32], view: View, from: usize, to: usize, value: i32) -> Extremes
    requires viewable { Viewable view }
    requires rows { Rows view answers.now to }
    requires span { from ≤ to }
    ensures spans { Spans (values_in view answers.now from to ++ value ∷ []) result }
{
    let mut smallest = value;
    let mut largest = value;
    for j in (from..to).rev() {
        let x = value_at(answers, view, j);
        smallest = x.min(smallest);
        largest = x.max(largest);
    }
    Extremes { smallest, largest }
}

// Whether the extremes of the window before record `i` do not tell those of the next: it is empty, or the value that
// leaves it is one of them.
fn is_stale(answers: &[i32], view: View, i: usize, before: Extremes) -> bool
    requires viewable { Viewable view }
    requires rows { Rows view answers.now i }
    ensures told { result ≡ is_stale view answers.now i before }
{
    if i == 0 {
        return true;
    }
    if i < view.width {
        return false;
    }
    let x = value_at(answers, view, i - view.width);
    (x == before.smallest) | (x == before.largest)
}

// The first record of the window that ends with record `i`.
fn window_start(i: usize, width: usize) -> usize
    requires some { 1 ≤ width }
    ensures first { result ≡ suc i - width }
{
    if i < width { 0 } else { i - (width - 1) }
}

// A value comes into the window behind `i` others, and the value that is one too many leaves it: the extremes.
pub fn next_extremes(
    answers: &[i32],
    view: View,
    i: usize,
    before: Extremes,
    value: i32,
) -> Extremes
    requires viewable { Viewable view }
    requires rows { Rows view answers.now i }
    requires spanned { Spans (values_in view answers.now (i - view.width) i) before }
    ensures spans { Spans (values_in view answers.now (suc i - view.width) i ++ value ∷ []) result }
{
    if is_stale(answers, view, i, before) {
        let from = window_start(i, view.width);
        return afresh(answers, view, from, i, value);
    }
    Extremes {
        smallest: before.smallest.min(value),
        largest: before.largest.max(value),
    }
}
