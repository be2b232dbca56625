// The records of a run of draws: each is tested and added to a contingency table, and has an answer row in a lent area
// (Specification 3.9).
#![tactic(auto)]

ghost use Rattle.std.specs.Prelude.{◌≡◌, true, [], ◌∷◌, ◌++◌, suc, ◌+◌, ◌/◌, ◌≤◌, ◌<◌, pos, length, get_or, take};
ghost use Rattle.definitions.specs.Limits.{cells, record_width, window_limit};
ghost use Rattle.definitions.specs.Window.{answer_width, chain_fault, chain_fits, draw_of, drawn_image, draws_of};
ghost use Rattle.definitions.specs.Window.{is_contingency, is_entry, is_index};
ghost use Rattle.figures.specs.Window.{Named, Rows, Viewable};
ghost use Rattle.draws.specs.Draws.{Filled, Listed};
ghost use Rattle.draws.specs.Draws.{chain_in, drawn, names_in, rows_in, start_fault, table_in};
ghost use Rattle.draws.specs.Run.{Answers, RanIn, Shown};

use definitions::limits::{
    CELLS, CONTINGENCY_LIMIT, FIGURES_WIDTH, LIST_LIMIT, RECORD_WIDTH, WINDOW_LIMIT,
};
use definitions::{Draw, Refusal, View};
use figures::{Extremes, count_rows, next_extremes};
use reduction::{Extent, image_at};
use refusals::{fault_if, fault_where, whole_rows};
use vectors::{load, magnitude, negative, plus, store};

// The figures of a window.
#[derive(Clone, Copy)]
struct Figures {
    extremes: Extremes,
    different: usize,
}

// ---- what is tested before the run

// Whether a number can be an entry of a contingency table.
fn is_entry(x: i32) -> bool
    ensures told { result ≡ is_entry x }
{
    (0 <= x) & (x <= CONTINGENCY_LIMIT)
}

// Whether all entries can be those of a contingency table.
fn is_contingency(v: [i32; CELLS]) -> bool
    ensures told { result ≡ is_contingency v }
{
    v.iter().all(|x| is_entry(*x))
}

// Refusal 14: the first starting entry that is out of range (Specification 7.2).
fn start_fault(start: &[i32]) -> Result<(), Refusal>
    ensures found { result ≡ start_fault start.now }
{
    fault_where(14, start.len(), |cell| !is_entry(start[cell]))
}

// Whether the window, the chosen cell and the sizes are as they should be (Specification 7.3).
fn chain_fits(start: &[i32], view: View, records: &[i32], answers: usize) -> bool
    requires narrow { view.n ≤ cells }
    ensures told { result ≡ chain_fits view.n (chain_in view start records) answers }
{
    let width = view.n + FIGURES_WIDTH;
    let window_fits = (1 <= view.width) & (view.width <= WINDOW_LIMIT);
    let cell_fits = (1 <= view.cell) & (view.cell <= view.n);
    let start_fits = start.len() == view.n;
    let records_whole = whole_rows(RECORD_WIDTH, records.len());
    let answers_whole = whole_rows(width, answers);
    let roomy = records.len() / RECORD_WIDTH <= answers / width;
    window_fits & cell_fits & start_fits & records_whole & answers_whole & roomy
}

// Refusals 6 and 14 of a run (Specification 7.2 and 7.3).
pub fn chain_fault(
    start: &[i32],
    view: View,
    records: &[i32],
    answers: usize,
) -> Result<(), Refusal>
    requires narrow { view.n ≤ cells }
    ensures found { result ≡ chain_fault view.n (chain_in view start records) answers }
{
    fault_if(6, !chain_fits(start, view, records, answers))?;
    start_fault(start)
}

// ---- a record

// Record `i`.
fn draw_at(records: &[i32], i: usize) -> Draw
    requires sent { i < length records.now / record_width }
    ensures read { result ≡ get_or (draws_of records.now) i (draw_of []) }
{
    let at = i * RECORD_WIDTH;
    Draw {
        row: records[at],
        position: records[at + 1],
        sign: records[at + 2],
    }
}

// Whether a number counts one of `count` from 0.
fn is_index(x: i32, count: usize) -> bool
    ensures told { result ≡ is_index count x }
{
    (0 <= x) & ((magnitude(x) as usize) < count)
}

// Whether a record names an image.
fn names(draw: Draw, extent: Extent) -> bool
    ensures told { result ≡ names_in extent draw }
{
    let row = is_index(draw.row, extent.k);
    let position = is_index(draw.position, extent.shape.g);
    row & position & (magnitude(draw.sign) == 1)
}

// The image that a record names.
fn drawn_image(draw: Draw, list: &[i32], group: &[u8], extent: Extent) -> [i32; CELLS]
    requires listed { Listed extent list.now group.now }
    requires named { names_in extent draw ≡ true }
    ensures image { result ≡ drawn_image (table_in extent group.now) (rows_in extent list.now) draw }
{
    let n = extent.shape.n;
    let row = magnitude(draw.row) as usize;
    let v = load(list, row * n, n);
    let position = magnitude(draw.position) as usize;
    let image = image_at(v, group, extent.shape, position);
    if 0 <= draw.sign {
        return image;
    }
    negative(image)
}

// A record is added to a contingency table, if it names an image and the entries stay within their limits.
fn add_draw(
    current: [i32; CELLS],
    draw: Draw,
    list: &[i32],
    group: &[u8],
    extent: Extent,
) -> Option<[i32; CELLS]>
    requires listed { Listed extent list.now group.now }
    requires entries { is_contingency current ≡ true }
    ensures drawn { result ≡ drawn (table_in extent group.now) (rows_in extent list.now) current draw }
{
    if !names(draw, extent) {
        return None;
    }
    let table = plus(current, drawn_image(draw, list, group, extent));
    is_contingency(table).then_some(table)
}

// ---- its answer row

// Writes an answer row: the table and the figures.
fn write_row(
    answers: &mut [i32],
    at: usize,
    n: usize,
    table: [i32; CELLS],
    smallest: i32,
    largest: i32,
    different: usize,
)
    requires row { (n ≤ cells) × (at + answer_width n ≤ length answers.old) }
    requires few { different ≤ window_limit }
    ensures written { take (at + answer_width n) answers.new
        ≡ take at answers.old
        ++ (take n table ++ smallest ∷ largest ∷ pos different ∷ []) }
{
    let rows = different as i32;
    let behind = at + n;
    store(answers, at, n, table);
    answers[behind] = smallest;
    answers[behind + 1] = largest;
    answers[behind + 2] = rows;
}

// The answer row of record `i`, which reached `table`, and the figures of its window.
fn answer(
    before: Figures,
    table: [i32; CELLS],
    i: usize,
    records: &[i32],
    view: View,
    uses: &mut [usize],
    answers: &mut [i32],
) -> Figures
    requires viewable { Viewable view }
    requires named { Named records.now i }
    requires rows { Rows view answers.old (suc i) }
    requires filled { Filled view.n table }
    requires shown { Shown view records.now answers.old uses.old i before }
    ensures shows { Shown view records.now answers.new uses.new (suc i) result }
    ensures answers { Answers view records.now answers.old answers.new i table }
{
    let value = table[view.cell - 1];
    let extremes = next_extremes(answers, view, i, before.extremes, value);
    let different = count_rows(records, uses, view.width, i, before.different);
    write_row(
        answers,
        i * (view.n + FIGURES_WIDTH),
        view.n,
        table,
        extremes.smallest,
        extremes.largest,
        different,
    );
    Figures {
        extremes,
        different,
    }
}

// ---- the run

// The records in turn, up to the first that is refused: how many were drawn. Their answer rows are in the area.
pub fn draw_records(
    start: [i32; CELLS],
    records: &[i32],
    list: &[i32],
    group: &[u8],
    extent: Extent,
    view: View,
    answers: &mut [i32],
) -> usize
    requires listed { Listed extent list.now group.now }
    requires viewable { Viewable view }
    requires same { view.n ≡ extent.shape.n }
    requires begins { Filled view.n start × (is_contingency start ≡ true) }
    requires roomy { Rows view answers.old (length records.now / record_width) }
    ensures ran { RanIn view extent start records list group answers result }
{
    let mut uses = [0usize; LIST_LIMIT];
    let mut figures = Figures {
        extremes: Extremes {
            smallest: 0,
            largest: 0,
        },
        different: 0,
    };
    let mut table = start;
    let count = records.len() / RECORD_WIDTH;
    for i in 0..count {
        let draw = draw_at(records, i);
        let Some(next) = add_draw(table, draw, list, group, extent) else {
            return i;
        };
        table = next;
        figures = answer(figures, table, i, records, view, &mut uses, answers);
    }
    count
}
