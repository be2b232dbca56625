// The second List call: a list with the coefficients of its rows (Specification 1.1 and 3.7).
#![tactic(auto)]

ghost use Rattle.std.specs.Prelude.{◌≡◌, ◌*◌, ◌/◌, length};
ghost use Rattle.definitions.specs.Calls.{certified_listing};
ghost use Rattle.vectors.specs.Areas.{sent_order};
ghost use Rattle.certified_lists.specs.Promise.{KeepsCertified};
ghost use Rattle.certified_lists.specs.Found.{Arranged, CertifiedCompletes, CertifiedFindsIn, ClosedGroup};
ghost use Rattle.certified_lists.specs.Found.{RowsAndCoefficients};

use admission::{admit, rows_up_to};
use certified::complete;
use coefficients::arrange;
use completion::Sizes;
use definitions::limits::{CELLS, GENERATOR_LIMIT, LIST_LIMIT};
use definitions::{Answer, Refusal};
use moves::{KEYS, MARKS};
use reduction::{Extent, Shape};
use vectors::clear;

// The numbers of all list rows, and their coefficients.
const ROWS: usize = LIST_LIMIT * CELLS;

const NOTED: usize = LIST_LIMIT * GENERATOR_LIMIT;

// Step 5: the rows that stay, sorted, and their coefficients beside them; m numbers to a row (Specification 3.5).
fn finish_certified(
    list: &mut [i32],
    group: &[u8],
    extent: Extent,
    marks: &[u8],
    keys: &[u64],
    noted: &[i64],
    m: usize,
    coefficients: &mut [i64],
) -> usize
    requires noted { RowsAndCoefficients extent m group.now list.old marks.now keys.now noted.now coefficients.old }
    ensures arranged { let group = group.entry.now in
        let size = length coefficients.entry.now in
        let coefficients = coefficients.exit.now in
        let noted = noted.entry.now in
        Arranged extent m group list.old noted list.new coefficients result size }
{
    let n = extent.shape.n;
    let numbers = extent.k * n;
    let mut stored = [0i32; ROWS];
    stored[..numbers].copy_from_slice(&list[..numbers]);
    let mut flags = [0u8; LIST_LIMIT];
    let rows = sorting::finish(&mut *list, group, extent, marks, keys, &mut flags);
    let kept = rows * n;
    let held = extent.k * m;
    arrange(
        &list[..kept],
        n,
        &stored[..numbers],
        &noted[..held],
        m,
        &mut *coefficients,
    );
    rows
}

// Steps 1 to 5 with the table of a group in its area (Specification 3).
fn complete_certified(
    generators: &[i32],
    list: &mut [i32],
    group: &[u8],
    shape: Shape,
    coefficients: &mut [i64],
) -> Result<Answer, Refusal>
    requires closed { ClosedGroup shape generators.now group.now }
    requires room { length coefficients.old ≡ length list.old / shape.n * (length generators.now / shape.n) }
    ensures found { CertifiedCompletes shape generators list group coefficients result }
{
    clear(&mut *list, 0, 0);
    let mut marks = [0u8; MARKS];
    let mut keys = [0u64; KEYS];
    let mut noted = [0i64; NOTED];
    let limit = rows_up_to(LIST_LIMIT, shape.n, list.len());
    let sizes = Sizes { shape, limit };
    let s = complete(
        generators, &mut *list, group, sizes, &mut marks, &mut keys, generators, &mut noted,
    )?;
    let stored = s.stored;
    let extent = Extent { shape, k: stored };
    let m = generators.len() / shape.n;
    let rows = finish_certified(
        &mut *list,
        group,
        extent,
        &marks,
        &keys,
        &noted,
        m,
        &mut *coefficients,
    );
    Ok(Answer::Moves {
        rows: rows as u64,
        members: shape.g as u64,
        stored: stored as u64,
        sums: s.sums,
    })
}

// 5 to 13 and 24, and the areas of an accepted List with coefficients (Specification 7.1).
fn make_certified(
    n: usize,
    generators: &[i32],
    exchanges: &[u8],
    images: &[i64],
    list: &mut [i32],
    group: &mut [u8],
    coefficients: &mut [i64],
) -> Result<Answer, Refusal>
    ensures found { let due = certified_listing (sent_order n generators exchanges images) in
        CertifiedFindsIn n due list group coefficients result }
{
    let fits = refusals::certified_fits(n, generators, images, list.len(), coefficients.len());
    let g = admit(n, generators, exchanges, images, fits, &mut *group)?;
    let shape = Shape { n, g };
    complete_certified(generators, &mut *list, &*group, shape, &mut *coefficients)
}

// List with coefficients: what List leaves in the list area and the group area, and in the coefficients area m numbers
// for each row, with which it is the combination of the generators; zeros behind them, and nothing but zeros after a
// refusal (Specification 1.1 and 3.7).
pub fn list_with_coefficients(
    n: usize,
    generators: &[i32],
    exchanges: &[u8],
    images: &[i64],
    list: &mut [i32],
    group: &mut [u8],
    coefficients: &mut [i64],
) -> Result<Answer, Refusal>
    ensures kept { KeepsCertified n generators exchanges images list group coefficients result }
{
    let found = make_certified(
        n,
        generators,
        exchanges,
        images,
        &mut *list,
        &mut *group,
        &mut *coefficients,
    );
    if found.is_err() {
        clear(&mut *list, 0, 0);
        clear(&mut *group, 0, 0);
        clear(&mut *coefficients, 0, 0);
    }
    found
}
