// The completion run to its end, with the coefficients of each stored row beside it (Specification 3.1 to 3.4 and 3.7).
// `basis` are the generators that coefficients are for; with none it is the completion, and nothing is noted.
#![tactic(auto)]

ghost use Rattle.std.specs.Prelude.{◌≡◌, ◌+◌, ◌*◌, ◌≤◌, ◌<◌, length};
ghost use Rattle.completion.specs.Machine.{Admissible, Areas, Ready};
ghost use Rattle.reduction.specs.Areas.{sequences_in};
ghost use Rattle.certified.specs.Noting.{CertifiedTo, FirstStored, GeneratorNoted, Limited, Notable};
ghost use Rattle.certified.specs.Noting.{RowNoted, RowStored, RowsMade};
ghost use Rattle.certified.specs.Noting.{advanced_in, completed_in, first_coefficients, noted_in, ran_in};
ghost use Rattle.certified.specs.Noting.{sum_coefficients_in, width_of};

use coefficients::{
    add_counted, add_image, add_times, has_past, reduce_certified, row_coefficients,
};
use completion::{Sizes, State, begin, step, sum_at};
use definitions::Refusal;
use definitions::limits::{GENERATOR_LIMIT, STORED_COEFFICIENT_LIMIT};
use reduction::{Extent, Shape, representative};
use vectors::{clear, equal, load, vector_at};

// The coefficients of the sum that `s` tries: those of row i, and of the image of row j (Specification 3.2).
fn sum_coefficients(
    s: State,
    table: &[u8],
    shape: Shape,
    basis: &[i32],
    coefficients: &[i64],
    into: &mut [i64],
)
    requires notable { Notable shape s.stored table.now basis.now coefficients.now }
    requires limited { Limited shape.n basis.now s.stored coefficients.now }
    requires tried { (s.i < s.stored) × (s.j ≤ s.i) × (s.position < shape.g) }
    requires sized { length into.old ≡ width_of shape.n basis.now }
    ensures made { let coefficients = coefficients.entry.now in
        into.new ≡ sum_coefficients_in shape table.now basis.now coefficients s }
{
    let n = shape.n;
    let m = into.len();
    let row = s.i * m;
    let from = s.j * m;
    let at = s.position * n;
    let sign = if s.positive { 1 } else { 0 - 1 };
    clear(&mut *into, 0, 0);
    add_times(1, &coefficients[row..row + m], &mut *into);
    add_image(
        sign,
        &coefficients[from..from + m],
        basis,
        &table[at..at + n],
        &mut *into,
    );
}

// Notes the coefficients of the row that was stored for the sum of `s`, and says whether none is past its limit
// (Specification 3.4 and 3.7).
fn note_row(
    s: State,
    list: &[i32],
    table: &[u8],
    shape: Shape,
    marks: &[u8],
    keys: &[u64],
    basis: &[i32],
    coefficients: &mut [i64],
) -> bool
    requires stored { RowStored shape table.now list.now marks.now keys.now s }
    requires notable { Notable shape (s.stored + 1) table.now basis.now coefficients.old }
    requires limited { Limited shape.n basis.now s.stored coefficients.old }
    ensures noted { let list = list.entry.now in
        let basis = basis.entry.now in
        RowNoted shape table.now list basis s coefficients.old coefficients.new result }
{
    let n = shape.n;
    let m = basis.len() / n;
    let stored = s.stored;
    let mut carried = [0i64; GENERATOR_LIMIT];
    sum_coefficients(s, table, shape, basis, &*coefficients, &mut carried[..m]);
    let rest = reduce_certified(
        sum_at(s, list, table, shape),
        list,
        table,
        Extent { shape, k: stored },
        marks,
        keys,
        basis,
        &*coefficients,
        &mut carried[..m],
    );
    let row = load(list, stored * n, n);
    let at = stored * m;
    let end = at + m;
    row_coefficients(
        row,
        rest,
        &carried[..m],
        basis,
        table,
        shape,
        &mut coefficients[at..end],
    );
    !has_past(&coefficients[at..end], STORED_COEFFICIENT_LIMIT)
}

// Notes the coefficients of row `r` if generator `p` is the first of its kind: the number of rows that are noted then
// (Specification 3.1 and 3.7).
fn note_generator(
    p: usize,
    r: usize,
    basis: &[i32],
    list: &[i32],
    table: &[u8],
    shape: Shape,
    coefficients: &mut [i64],
) -> usize
    requires notable { Notable shape (r + 1) table.now basis.now coefficients.old }
    requires generator { p < width_of shape.n basis.now }
    requires row { r * shape.n + shape.n ≤ length list.now }
    requires made { RowsMade (sequences_in shape table.now) }
    ensures noted { let table = table.entry.now in
        let list = list.entry.now in
        let basis = basis.entry.now in
        let from = coefficients.old in
        GeneratorNoted shape table list basis p r from coefficients.new result }
{
    let n = shape.n;
    let m = basis.len() / n;
    let v = vector_at(basis, n, p);
    let row = load(list, r * n, n);
    if !equal(representative(v, table, shape), row) {
        return r;
    }
    let mut unit = [0i64; GENERATOR_LIMIT];
    add_counted(1, v, basis, n, &mut unit[..m]);
    let at = r * m;
    let end = at + m;
    row_coefficients(
        row,
        v,
        &unit[..m],
        basis,
        table,
        shape,
        &mut coefficients[at..end],
    );
    r + 1
}

// Notes the coefficients of the rows of step 1: of the generators whose row is stored the first gives it its own
// (Specification 3.1 and 3.7).
fn note_first(
    basis: &[i32],
    list: &[i32],
    table: &[u8],
    sizes: Sizes,
    stored: usize,
    coefficients: &mut [i64],
)
    requires stored { 0 < length basis.now → FirstStored sizes.shape table.now list.now basis.now stored }
    requires notable { Notable sizes.shape stored table.now basis.now coefficients.old }
    ensures noted { let basis = basis.entry.now in
        0 < length basis → noted_in sizes.shape.n basis stored coefficients.new
        ≡ first_coefficients sizes.shape sizes.limit table.now basis }
{
    let shape = sizes.shape;
    let count = basis.len() / shape.n;
    let mut r = 0;
    for p in 0..count {
        if r < stored {
            r = note_generator(p, r, basis, list, table, shape, &mut *coefficients);
        }
    }
}

// One sum is tried, and the coefficients of a row that is stored for it are noted; 24 where one is past its limit
// (Specification 3.2 to 3.4 and 3.7).
fn advance(
    s: State,
    list: &mut [i32],
    table: &[u8],
    sizes: Sizes,
    marks: &mut [u8],
    keys: &mut [u64],
    basis: &[i32],
    coefficients: &mut [i64],
) -> Result<State, Refusal>
    requires ready { Ready sizes table.now list.old marks.old keys.old s }
    requires left { s.i < s.stored }
    requires notable { Notable sizes.shape sizes.limit table.now basis.now coefficients.old }
    requires limited { Limited sizes.shape.n basis.now s.stored coefficients.old }
    ensures advanced { let table = table.entry.now in
        let basis = basis.entry.now in
        let end = advanced_in sizes table list.entry.now basis coefficients.entry.now s in
        let list = list.exit.now in
        let coefficients = coefficients.exit.now in
        CertifiedTo sizes.shape table list marks.new keys.new basis coefficients end result }
{
    let t = step(s, &mut *list, table, sizes, &mut *marks, &mut *keys)?;
    if (basis.len() == 0) | (t.stored <= s.stored) {
        return Ok(t);
    }
    let shape = sizes.shape;
    if note_row(
        s,
        &*list,
        table,
        shape,
        &*marks,
        &*keys,
        basis,
        &mut *coefficients,
    ) {
        return Ok(t);
    }
    Err(Refusal {
        number: 24,
        place: t.sums,
    })
}

// All sums that are left are tried, one after the other (Specification 3.2 to 3.4).
fn run(
    first: State,
    list: &mut [i32],
    table: &[u8],
    sizes: Sizes,
    marks: &mut [u8],
    keys: &mut [u64],
    basis: &[i32],
    coefficients: &mut [i64],
) -> Result<State, Refusal>
    requires ready { Ready sizes table.now list.old marks.old keys.old first }
    requires untried { first.sums ≡ 0 }
    requires notable { Notable sizes.shape sizes.limit table.now basis.now coefficients.old }
    requires limited { Limited sizes.shape.n basis.now first.stored coefficients.old }
    ensures ran { let table = table.entry.now in
        let basis = basis.entry.now in
        let end = ran_in sizes table list.entry.now basis coefficients.entry.now first in
        let list = list.exit.now in
        let coefficients = coefficients.exit.now in
        CertifiedTo sizes.shape table list marks.new keys.new basis coefficients end result }
{
    let mut s = first;
    // Not a `for`: how many sums there are depends on the rows that are stored.
    while s.i < s.stored {
        s = advance(
            s,
            &mut *list,
            table,
            sizes,
            &mut *marks,
            &mut *keys,
            basis,
            &mut *coefficients,
        )?;
    }
    Ok(s)
}

// Steps 1 to 4, with the coefficients of the stored rows (Specification 3.1 to 3.4 and 3.7).
pub fn complete(
    generators: &[i32],
    list: &mut [i32],
    table: &[u8],
    sizes: Sizes,
    marks: &mut [u8],
    keys: &mut [u64],
    basis: &[i32],
    coefficients: &mut [i64],
) -> Result<State, Refusal>
    requires areas { Areas sizes table.now list.old marks.old }
    requires admissible { Admissible sizes.shape table.now generators.now }
    requires own { 0 < length basis.now → basis.now ≡ generators.now }
    requires notable { Notable sizes.shape sizes.limit table.now basis.now coefficients.old }
    ensures completed { let table = table.entry.now in
        let basis = basis.entry.now in
        let end = completed_in sizes table generators.now basis in
        let list = list.exit.now in
        let coefficients = coefficients.exit.now in
        CertifiedTo sizes.shape table list marks.new keys.new basis coefficients end result }
{
    let s = begin(
        generators,
        &mut *list,
        table,
        sizes,
        &mut *marks,
        &mut *keys,
    )?;
    note_first(basis, &*list, table, sizes, s.stored, &mut *coefficients);
    run(
        s,
        &mut *list,
        table,
        sizes,
        &mut *marks,
        &mut *keys,
        basis,
        &mut *coefficients,
    )
}
