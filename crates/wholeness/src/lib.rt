// The tests of a brought list that meets none of 5 to 19: refusals 20, 21 and 22 (Specification 5.1 and 7.2).
#![tactic(auto)]

ghost use Rattle.std.specs.Prelude.{◌≡◌, true, ◌*◌, ◌/◌, ◌≤◌, length};
ghost use Rattle.definitions.specs.Limits.{group_limit, list_limit};
ghost use Rattle.definitions.specs.Vector.{within};
ghost use Rattle.definitions.specs.Lent.{vectors_of};
ghost use Rattle.vectors.specs.Bounds.{headroom};
ghost use Rattle.reduction.specs.Areas.{sequences_in};
ghost use Rattle.reduction.specs.Marks.{Marked};
ghost use Rattle.wholeness.specs.Lists.{Brought, Ready, generators_fault, list_fault, others_fault};
ghost use Rattle.wholeness.specs.Lists.{tried_fault, wholeness_in};

use coefficients::reduce;
use completion::{first, is_repeated_sum, next, try_sum};
use definitions::Refusal;
use reduction::images::has_other_below;
use reduction::{Extent, Shape, mark_row};
use refusals::fault_where;
use vectors::{is_zero, vector_at};

// Sets the marks and keys of the rows, one row after the other.
fn mark_brought(rows: &[i32], table: &[u8], shape: Shape, marks: &mut [u8], keys: &mut [u64])
    requires brought { Brought shape table.now rows.now }
    requires room { length rows.now / shape.n * shape.g ≤ length marks.old }
    ensures marked { let vectors = vectors_of shape.n rows.now in
        Marked (sequences_in shape table.now) vectors marks.new keys.new }
{
    let n = shape.n;
    let count = rows.len() / n;
    for r in 0..count {
        let row = vector_at(rows, n, r);
        mark_row(row, table, shape, r, &mut *marks, &mut *keys);
    }
}

// Refusal 20: the first generator whose remainder by the rows is not zero (Specification 7.2).
fn generators_fault(
    generators: &[i32],
    rows: &[i32],
    table: &[u8],
    shape: Shape,
    marks: &[u8],
    keys: &[u64],
) -> Result<(), Refusal>
    requires ready { Ready shape table.now rows.now marks.now keys.now }
    requires limited { within headroom generators.now ≡ true }
    ensures found { result ≡ generators_fault shape table.now generators.now rows.now }
{
    let n = shape.n;
    let k = rows.len() / n;
    fault_where(20, generators.len() / n, |p| {
        let generator = vector_at(generators, n, p);
        !is_zero(reduce(generator, rows, table, Extent { shape, k }, marks, keys))
    })
}

// Refusal 21: the first sum of step 2 over the rows whose remainder is not zero (Specification 3.2 and 7.2). A sum that
// was tried before has remainder zero.
fn sums_fault(
    rows: &[i32],
    table: &[u8],
    shape: Shape,
    marks: &[u8],
    keys: &[u64],
) -> Result<(), Refusal>
    requires ready { Ready shape table.now rows.now marks.now keys.now }
    ensures found { result ≡ tried_fault shape table.now rows.now }
{
    let stored = rows.len() / shape.n;
    let mut s = first(stored);
    // Not a `for`: the next sum is `next`'s, over three places that count together.
    while s.i < stored {
        if !is_repeated_sum(s, marks, shape.g) {
            let rest = try_sum(s, rows, table, shape, marks, keys);
            if !is_zero(rest) {
                return Err(Refusal {
                    number: 21,
                    place: s.sums + 1,
                });
            }
        }
        let t = next(s, stored, shape.g);
        s = t;
    }
    Ok(())
}

// Refusal 22: the first row that has an image of another row below it (Specification 7.2).
fn others_fault(
    rows: &[i32],
    table: &[u8],
    shape: Shape,
    marks: &[u8],
    keys: &[u64],
) -> Result<(), Refusal>
    requires ready { Ready shape table.now rows.now marks.now keys.now }
    ensures found { result ≡ others_fault shape table.now rows.now }
{
    let k = rows.len() / shape.n;
    fault_where(
        22,
        k,
        |row| has_other_below(row, rows, table, Extent { shape, k }, marks, keys),
    )
}

// Refusals 21 and 22 (Specification 7.2).
#[tactic(auto, unfolding(definitions::specs::Refusals::first_fault))]
fn list_fault(
    rows: &[i32],
    table: &[u8],
    shape: Shape,
    marks: &[u8],
    keys: &[u64],
) -> Result<(), Refusal>
    requires ready { Ready shape table.now rows.now marks.now keys.now }
    ensures found { result ≡ list_fault shape table.now rows.now }
{
    sums_fault(rows, table, shape, marks, keys)?;
    others_fault(rows, table, shape, marks, keys)
}

// Refusals 20 to 22 (Specification 5.1 and 7.2). `marks` is room for the marks of all images of all rows, and `keys`
// for the keys of some.
#[tactic(auto, unfolding(definitions::specs::Refusals::wholeness_fault, definitions::specs::Refusals::first_fault))]
pub fn wholeness_fault(
    generators: &[i32],
    rows: &[i32],
    table: &[u8],
    shape: Shape,
    marks: &mut [u8],
    keys: &mut [u64],
) -> Result<(), Refusal>
    requires brought { Brought shape table.now rows.now }
    requires limited { within headroom generators.now ≡ true }
    requires room { list_limit * group_limit ≤ length marks.old }
    ensures found { result ≡ wholeness_in shape table.now generators rows }
{
    mark_brought(rows, table, shape, &mut *marks, &mut *keys);
    generators_fault(generators, rows, table, shape, &*marks, &*keys)?;
    list_fault(rows, table, shape, &*marks, &*keys)
}
