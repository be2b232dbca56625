// Tests 17 to 19 of a list that is brought to Check (Specification 5.1 and 7.2): each row fits, stands in its place,
// and has a certificate; and 23 of a bare order: each image of a generator has one.
#![tactic(auto)]

ghost use Rattle.std.specs.Prelude.{◌≡◌, false, ◌/◌, ◌≤◌, ◌<◌, pos, length, get_or};
ghost use Rattle.definitions.specs.Limits.{cells, coefficient_limit};
ghost use Rattle.definitions.specs.Lists.{any};
ghost use Rattle.definitions.specs.Vector.{equal};
ghost use Rattle.definitions.specs.Lattice.{combination};
ghost use Rattle.definitions.specs.Lent.{rows_of};
ghost use Rattle.definitions.specs.Refusals.{is_past, is_unfit, is_misplaced, is_uncertified};
ghost use Rattle.theory.proofs.Exchanges.{AllExchanges};
ghost use Rattle.vectors.specs.Areas.{vectors_in};
ghost use Rattle.reduction.specs.Areas.{sequences_in, Table};
ghost use Rattle.certificates.specs.Tests.{misplaced_fault, rows_fault_in, uncertified_fault, unfit_fault};
ghost use Rattle.certificates.specs.Tests.{Certifiable, Certificate, Showable, images_fault_in};

use coefficients::has_past;
use definitions::Refusal;
use definitions::limits::{CELLS, COEFFICIENT_LIMIT, ENTRY_LIMIT, IMAGE_LIMIT};
use reduction::{Shape, representative};
use refusals::{fault_where, image_at};
use sorting::precedes;
use vectors::{equal, is_zero, vector_at, within};

// 17: whether a row is zero, has an entry past the limit, or is not the greatest of its images (Specification 7.2).
#[tactic(auto, unfolding(definitions::specs::Refusals::is_unfit))]
fn is_unfit(row: [i32; CELLS], table: &[u8], shape: Shape) -> bool
    requires shaped { Table shape table.now }
    ensures told { result ≡ is_unfit (sequences_in shape table.now) row }
{
    if is_zero(row) {
        return true;
    }
    if !within(ENTRY_LIMIT, row) {
        return true;
    }
    let greatest = representative(row, table, shape);
    !equal(row, greatest)
}

// Refusal 17: the first row that does not fit (Specification 7.2).
fn unfit_fault(rows: &[i32], table: &[u8], shape: Shape) -> Result<(), Refusal>
    requires shaped { Table shape table.now }
    ensures found { result ≡ unfit_fault (sequences_in shape table.now) (vectors_in shape.n rows) }
{
    let n = shape.n;
    fault_where(
        17,
        rows.len() / n,
        |p| is_unfit(vector_at(rows, n, p), table, shape),
    )
}

// 18: whether row `p` does not come after the row before it (Specification 7.2).
#[tactic(auto, using(crate::proofs::Tests::misplaced))]
fn is_misplaced(rows: &[i32], n: usize, p: usize) -> bool
    requires row { (n ≤ cells) × (p < length rows.now / n) }
    ensures told { result ≡ is_misplaced (vectors_in n rows) p }
{
    if p == 0 {
        return false;
    }
    let earlier = vector_at(rows, n, p - 1);
    let later = vector_at(rows, n, p);
    !precedes(earlier, later)
}

// Refusal 18: the first row that does not come after the row before it (Specification 7.2).
fn misplaced_fault(rows: &[i32], n: usize) -> Result<(), Refusal>
    requires cells { (1 ≤ n) × (n ≤ cells) }
    ensures found { result ≡ misplaced_fault (vectors_in n rows) }
{
    fault_where(18, rows.len() / n, |p| is_misplaced(rows, n, p))
}

// Cell `j` of the combination of the generators with these coefficients (Specification 2.2).
fn combined_cell(coefficients: &[i64], generators: &[i32], n: usize, j: usize) -> i64
    requires cells { (n ≤ cells) × (j < n) }
    requires sizes { Certificate n generators.now coefficients.now }
    requires small { any (is_past coefficient_limit) coefficients.now ≡ false }
    ensures made { result ≡ get_or (combination coefficients.now (vectors_in n generators)) j (pos 0) }
{
    let mut sum: i64 = 0;
    for q in 0..coefficients.len() {
        let entry = generators[q * n + j] as i64;
        sum += coefficients[q] * entry;
    }
    sum
}

// The combination of the generators with these coefficients (Specification 2.2).
#[tactic(auto, using(crate::proofs::Sums::sum_turn))]
fn combination(coefficients: &[i64], generators: &[i32], n: usize) -> [i64; CELLS]
    requires cells { n ≤ cells }
    requires sizes { Certificate n generators.now coefficients.now }
    requires small { any (is_past coefficient_limit) coefficients.now ≡ false }
    ensures made { result ≡ combination coefficients.now (vectors_in n generators) }
{
    let mut sum = [0; CELLS];
    for j in 0..n {
        sum[j] = combined_cell(coefficients, generators, n, j);
    }
    sum
}

// Whether a combination is the row.
fn equals_row(sum: [i64; CELLS], row: [i32; CELLS]) -> bool
    ensures told { result ≡ equal sum row }
{
    sum.iter()
        .zip(&row)
        .all(|(cell, entry)| *cell == i64::from(*entry))
}

// 19 and 23: whether a coefficient is past the limit, or the combination is not the vector; nothing is multiplied with
// a coefficient past the limit (Specification 7.2).
#[tactic(auto, unfolding(definitions::specs::Refusals::is_uncertified))]
fn is_uncertified(
    coefficients: &[i64],
    generators: &[i32],
    n: usize,
    v: [i32; CELLS],
    limit: u32,
) -> bool
    requires cells { n ≤ cells }
    requires sizes { Certificate n generators.now coefficients.now }
    requires limited { limit ≤ coefficient_limit }
    ensures told { result ≡ is_uncertified limit (vectors_in n generators) coefficients.now v }
{
    if has_past(coefficients, limit) {
        return true;
    }
    let sum = combination(coefficients, generators, n);
    !equals_row(sum, v)
}

// Refusal 19: the first row without a certificate (Specification 7.2).
fn uncertified_fault(
    generators: &[i32],
    rows: &[i32],
    coefficients: &[i64],
    n: usize,
) -> Result<(), Refusal>
    requires cells { (1 ≤ n) × (n ≤ cells) }
    requires sizes { Certifiable n generators.now rows.now coefficients.now }
    ensures found { result ≡ uncertified_fault (vectors_in n generators) (vectors_in n rows) coefficients.now }
{
    let width = generators.len() / n;
    fault_where(19, rows.len() / n, |p| {
        let row = vector_at(rows, n, p);
        let from = p * width;
        is_uncertified(
            &coefficients[from..from + width],
            generators,
            n,
            row,
            COEFFICIENT_LIMIT,
        )
    })
}

// Refusal 23: the first image of a generator that is not shown by its coefficients (Specification 7.2).
pub fn images_fault(
    n: usize,
    generators: &[i32],
    exchanges: &[u8],
    images: &[i64],
) -> Result<(), Refusal>
    requires cells { (1 ≤ n) × (n ≤ cells) }
    requires valid { AllExchanges n (rows_of n exchanges.now) }
    requires sizes { Showable n generators.now exchanges.now images.now }
    ensures found { result ≡ images_fault_in n generators exchanges images }
{
    let width = generators.len() / n;
    let count = exchanges.len() / n * width;
    fault_where(23, count, |i| {
        let v = vector_at(generators, n, i % width);
        let image = image_at(v, exchanges, n, i / width);
        let from = i * width;
        is_uncertified(
            &images[from..from + width],
            generators,
            n,
            image,
            IMAGE_LIMIT,
        )
    })
}

// Refusals 17 to 19 of a brought list, with a group's table (Specification 5.1 and 7.2).
#[tactic(auto, unfolding(definitions::specs::Refusals::rows_fault, definitions::specs::Refusals::first_fault))]
pub fn rows_fault(
    generators: &[i32],
    rows: &[i32],
    coefficients: &[i64],
    table: &[u8],
    shape: Shape,
) -> Result<(), Refusal>
    requires shaped { Table shape table.now }
    requires sizes { Certifiable shape.n generators.now rows.now coefficients.now }
    ensures found { result ≡ rows_fault_in shape generators rows coefficients table }
{
    let n = shape.n;
    unfit_fault(rows, table, shape)?;
    misplaced_fault(rows, n)?;
    uncertified_fault(generators, rows, coefficients, n)
}
