// Vectors: an array of CELLS numbers by value, and rows of lent areas (Specification 2.1).
#![tactic(auto)]

ghost use Rattle.std.specs.Prelude.{◌≡◌, true, not, [], ◌+◌, ◌/◌, ◌≤◌, ◌<◌, nat_abs, ◌*ℤ◌, length, get_or, take, drop};
ghost use Rattle.std.specs.Int.Signed.{non_neg};
ghost use Rattle.std.proofs.Math.Seq.{paste};
ghost use Rattle.definitions.specs.Limits.{cells};
ghost use Rattle.definitions.specs.Vector.{padded, plus, minus, negative, weight, degree, within, is_zero, is_member};
ghost use Rattle.definitions.specs.Vector.{cell_below, below, equal, greater};
ghost use Rattle.definitions.specs.Group.{exchanged};
ghost use Rattle.definitions.specs.Split.{cell_times, times};
ghost use Rattle.vectors.specs.Areas.{cleared_from, vectors_in};
ghost use Rattle.vectors.specs.Bounds.{headroom, NamesCells};
ghost use Rattle.vectors.specs.Keys.{fits, key, side, turned};
ghost use Rattle.vectors.specs.Support.{below_on_support, cell_on_support, cell_outside, outside_support};

use definitions::limits::CELLS;
use std::array;

// One more than the greatest number that one half of a key holds.
const HALF: u64 = 4_294_967_296;

// The absolute value of `a`.
pub fn magnitude(a: i32) -> u32
    ensures counted { result ≡ nat_abs a }
{
    a.unsigned_abs()
}

// Whether `a` lies below `b`, of one cell: between zero and `b` (Specification 2.3).
#[tactic(auto, unfolding(definitions::specs::Vector::cell_below))]
pub fn cell_below(a: i32, b: i32) -> bool
    ensures told { result ≡ cell_below a b }
{
    ((b <= a) & (a <= 0)) | ((0 <= a) & (a <= b))
}

// Whether `a` is zero if `b` is, of one cell.
#[tactic(auto, unfolding(crate::specs::Support::cell_outside))]
fn cell_within_support(a: i32, b: i32) -> bool
    ensures told { result ≡ not (cell_outside a b) }
{
    (b != 0) | (a == 0)
}

// The first part of `below`, the cells where `v` is zero: no exactly where `u` is not zero in one of them
// (Specification 2.3).
fn within_support(u: [i32; CELLS], v: [i32; CELLS]) -> bool
    ensures told { result ≡ not (outside_support u v) }
{
    u.iter().zip(&v).fold(true, |within, (a, b)| within & cell_within_support(*a, *b))
}

// Whether `a` lies below `b` if `b` is not zero, of one cell.
#[tactic(auto, unfolding(crate::specs::Support::cell_on_support))]
fn cell_on_support(a: i32, b: i32) -> bool
    ensures told { result ≡ cell_on_support a b }
{
    (b == 0) | cell_below(a, b)
}

// The second part of `below`: whether `u` lies below `v` in the cells where `v` is not zero (Specification 2.3).
fn below_on_support(u: [i32; CELLS], v: [i32; CELLS]) -> bool
    ensures told { result ≡ below_on_support u v }
{
    u.iter()
        .zip(&v)
        .fold(true, |lies, (a, b)| lies & cell_on_support(*a, *b))
}

// Whether `u` lies below `v` (Specification 2.3): the cells where `v` is zero are looked at first.
#[tactic(auto, using(crate::proofs::Support::below_parts))]
pub fn below(u: [i32; CELLS], v: [i32; CELLS]) -> bool
    ensures told { result ≡ below u v }
{
    within_support(u, v) && below_on_support(u, v)
}

// Whether no cell of `v` is past `limit` in absolute value.
pub fn within(limit: u32, v: [i32; CELLS]) -> bool
    ensures told { result ≡ within limit v }
{
    v.iter().all(|a| magnitude(*a) <= limit)
}

// Whether `v` is the zero vector.
#[tactic(auto, unfolding(definitions::specs::Vector::is_zero))]
pub fn is_zero(v: [i32; CELLS]) -> bool
    ensures told { result ≡ is_zero v }
{
    within(0, v)
}

// The weight of `v`: the sum of the absolute values (Specification 2.1).
#[tactic(auto, using(crate::proofs::Kit::weight_turn))]
pub fn weight(v: [i32; CELLS]) -> u64
    ensures counted { result ≡ weight v }
{
    let mut sum: u64 = 0;
    for a in v {
        sum += u64::from(magnitude(a));
    }
    sum
}

// The degree of `v`: the larger of the sum of the positive entries and that of the negative entries without their signs
// (Specification 2.1).
#[tactic(auto, using(crate::proofs::Kit::sums_end), unfolding(definitions::specs::Vector::degree))]
pub fn degree(v: [i32; CELLS]) -> u64
    ensures counted { result ≡ degree v }
{
    let mut positive_sum: u64 = 0;
    let mut negative_sum: u64 = 0;
    for a in v {
        let part = u64::from(magnitude(a));
        if 0 <= a {
            positive_sum += part;
        } else {
            negative_sum += part;
        }
    }
    positive_sum.max(negative_sum)
}

// Whether `u` and `v` are the same vector.
#[tactic(auto, using(crate::proofs::Kit::equal_is))]
pub fn equal(u: [i32; CELLS], v: [i32; CELLS]) -> bool
    ensures told { result ≡ equal u v }
{
    u == v
}

// Whether `u` is lexicographically greater than `v` (Specification 2.1).
#[tactic(auto, using(crate::proofs::Kit::greater_turn))]
pub fn greater(u: [i32; CELLS], v: [i32; CELLS]) -> bool
    ensures told { result ≡ greater u v }
{
    // Not `u > v`: that takes five times as many instructions, and every image is compared.
    for i in 0..CELLS {
        if u[i] != v[i] {
            return u[i] > v[i];
        }
    }
    false
}

// The sum of `u` and `v`.
pub fn plus(u: [i32; CELLS], v: [i32; CELLS]) -> [i32; CELLS]
    requires first_bounded { within headroom u ≡ true }
    requires second_bounded { within headroom v ≡ true }
    ensures made { result ≡ plus u v }
{
    array::from_fn(|i| u[i] + v[i])
}

// The negative of `v`.
pub fn negative(v: [i32; CELLS]) -> [i32; CELLS]
    requires bounded { within headroom v ≡ true }
    ensures made { result ≡ negative v }
{
    array::from_fn(|i| -v[i])
}

// The difference of `u` and `v`.
#[tactic(auto, using(crate::proofs::Kit::negative_within), unfolding(definitions::specs::Vector::minus))]
pub fn minus(u: [i32; CELLS], v: [i32; CELLS]) -> [i32; CELLS]
    requires first_bounded { within headroom u ≡ true }
    requires second_bounded { within headroom v ≡ true }
    ensures made { result ≡ minus u v }
{
    plus(u, negative(v))
}

// `v` exchanged by `s`: cell j is cell s(j) of `v`, and the cells past `s` stay (Specification 2.5).
#[tactic(auto, using(crate::proofs::Kit::exchange_turn))]
pub fn exchange(v: [i32; CELLS], s: &[u8]) -> [i32; CELLS]
    requires names { NamesCells s.now }
    ensures made { result ≡ exchanged s.now v }
{
    let mut w = v;
    for j in 0..s.len() {
        let k = s[j] as usize;
        w[j] = v[k - 1];
    }
    w
}

// The `n` numbers of an area from `at` on, as a vector.
#[tactic(auto, using(crate::proofs::Kit::padded_front))]
pub fn load(area: &[i32], at: usize, n: usize) -> [i32; CELLS]
    requires row { (n ≤ cells) × (at + n ≤ length area.now) }
    ensures made { result ≡ padded (take n (drop at area.now)) }
{
    let mut w = [0; CELLS];
    w[..n].copy_from_slice(&area[at..at + n]);
    w
}

// Sets the `n` numbers of an area from `at` on to the first `n` cells of `v`.
pub fn store(area: &mut [i32], at: usize, n: usize, v: [i32; CELLS])
    requires row { (n ≤ cells) × (at + n ≤ length area.old) }
    ensures stored { area.new ≡ paste area.old at v n }
{
    area[at..at + n].copy_from_slice(&v[..n]);
}

// Whether `a` and `b` do not have opposite signs.
pub fn same_side(a: i32, b: i32) -> bool
    ensures told { result ≡ non_neg (a *ℤ b) }
{
    if a < 0 {
        b <= 0
    } else if 0 < a {
        0 <= b
    } else {
        true
    }
}

// The greatest number up to `bound` for which that multiple of `a` lies below `b` (Specification 4.1).
#[tactic(auto, unfolding(definitions::specs::Split::cell_times))]
pub fn cell_times(bound: u64, a: i32, b: i32) -> u64
    ensures counted { result ≡ cell_times bound a b }
{
    let part = u64::from(magnitude(a));
    if part == 0 {
        return bound;
    }
    if !same_side(a, b) {
        return 0;
    }
    bound.min(u64::from(magnitude(b)) / part)
}

// The greatest number for which that multiple of `u` lies below `v`; for `u` zero, the weight of `v` (Specification
// 4.1).
pub fn times(u: [i32; CELLS], v: [i32; CELLS]) -> u64
    ensures counted { result ≡ times u v }
{
    u.iter()
        .zip(&v)
        .fold(weight(v), |bound, (a, b)| cell_times(bound, *a, *b))
}

// Row `p` of an area, as a vector.
#[tactic(auto, using(crate::proofs::Rows::row_is))]
pub fn vector_at(area: &[i32], n: usize, p: usize) -> [i32; CELLS]
    requires row { (n ≤ cells) × (p < length area.now / n) }
    ensures made { result ≡ get_or (vectors_in n area) p [] }
{
    load(area, p * n, n)
}

// Whether `v` is one of the rows of an area.
pub fn is_row(v: [i32; CELLS], area: &[i32], n: usize) -> bool
    requires cells { (1 ≤ n) × (n ≤ cells) }
    ensures told { result ≡ is_member v (vectors_in n area) }
{
    (0..area.len() / n).any(|p| equal(vector_at(area, n, p), v))
}

// Sets the numbers of an area from `at` on to zero (Specification 7.4).
#[tactic(auto, using(crate::proofs::Rows::clear_turn))]
pub fn clear<T: Copy>(area: &mut [T], at: usize, zero: T)
    ensures cleared { area.new ≡ cleared_from zero at area.old }
{
    for i in at..area.len() {
        area[i] = zero;
    }
}

// The bit for the sign of a cell: in the lower half of a key for a positive cell, in the upper half for a negative one.
#[tactic(auto, unfolding(crate::specs::Keys::side))]
fn side(a: i32) -> u64
    ensures made { result ≡ side a }
{
    if 0 < a {
        1
    } else if a < 0 {
        HALF
    } else {
        0
    }
}

// The key of `v`: a bit for each positive cell, and one for each negative cell.
#[tactic(auto, using(crate::proofs::Keys::key_turn))]
pub fn key(v: [i32; CELLS]) -> u64
    ensures made { result ≡ key v }
{
    let mut sum: u64 = 0;
    for i in (0..CELLS).rev() {
        sum = sum * 2 + side(v[i]);
    }
    sum
}

// The key of the negative of a vector, from the vector's own.
pub fn turned(key: u64) -> u64
    ensures made { result ≡ turned key }
{
    (key % HALF) * HALF + key / HALF
}

// Whether every bit of `key` is one of `other`.
pub fn fits(key: u64, other: u64) -> bool
    ensures told { result ≡ fits key other }
{
    key & other == key
}
