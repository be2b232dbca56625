// The pieces of a vector: the images of the listed rows are taken from it in turn, and each piece is written to a lent
// area (Specification 4.1).
#![tactic(auto)]

ghost use Rattle.std.specs.Prelude.{◌≡◌, true, [], ◌∷◌, ◌*◌, ◌≤◌, ◌<◌, pos};
ghost use Rattle.definitions.specs.Limits.{group_limit, list_limit, split_limit};
ghost use Rattle.definitions.specs.Vector.{minus, scale, within};
ghost use Rattle.definitions.specs.Split.{placed_orbit, sign};
ghost use Rattle.theory.proofs.Below.{◌⊑◌};
ghost use Rattle.vectors.specs.Bounds.{headroom};
ghost use Rattle.reduction.specs.Areas.{sequences_in, Table};
ghost use Rattle.pieces.specs.Taking.{count_limit, four_numbers, image_at, images_in, pair, with_numbers};
ghost use Rattle.pieces.specs.Taking.{Listed, Most, Placed, Ready, SplitsTo, TakesTo};

use definitions::limits::{CELLS, PIECE_WIDTH};
use reduction::{Shape, image_at};
use vectors::{clear, load, negative, store, times};

// What remains of a vector, and the number of pieces that were taken from it.
#[derive(Clone, Copy)]
pub struct Taken {
    pub rest: [i32; CELLS],
    pub count: usize,
}

// The place of an image and its negative: the row, and the position in the table.
#[derive(Clone, Copy)]
struct Place {
    row: usize,
    position: usize,
}

// How often `u` is taken from `v`: the greatest number for which that multiple of it lies below `v`.
fn most_below(u: [i32; CELLS], v: [i32; CELLS]) -> u64
    requires limited { within split_limit v ≡ true }
    ensures most { Most u v result }
{
    times(u, v)
}

// `v` less `count` times `u`: that multiple lies below `v`, so every number in between fits.
fn less_multiple(v: [i32; CELLS], u: [i32; CELLS], count: u64) -> [i32; CELLS]
    requires lies { scale (pos count) u ⊑ v }
    requires few { count ≤ count_limit }
    ensures rest { result ≡ minus v (scale (pos count) u) }
{
    let factor = count as i32;
    let mut w = [0; CELLS];
    for i in 0..CELLS {
        w[i] = v[i] - factor * u[i];
    }
    w
}

// 1 for an image itself, and −1 for its negative.
fn sign(positive: bool) -> i32
    ensures sign { result ≡ sign positive }
{
    if positive { 1 } else { -1 }
}

// Writes the four numbers of piece `k`, where the area has room for them.
fn write_piece(pieces: &mut [i32], k: usize, place: Place, positive: bool, count: u64)
    requires placed { Placed place }
    requires few { count ≤ count_limit }
    ensures written { pieces.new ≡ with_numbers pieces.old k (four_numbers place positive count) }
{
    if k < pieces.len() / PIECE_WIDTH {
        let mut numbers = [0; CELLS];
        numbers[0] = place.row as i32;
        numbers[1] = place.position as i32;
        numbers[2] = sign(positive);
        numbers[3] = count as i32;
        store(pieces, k * PIECE_WIDTH, PIECE_WIDTH, numbers);
    }
}

// An image is taken from what remains as often as its multiple lies below it.
fn take_image(
    t: Taken,
    image: [i32; CELLS],
    place: Place,
    positive: bool,
    pieces: &mut [i32],
) -> Taken
    requires ready { Ready 1 t }
    requires placed { Placed place }
    ensures taken { TakesTo pieces (image_at place positive image ∷ []) t result }
{
    let rest = t.rest;
    let found = t.count;
    let count = most_below(image, rest);
    if count == 0 {
        return t;
    }
    let less = less_multiple(rest, image, count);
    write_piece(pieces, found, place, positive, count);
    let more = found + 1;
    Taken {
        rest: less,
        count: more,
    }
}

// An image is taken, and then its negative.
fn take_both(t: Taken, image: [i32; CELLS], place: Place, pieces: &mut [i32]) -> Taken
    requires ready { Ready 2 t }
    requires placed { Placed place }
    requires limited { within headroom image ≡ true }
    ensures taken { TakesTo pieces (pair place image) t result }
{
    let once = take_image(t, image, place, true, pieces);
    take_image(once, negative(image), place, false, pieces)
}

// The images of `v`, which is row `row`, are taken position by position.
fn take_row(
    t: Taken,
    v: [i32; CELLS],
    row: usize,
    table: &[u8],
    shape: Shape,
    pieces: &mut [i32],
) -> Taken
    requires shaped { Table shape table.now }
    requires ready { Ready (2 * shape.g) t }
    requires placed { (row < list_limit) × (shape.g ≤ group_limit) }
    requires limited { within headroom v ≡ true }
    ensures taken { TakesTo pieces (placed_orbit row 0 (sequences_in shape table.now) v) t result }
{
    let mut taken = t;
    for p in 0..shape.g {
        let image = image_at(v, table, shape, p);
        let place = Place { row, position: p };
        taken = take_both(taken, image, place, pieces);
    }
    taken
}

// The images of `k` rows are taken row by row.
fn take_rows(
    t: Taken,
    list: &[i32],
    k: usize,
    table: &[u8],
    shape: Shape,
    pieces: &mut [i32],
) -> Taken
    requires listed { Listed shape k table.now list.now }
    requires ready { Ready (k * (2 * shape.g)) t }
    ensures taken { TakesTo pieces (images_in shape k table.now list.now) t result }
{
    let n = shape.n;
    let mut taken = t;
    for i in 0..k {
        let row = load(list, i * n, n);
        taken = take_row(taken, row, i, table, shape, pieces);
    }
    taken
}

// The pieces of `v`: the images of `k` rows are taken from it in turn, and each piece is written where there is room
// (Specification 4.1).
pub fn split_rows(
    v: [i32; CELLS],
    list: &[i32],
    k: usize,
    table: &[u8],
    shape: Shape,
    pieces: &mut [i32],
) -> Taken
    requires listed { Listed shape k table.now list.now }
    requires limited { within split_limit v ≡ true }
    ensures split { SplitsTo pieces (images_in shape k table.now list.now) v result }
{
    clear(pieces, 0, 0);
    let whole = Taken { rest: v, count: 0 };
    take_rows(whole, list, k, table, shape, pieces)
}
