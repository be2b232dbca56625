// The lent calls (Specification 1.1): List, Split and Check.
#![tactic(auto)]

ghost use Rattle.std.specs.Prelude.{◌≡◌, [], ◌∷◌, ◌*◌, ◌≤◌, length};
ghost use Rattle.definitions.specs.Limits.{group_limit, list_limit};
ghost use Rattle.definitions.specs.Completion.{sum_count};
ghost use Rattle.definitions.specs.Refusals.{cells_fault, first_fault, split_size_fault};
ghost use Rattle.definitions.specs.Calls.{listing};
ghost use Rattle.vectors.specs.Areas.{sent_order};
ghost use Rattle.moves.specs.Promise.{KeepsList, KeepsSplit, KeepsCheck};
ghost use Rattle.moves.specs.Found.{Completes, FindsIn, Grouped};
ghost use Rattle.moves.specs.Found.{Entered, Held, SplitEndsIn, parts_in, pieces_fault};
ghost use Rattle.moves.specs.Found.{ChecksIn, Sized, brought_fault_in};

use admission::{admit, rows_up_to};
use certified::complete;
use completion::Sizes;
use definitions::limits::{CELLS, GROUP_LIMIT, LIST_LIMIT, PIECE_WIDTH, SPLIT_LIMIT};
use definitions::{Answer, Refusal};
use reduction::{Extent, Shape};
use vectors::clear;

// The marks of all images of all list rows.
pub const MARKS: usize = LIST_LIMIT * GROUP_LIMIT;

// The keys of images for which there is room; an image without a key is compared.
pub const KEYS: usize = 8_192;

// The numbers of an accepted List.
#[derive(Clone, Copy)]
pub struct Numbers {
    pub rows: u64,
    pub members: u64,
    pub stored: u64,
    pub sums: u64,
}

// ---- List

// Steps 1 to 5 with the table of a group in its area (Specification 3), with marks for all images of all list rows, and
// keys.
fn complete_list(
    generators: &[i32],
    list: &mut [i32],
    group: &[u8],
    shape: Shape,
    marks: &mut [u8],
    keys: &mut [u64],
) -> Result<Numbers, Refusal>
    requires grouped { Grouped shape generators.now group.now }
    requires room { list_limit * group_limit ≤ length marks.old }
    ensures found { Completes shape generators list group result }
{
    clear(&mut *list, 0, 0);
    let limit = rows_up_to(LIST_LIMIT, shape.n, list.len());
    let sizes = Sizes { shape, limit };
    let mut none = [0i64; 0];
    let s = complete(
        generators,
        &mut *list,
        group,
        sizes,
        &mut *marks,
        &mut *keys,
        &generators[..0],
        &mut none,
    )?;
    let stored = s.stored;
    let mut flags = [0u8; LIST_LIMIT];
    let extent = Extent { shape, k: stored };
    let rows = sorting::finish(&mut *list, group, extent, &*marks, &*keys, &mut flags);
    Ok(Numbers {
        rows: rows as u64,
        members: shape.g as u64,
        stored: stored as u64,
        sums: s.sums,
    })
}

// 5 to 13 and 23, and the areas of an accepted List, with marks and keys that the caller lends (Specification 7.1).
pub fn make_list_with(
    n: usize,
    generators: &[i32],
    exchanges: &[u8],
    images: &[i64],
    list: &mut [i32],
    group: &mut [u8],
    marks: &mut [u8],
    keys: &mut [u64],
) -> Result<Numbers, Refusal>
    requires room { list_limit * group_limit ≤ length marks.old }
    ensures found { FindsIn n (listing (sent_order n generators exchanges images)) list group result }
{
    let fits = refusals::whole_rows(n, list.len());
    let g = admit(n, generators, exchanges, images, fits, &mut *group)?;
    complete_list(
        generators,
        &mut *list,
        &*group,
        Shape { n, g },
        &mut *marks,
        &mut *keys,
    )
}

// The same, with marks and keys of its own.
pub fn make_list(
    n: usize,
    generators: &[i32],
    exchanges: &[u8],
    images: &[i64],
    list: &mut [i32],
    group: &mut [u8],
) -> Result<Numbers, Refusal>
    ensures found { FindsIn n (listing (sent_order n generators exchanges images)) list group result }
{
    let mut marks = [0u8; MARKS];
    let mut keys = [0u64; KEYS];
    make_list_with(
        n,
        generators,
        exchanges,
        images,
        &mut *list,
        &mut *group,
        &mut marks,
        &mut keys,
    )
}

// List: one vector of each kind of the Graver basis in the list area, sorted, and the table of the group in the group
// area; zeros behind them, and nothing but zeros after a refusal (Specification 1.1).
pub fn list(
    n: usize,
    generators: &[i32],
    exchanges: &[u8],
    images: &[i64],
    list: &mut [i32],
    group: &mut [u8],
) -> Result<Answer, Refusal>
    ensures kept { KeepsList n generators exchanges images list group result }
{
    let found = make_list(n, generators, exchanges, images, &mut *list, &mut *group);
    match found {
        Ok(found) => Ok(Answer::Moves {
            rows: found.rows,
            members: found.members,
            stored: found.stored,
            sums: found.sums,
        }),
        Err(refusal) => {
            clear(&mut *list, 0, 0);
            clear(&mut *group, 0, 0);
            Err(refusal)
        }
    }
}

// ---- Split

// Refusals 5 and 6 that come before the List of a Split (Specification 7.3).
fn split_sizes(n: usize, vector: &[i32], pieces: usize) -> Result<(), Refusal>
    ensures met { result ≡ first_fault (cells_fault n ∷ split_size_fault n vector.now pieces ∷ []) }
{
    refusals::cells_fault(n)?;
    refusals::split_size_fault(n, vector, pieces)
}

// A refused Split: zeros in its three areas (Specification 7.4).
fn refuse_split(
    refusal: Refusal,
    basis: &mut [i32],
    group: &mut [u8],
    pieces: &mut [i32],
) -> Result<Answer, Refusal>
    ensures zeros { SplitEndsIn 0 (Err refusal) basis group pieces result }
{
    clear(&mut *basis, 0, 0);
    clear(&mut *group, 0, 0);
    clear(&mut *pieces, 0, 0);
    Err(refusal)
}

// Refusals 15 and 16: what remains of the vector, and the number of its pieces in an area of `size` numbers
// (Specification 4.1).
fn pieces_fault(rest: [i32; CELLS], count: usize, size: usize) -> Result<(), Refusal>
    ensures met { result ≡ pieces_fault rest count size }
{
    refusals::fault_if(15, !vectors::is_zero(rest))?;
    refusals::fault_if(16, !(count <= size / PIECE_WIDTH))
}

// The pieces of a vector by the list and the group in their areas, and refusals 15 and 16 (Specification 4.1).
fn take_pieces(
    n: usize,
    vector: &[i32],
    basis: &mut [i32],
    group: &mut [u8],
    pieces: &mut [i32],
    found: Numbers,
) -> Result<Answer, Refusal>
    requires held { Held n found basis.old group.old }
    requires entered { Entered n vector.now }
    ensures ended { SplitEndsIn n (parts_in n found vector basis group pieces) basis group pieces result }
{
    let v = vectors::load(vector, 0, n);
    let k = found.rows as usize;
    let g = found.members as usize;
    let taken = pieces::split_rows(v, &*basis, k, &*group, Shape { n, g }, &mut *pieces);
    let rest = taken.rest;
    let count = taken.count;
    if let Err(refusal) = pieces_fault(rest, count, pieces.len()) {
        return refuse_split(refusal, &mut *basis, &mut *group, &mut *pieces);
    }
    Ok(Answer::Split {
        pieces: count as u64,
        rows: found.rows,
        members: found.members,
        stored: found.stored,
        sums: found.sums,
    })
}

// 14 to 16, once the List of a Split has ended (Specification 4.1).
fn split_listed(
    n: usize,
    vector: &[i32],
    basis: &mut [i32],
    group: &mut [u8],
    pieces: &mut [i32],
    found: Numbers,
) -> Result<Answer, Refusal>
    requires held { Held n found basis.old group.old }
    requires sized { length vector.now ≡ n }
    ensures ended { SplitEndsIn n (parts_in n found vector basis group pieces) basis group pieces result }
{
    if let Err(refusal) = refusals::past_fault(vector, 14, SPLIT_LIMIT) {
        return refuse_split(refusal, &mut *basis, &mut *group, &mut *pieces);
    }
    take_pieces(n, vector, &mut *basis, &mut *group, &mut *pieces, found)
}

// Split: what List leaves in the list area and the group area, and in the pieces area images of listed rows that add up
// to the vector, none opposing it; zeros behind them, and nothing but zeros after a refusal (Specification 1.1 and 4).
pub fn split(
    n: usize,
    generators: &[i32],
    exchanges: &[u8],
    images: &[i64],
    vector: &[i32],
    basis: &mut [i32],
    group: &mut [u8],
    pieces: &mut [i32],
) -> Result<Answer, Refusal>
    ensures kept { KeepsSplit n generators exchanges images vector basis group pieces result }
{
    if let Err(refusal) = split_sizes(n, vector, pieces.len()) {
        return refuse_split(refusal, &mut *basis, &mut *group, &mut *pieces);
    }
    let found = make_list(n, generators, exchanges, images, &mut *basis, &mut *group);
    match found {
        Err(refusal) => refuse_split(refusal, &mut *basis, &mut *group, &mut *pieces),
        Ok(numbers) => split_listed(n, vector, &mut *basis, &mut *group, &mut *pieces, numbers),
    }
}

// ---- Check

// 17 to 22 (Specification 5.1).
fn brought_fault(
    generators: &[i32],
    rows: &[i32],
    coefficients: &[i64],
    group: &[u8],
    shape: Shape,
) -> Result<(), Refusal>
    requires grouped { Grouped shape generators.now group.now }
    requires sized { Sized shape.n generators.now rows.now coefficients.now }
    ensures met { result ≡ brought_fault_in shape generators rows coefficients group }
{
    certificates::rows_fault(generators, rows, coefficients, group, shape)?;
    let mut marks = [0u8; MARKS];
    let mut keys = [0u64; KEYS];
    wholeness::wholeness_fault(generators, rows, group, shape, &mut marks, &mut keys)
}

// A pass of `rows` rows by a group of `g` members (Specification 5.1).
fn passed(rows: usize, g: usize) -> Answer
    requires few { (rows ≤ list_limit) × (g ≤ group_limit) }
    ensures told { result ≡ Answer.Passed rows (sum_count g rows) }
{
    Answer::Passed {
        rows: rows as u64,
        sums: (g * rows * (rows + 1)) as u64,
    }
}

// 5 to 11, 17 to 22 and 23, and the group area of a list that passes (Specification 5.1).
fn check_list(
    n: usize,
    generators: &[i32],
    exchanges: &[u8],
    images: &[i64],
    rows: &[i32],
    coefficients: &[i64],
    group: &mut [u8],
) -> Result<Answer, Refusal>
    ensures checked { ChecksIn n generators exchanges images rows coefficients group result }
{
    let fits = refusals::brought_fits(n, generators, rows.len(), coefficients.len());
    let g = admit(n, generators, exchanges, images, fits, &mut *group)?;
    brought_fault(generators, rows, coefficients, &*group, Shape { n, g })?;
    Ok(passed(rows.len() / n, g))
}

// Check: a pass if and only if the rules are kept and the brought list is whole; the table of the group in the group
// area, zeros behind it, and nothing but zeros after a refusal (Specification 1.1 and 5).
pub fn check(
    n: usize,
    generators: &[i32],
    exchanges: &[u8],
    images: &[i64],
    rows: &[i32],
    coefficients: &[i64],
    group: &mut [u8],
) -> Result<Answer, Refusal>
    ensures kept { KeepsCheck n generators exchanges images rows coefficients group result }
{
    let found = check_list(
        n,
        generators,
        exchanges,
        images,
        rows,
        coefficients,
        &mut *group,
    );
    if found.is_err() {
        clear(&mut *group, 0, 0);
    }
    found
}
