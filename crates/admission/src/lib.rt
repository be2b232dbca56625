// The tests with which every call begins, 5 to 11 and 23, and the table of the group in its area (Specification 7.1 to
// 7.3).
#![tactic(auto)]

ghost use Rattle.std.specs.Prelude.{◌≡◌, ◌/◌, ◌≤◌, min, []};
ghost use Rattle.definitions.specs.Limits.{cells};
ghost use Rattle.definitions.specs.Lent.{order_of};
ghost use Rattle.definitions.specs.Refusals.{lattice_fault, numbers_fault};
ghost use Rattle.vectors.specs.Areas.{sent_order};
ghost use Rattle.admission.specs.Admission.{Admits, Numbered, Tabulates, sent_fault};

use certificates::images_fault;
use definitions::Refusal;
use definitions::limits::{ENTRY_LIMIT, GROUP_LIMIT};
use group::{exchanges_fault, group_table};
use refusals::{cells_fault, leaving_fault, past_fault, size_fault, zero_fault};

// The rows of `width` numbers in an area of `size`, at most `limit`.
pub fn rows_up_to(limit: usize, width: usize, size: usize) -> usize
    requires some { 1 ≤ width }
    ensures counted { result ≡ min limit (size / width) }
{
    limit.min(size / width)
}

// Refusals 7 to 9 (Specification 7.2).
fn numbers_fault(n: usize, generators: &[i32], exchanges: &[u8]) -> Result<(), Refusal>
    requires celled { (1 ≤ n) × (n ≤ cells) }
    ensures met { result ≡ numbers_fault (order_of n generators.now exchanges.now []) }
{
    past_fault(generators, 7, ENTRY_LIMIT)?;
    zero_fault(n, generators)?;
    exchanges_fault(n, exchanges)
}

// Refusals 5 to 9, with a group area of `group` numbers; `fits` says whether what else is lent has the right size.
pub fn sent_fault(
    n: usize,
    generators: &[i32],
    exchanges: &[u8],
    images: &[i64],
    group: usize,
    fits: bool,
) -> Result<(), Refusal>
    ensures met { result ≡ sent_fault (sent_order n generators exchanges images) group fits }
{
    cells_fault(n)?;
    size_fault(n, generators, exchanges, images, group, fits)?;
    numbers_fault(n, generators, exchanges)
}

// Refusal 23 of a bare order, 11 of any other (Specification 7.2).
pub fn lattice_fault(
    n: usize,
    generators: &[i32],
    exchanges: &[u8],
    images: &[i64],
) -> Result<(), Refusal>
    requires numbered { Numbered (order_of n generators.now exchanges.now images.now) }
    ensures met { result ≡ lattice_fault (sent_order n generators exchanges images) }
{
    if images.len() == 0 {
        return leaving_fault(n, generators, exchanges);
    }
    images_fault(n, generators, exchanges, images)
}

// Refusals 10, and 11 or 23, or the number of members of the group, and its table in its area (Specification 2.5 and
// 7.2).
pub fn tabulate(
    n: usize,
    generators: &[i32],
    exchanges: &[u8],
    images: &[i64],
    group: &mut [u8],
) -> Result<usize, Refusal>
    requires numbered { Numbered (order_of n generators.now exchanges.now images.now) }
    ensures tabled { Tabulates n generators exchanges images group result }
{
    let limit = rows_up_to(GROUP_LIMIT, n, group.len());
    let built = group_table(&mut *group, n, limit, exchanges);
    let g = built.ok_or(Refusal {
        number: 10,
        place: 0,
    })?;
    lattice_fault(n, generators, exchanges, images)?;
    Ok(g)
}

// Refusals 5 to 11 and 23, or the number of members of the group, and its table in its area; `fits` says whether what
// else is lent has the right size.
pub fn admit(
    n: usize,
    generators: &[i32],
    exchanges: &[u8],
    images: &[i64],
    fits: bool,
    group: &mut [u8],
) -> Result<usize, Refusal>
    ensures tabled { Admits n generators exchanges images fits group result }
{
    sent_fault(n, generators, exchanges, images, group.len(), fits)?;
    tabulate(n, generators, exchanges, images, &mut *group)
}
