// The window over a run of draws (Specification 3.9): the whole List, and then the records one by one.
#![tactic(auto)]

ghost use Rattle.vectors.specs.Areas.{sent_order};
ghost use Rattle.moves.specs.Found.{Held};
ghost use Rattle.windows.specs.Promise.{KeepsWindow, sent_chain};
ghost use Rattle.windows.specs.Found.{Fitting, Refuses, WindowEndsIn, drawn, tested};

use definitions::limits::{FIGURES_WIDTH, RECORD_WIDTH};
use definitions::{Refusal, Run, View};
use draws::{chain_fault, draw_records};
use moves::{Numbers, make_list};
use reduction::{Extent, Shape};
use vectors::{clear, load};

// A refusal: zeros in the list and group areas, and in the answers area from `at` on (Specification 7.4).
fn refuse(
    refusal: Refusal,
    at: usize,
    list: &mut [i32],
    group: &mut [u8],
    answers: &mut [i32],
) -> Result<Run, Refusal>
    ensures refused { Refuses refusal at list group answers result }
{
    clear(&mut *list, 0, 0);
    clear(&mut *group, 0, 0);
    clear(&mut *answers, at, 0);
    Err(refusal)
}

// The run, and refusal 25, with a list and a table in their areas (Specification 3.9).
fn draw_listed(
    start: &[i32],
    view: View,
    records: &[i32],
    list: &mut [i32],
    group: &mut [u8],
    answers: &mut [i32],
    found: Numbers,
) -> Result<Run, Refusal>
    requires held { Held view.n found list.old group.old }
    requires fitting { Fitting view start.now records.now answers.old }
    ensures ended { WindowEndsIn (drawn view found start records list group) list group answers result }
{
    let n = view.n;
    let g = found.members as usize;
    let k = found.rows as usize;
    let shape = Shape { n, g };
    let extent = Extent { shape, k };
    let table = load(start, 0, n);
    let done = draw_records(table, records, &*list, &*group, extent, view, &mut *answers);
    let end = done * (n + FIGURES_WIDTH);
    let count = records.len() / RECORD_WIDTH;
    if done < count {
        let refusal = Refusal {
            number: 25,
            place: done as u64,
        };
        return refuse(refusal, end, &mut *list, &mut *group, &mut *answers);
    }
    clear(&mut *answers, end, 0);
    Ok(Run {
        records: count as u64,
        rows: found.rows,
        members: found.members,
        stored: found.stored,
        sums: found.sums,
    })
}

// 6, 14 and the run, once the List has ended (Specification 7.1).
fn test_listed(
    start: &[i32],
    view: View,
    records: &[i32],
    list: &mut [i32],
    group: &mut [u8],
    answers: &mut [i32],
    found: Numbers,
) -> Result<Run, Refusal>
    requires held { Held view.n found list.old group.old }
    ensures ended { WindowEndsIn (tested view found start records list group) list group answers result }
{
    if let Err(refusal) = chain_fault(start, view, records, answers.len()) {
        return refuse(refusal, 0, &mut *list, &mut *group, &mut *answers);
    }
    draw_listed(
        start,
        view,
        records,
        &mut *list,
        &mut *group,
        &mut *answers,
        found,
    )
}

// The window over a run of draws: what List leaves in the list area and the group area, and an answer row for each
// record; after a refused record the answers before it, and nothing but zeros after any other refusal (Specification
// 1.1 and 3.9).
pub fn window(
    n: usize,
    generators: &[i32],
    exchanges: &[u8],
    images: &[i64],
    start: &[i32],
    width: usize,
    cell: usize,
    records: &[i32],
    list: &mut [i32],
    group: &mut [u8],
    answers: &mut [i32],
) -> Result<Run, Refusal>
    ensures kept { let order = sent_order n generators exchanges images in
        KeepsWindow order (sent_chain start width cell records) list group answers result }
{
    let found = make_list(n, generators, exchanges, images, &mut *list, &mut *group);
    match found {
        Err(refusal) => refuse(refusal, 0, &mut *list, &mut *group, &mut *answers),
        Ok(numbers) => test_listed(
            start,
            View { n, width, cell },
            records,
            &mut *list,
            &mut *group,
            &mut *answers,
            numbers,
        ),
    }
}
