// The best plan within a budget (Specification 3.10): the whole List, and then best steps by its images.
#![tactic(auto)]

ghost use Rattle.std.specs.Prelude.{◌≡◌, ◌*◌, ◌≤◌, length};
ghost use Rattle.definitions.specs.Limits.{budget_limit, group_limit, list_limit};
ghost use Rattle.definitions.specs.Plan.{plan_refused};
ghost use Rattle.vectors.specs.Areas.{sent_order};
ghost use Rattle.moves.specs.Found.{Held};
ghost use Rattle.costs.specs.Problems.{problem_in};
ghost use Rattle.descents.specs.Steps.{DescendsTo, Planning};
ghost use Rattle.plans.specs.Promise.{KeepsPlan};
ghost use Rattle.plans.specs.Found.{Fitting, InUse, Measured, PlanEndsIn, descended, planned_in, tested};

use costs::{problem_fault, reach};
use definitions::limits::CELLS;
use definitions::{Planned, Refusal, Terms};
use descents::{Descent, descend, mark_rows, price_images};
use moves::{KEYS, MARKS, Numbers, make_list_with};
use reduction::{Extent, Shape};
use vectors::{clear, load, store};

// The prices of images for which there is room; another is computed anew whenever it is asked for.
const PRICES: usize = 8_192;

// A refusal: zeros in the three areas (Specification 7.4). Not one function with `refuse_split` of `moves`: what each
// ends with is a definition of its own.
fn refuse(
    refusal: Refusal,
    list: &mut [i32],
    group: &mut [u8],
    plan: &mut [i32],
) -> Result<Planned, Refusal>
    ensures refused { PlanEndsIn (λ room. plan_refused room refusal.number refusal.place) list group plan result }
{
    clear(&mut *list, 0, 0);
    clear(&mut *group, 0, 0);
    clear(&mut *plan, 0, 0);
    Err(refusal)
}

// The descent by the list and the table in their areas, with the prices of the images; marks and keys are set anew.
fn improve(
    start: [i32; CELLS],
    terms: Terms,
    budget: usize,
    list: &[i32],
    group: &[u8],
    extent: Extent,
    marks: &mut [u8],
    keys: &mut [u64],
) -> Descent
    requires listed { InUse extent list.now group.now }
    requires planning { Planning terms start }
    requires few { budget ≤ budget_limit }
    requires room { list_limit * group_limit ≤ length marks.old }
    ensures descended { DescendsTo terms extent group.now list.now budget start result }
{
    let mut prices = [0i64; PRICES];
    mark_rows(list, group, extent, &mut *marks, &mut *keys);
    let costs = terms.costs;
    price_images(costs, list, group, extent, &*marks, &mut prices);
    descend(start, terms, budget, list, group, extent, &*marks, &prices)
}

// What is answered where a descent has ended: that its plan is a cheapest one, or the distance bound.
fn conclude(end: Descent, terms: Terms, found: Numbers) -> Planned
    requires measured { Measured terms end }
    ensures told { Ok result ≡ planned_in terms found end }
{
    let steps = end.steps as u64;
    if end.gain == 0 {
        return Planned::Cheapest {
            steps,
            rows: found.rows,
            members: found.members,
            stored: found.stored,
            sums: found.sums,
        };
    }
    let upper = terms.upper;
    let plan = end.plan;
    let far = reach(upper, plan);
    Planned::Spent {
        steps,
        bound: end.gain * far,
        rows: found.rows,
        members: found.members,
        stored: found.stored,
        sums: found.sums,
    }
}

// The descent of a problem that meets none of 6, 26 and 27, and its plan in the plan area (Specification 3.10).
fn descend_listed(
    n: usize,
    start: &[i32],
    upper: &[i32],
    costs: &[i32],
    budget: usize,
    list: &mut [i32],
    group: &mut [u8],
    plan: &mut [i32],
    found: Numbers,
    marks: &mut [u8],
    keys: &mut [u64],
) -> Planned
    requires held { Held n found list.old group.old }
    requires room { list_limit * group_limit ≤ length marks.old }
    requires fitting { Fitting n start.now upper.now costs.now budget plan.old }
    ensures ended { PlanEndsIn (descended n found (problem_in start upper costs budget) list group)
        list group plan (Ok result) }
{
    let g = found.members as usize;
    let k = found.rows as usize;
    let shape = Shape { n, g };
    let extent = Extent { shape, k };
    let upper = load(upper, 0, n);
    let costs = load(costs, 0, n);
    let terms = Terms { upper, costs };
    let first = load(start, 0, n);
    let end = improve(
        first,
        terms,
        budget,
        &*list,
        &*group,
        extent,
        &mut *marks,
        &mut *keys,
    );
    let reached = end.plan;
    store(&mut *plan, 0, n, reached);
    conclude(end, terms, found)
}

// 6, 26, 27 and the descent, once the List has ended (Specification 7.1).
fn test_listed(
    n: usize,
    start: &[i32],
    upper: &[i32],
    costs: &[i32],
    budget: usize,
    list: &mut [i32],
    group: &mut [u8],
    plan: &mut [i32],
    found: Numbers,
    marks: &mut [u8],
    keys: &mut [u64],
) -> Result<Planned, Refusal>
    requires held { Held n found list.old group.old }
    requires room { list_limit * group_limit ≤ length marks.old }
    ensures ended { PlanEndsIn (tested n found (problem_in start upper costs budget) list group)
        list group plan result }
{
    if let Err(refusal) = problem_fault(n, start, upper, costs, budget, plan.len()) {
        return refuse(refusal, &mut *list, &mut *group, &mut *plan);
    }
    Ok(descend_listed(
        n,
        start,
        upper,
        costs,
        budget,
        &mut *list,
        &mut *group,
        &mut *plan,
        found,
        &mut *marks,
        &mut *keys,
    ))
}

// The best plan within a budget: what List leaves in the list area and the group area, and in the plan area a cheapest
// plan within the bounds that differs from the start by a lattice vector, or the plan where the budget is spent, with
// its distance bound; nothing but zeros after a refusal (Specification 1.1 and 3.10).
pub fn plan(
    n: usize,
    generators: &[i32],
    exchanges: &[u8],
    images: &[i64],
    start: &[i32],
    upper: &[i32],
    costs: &[i32],
    budget: usize,
    list: &mut [i32],
    group: &mut [u8],
    plan: &mut [i32],
) -> Result<Planned, Refusal>
    ensures kept { let order = sent_order n generators exchanges images in
        KeepsPlan order (problem_in start upper costs budget) list group plan result }
{
    let mut marks = [0u8; MARKS];
    let mut keys = [0u64; KEYS];
    let found = make_list_with(
        n,
        generators,
        exchanges,
        images,
        &mut *list,
        &mut *group,
        &mut marks,
        &mut keys,
    );
    match found {
        Err(refusal) => refuse(refusal, &mut *list, &mut *group, &mut *plan),
        Ok(numbers) => test_listed(
            n,
            start,
            upper,
            costs,
            budget,
            &mut *list,
            &mut *group,
            &mut *plan,
            numbers,
            &mut marks,
            &mut keys,
        ),
    }
}
