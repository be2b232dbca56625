// The costs and the bounds of plans, and the tests of a problem (Specification 3.10): refusals 6, 26 and 27.
#![tactic(auto)]

ghost use Rattle.std.specs.Prelude.{◌≡◌, true, max, nat_abs, ◌-ℤ◌, length};
ghost use Rattle.definitions.specs.Limits.{cost_limit};
ghost use Rattle.definitions.specs.Vector.{within};
ghost use Rattle.definitions.specs.Plan.{cost, feasible, is_bounded, problem_fault, problem_fits, reach};
ghost use Rattle.vectors.specs.Bounds.{headroom};
ghost use Rattle.costs.specs.Problems.{bounds_fault, problem_in};

use definitions::Refusal;
use definitions::limits::{BOUND_LIMIT, BUDGET_LIMIT, CELLS, COST_LIMIT};
use refusals::{fault_if, fault_where, past_fault};

// The cost of a plan or of a vector: the sum over the cells of cost times entry.
pub fn cost(costs: [i32; CELLS], v: [i32; CELLS]) -> i64
    requires priced { within cost_limit costs ≡ true }
    requires bounded { within headroom v ≡ true }
    ensures made { result ≡ cost costs v }
{
    let mut sum: i64 = 0;
    for i in (0..CELLS).rev() {
        sum += costs[i] as i64 * v[i] as i64;
    }
    sum
}

// Whether a number lies from 0 to a bound.
fn is_bounded(bound: i32, x: i32) -> bool
    ensures told { result ≡ is_bounded bound x }
{
    (0 <= x) & (x <= bound)
}

// Whether each entry of a plan lies from 0 to its upper bound.
pub fn feasible(upper: [i32; CELLS], v: [i32; CELLS]) -> bool
    ensures told { result ≡ feasible upper v }
{
    upper
        .iter()
        .zip(&v)
        .all(|(bound, x)| is_bounded(*bound, *x))
}

// The larger of an entry within its bounds and the bound less the entry.
fn larger_part(bound: i32, x: i32) -> u32
    requires bounded { is_bounded bound x ≡ true }
    ensures made { result ≡ max (nat_abs x) (nat_abs (bound -ℤ x)) }
{
    let rest = bound - x;
    x.max(rest) as u32
}

// The sum over the cells of the larger of the entry and the upper bound less the entry, of a plan within its bounds.
pub fn reach(upper: [i32; CELLS], x: [i32; CELLS]) -> u64
    requires feasible { feasible upper x ≡ true }
    ensures made { result ≡ reach upper x }
{
    let mut sum: u64 = 0;
    for i in (0..CELLS).rev() {
        sum += u64::from(larger_part(upper[i], x[i]));
    }
    sum
}

// ---- the tests of a problem

// Refusal 26: the first cell with an upper bound out of its range, or a starting entry out of its bounds
// (Specification 7.2).
fn bounds_fault(start: &[i32], upper: &[i32]) -> Result<(), Refusal>
    requires same { length start.now ≡ length upper.now }
    ensures found { result ≡ bounds_fault start.now upper.now }
{
    fault_where(26, start.len(), |cell| {
        let bound = upper[cell];
        !is_bounded(BOUND_LIMIT, bound) | !is_bounded(bound, start[cell])
    })
}

// Whether the budget and the sizes are as they should be (Specification 7.3).
fn problem_fits(
    n: usize,
    start: &[i32],
    upper: &[i32],
    costs: &[i32],
    budget: usize,
    plan: usize,
) -> bool
    ensures told { result ≡ problem_fits n (problem_in start upper costs budget) plan }
{
    let start_fits = start.len() == n;
    let upper_fits = upper.len() == n;
    let costs_fit = costs.len() == n;
    (budget <= BUDGET_LIMIT) & start_fits & upper_fits & costs_fit & (plan == n)
}

// Refusals 6, 26 and 27 of a problem, with a plan area of so many numbers (Specification 7.2 and 7.3).
pub fn problem_fault(
    n: usize,
    start: &[i32],
    upper: &[i32],
    costs: &[i32],
    budget: usize,
    plan: usize,
) -> Result<(), Refusal>
    ensures found { result ≡ problem_fault n (problem_in start upper costs budget) plan }
{
    fault_if(6, !problem_fits(n, start, upper, costs, budget, plan))?;
    bounds_fault(start, upper)?;
    past_fault(costs, 27, COST_LIMIT)
}
