// The lent calls for C (Specification 1.1): numbers and slices, and an area for the counts of the answer.
#![tactic(auto)]

ghost use Rattle.std.specs.Prelude.{◌≡◌, true, ◌≤◌, ◌<◌, ◌^◌, pos, length, get_or, take};
ghost use Rattle.definitions.specs.Lent.{filled};
ghost use Rattle.vectors.specs.Areas.{sent_order};
ghost use Rattle.windows.specs.Promise.{sent_chain};
ghost use Rattle.costs.specs.Problems.{problem_in};
ghost use Rattle.lent.specs.Ends.{Gives, Reports, Small};
ghost use Rattle.lent.specs.Ends.{ending_counts, finished_in, finished_of, session_counts, session_size};
ghost use Rattle.lent.specs.Promise.{KeepsLentCertified, KeepsLentCheck, KeepsLentList, KeepsLentSplit};
ghost use Rattle.lent.specs.Ends.{RunReports, RunSmall, is_told};
ghost use Rattle.lent.specs.Ends.{PlanReports, PlanSmall, is_plan_told};
ghost use Rattle.lent.specs.Promise.{KeepsLentPlan, KeepsLentSession, KeepsLentWindow};

use answers::refusal;
use certified_lists::list_with_coefficients;
use definitions::{Answer, Ending, Planned, Refusal, Run, Session};
use sessions::session;
use vectors::clear;
use windows::window;

// The counts of a session.
const SESSION_COUNTS: usize = 10;

// The counts of a run.
const RUN_COUNTS: usize = 5;

// The counts of a plan.
const PLAN_COUNTS: usize = 7;

// The first place of a refusal for which a result has no room (Specification 9.4).
const PLACE_LIMIT: u64 = 288_230_376_151_711_744;

// Number i of the first k; 0 behind them.
fn count_at(numbers: &[u64], k: usize, i: usize) -> u64
    requires some { k ≤ length numbers.now }
    ensures count { result ≡ get_or (take k numbers.now) i 0 }
{
    if i < k {
        return numbers[i];
    }
    0
}

// The first k numbers, into an area that has room for them, and zeros behind.
fn lay_counts(area: &mut [u64], numbers: &[u64], k: usize)
    requires some { k ≤ length numbers.now }
    requires room { k ≤ length area.old }
    ensures laid { area.new ≡ filled 0 (length area.old) (take k numbers.now) }
{
    for i in 0..area.len() {
        area[i] = count_at(numbers, k, i);
    }
}

// Lays counts into their area and returns the first; 6 at 0, and zeros, where there are more than it has room for.
fn give(area: &mut [u64], numbers: &[u64]) -> i64
    requires some { 0 < length numbers.now }
    requires small { get_or numbers.now 0 0 < 2 ^ 63 }
    ensures given { Gives numbers.now (length area.old) result area.new }
{
    let k = numbers.len();
    if area.len() < k {
        lay_counts(area, numbers, 0);
        return refusal(6, 0);
    }
    lay_counts(area, numbers, k);
    numbers[0] as i64
}

// The result of an answer, and its counts in their area; 6 at 0 where the area is short, tested last.
fn report(area: &mut [u64], answer: Result<Answer, Refusal>) -> i64
    requires small { Small answer }
    ensures reported { Reports answer (length area.old) result area.new }
{
    match answer {
        Ok(
            Answer::Moves {
                rows,
                members,
                stored,
                sums,
            },
        ) => {
            let numbers = [rows, members, stored, sums];
            give(area, &numbers)
        }
        Ok(
            Answer::Split {
                pieces,
                rows,
                members,
                stored,
                sums,
            },
        ) => {
            let numbers = [pieces, rows, members, stored, sums];
            give(area, &numbers)
        }
        Ok(Answer::Passed { rows, sums }) => {
            let numbers = [rows, sums];
            give(area, &numbers)
        }
        Err(refused) => {
            let none = [0u64; 1];
            lay_counts(area, &none, 0);
            refusal(refused.number, refused.place)
        }
    }
}

// List on lent areas, for C (Specification 1.1): the number of rows, or a refusal as one number; rows, members of the
// group, rows stored and sums tried in the counts area.
#[unsafe(no_mangle)]
pub extern "C" fn sukoreta_lent_list(
    n: usize,
    generators: &[i32],
    exchanges: &[u8],
    images: &[i64],
    list: &mut [i32],
    group: &mut [u8],
    counts: &mut [u64],
) -> i64
    ensures kept { KeepsLentList n generators exchanges images list group counts result }
{
    let answer = moves::list(n, generators, exchanges, images, &mut *list, &mut *group);
    let result = report(counts, answer);
    if result < 0 {
        clear(list, 0, 0);
        clear(group, 0, 0);
        return result;
    }
    result
}

// List with coefficients on lent areas, for C (Specification 1.1): as List, and the coefficients of the rows in their
// area.
#[unsafe(no_mangle)]
pub extern "C" fn sukoreta_lent_list_with_coefficients(
    n: usize,
    generators: &[i32],
    exchanges: &[u8],
    images: &[i64],
    list: &mut [i32],
    group: &mut [u8],
    coefficients: &mut [i64],
    counts: &mut [u64],
) -> i64
    ensures kept { KeepsLentCertified n generators exchanges images list group coefficients counts result }
{
    let answer = list_with_coefficients(
        n,
        generators,
        exchanges,
        images,
        &mut *list,
        &mut *group,
        &mut *coefficients,
    );
    let result = report(counts, answer);
    if result < 0 {
        clear(list, 0, 0);
        clear(group, 0, 0);
        clear(coefficients, 0, 0);
        return result;
    }
    result
}

// Split on lent areas, for C (Specification 1.1): the number of pieces, or a refusal as one number; pieces, and the
// counts of its list, in the counts area.
#[unsafe(no_mangle)]
pub extern "C" fn sukoreta_lent_split(
    n: usize,
    generators: &[i32],
    exchanges: &[u8],
    images: &[i64],
    vector: &[i32],
    list: &mut [i32],
    group: &mut [u8],
    pieces: &mut [i32],
    counts: &mut [u64],
) -> i64
    ensures kept { KeepsLentSplit n generators exchanges images vector list group pieces counts result }
{
    let answer = moves::split(
        n,
        generators,
        exchanges,
        images,
        vector,
        &mut *list,
        &mut *group,
        &mut *pieces,
    );
    let result = report(counts, answer);
    if result < 0 {
        clear(list, 0, 0);
        clear(group, 0, 0);
        clear(pieces, 0, 0);
        return result;
    }
    result
}

// Check on lent areas, for C (Specification 1.1): the number of rows, or a refusal as one number; rows and sums tried
// in the counts area.
#[unsafe(no_mangle)]
pub extern "C" fn sukoreta_lent_check(
    n: usize,
    generators: &[i32],
    exchanges: &[u8],
    images: &[i64],
    rows: &[i32],
    coefficients: &[i64],
    group: &mut [u8],
    counts: &mut [u64],
) -> i64
    ensures kept { KeepsLentCheck n generators exchanges images rows coefficients group counts result }
{
    let answer = moves::check(
        n,
        generators,
        exchanges,
        images,
        rows,
        coefficients,
        &mut *group,
    );
    let result = report(counts, answer);
    if result < 0 {
        clear(group, 0, 0);
        return result;
    }
    result
}

// How an order of a session ended, and its values (Specification 3.8).
fn ending_counts(ending: Result<Ending, Refusal>) -> [u64; 5]
    ensures counted { result ≡ ending_counts ending }
{
    match ending {
        Ok(
            Ending::Moves {
                rows,
                members,
                stored,
                sums,
            },
        ) => [0, rows, members, stored, sums],
        Ok(Ending::Unfinished { sums }) => [1, sums, 0, 0, 0],
        Err(refused) => [2, refused.number, refused.place, 0, 0],
    }
}

// 1 for a finished order, 0 for another.
fn finished_one(ending: Result<Ending, Refusal>) -> u64
    ensures told { result ≡ finished_in ending }
{
    match ending {
        Ok(Ending::Moves { .. }) => 1,
        _ => 0,
    }
}

// The number of finished orders.
fn finished(answer: Session) -> i64
    ensures counted { result ≡ pos (finished_of answer) }
{
    let first = answer.first;
    let second = answer.second;
    (finished_one(first) + finished_one(second)) as i64
}

// The counts of a session, order by order, into an area that has room for them, and zeros behind.
fn lay_session(area: &mut [u64], answer: Session)
    requires room { session_size ≤ length area.old }
    ensures laid { area.new ≡ filled 0 (length area.old) (session_counts answer) }
{
    let first = answer.first;
    let second = answer.second;
    let a = ending_counts(first);
    let b = ending_counts(second);
    let numbers = [a[0], a[1], a[2], a[3], a[4], b[0], b[1], b[2], b[3], b[4]];
    lay_counts(area, &numbers, SESSION_COUNTS);
}

// Session on lent areas, for C (Specification 1.1 and 3.8): the number of finished orders; how each order ended, and
// its values, in the counts area.
#[unsafe(no_mangle)]
pub extern "C" fn sukoreta_lent_session(
    n0: usize,
    generators0: &[i32],
    exchanges0: &[u8],
    images0: &[i64],
    n1: usize,
    generators1: &[i32],
    exchanges1: &[u8],
    images1: &[i64],
    list: &mut [i32],
    group: &mut [u8],
    steps: &[u8],
    counts: &mut [u64],
) -> i64
    ensures kept { let first = sent_order n0 generators0 exchanges0 images0 in
        let second = sent_order n1 generators1 exchanges1 images1 in
        KeepsLentSession first second list group steps counts result }
{
    let answer = session(
        n0,
        generators0,
        exchanges0,
        images0,
        n1,
        generators1,
        exchanges1,
        images1,
        &mut *list,
        &mut *group,
        steps,
    );
    if counts.len() < SESSION_COUNTS {
        clear(list, 0, 0);
        clear(group, 0, 0);
        return report(
            counts,
            Err(Refusal {
                number: 6,
                place: 0,
            }),
        );
    }
    lay_session(counts, answer);
    finished(answer)
}

// Whether a run can be told: there is room for its counts, or the place of its refusal fits into a result.
fn is_told(run: Result<Run, Refusal>, size: usize) -> bool
    ensures told { result ≡ is_told run size }
{
    match run {
        Ok(_) => RUN_COUNTS <= size,
        Err(refused) => refused.place < PLACE_LIMIT,
    }
}

// The result of a run that can be told, and its counts in their area.
fn report_run(area: &mut [u64], run: Result<Run, Refusal>) -> i64
    requires told { is_told run (length area.old) ≡ true }
    requires small { RunSmall run }
    ensures reported { RunReports run (length area.old) result area.new }
{
    match run {
        Ok(run) => {
            let numbers = [run.records, run.rows, run.members, run.stored, run.sums];
            lay_counts(area, &numbers, RUN_COUNTS);
            run.records as i64
        }
        Err(refused) => {
            let none = [0u64; 1];
            lay_counts(area, &none, 0);
            refusal(refused.number, refused.place)
        }
    }
}

// The window over a run of draws on lent areas, for C (Specification 1.1 and 3.9): the number of records, or a refusal
// as one number; records, and the counts of its list, in the counts area.
#[unsafe(no_mangle)]
pub extern "C" fn sukoreta_lent_window(
    n: usize,
    generators: &[i32],
    exchanges: &[u8],
    images: &[i64],
    start: &[i32],
    width: usize,
    cell: usize,
    records: &[i32],
    list: &mut [i32],
    group: &mut [u8],
    answers: &mut [i32],
    counts: &mut [u64],
) -> i64
    ensures kept { let order = sent_order n generators exchanges images in
        KeepsLentWindow order (sent_chain start width cell records) list group answers counts result }
{
    let run = window(
        n,
        generators,
        exchanges,
        images,
        start,
        width,
        cell,
        records,
        &mut *list,
        &mut *group,
        &mut *answers,
    );
    if is_told(run, counts.len()) {
        return report_run(counts, run);
    }
    clear(list, 0, 0);
    clear(group, 0, 0);
    clear(answers, 0, 0);
    report(
        counts,
        Err(Refusal {
            number: 6,
            place: 0,
        }),
    )
}

// Whether an answer can be told: there is room for its counts, or it is a refusal.
fn is_plan_told(answer: Result<Planned, Refusal>, size: usize) -> bool
    ensures told { result ≡ is_plan_told answer size }
{
    answer.is_err() | (PLAN_COUNTS <= size)
}

// The result of an answer that can be told, and its counts in their area.
fn report_plan(area: &mut [u64], answer: Result<Planned, Refusal>) -> i64
    requires told { is_plan_told answer (length area.old) ≡ true }
    requires small { PlanSmall answer }
    ensures reported { PlanReports answer (length area.old) result area.new }
{
    match answer {
        Ok(
            Planned::Cheapest {
                steps,
                rows,
                members,
                stored,
                sums,
            },
        ) => {
            let numbers = [steps, 1, 0, rows, members, stored, sums];
            lay_counts(area, &numbers, PLAN_COUNTS);
            steps as i64
        }
        Ok(
            Planned::Spent {
                steps,
                bound,
                rows,
                members,
                stored,
                sums,
            },
        ) => {
            let numbers = [steps, 0, bound, rows, members, stored, sums];
            lay_counts(area, &numbers, PLAN_COUNTS);
            steps as i64
        }
        Err(refused) => {
            let none = [0u64; 1];
            lay_counts(area, &none, 0);
            refusal(refused.number, refused.place)
        }
    }
}

// The best plan within a budget on lent areas, for C (Specification 1.1 and 3.10): the number of steps, or a refusal as
// one number; steps, 1 for a cheapest plan, the distance bound, and the counts of its list, in the counts area.
#[unsafe(no_mangle)]
pub extern "C" fn sukoreta_lent_plan(
    n: usize,
    generators: &[i32],
    exchanges: &[u8],
    images: &[i64],
    start: &[i32],
    upper: &[i32],
    costs: &[i32],
    budget: usize,
    list: &mut [i32],
    group: &mut [u8],
    plan: &mut [i32],
    counts: &mut [u64],
) -> i64
    ensures kept { let order = sent_order n generators exchanges images in
        KeepsLentPlan order (problem_in start upper costs budget) list group plan counts result }
{
    let answer = plans::plan(
        n,
        generators,
        exchanges,
        images,
        start,
        upper,
        costs,
        budget,
        &mut *list,
        &mut *group,
        &mut *plan,
    );
    if is_plan_told(answer, counts.len()) {
        return report_plan(counts, answer);
    }
    clear(list, 0, 0);
    clear(group, 0, 0);
    clear(plan, 0, 0);
    report(
        counts,
        Err(Refusal {
            number: 6,
            place: 0,
        }),
    )
}
