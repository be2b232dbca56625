// A session (Specification 3.8): two orders on one group table, each on its half of one list area.
#![tactic(auto)]

ghost use Rattle.std.specs.Prelude.{◌≡◌, true, [], ◌∷◌, ◌+◌, ◌≤◌, length};
ghost use Rattle.definitions.specs.Limits.{cells};
ghost use Rattle.definitions.specs.Lent.{order_of};
ghost use Rattle.definitions.specs.Refusals.{first_fault, lattice_fault, no_fault};
ghost use Rattle.definitions.specs.Session.{difference_from, half, own_fault};
ghost use Rattle.vectors.specs.Areas.{sent_order};
ghost use Rattle.admission.specs.Admission.{Numbered};
ghost use Rattle.moves.specs.Found.{Grouped};
ghost use Rattle.session_orders.specs.Ends.{OrderEnds};
ghost use Rattle.sessions.specs.Found.{EndsIn, Exchangeable, Finds, GroupedUnless, RefusedBy, Tabled, any_left};
ghost use Rattle.sessions.specs.Found.{late_fault, result_by, shape_of, shared_in};
ghost use Rattle.sessions.specs.Promise.{KeepsSession};

use admission::{lattice_fault, rows_up_to, sent_fault};
use definitions::limits::{GROUP_LIMIT, SESSION_ROWS};
use definitions::{Ending, Refusal, Session};
use group::group_table;
use reduction::Shape;
use refusals::fault_if;
use session_orders::{complete_order, count_steps};
use vectors::clear;

// What the tests of both orders find, and the number of members of their group where one of them is left.
#[derive(Clone, Copy)]
struct Tests {
    first: Result<(), Refusal>,
    second: Result<(), Refusal>,
    members: usize,
}

// ---- the tests

// 5 and 6 of both orders: unequal numbers of cells, and a list area of so many numbers that is not two halves; the
// product is not formed.
fn shared_fault(n: usize, other: usize, list: usize) -> Result<(), Refusal>
    ensures met { result ≡ shared_in n other list }
{
    let rows = 2 * SESSION_ROWS;
    fault_if(5, n != other)?;
    fault_if(6, !((list % rows == 0) & (list / rows == n)))
}

// 9 of an order: the first of its exchanges that differs from the other's.
fn difference_fault(n: usize, exchanges: &[u8], others: &[u8]) -> Result<(), Refusal>
    requires some { 1 ≤ n }
    ensures met { result ≡ difference_from n 0 exchanges.now others.now }
{
    for p in 0..exchanges.len() {
        if others.len() <= p {
            return Err(Refusal {
                number: 9,
                place: (p / n) as u64,
            });
        }
        if exchanges[p] != others[p] {
            return Err(Refusal {
                number: 9,
                place: (p / n) as u64,
            });
        }
    }
    if exchanges.len() < others.len() {
        return Err(Refusal {
            number: 9,
            place: (exchanges.len() / n) as u64,
        });
    }
    Ok(())
}

// 5 to 9 of an order beside another, after the shared tests.
fn early_fault(
    shared: Result<(), Refusal>,
    n: usize,
    generators: &[i32],
    exchanges: &[u8],
    images: &[i64],
    others: &[u8],
    group: usize,
) -> Result<(), Refusal>
    ensures met { let own = own_fault (sent_order n generators exchanges images) group in
        let difference = difference_from n 0 exchanges.now others.now in
        result ≡ first_fault (shared ∷ own ∷ difference ∷ []) }
{
    shared?;
    sent_fault(n, generators, exchanges, images, group, true)?;
    difference_fault(n, exchanges, others)
}

// Whether one of the orders has met no test.
fn is_left(first: Result<(), Refusal>, second: Result<(), Refusal>) -> bool
    ensures told { result ≡ any_left first second }
{
    first.is_ok() | second.is_ok()
}

// Where an order is left: the number of members of the group, and its table in its area; 0 where it has more than the
// area has rows for. No option: the shape of both orders takes the number as it is, and 10 is of each order.
fn build_table(left: bool, n: usize, exchanges: &[u8], group: &mut [u8]) -> usize
    requires valid { left ≡ true → Exchangeable n exchanges.now }
    ensures built { let size = length group.old in
        left ≡ true → Tabled (order_of n [] exchanges.now []) size group.new result }
{
    if !left {
        return 0;
    }
    let limit = rows_up_to(GROUP_LIMIT, n, group.len());
    group_table(&mut *group, n, limit, exchanges).unwrap_or(0)
}

// 10, and 11 or 23, of an order that is left.
fn late_fault(
    early: Result<(), Refusal>,
    members: usize,
    n: usize,
    generators: &[i32],
    exchanges: &[u8],
    images: &[i64],
) -> Result<(), Refusal>
    requires numbered { early ≡ no_fault → Numbered (order_of n generators.now exchanges.now images.now) }
    ensures met { result ≡ late_fault early members (lattice_fault (sent_order n generators exchanges images)) }
{
    early?;
    fault_if(10, members == 0)?;
    lattice_fault(n, generators, exchanges, images)
}

// The tests of both orders, and the table of their group in its area, built once.
fn test_both(
    n0: usize,
    generators0: &[i32],
    exchanges0: &[u8],
    images0: &[i64],
    n1: usize,
    generators1: &[i32],
    exchanges1: &[u8],
    images1: &[i64],
    list: usize,
    group: &mut [u8],
) -> Tests
    ensures found { let first = sent_order n0 generators0 exchanges0 images0 in
        let second = sent_order n1 generators1 exchanges1 images1 in
        Finds first second list (length group.old) group.new result }
{
    let shared = shared_fault(n0, n1, list);
    let size = group.len();
    let first = early_fault(
        shared,
        n0,
        generators0,
        exchanges0,
        images0,
        exchanges1,
        size,
    );
    let second = early_fault(
        shared,
        n1,
        generators1,
        exchanges1,
        images1,
        exchanges0,
        size,
    );
    let members = build_table(is_left(first, second), n0, exchanges0, group);
    Tests {
        first: late_fault(first, members, n0, generators0, exchanges0, images0),
        second: late_fault(second, members, n1, generators1, exchanges1, images1),
        members,
    }
}

// ---- the orders

// One order on its half: refused by a test, or its steps and its end.
fn run_order(
    fault: Result<(), Refusal>,
    generators: &[i32],
    list: &mut [i32],
    table: &[u8],
    shape: Shape,
    count: usize,
) -> Result<Ending, Refusal>
    requires grouped { fault ≡ no_fault → Grouped shape generators.now table.now }
    requires sized { length list.old ≡ half shape.n }
    ensures ended { OrderEnds shape.n (result_by shape table.now fault generators.now count) list.new result }
{
    if let Err(refusal) = fault {
        clear(list, 0, 0);
        return Err(refusal);
    }
    complete_order(generators, list, table, shape, count)
}

// Both orders, each on its half.
fn run_both(
    tests: Tests,
    n: usize,
    generators0: &[i32],
    generators1: &[i32],
    list: &mut [i32],
    table: &[u8],
    steps: &[u8],
) -> Session
    requires narrow { n ≤ cells }
    requires sized { length list.old ≡ half n + half n }
    requires first { GroupedUnless tests.first (shape_of n tests) generators0.now table.now }
    requires second { GroupedUnless tests.second (shape_of n tests) generators1.now table.now }
    ensures ended { EndsIn tests n generators0 generators1 list table steps result }
{
    let shape = Shape {
        n,
        g: tests.members,
    };
    let half = n * SESSION_ROWS;
    let fault0 = tests.first;
    let fault1 = tests.second;
    let first = run_order(
        fault0,
        generators0,
        &mut list[..half],
        table,
        shape,
        count_steps(steps, 0),
    );
    let second = run_order(
        fault1,
        generators1,
        &mut list[half..],
        table,
        shape,
        count_steps(steps, 1),
    );
    Session { first, second }
}

// The end of an order that a test refuses.
fn refused_by(fault: Result<(), Refusal>) -> Result<Ending, Refusal>
    ensures refused { RefusedBy fault result }
{
    fault?;
    Ok(Ending::Unfinished { sums: 0 })
}

// Two orders on one group table: a step tries a sum of the order that it names, 0 or 1 (Specification 3.8). Each answer
// and each half of the list area depend on the order's own generators and images alone. The group area keeps the table;
// after both refuse every area is zero.
pub fn session(
    n0: usize,
    generators0: &[i32],
    exchanges0: &[u8],
    images0: &[i64],
    n1: usize,
    generators1: &[i32],
    exchanges1: &[u8],
    images1: &[i64],
    list: &mut [i32],
    group: &mut [u8],
    steps: &[u8],
) -> Session
    ensures kept { let first = sent_order n0 generators0 exchanges0 images0 in
        let second = sent_order n1 generators1 exchanges1 images1 in
        KeepsSession first second list group steps result }
{
    let tests = test_both(
        n0,
        generators0,
        exchanges0,
        images0,
        n1,
        generators1,
        exchanges1,
        images1,
        list.len(),
        &mut *group,
    );
    let first = tests.first;
    let second = tests.second;
    if !is_left(first, second) {
        clear(list, 0, 0);
        clear(group, 0, 0);
        return Session {
            first: refused_by(first),
            second: refused_by(second),
        };
    }
    let answer = run_both(
        tests,
        n0,
        generators0,
        generators1,
        &mut *list,
        &*group,
        steps,
    );
    if answer.first.is_err() & answer.second.is_err() {
        clear(group, 0, 0);
    }
    answer
}
