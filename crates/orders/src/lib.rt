// The scan of an order file (Specification 8.2 and 8.3).
#![tactic(auto)]

ghost use Rattle.std.specs.Prelude.{◌≡◌, ◌+◌, ◌≤◌, ◌<◌, length};
ghost use Rattle.commands.specs.Commands.{operands_of, width_of};
ghost use Rattle.orders.specs.Grammar.{counted_by, is_image_due, may_close, may_stand, one_if, phase_after, too_many};
ghost use Rattle.orders.specs.Scan.{Few, Within, refuse, past_by, sized_by, passed, admitted, step_of, scan_of};

use commands::{
    COEFFICIENTS, Command, END, EXCHANGE, GENERATOR, IMAGE, ROW, Reading, SIZE, VECTOR, behind,
    byte_at, code_of, command_at,
};
use definitions::Refusal;
use definitions::limits::{BARE_LIMIT, CELLS, EXCHANGE_LIMIT, GENERATOR_LIMIT, LIST_LIMIT};

// The numbers that an accepted order lends, in lent areas.
pub mod operands;

// The three services.
#[derive(Clone, Copy)]
pub enum Service {
    List,
    Split,
    Check,
}

// What was read last: nothing, SIZE or GENERATOR, EXCHANGE, IMAGE, VECTOR, ROW, COEFFICIENTS or END.
#[derive(Clone, Copy)]
enum Phase {
    Empty,
    Generators,
    Exchanges,
    Images,
    Vectors,
    Rows,
    Paired,
    Done,
}

// What an order has: the cells that SIZE gives, and the commands that are counted.
#[derive(Clone, Copy)]
pub struct Counts {
    pub cells: usize,
    pub generators: usize,
    pub exchanges: usize,
    pub images: usize,
    pub rows: usize,
}

// How far a scan has come: the offset where a command is due, the phase, and what was counted.
#[derive(Clone, Copy)]
struct Progress {
    at: usize,
    phase: Phase,
    counts: Counts,
}

// One command of the scan: the scan goes on, or it is over. No `ControlFlow`: the definition `step_of` is by these
// cases.
#[derive(Clone, Copy)]
enum Step {
    Next(Progress),
    Stop(Result<Counts, Refusal>),
}

// The phase behind a command.
fn phase_after(command: Command) -> Phase
    ensures phase { result ≡ phase_after command }
{
    match command {
        Command::Size(_) | Command::Generator(_) => Phase::Generators,
        Command::Exchange(_) => Phase::Exchanges,
        Command::Image(_) => Phase::Images,
        Command::Vector(_) => Phase::Vectors,
        Command::Row(_) => Phase::Rows,
        Command::Coefficients(_) => Phase::Paired,
        Command::End(_) => Phase::Done,
    }
}

// Whether a command may follow generators, exchanges and images (Specification 8.2).
fn may_close(service: Service, code: usize) -> bool
    ensures rule { result ≡ may_close service code }
{
    match service {
        Service::List => code == END,
        Service::Split => code == VECTOR,
        Service::Check => code == ROW || code == END,
    }
}

// Whether an IMAGE may follow: not all that are due have come (Specification 8.2).
#[tactic(auto, unfolding(crate::specs::Grammar::is_image_due))]
fn is_image_due(c: Counts) -> bool
    requires few { Few c }
    ensures due { result ≡ is_image_due c }
{
    c.images < c.exchanges * c.generators
}

// Whether a command may follow images; `due` says whether another is due (Specification 8.2).
fn may_follow_images(service: Service, due: bool, code: usize) -> bool
    ensures rule { result ≡ may_stand service due Phase.Images code }
{
    if due {
        return code == IMAGE;
    }
    may_close(service, code)
}

// Whether a command may follow what was read last; `due` says whether an IMAGE may (Specification 8.2).
fn may_stand(service: Service, due: bool, phase: Phase, code: usize) -> bool
    ensures rule { result ≡ may_stand service due phase code }
{
    let closes = may_close(service, code);
    match phase {
        Phase::Empty => code == SIZE,
        Phase::Generators => code == GENERATOR || code == EXCHANGE || closes,
        Phase::Exchanges => due && code == IMAGE || code == EXCHANGE || closes,
        Phase::Images => may_follow_images(service, due, code),
        Phase::Vectors => code == END,
        Phase::Rows => code == COEFFICIENTS,
        Phase::Paired => code == ROW || code == END,
        Phase::Done => false,
    }
}

// 1 where a command has the byte `code`, else 0.
#[tactic(auto, unfolding(crate::specs::Grammar::one_if))]
fn one_if(command: Command, code: usize) -> usize
    ensures one { (result ≡ one_if command code) × (result ≤ 1) }
{
    usize::from(code_of(command) == code)
}

// What is counted with a command.
fn counted(c: Counts, command: Command) -> Counts
    requires few { Few c }
    ensures counted { result ≡ counted_by c command }
{
    Counts {
        generators: c.generators + one_if(command, GENERATOR),
        exchanges: c.exchanges + one_if(command, EXCHANGE),
        images: c.images + one_if(command, IMAGE),
        rows: c.rows + one_if(command, ROW),
        ..c
    }
}

// The progress past a command: its operands are skipped, and it is counted.
fn past(order: &[u8], s: Progress, command: Command) -> Progress
    requires within { Within order.now s × (operands_of command ≤ length order.now) }
    ensures past { result ≡ past_by s command }
{
    let c = s.counts;
    Progress {
        at: behind(order, command, c.cells, c.generators),
        phase: phase_after(command),
        counts: counted(c, command),
    }
}

// Whether there are more generators, exchanges or rows than may be, or more generators than a bare order may have.
fn too_many(c: Counts) -> bool
    ensures many { result ≡ too_many c }
{
    GENERATOR_LIMIT < c.generators
        || EXCHANGE_LIMIT < c.exchanges
        || LIST_LIMIT < c.rows
        || 0 < c.images && BARE_LIMIT < c.generators
}

// The scan is over, with a refusal.
fn refused(number: u64, place: usize) -> Step
    ensures refused { result ≡ refuse number place }
{
    Step::Stop(Err(Refusal {
        number,
        place: place as u64,
    }))
}

// The progress with the cells that SIZE gives.
fn sized(t: Progress, n: usize) -> Progress
    ensures sized { result ≡ sized_by t n }
{
    let counts = Counts {
        cells: n,
        ..t.counts
    };
    Progress { counts, ..t }
}

// SIZE, its operand at p: refusal 5, or the number of cells.
#[tactic(auto, unfolding(crate::specs::Scan::passed))]
fn pass_size(order: &[u8], t: Progress, p: usize) -> Step
    requires operand { p < length order.now }
    ensures passed { result ≡ passed order.now t (Command.Size p) }
{
    let n = usize::from(byte_at(order, p));
    if (1..=CELLS).contains(&n) {
        return Step::Next(sized(t, n));
    }
    refused(5, 0)
}

// END, p behind it: refusal 4, or the order is accepted.
#[tactic(auto, unfolding(crate::specs::Scan::passed))]
fn pass_end(order: &[u8], t: Progress, p: usize) -> Step
    ensures passed { result ≡ passed order.now t (Command.End p) }
{
    if p < order.len() {
        return refused(4, p);
    }
    Step::Stop(Ok(t.counts))
}

// A whole command that may stand, t being the progress past it (Specification 8.3, 6 to 8).
#[tactic(auto, unfolding(crate::specs::Scan::passed))]
fn pass(order: &[u8], t: Progress, command: Command) -> Step
    requires operands { operands_of command + width_of command 0 0 ≤ length order.now }
    ensures passed { result ≡ passed order.now t command }
{
    match command {
        Command::Size(p) => pass_size(order, t, p),
        Command::End(p) => pass_end(order, t, p),
        _ => Step::Next(t),
    }
}

// A command at an offset that may stand, t being the progress past it (Specification 8.3, 4 to 8).
#[tactic(auto, unfolding(crate::specs::Scan::admitted))]
fn admit(order: &[u8], at: usize, t: Progress, command: Command) -> Step
    requires operands { operands_of command + width_of command 0 0 ≤ t.at }
    ensures admitted { result ≡ admitted order.now at t command }
{
    if too_many(t.counts) {
        return refused(6, at);
    }
    if order.len() < t.at {
        return refused(1, at);
    }
    pass(order, t, command)
}

// One command of the scan (Specification 8.3).
#[tactic(auto, unfolding(crate::specs::Scan::step_of, crate::specs::Scan::step_from))]
fn next_step(order: &[u8], service: Service, s: Progress) -> Step
    requires within { Within order.now s }
    ensures next { result ≡ step_of service order.now s }
{
    match command_at(order, s.at) {
        Reading::Past => refused(1, order.len()),
        Reading::Unknown => refused(2, s.at),
        Reading::Known(command) => {
            let due = is_image_due(s.counts);
            if !may_stand(service, due, s.phase, code_of(command)) {
                return refused(3, s.at);
            }
            let t = past(order, s, command);
            admit(order, s.at, t, command)
        }
    }
}

// The scan of an order: its counts, or its first refusal (Specification 8.3).
pub fn scan(order: &[u8], service: Service) -> Result<Counts, Refusal>
    ensures scanned { result ≡ scan_of service order.now }
{
    let counts = Counts {
        cells: 0,
        generators: 0,
        exchanges: 0,
        images: 0,
        rows: 0,
    };
    let mut s = Progress {
        at: 0,
        phase: Phase::Empty,
        counts,
    };
    // Not a `for`: the length of a command decides where the next one is.
    loop {
        match next_step(order, service, s) {
            Step::Next(t) => s = t,
            Step::Stop(found) => return found,
        }
    }
}
