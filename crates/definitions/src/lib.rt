// What the calls answer, and refusals. What each call answers, for every input, is defined in specs/.
#![tactic(auto)]

// A refusal: its number in the table of refusals, and its place (Specification 7). The number is no enum: texts, C
// results and promises name a refusal by it (`refused_text`, `refusal_of`, `Reported`); an enum would need that table
// again.
#[derive(Clone, Copy)]
pub struct Refusal {
    pub number: u64,
    pub place: u64,
}

// What a call that is not refused answers (Specification 1.1).
#[derive(Clone, Copy)]
pub enum Answer {
    Moves {
        rows: u64,
        members: u64,
        stored: u64,
        sums: u64,
    },
    Split {
        pieces: u64,
        rows: u64,
        members: u64,
        stored: u64,
        sums: u64,
    },
    Passed {
        rows: u64,
        sums: u64,
    },
}

// How an order of a session that is not refused ends (Specification 3.8): as a List does, or with sums left to try.
#[derive(Clone, Copy)]
pub enum Ending {
    Moves {
        rows: u64,
        members: u64,
        stored: u64,
        sums: u64,
    },
    Unfinished {
        sums: u64,
    },
}

// What a session answers: how order 0 and how order 1 ends.
#[derive(Clone, Copy)]
pub struct Session {
    pub first: Result<Ending, Refusal>,
    pub second: Result<Ending, Refusal>,
}

// What a run of draws answers (Specification 3.9): the number of its records and the counts of its List.
#[derive(Clone, Copy)]
pub struct Run {
    pub records: u64,
    pub rows: u64,
    pub members: u64,
    pub stored: u64,
    pub sums: u64,
}

// A record of a run, as it is sent: the row, the position and the sign of a listed image.
#[derive(Clone, Copy)]
pub struct Draw {
    pub row: i32,
    pub position: i32,
    pub sign: i32,
}

// What answer rows show: tables of n cells, the last `width` records, and one chosen cell, from 1.
#[derive(Clone, Copy)]
pub struct View {
    pub n: usize,
    pub width: usize,
    pub cell: usize,
}

// What a search for the best plan answers (Specification 3.10): that its plan is a cheapest one, or that the budget is
// spent, with the distance bound; the steps that it took, and the counts of its List.
#[derive(Clone, Copy)]
pub enum Planned {
    Cheapest {
        steps: u64,
        rows: u64,
        members: u64,
        stored: u64,
        sums: u64,
    },
    Spent {
        steps: u64,
        bound: u64,
        rows: u64,
        members: u64,
        stored: u64,
        sums: u64,
    },
}

// The upper bounds and the costs of the cells of a plan.
#[derive(Clone, Copy)]
pub struct Terms {
    pub upper: [i32; limits::CELLS],
    pub costs: [i32; limits::CELLS],
}

// The limits.
pub mod limits;
