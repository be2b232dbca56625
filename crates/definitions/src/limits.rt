// The limits of Specification 6, each named once in code.

// 5: the cells of an array; an order has at most so many.
pub const CELLS: usize = 16;

// 7, 12 and 17: the greatest absolute value of an entry that is sent, stored or brought.
pub const ENTRY_LIMIT: u32 = 4_000;

// 10: the most members of a group.
pub const GROUP_LIMIT: usize = 1_152;

// 13: the most list rows in use; 6: the most rows that a Check takes.
pub const LIST_LIMIT: usize = 128;

// The list rows of each order of a session.
pub const SESSION_ROWS: usize = 64;

// 6: the most generators.
pub const GENERATOR_LIMIT: usize = 64;

// 6: the most exchanges.
pub const EXCHANGE_LIMIT: usize = 8;

// 6: the most generators of a bare order.
pub const BARE_LIMIT: usize = 16;

// 23: the greatest absolute value of a coefficient of an image.
pub const IMAGE_LIMIT: u32 = 1_000_000;

// 14: the greatest absolute value of an entry of a vector to split.
pub const SPLIT_LIMIT: u32 = 1_000_000;

// 19: the greatest absolute value of a coefficient of a brought row.
pub const COEFFICIENT_LIMIT: u32 = 1_000_000;

// 24: the greatest absolute value of a coefficient of a stored row.
pub const STORED_COEFFICIENT_LIMIT: u32 = 1_000_000;

// 14 and 25: the greatest entry of a contingency table.
pub const CONTINGENCY_LIMIT: i32 = 1_000_000;

// The most records of a window.
pub const WINDOW_LIMIT: usize = 256;

// The numbers that a record of a run takes.
pub const RECORD_WIDTH: usize = 3;

// The numbers of an answer row of a run behind its contingency table.
pub const FIGURES_WIDTH: usize = 3;

// 26: the greatest upper bound of a cell of a plan.
pub const BOUND_LIMIT: i32 = 1_000_000;

// 27: the greatest absolute value of a cost.
pub const COST_LIMIT: u32 = 1_000;

// The most steps of a budget.
pub const BUDGET_LIMIT: usize = 100_000;

// The numbers that a piece takes in the pieces area.
pub const PIECE_WIDTH: usize = 4;

// The pieces for which programs and C calls lend room.
pub const LENT_PIECES: usize = 64;

// The first bytes of an order file, to which the answer is the answer to the file.
pub const ORDER_LIMIT: usize = 65_536;
