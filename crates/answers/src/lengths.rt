// How long a text can be (Specification 9.4), by the limits.
ghost use Rattle.std.specs.Prelude.{◌≡◌};
ghost use Rattle.answers.specs.Lengths.{text_limit};

use definitions::limits::{CELLS, ENTRY_LIMIT, GROUP_LIMIT, LIST_LIMIT};

// The most sums that can be tried.
const SUMS: usize = GROUP_LIMIT * LIST_LIMIT * (LIST_LIMIT + 1);

// The digits of the limits in decimal: one, and one more for each power of ten that is reached.
const LIST_DIGITS: usize = 1
    + (10 <= LIST_LIMIT) as usize
    + (100 <= LIST_LIMIT) as usize
    + (1_000 <= LIST_LIMIT) as usize
    + (10_000 <= LIST_LIMIT) as usize
    + (100_000 <= LIST_LIMIT) as usize;

const GROUP_DIGITS: usize = 1
    + (10 <= GROUP_LIMIT) as usize
    + (100 <= GROUP_LIMIT) as usize
    + (1_000 <= GROUP_LIMIT) as usize
    + (10_000 <= GROUP_LIMIT) as usize
    + (100_000 <= GROUP_LIMIT) as usize;

const SUMS_DIGITS: usize = 1
    + (10 <= SUMS) as usize
    + (100 <= SUMS) as usize
    + (1_000 <= SUMS) as usize
    + (10_000 <= SUMS) as usize
    + (100_000 <= SUMS) as usize
    + (1_000_000 <= SUMS) as usize
    + (10_000_000 <= SUMS) as usize
    + (100_000_000 <= SUMS) as usize
    + (1_000_000_000 <= SUMS) as usize
    + (10_000_000_000 <= SUMS) as usize
    + (100_000_000_000 <= SUMS) as usize;

const ENTRY_DIGITS: usize = 1
    + (10 <= ENTRY_LIMIT) as usize
    + (100 <= ENTRY_LIMIT) as usize
    + (1_000 <= ENTRY_LIMIT) as usize
    + (10_000 <= ENTRY_LIMIT) as usize
    + (100_000 <= ENTRY_LIMIT) as usize
    + (1_000_000 <= ENTRY_LIMIT) as usize
    + (10_000_000 <= ENTRY_LIMIT) as usize
    + (100_000_000 <= ENTRY_LIMIT) as usize
    + (1_000_000_000 <= ENTRY_LIMIT) as usize;

// The first line: the word, a space and the digits of each of four counts, and the line feed.
const HEAD: usize = 5 + 4 + LIST_DIGITS + GROUP_DIGITS + LIST_DIGITS + SUMS_DIGITS + 1;

// A row: each entry with its sign, its digits and the byte behind it.
const ROW: usize = CELLS * (2 + ENTRY_DIGITS);

// No text is longer: the longest first line, all rows that a list can have, and END.
pub const TEXT_LIMIT: usize = HEAD + LIST_LIMIT * ROW + 4;

// The bytes of the longest text.
pub fn text_limit() -> usize
    ensures longest { result ≡ text_limit }
{
    TEXT_LIMIT
}
