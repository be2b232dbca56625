// Answers as text, laid into a lent area, and refusals as results (Specification 9). A place past the area's end says
// that the text is too long; the area is then zero, and stays so.
#![tactic(auto)]

ghost use Rattle.std.specs.Prelude.{◌≡◌, [], ◌∷◌, ◌-◌, ◌*◌, ◌≤◌, ◌<◌, ◌^◌, nat_abs, length};
ghost use Rattle.std.proofs.Math.Seq.{paste};
ghost use Rattle.definitions.specs.Lent.{chunks};
ghost use Rattle.answers.specs.Text.{decimal, decimalℤ};
ghost use Rattle.answers.specs.Answers.{count_text, line_text, lines_text, head_text, line_count, rows_text};
ghost use Rattle.answers.specs.Page.{LaidIn, WroteIn};
ghost use Rattle.answers.specs.Parts.{placed_text, table_text_in};
ghost use Rattle.answers.specs.Refusal.{refusal_code, refusal_of};

use definitions::{Answer, Refusal};
use vectors::clear;

// How long a text can be.
pub mod lengths;

// What the place of a refusal is multiplied by (Specification 9.4).
const PLACE_FACTOR: u64 = 32;

// Copies a text to a place where there is room for it; the empty text has room also past the area's end.
fn copy_at(area: &mut [u8], at: usize, text: &[u8])
    requires fits { length text.now ≤ length area.old - at }
    ensures copied { let s = text.now in
        area.new ≡ paste area.old at s (length s) }
{
    if !text.is_empty() {
        area[at..at + text.len()].copy_from_slice(text);
    }
}

// The bytes that an area of n has from a place on.
fn room(n: usize, at: usize) -> usize
    ensures left { result ≡ n - at }
{
    n.saturating_sub(at)
}

// Writes a text at a place, and answers the place behind it.
pub fn put_text(area: &mut [u8], at: usize, text: &[u8]) -> usize
    ensures wrote { WroteIn area at result text.now }
{
    let n = area.len();
    let m = text.len();
    if room(n, at) < m {
        clear(area, 0, 0);
        return n + 1;
    }
    copy_at(area, at, text);
    at + m
}

// Writes one byte.
pub fn put_byte(area: &mut [u8], at: usize, b: u8) -> usize
    ensures wrote { WroteIn area at result (b ∷ []) }
{
    let text = [b];
    put_text(area, at, &text)
}

// Writes a number in decimal: the digits of its tenth part, and the last one. This and what follows are no `Display`:
// the text goes into an area that a caller lends, with no heap, and `WroteIn` says where.
pub fn put_natural(area: &mut [u8], at: usize, x: u64) -> usize
    ensures wrote { WroteIn area at result (decimal x) }
{
    let last = b'0' + (x % 10) as u8;
    if x < 10 {
        return put_byte(area, at, last);
    }
    let next = put_natural(area, at, x / 10);
    put_byte(area, next, last)
}

// The absolute value, also of the least number.
pub fn magnitude(z: i64) -> u64
    ensures absolute { result ≡ nat_abs z }
{
    z.unsigned_abs()
}

// Writes a signed number in decimal.
pub fn put_integer(area: &mut [u8], at: usize, z: i64) -> usize
    ensures wrote { WroteIn area at result (decimalℤ z) }
{
    let size = magnitude(z);
    if z < 0 {
        let next = put_byte(area, at, b'-');
        return put_natural(area, next, size);
    }
    put_natural(area, at, size)
}

// Writes a space and a count.
fn put_count(area: &mut [u8], at: usize, x: u64) -> usize
    ensures wrote { WroteIn area at result (count_text x) }
{
    let next = put_byte(area, at, b' ');
    put_natural(area, next, x)
}

// Writes a line that begins with a word: the word and the counts.
pub fn put_head(area: &mut [u8], at: usize, word: &[u8], counts: &[u64]) -> usize
    ensures wrote { WroteIn area at result (head_text word.now counts.now) }
{
    let mut end = put_text(area, at, word);
    for count in counts {
        end = put_count(area, end, *count);
    }
    put_byte(area, end, b'\n')
}

// Writes number j of a line, with a space before it unless it is the first.
fn put_entry(area: &mut [u8], at: usize, line: &[i32], j: usize) -> usize
    requires entry { j < length line.now }
    ensures wrote { WroteIn area at result (placed_text line.now j) }
{
    let z = i64::from(line[j]);
    if j == 0 {
        return put_integer(area, at, z);
    }
    let next = put_byte(area, at, b' ');
    put_integer(area, next, z)
}

// Writes a line of numbers.
pub fn put_line(area: &mut [u8], at: usize, line: &[i32]) -> usize
    ensures wrote { WroteIn area at result (line_text line.now) }
{
    let mut end = at;
    for j in 0..line.len() {
        end = put_entry(area, end, line, j);
    }
    put_byte(area, end, b'\n')
}

// Writes the first rows of an area of numbers, a line for each row of `width`.
pub fn put_rows(area: &mut [u8], at: usize, numbers: &[i32], width: usize, count: usize) -> usize
    requires rows { count * width ≤ length numbers.now }
    ensures wrote { WroteIn area at result (lines_text (chunks width count numbers.now)) }
{
    let mut end = at;
    let mut from = 0;
    for i in 0..count {
        let to = from + width;
        end = put_line(area, end, &numbers[from..to]);
        from = to;
    }
    end
}

// Writes a first line, a line for each row of numbers, and END, from the area's start on.
fn put_table(
    area: &mut [u8],
    word: &[u8],
    counts: &[u64],
    numbers: &[i32],
    width: usize,
    count: usize,
) -> usize
    requires rows { count * width ≤ length numbers.now }
    ensures wrote { WroteIn area 0 result (table_text_in word counts width count numbers) }
{
    let head = put_head(area, 0, word, counts);
    let rows = put_rows(area, head, numbers, width, count);
    put_text(area, rows, b"END\n")
}

// Lays an answer's text into the area, with zeros behind it, and answers its length; zeros alone, and a number past the
// area's length, where the text is longer (Specification 9.4). Its lines are the first rows of `width` numbers.
pub fn write_answer(
    area: &mut [u8],
    answer: Result<Answer, Refusal>,
    numbers: &[i32],
    width: usize,
) -> usize
    requires rows { line_count answer * width ≤ length numbers.now }
    ensures laid { LaidIn area result (rows_text answer width numbers.now) }
{
    clear(&mut *area, 0, 0);
    match answer {
        Ok(
            Answer::Moves {
                rows,
                members,
                stored,
                sums,
            },
        ) => {
            let counts = [rows, members, stored, sums];
            put_table(area, b"MOVES", &counts, numbers, width, rows as usize)
        }
        Ok(
            Answer::Split {
                pieces,
                rows,
                members,
                stored,
                sums,
            },
        ) => {
            let counts = [pieces];
            put_table(area, b"SPLIT", &counts, numbers, width, pieces as usize)
        }
        Ok(Answer::Passed { rows, sums }) => {
            let counts = [rows, sums];
            put_head(area, 0, b"PASSED", &counts)
        }
        Err(Refusal { number, place }) => {
            let counts = [number, place];
            put_head(area, 0, b"REFUSED", &counts)
        }
    }
}

// A refusal as one number (Specification 9.4).
fn refusal_code(number: u64, place: u64) -> u64
    requires fits { refusal_code number place < 2 ^ 63 }
    ensures code { result ≡ refusal_code number place }
{
    PLACE_FACTOR * place + number
}

// The result of a refusal (Specification 9.4).
pub fn refusal(number: u64, place: u64) -> i64
    requires fits { refusal_code number place < 2 ^ 63 }
    ensures refused { result ≡ refusal_of number place }
{
    -(refusal_code(number, place) as i64)
}
