// The numbers that an accepted order lends, read into lent areas by a walk over its commands (Specification 8.3). Those
// of a command are decoded in the part of the order that starts at its operands (Specification 8.1).
ghost use Rattle.std.specs.Prelude.{◌≡◌, ℕ, ◌+◌, ◌*◌, ◌≤◌, length};
ghost use Rattle.commands.specs.Decode.{signed_at};
ghost use Rattle.orders.specs.Operands.{Readable};
ghost use Rattle.orders.specs.Operands.{generators_in, exchanges_in, images_in, rows_in, coefficients_in, vector_in};
ghost use Rattle.orders.specs.Walk.{ByteSize, Filled, Holds, Inside, Reader, SignedSize, TakenIn};
ghost use Rattle.orders.specs.Walk.{byte_number, kind_gathered, kind_numbers, signed_number};

use crate::Counts;
use commands::{
    COEFFICIENTS, Command, EXCHANGE, GENERATOR, IMAGE, ROW, Reading, VECTOR, behind, byte_at,
    code_of, command_at, operands_of, short_at, word_at,
};

// The commands with a byte, and the numbers of each: `count` of them, of `size` bytes each.
#[derive(Clone, Copy)]
struct Kind {
    code: usize,
    size: usize,
    count: usize,
}

// The signed number of two or four bytes, in a part of the order.
fn signed_at(part: &[u8], at: usize, size: usize) -> i32
    requires within { SignedSize size × (at + size ≤ length part.now) }
    ensures number { result ≡ signed_at size part.now at }
{
    if size == 2 {
        return short_at(part, at);
    }
    word_at(part, at)
}

// A number of an operand, as an area holds it.
trait Number: Copy {
    // How many bytes it may take in an order.
    ghost has_size: { ℕ → Type 0 };

    // Number j of a part of the order.
    ghost number: { Reader Self };

    // Reads number j of a part where each takes `size` bytes.
    fn read(part: &[u8], size: usize, j: usize) -> Self
        requires size { has_size size }
        requires room { size * j + size ≤ length part.now }
        ensures number { result ≡ number size part.now j };
}

impl Number for i32 {
    ghost has_size = { SignedSize };

    ghost number = { signed_number };

    fn read(part: &[u8], size: usize, j: usize) -> i32 {
        signed_at(part, size * j, size)
    }
}

impl Number for i64 {
    ghost has_size = { SignedSize };

    ghost number = { signed_number };

    fn read(part: &[u8], size: usize, j: usize) -> i64 {
        i64::from(signed_at(part, size * j, size))
    }
}

impl Number for u8 {
    ghost has_size = { ByteSize };

    ghost number = { byte_number };

    fn read(part: &[u8], _size: usize, j: usize) -> u8 {
        byte_at(part, j)
    }
}

// The numbers of a command of a kind, into an area behind those that are filled; how many are filled then.
fn take<T: Number>(
    order: &[u8],
    command: Command,
    kind: Kind,
    filled: usize,
    area: &mut [T],
) -> usize
    requires size { T.has_size kind.size }
    requires inside { Inside order.now kind.code kind.size kind.count command }
    requires room { filled + length (kind_numbers T.number kind order.now command) ≤ length area.old }
    ensures taken { TakenIn (kind_numbers T.number kind order.now command) filled area result }
{
    if code_of(command) != kind.code {
        return filled;
    }
    let part = &order[operands_of(command)..];
    for j in 0..kind.count {
        area[filled + j] = T::read(part, kind.size, j);
    }
    filled + kind.count
}

// The numbers of all commands of a kind, into an area.
fn read<T: Number>(order: &[u8], c: Counts, kind: Kind, area: &mut [T])
    requires readable { Readable order.now c }
    requires kind { T.has_size kind.size × Holds kind.code kind.size kind.count c }
    requires room { length (kind_gathered T.number kind order.now c) ≤ length area.old }
    ensures read { Filled (kind_gathered T.number kind order.now c) area }
{
    let mut at = 0;
    let mut filled = 0;
    // Not a `for`: the length of a command decides where the next one is.
    while let Reading::Known(command) = command_at(order, at) {
        filled = take(order, command, kind, filled, area);
        at = behind(order, command, c.cells, c.generators);
    }
}

// The cells of the exchanges, into an area.
#[tactic(auto, unfolding(crate::specs::Operands::exchanges_in))]
pub fn read_exchanges(order: &[u8], c: Counts, area: &mut [u8])
    requires readable { Readable order.now c }
    requires room { length (exchanges_in order.now c) ≤ length area.old }
    ensures read { Filled (exchanges_in order.now c) area }
{
    let kind = Kind {
        code: EXCHANGE,
        size: 1,
        count: c.cells,
    };
    read(order, c, kind, area);
}

// This and the next five are calls of `read`, each with the command that it reads and a contract of its own.

// The coefficients of the images, into an area.
#[tactic(auto, unfolding(crate::specs::Operands::images_in))]
pub fn read_images(order: &[u8], c: Counts, area: &mut [i64])
    requires readable { Readable order.now c }
    requires room { length (images_in order.now c) ≤ length area.old }
    ensures read { Filled (images_in order.now c) area }
{
    let kind = Kind {
        code: IMAGE,
        size: 4,
        count: c.generators,
    };
    read(order, c, kind, area);
}

// The coefficients of the rows, into an area.
#[tactic(auto, unfolding(crate::specs::Operands::coefficients_in))]
pub fn read_coefficients(order: &[u8], c: Counts, area: &mut [i64])
    requires readable { Readable order.now c }
    requires room { length (coefficients_in order.now c) ≤ length area.old }
    ensures read { Filled (coefficients_in order.now c) area }
{
    let kind = Kind {
        code: COEFFICIENTS,
        size: 4,
        count: c.generators,
    };
    read(order, c, kind, area);
}

// The numbers of the generators, into an area.
#[tactic(auto, unfolding(crate::specs::Operands::generators_in))]
pub fn read_generators(order: &[u8], c: Counts, area: &mut [i32])
    requires readable { Readable order.now c }
    requires room { length (generators_in order.now c) ≤ length area.old }
    ensures read { Filled (generators_in order.now c) area }
{
    let kind = Kind {
        code: GENERATOR,
        size: 2,
        count: c.cells,
    };
    read(order, c, kind, area);
}

// The numbers of the rows, into an area.
#[tactic(auto, unfolding(crate::specs::Operands::rows_in))]
pub fn read_rows(order: &[u8], c: Counts, area: &mut [i32])
    requires readable { Readable order.now c }
    requires room { length (rows_in order.now c) ≤ length area.old }
    ensures read { Filled (rows_in order.now c) area }
{
    let kind = Kind {
        code: ROW,
        size: 2,
        count: c.cells,
    };
    read(order, c, kind, area);
}

// The numbers of the vector, into an area.
#[tactic(auto, unfolding(crate::specs::Operands::vector_in))]
pub fn read_vector(order: &[u8], c: Counts, area: &mut [i32])
    requires readable { Readable order.now c }
    requires room { length (vector_in order.now c) ≤ length area.old }
    ensures read { Filled (vector_in order.now c) area }
{
    let kind = Kind {
        code: VECTOR,
        size: 4,
        count: c.cells,
    };
    read(order, c, kind, area);
}
