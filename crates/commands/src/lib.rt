// The commands of an order file and the numbers of their operands (Specification 8.1).
#![tactic(auto)]

ghost use Rattle.std.specs.Prelude.{◌≡◌, ◌+◌, ◌≤◌, ◌<◌, length};
ghost use Rattle.definitions.specs.Limits.{cells, generator_limit};
ghost use Rattle.commands.specs.Commands.{behind, command_at, code_of, operands_of, width_of};
ghost use Rattle.commands.specs.Decode.{byte_at, short_at, word_at};

// A command, with the offset where its operands start.
#[derive(Clone, Copy)]
pub enum Command {
    Size(usize),
    Generator(usize),
    Exchange(usize),
    Row(usize),
    Coefficients(usize),
    Vector(usize),
    Image(usize),
    End(usize),
}

// What stands where a command is due: a command, another byte, or the end of the order.
#[derive(Clone, Copy)]
pub enum Reading {
    Known(Command),
    Unknown,
    Past,
}

// The bytes of the commands. A rule names a kind by its byte: an enum of kinds would have the eight cases of `Command`
// again, without their offsets.
pub const END: usize = 0;

pub const SIZE: usize = 1;

pub const GENERATOR: usize = 2;

pub const EXCHANGE: usize = 3;

pub const ROW: usize = 4;

pub const COEFFICIENTS: usize = 5;

pub const VECTOR: usize = 6;

pub const IMAGE: usize = 7;

// The command that is due at an offset.
#[tactic(auto, unfolding(crate::specs::Commands::command_at, crate::specs::Commands::command_of))]
pub fn command_at(order: &[u8], at: usize) -> Reading
    ensures due { result ≡ command_at order.now at }
{
    if order.len() <= at {
        return Reading::Past;
    }
    let code = order[at];
    let p = at + 1;
    match code {
        0 => Reading::Known(Command::End(p)),
        1 => Reading::Known(Command::Size(p)),
        2 => Reading::Known(Command::Generator(p)),
        3 => Reading::Known(Command::Exchange(p)),
        4 => Reading::Known(Command::Row(p)),
        5 => Reading::Known(Command::Coefficients(p)),
        6 => Reading::Known(Command::Vector(p)),
        7 => Reading::Known(Command::Image(p)),
        _ => Reading::Unknown,
    }
}

// The byte of a command.
pub fn code_of(command: Command) -> usize
    ensures code { result ≡ code_of command }
{
    match command {
        Command::End(_) => END,
        Command::Size(_) => SIZE,
        Command::Generator(_) => GENERATOR,
        Command::Exchange(_) => EXCHANGE,
        Command::Row(_) => ROW,
        Command::Coefficients(_) => COEFFICIENTS,
        Command::Vector(_) => VECTOR,
        Command::Image(_) => IMAGE,
    }
}

// Where the operands of a command start.
pub fn operands_of(command: Command) -> usize
    ensures start { result ≡ operands_of command }
{
    match command {
        Command::End(p)
        | Command::Size(p)
        | Command::Generator(p)
        | Command::Exchange(p)
        | Command::Row(p)
        | Command::Coefficients(p)
        | Command::Vector(p)
        | Command::Image(p) => p,
    }
}

// How many bytes the operands of a command take, with n cells and m generators.
pub fn width_of(command: Command, n: usize, m: usize) -> usize
    requires limited { (n ≤ cells) × (m ≤ generator_limit) }
    ensures width { result ≡ width_of command n m }
{
    match command {
        Command::End(_) => 0,
        Command::Size(_) => 1,
        Command::Generator(_) => 2 * n,
        Command::Exchange(_) => n,
        Command::Row(_) => 2 * n,
        Command::Coefficients(_) => 4 * m,
        Command::Vector(_) => 4 * n,
        Command::Image(_) => 4 * m,
    }
}

// Where the next command is due: behind the operands of a command of the order, with n cells and m generators.
pub fn behind(order: &[u8], command: Command, n: usize, m: usize) -> usize
    requires limited { (n ≤ cells) × (m ≤ generator_limit) }
    requires inside { operands_of command ≤ length order.now }
    ensures next { result ≡ behind command n m }
{
    operands_of(command) + width_of(command, n, m)
}

// The number of one byte, in a part of the order.
pub fn byte_at(part: &[u8], at: usize) -> u8
    requires room { at < length part.now }
    ensures number { result ≡ byte_at part.now at }
{
    part[at]
}

// The signed number of two bytes, in a part of the order.
pub fn short_at(part: &[u8], at: usize) -> i32
    requires room { at + 2 ≤ length part.now }
    ensures number { result ≡ short_at part.now at }
{
    i32::from(i16::from_le_bytes([part[at], part[at + 1]]))
}

// The signed number of four bytes, in a part of the order.
pub fn word_at(part: &[u8], at: usize) -> i32
    requires room { at + 4 ≤ length part.now }
    ensures number { result ≡ word_at part.now at }
{
    i32::from_le_bytes([part[at], part[at + 1], part[at + 2], part[at + 3]])
}
