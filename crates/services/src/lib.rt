// The services on order files (Specification 1.2 and 1.3): the calls on bytes, and what the programs print.
#![tactic(auto)]

ghost use Rattle.std.specs.Prelude.{◌≡◌, ◌*◌, ◌≤◌, ◌<◌, ◌^◌, length};
ghost use Rattle.definitions.specs.Limits.{cells, list_limit, piece_width};
ghost use Rattle.orders.specs.Scan.{scan_of};
ghost use Rattle.answers.specs.Answers.{line_count, rows_text};
ghost use Rattle.answers.specs.Lengths.{text_limit};
ghost use Rattle.answers.specs.Refusal.{refusal_code};
ghost use Rattle.promises.specs.Services.{end_by, pieces_size, refused_end, served, text_end};
ghost use Rattle.promises.specs.Promise.{CheckCalled, CheckPrinted, ListCalled, ListPrinted};
ghost use Rattle.promises.specs.Promise.{SplitCalled, SplitPrinted};
ghost use Rattle.services.specs.Answered.{OrderFits, OrderRead, Serves, served_in};
ghost use Rattle.services.specs.Answered.{Counted, EndsIn, PrintedFor, PrintsIn, Small};

use answers::lengths::TEXT_LIMIT;
use definitions::limits::{
    BARE_LIMIT, CELLS, EXCHANGE_LIMIT, GENERATOR_LIMIT, GROUP_LIMIT, LENT_PIECES, LIST_LIMIT,
    ORDER_LIMIT, PIECE_WIDTH,
};
use definitions::{Answer, Refusal};
use orders::operands::{
    read_coefficients, read_exchanges, read_generators, read_images, read_rows, read_vector,
};
use orders::{Counts, Service};
use vectors::clear;

// The numbers of the areas for any order.
const GENERATOR_NUMBERS: usize = GENERATOR_LIMIT * CELLS;

const EXCHANGE_NUMBERS: usize = EXCHANGE_LIMIT * CELLS;

const IMAGE_NUMBERS: usize = EXCHANGE_LIMIT * BARE_LIMIT * BARE_LIMIT;

const LIST_NUMBERS: usize = LIST_LIMIT * CELLS;

const GROUP_NUMBERS: usize = GROUP_LIMIT * CELLS;

const PIECE_NUMBERS: usize = LENT_PIECES * PIECE_WIDTH;

const COEFFICIENT_NUMBERS: usize = LIST_LIMIT * GENERATOR_LIMIT;

// The bytes that a program reads of its input, and those of its answer area: enough for any order and any text.
pub const ORDER_BYTES: usize = ORDER_LIMIT;

pub const ANSWER_BYTES: usize = TEXT_LIMIT;

// An answer, and the numbers of each of its lines.
#[derive(Clone, Copy)]
struct Reply {
    answer: Result<Answer, Refusal>,
    width: usize,
}

// The generators, the exchanges and the images of an accepted file, into areas for any order.
fn read_order(
    order: &[u8],
    c: Counts,
    generators: &mut [i32],
    exchanges: &mut [u8],
    images: &mut [i64],
)
    requires fits { OrderFits order.now c generators.old exchanges.old images.old }
    ensures read { OrderRead order.now c generators.new exchanges.new images.new }
{
    read_generators(order, c, generators);
    read_exchanges(order, c, exchanges);
    read_images(order, c, images);
}

// List on an accepted file whose order was read: its answer, and its rows at the start of an area for any list.
fn list_order(
    order: &[u8],
    c: Counts,
    generators: &[i32],
    exchanges: &[u8],
    images: &[i64],
    list: &mut [i32],
) -> Result<Answer, Refusal>
    requires accepted { scan_of Service.List order.now ≡ Ok c }
    requires read { OrderRead order.now c generators.now exchanges.now images.now }
    requires room { list_limit * cells ≤ length list.old }
    ensures served { Serves (served_in Service.List order.now c) result c.cells list.new }
{
    let mut group = [0u8; GROUP_NUMBERS];
    let n = c.cells;
    let m = c.generators * n;
    let e = c.exchanges * n;
    let i = c.images * c.generators;
    let l = LIST_LIMIT * n;
    let g = GROUP_LIMIT * n;
    moves::list(
        n,
        &generators[..m],
        &exchanges[..e],
        &images[..i],
        &mut list[..l],
        &mut group[..g],
    )
}

// List on an accepted file: its answer, and its rows at the start of an area for any list (Specification 1.2).
fn list_file(order: &[u8], c: Counts, list: &mut [i32]) -> Result<Answer, Refusal>
    requires accepted { scan_of Service.List order.now ≡ Ok c }
    requires room { list_limit * cells ≤ length list.old }
    ensures served { Serves (served_in Service.List order.now c) result c.cells list.new }
{
    let mut generators = [0i32; GENERATOR_NUMBERS];
    let mut exchanges = [0u8; EXCHANGE_NUMBERS];
    let mut images = [0i64; IMAGE_NUMBERS];
    read_order(order, c, &mut generators, &mut exchanges, &mut images);
    list_order(order, c, &generators, &exchanges, &images, list)
}

// Split on an accepted file whose order was read: its answer, and its pieces in the pieces area.
fn split_order(
    order: &[u8],
    c: Counts,
    generators: &[i32],
    exchanges: &[u8],
    images: &[i64],
    pieces: &mut [i32],
) -> Result<Answer, Refusal>
    requires accepted { scan_of Service.Split order.now ≡ Ok c }
    requires read { OrderRead order.now c generators.now exchanges.now images.now }
    requires room { length pieces.old ≡ pieces_size }
    ensures served { Serves (served_in Service.Split order.now c) result piece_width pieces.new }
{
    let mut vector = [0i32; CELLS];
    let mut list = [0i32; LIST_NUMBERS];
    let mut group = [0u8; GROUP_NUMBERS];
    let n = c.cells;
    let m = c.generators * n;
    let e = c.exchanges * n;
    let i = c.images * c.generators;
    let l = LIST_LIMIT * n;
    let g = GROUP_LIMIT * n;
    read_vector(order, c, &mut vector);
    moves::split(
        n,
        &generators[..m],
        &exchanges[..e],
        &images[..i],
        &vector[..n],
        &mut list[..l],
        &mut group[..g],
        pieces,
    )
}

// Split on an accepted file: its answer, and its pieces in the pieces area (Specification 1.2). One function with
// `list_file` would take the call as a closure, and repeat the contract of each.
fn split_file(order: &[u8], c: Counts, pieces: &mut [i32]) -> Result<Answer, Refusal>
    requires accepted { scan_of Service.Split order.now ≡ Ok c }
    requires room { length pieces.old ≡ pieces_size }
    ensures served { Serves (served_in Service.Split order.now c) result piece_width pieces.new }
{
    let mut generators = [0i32; GENERATOR_NUMBERS];
    let mut exchanges = [0u8; EXCHANGE_NUMBERS];
    let mut images = [0i64; IMAGE_NUMBERS];
    read_order(order, c, &mut generators, &mut exchanges, &mut images);
    split_order(order, c, &generators, &exchanges, &images, pieces)
}

// Check on an accepted file whose order was read: its answer.
fn check_order(
    order: &[u8],
    c: Counts,
    generators: &[i32],
    exchanges: &[u8],
    images: &[i64],
) -> Result<Answer, Refusal>
    requires accepted { scan_of Service.Check order.now ≡ Ok c }
    requires read { OrderRead order.now c generators.now exchanges.now images.now }
    ensures served { result ≡ (served_in Service.Check order.now c).answer }
{
    let mut rows = [0i32; LIST_NUMBERS];
    let mut coefficients = [0i64; COEFFICIENT_NUMBERS];
    let mut group = [0u8; GROUP_NUMBERS];
    let n = c.cells;
    let m = c.generators * n;
    let e = c.exchanges * n;
    let i = c.images * c.generators;
    let k = c.rows * n;
    let q = c.rows * c.generators;
    let g = GROUP_LIMIT * n;
    read_rows(order, c, &mut rows);
    read_coefficients(order, c, &mut coefficients);
    moves::check(
        n,
        &generators[..m],
        &exchanges[..e],
        &images[..i],
        &rows[..k],
        &coefficients[..q],
        &mut group[..g],
    )
}

// Check on an accepted file: its answer (Specification 1.2).
fn check_file(order: &[u8], c: Counts) -> Result<Answer, Refusal>
    requires accepted { scan_of Service.Check order.now ≡ Ok c }
    ensures served { result ≡ (served_in Service.Check order.now c).answer }
{
    let mut generators = [0i32; GENERATOR_NUMBERS];
    let mut exchanges = [0u8; EXCHANGE_NUMBERS];
    let mut images = [0i64; IMAGE_NUMBERS];
    read_order(order, c, &mut generators, &mut exchanges, &mut images);
    check_order(order, c, &generators, &exchanges, &images)
}

// List on any file: its answer, and its rows in an area for any list.
fn serve_list(order: &[u8], list: &mut [i32]) -> Reply
    requires room { list_limit * cells ≤ length list.old }
    ensures served { Serves (served Service.List order.now) result.answer result.width list.new }
{
    match orders::scan(order, Service::List) {
        Err(refusal) => Reply {
            answer: Err(refusal),
            width: 0,
        },
        Ok(c) => Reply {
            answer: list_file(order, c, list),
            width: c.cells,
        },
    }
}

// Split on any file: its answer, and its pieces in the pieces area.
fn serve_split(order: &[u8], pieces: &mut [i32]) -> Result<Answer, Refusal>
    requires room { length pieces.old ≡ pieces_size }
    ensures served { Serves (served Service.Split order.now) result piece_width pieces.new }
{
    let c = orders::scan(order, Service::Split)?;
    split_file(order, c, pieces)
}

// Check on any file: its answer.
fn serve_check(order: &[u8]) -> Result<Answer, Refusal>
    ensures served { result ≡ (served Service.Check order.now).answer }
{
    let c = orders::scan(order, Service::Check)?;
    check_file(order, c)
}

// A call that ends with a refusal: its area is cleared (Specification 9.4).
fn refuse(area: &mut [u8], number: u64, place: u64) -> i64
    requires fits { refusal_code number place < 2 ^ 63 }
    ensures ends { EndsIn area (λ size. refused_end size number place) result }
{
    clear(area, 0, 0);
    answers::refusal(number, place)
}

// A call that ends with a text: its length, or 6 at 0 where it is longer than the area (Specification 9.4).
fn lay(area: &mut [u8], answer: Result<Answer, Refusal>, numbers: &[i32], width: usize) -> i64
    requires rows { line_count answer * width ≤ length numbers.now }
    ensures ends { EndsIn area (λ size. text_end size (rows_text answer width numbers.now)) result }
{
    let size = area.len();
    let end = answers::write_answer(area, answer, numbers, width);
    if size < end {
        return answers::refusal(6, 0);
    }
    end as i64
}

// A call that ends with an answer, whose lines are the first rows of `width` numbers (Specification 9.4).
fn respond(area: &mut [u8], answer: Result<Answer, Refusal>, numbers: &[i32], width: usize) -> i64
    requires rows { line_count answer * width ≤ length numbers.now }
    requires small { Small answer }
    ensures ends { EndsIn area (λ size. end_by size answer (rows_text answer width numbers.now)) result }
{
    if let Err(Refusal { number, place }) = answer {
        return refuse(area, number, place);
    }
    lay(area, answer, numbers, width)
}

// The text of an answer in an area that has room for any, and its length (Specification 1.3).
fn print(
    area: &mut [u8; ANSWER_BYTES],
    answer: Result<Answer, Refusal>,
    numbers: &[i32],
    width: usize,
) -> usize
    requires rows { line_count answer * width ≤ length numbers.now }
    ensures roomy { text_limit ≤ length area.old }
    ensures laid { PrintsIn area (rows_text answer width numbers.now) result }
{
    let room = area.len();
    let end = answers::write_answer(area, answer, numbers, width);
    if room < end {
        return 0;
    }
    end
}

// List on an order file, for C (Specification 1.2).
pub fn sukoreta_list(order: &[u8], answer: &mut [u8]) -> i64
    ensures kept { ListCalled order.now (length answer.old) result answer.new }
{
    let mut list = [0i32; LIST_NUMBERS];
    let reply = serve_list(order, &mut list);
    let found = reply.answer;
    let width = reply.width;
    respond(answer, found, &list, width)
}

// Split on an order file, for C (Specification 1.2).
pub fn sukoreta_split(order: &[u8], answer: &mut [u8]) -> i64
    ensures kept { SplitCalled order.now (length answer.old) result answer.new }
{
    let mut pieces = [0i32; PIECE_NUMBERS];
    let found = serve_split(order, &mut pieces);
    respond(answer, found, &pieces, PIECE_WIDTH)
}

// Check on an order file, for C (Specification 1.2).
pub fn sukoreta_check(order: &[u8], answer: &mut [u8]) -> i64
    ensures kept { CheckCalled order.now (length answer.old) result answer.new }
{
    let none = [0i32; 1];
    let found = serve_check(order);
    respond(answer, found, &none, 0)
}

// The bytes of the longest text, for C: an answer area of so many has room for any (Specification 9.4).
pub fn sukoreta_answer_limit() -> usize
    ensures longest { result ≡ text_limit }
{
    answers::lengths::text_limit()
}

// What `list_moves` prints, and its length, where the first n bytes of the buffer were read (Specification 1.3).
pub fn print_list(buffer: &[u8; ORDER_BYTES], n: usize, answer: &mut [u8; ANSWER_BYTES]) -> usize
    requires read { n ≤ length buffer.now }
    ensures counted { Counted result answer.new }
    ensures printed { PrintedFor ListPrinted buffer.now n result answer.new }
{
    let whole = &buffer[..];
    let mut list = [0i32; LIST_NUMBERS];
    let reply = serve_list(&whole[..n], &mut list);
    let found = reply.answer;
    let width = reply.width;
    print(answer, found, &list, width)
}

// What `split_moves` prints, and its length, where the first n bytes of the buffer were read (Specification 1.3).
pub fn print_split(buffer: &[u8; ORDER_BYTES], n: usize, answer: &mut [u8; ANSWER_BYTES]) -> usize
    requires read { n ≤ length buffer.now }
    ensures counted { Counted result answer.new }
    ensures printed { PrintedFor SplitPrinted buffer.now n result answer.new }
{
    let whole = &buffer[..];
    let mut pieces = [0i32; PIECE_NUMBERS];
    let found = serve_split(&whole[..n], &mut pieces);
    print(answer, found, &pieces, PIECE_WIDTH)
}

// What `check_moves` prints, and its length, where the first n bytes of the buffer were read (Specification 1.3).
pub fn print_check(buffer: &[u8; ORDER_BYTES], n: usize, answer: &mut [u8; ANSWER_BYTES]) -> usize
    requires read { n ≤ length buffer.now }
    ensures counted { Counted result answer.new }
    ensures printed { PrintedFor CheckPrinted buffer.now n result answer.new }
{
    let whole = &buffer[..];
    let none = [0i32; 1];
    let found = serve_check(&whole[..n]);
    print(answer, found, &none, 0)
}
