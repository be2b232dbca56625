// Works the sample orders of Specification 10 by the lent calls, and prints the name and the answer of each. The file
// `stdout`, with which the check compares this, was not made by a run: the answers are those of the specification's
// table, laid out by its section 9. The 15 rows of 14, which the table only counts, come from a search through all 3 by
// 3 tables with zero sums and no entry past 3 (`minimal_tables` in tests/tables.py): the minimal ones, each with the
// sign that makes it the greater of the two (2.6), sorted (2.7). 4ti2's `graver` gives the same. 24 to 35 are Lists
// with coefficients: behind the text of an accepted one come COEFFICIENTS, a line for each row, and END. 36 to 45 are
// sessions: the text of order 0, that of order 1, for one with sums left UNFINISHED and the sums tried, and the numbers
// of the group area. The lines of both in `stdout` were made by tests/outside.py.
#![tactic(auto)]

ghost use Rattle.std.specs.Prelude.{◌≡◌, ◌*◌, ◌≤◌, ◌<◌, length};
ghost use Rattle.definitions.specs.Limits.{cells, generator_limit, session_rows};
ghost use Rattle.answers.specs.Answers.{line_count};

use answers::lengths::TEXT_LIMIT;
use definitions::limits::{
    CELLS, ENTRY_LIMIT, GENERATOR_LIMIT, GROUP_LIMIT, LENT_PIECES, LIST_LIMIT, PIECE_WIDTH,
    SESSION_ROWS,
};
use definitions::{Answer, Ending, Refusal};

// The list rows that programs lend (Specification 1.2), for the most cells.
const LIST_AREA: usize = LIST_LIMIT * CELLS;

// The group rows that programs lend, for the most cells.
const GROUP_AREA: usize = GROUP_LIMIT * CELLS;

// The pieces that programs lend.
const PIECES_AREA: usize = LENT_PIECES * PIECE_WIDTH;

// As many coefficients as those list rows have, for the most generators.
const COEFFICIENTS_AREA: usize = LIST_LIMIT * GENERATOR_LIMIT;

// Room for a number of 64 bits and its sign.
const NUMBER: usize = 20;

// Room for a word and a number of 64 bits.
const WORD: usize = 40;

// The generators of P2, P7, 24 and 36.
const GENERATORS_2: [i32; 2] = [2, 3];

// The generators of P3, P12, P17 to P22, 25 and 43.
const GENERATORS_3: [i32; 6] = [1, -1, 0, 0, 1, -1];

// The generators of P4, P5 and 26.
const GENERATORS_4: [i32; 9] = [1, 0, -1, 2, -1, 0, 0, -1, 2];

// The generators of P15 and P16.
const GENERATORS_15: [i32; 4] = [2, -2, 3, 0];

// The generators of 32: the row (0,0,0,1) takes the first a million times.
const GENERATORS_32: [i32; 16] = [1, 0, 0, 0, 100, 1, 0, 0, 0, 100, 1, 0, 0, 0, 100, 1];

// The generators of 33 and 34: it takes the first more often.
const GENERATORS_33: [i32; 16] = [1, 0, 0, 0, 100, 1, 0, 0, 0, 100, 1, 0, 0, 0, 101, 1];

// The exchange of P4, P5, 26 and 31.
const EXCHANGE_4: [u8; 3] = [3, 2, 1];

// The exchanges of 13 and 35: the swap of rows 0 and 1, the swap of rows 1 and 2, and the transposition.
const EXCHANGES_13: [u8; 27] =
    *b"\x04\x05\x06\x01\x02\x03\x07\x08\x09\x01\x02\x03\x07\x08\x09\x04\x05\x06\x01\x04\x07\x02\x05\x08\x03\x06\x09";

// The exchange of P17 to P20, P22 and 43.
const EXCHANGE_17: [u8; 3] = [2, 3, 1];

// The exchange of 37 to 39 and 42.
const SWAP: [u8; 2] = [2, 1];

// An order with no images is not bare.
const NO_IMAGES: [i64; 0] = [];

// The images of P17, P18, P19 and 43.
const IMAGES_17: [i64; 4] = [-1, -1, 1, 0];

// ---- calls

// The lines of numbers that the text of an answer has.
fn line_count(answer: Result<Answer, Refusal>) -> u64
    ensures lines { result ≡ line_count answer }
{
    match answer {
        Ok(Answer::Moves { rows, .. }) => rows,
        Ok(Answer::Split { pieces, .. }) => pieces,
        _ => 0,
    }
}

// Prints the name of a sample and the text of its answer (Specification 9). Both tests are always met: the area of an
// accepted call holds as many rows as the answer counts, and no text is longer. If one were not met, the missing text
// would show against `stdout`.
fn show(name: &[u8], answer: Result<Answer, Refusal>, numbers: &[i32], width: usize)
    requires some { 1 ≤ width }
{
    io::write_all(1, name);
    let lines = line_count(answer) as usize;
    if lines <= numbers.len() / width {
        let mut text = [0u8; TEXT_LIMIT];
        let end = answers::write_answer(&mut text, answer, numbers, width);
        if end <= TEXT_LIMIT {
            io::write_all(1, &text[..end]);
        }
    }
}

// A List on these areas.
fn list_in(
    name: &[u8],
    n: usize,
    generators: &[i32],
    exchanges: &[u8],
    images: &[i64],
    list: &mut [i32],
    group: &mut [u8],
)
    requires some { 1 ≤ n }
{
    let answer = moves::list(n, generators, exchanges, images, &mut *list, &mut *group);
    show(name, answer, &*list, n);
}

// A List on the areas that programs lend.
fn list(name: &[u8], n: usize, generators: &[i32], exchanges: &[u8], images: &[i64])
    requires sized { (1 ≤ n) × (n ≤ cells) }
{
    let mut list = [0i32; LIST_AREA];
    let mut group = [0u8; GROUP_AREA];
    let rows = LIST_LIMIT * n;
    let table = GROUP_LIMIT * n;
    list_in(
        name,
        n,
        generators,
        exchanges,
        images,
        &mut list[..rows],
        &mut group[..table],
    );
}

// A Split on the areas that programs lend.
fn split(
    name: &[u8],
    n: usize,
    generators: &[i32],
    exchanges: &[u8],
    images: &[i64],
    vector: &[i32],
)
    requires sized { n ≤ cells }
{
    let mut list = [0i32; LIST_AREA];
    let mut group = [0u8; GROUP_AREA];
    let mut pieces = [0i32; PIECES_AREA];
    let rows = LIST_LIMIT * n;
    let table = GROUP_LIMIT * n;
    let answer = moves::split(
        n,
        generators,
        exchanges,
        images,
        vector,
        &mut list[..rows],
        &mut group[..table],
        &mut pieces,
    );
    show(name, answer, &pieces, PIECE_WIDTH);
}

// A Check on the area that programs lend. The answer has no lines of numbers.
fn check(
    name: &[u8],
    n: usize,
    generators: &[i32],
    exchanges: &[u8],
    images: &[i64],
    rows: &[i32],
    coefficients: &[i64],
)
    requires sized { n ≤ cells }
{
    let mut group = [0u8; GROUP_AREA];
    let table = GROUP_LIMIT * n;
    let answer = moves::check(
        n,
        generators,
        exchanges,
        images,
        rows,
        coefficients,
        &mut group[..table],
    );
    show(name, answer, rows, 1);
}

// Prints a number. The test is always met.
fn show_number(z: i64) {
    let mut text = [0u8; NUMBER];
    let end = answers::put_integer(&mut text, 0, z);
    if end <= NUMBER {
        io::write_all(1, &text[..end]);
    }
}

// Prints a coefficient, and what stands behind it.
fn show_coefficient(z: i64, last: bool) {
    show_number(z);
    if last {
        io::write_all(1, b"\n");
    } else {
        io::write_all(1, b" ");
    }
}

// Prints coefficient i, if it is one of the first rows, which have `width` each.
fn show_at(coefficients: &[i64], i: usize, width: usize, rows: usize)
    requires entry { i < length coefficients.now }
    requires some { 1 ≤ width }
{
    if i / width < rows {
        let next = i + 1;
        show_coefficient(coefficients[i], next % width == 0);
    }
}

// Prints the coefficients of the first rows, a line of `width` for each.
fn show_coefficients(coefficients: &[i64], width: usize, rows: usize)
    requires some { 1 ≤ width }
{
    io::write_all(1, b"COEFFICIENTS\n");
    for i in 0..coefficients.len() {
        show_at(coefficients, i, width, rows);
    }
    io::write_all(1, b"END\n");
}

// A List with coefficients of m generators on these areas.
fn with_coefficients_in(
    name: &[u8],
    n: usize,
    m: usize,
    generators: &[i32],
    exchanges: &[u8],
    list: &mut [i32],
    group: &mut [u8],
    coefficients: &mut [i64],
)
    requires some { 1 ≤ n }
    requires counted { 1 ≤ m }
{
    let answer = certified_lists::list_with_coefficients(
        n,
        generators,
        exchanges,
        &NO_IMAGES,
        &mut *list,
        &mut *group,
        &mut *coefficients,
    );
    show(name, answer, &*list, n);
    let rows = line_count(answer) as usize;
    if 0 < rows {
        show_coefficients(&*coefficients, m, rows);
    }
}

// A List with coefficients of m generators, on the areas that programs lend and as many coefficients.
fn with_coefficients(name: &[u8], n: usize, m: usize, generators: &[i32], exchanges: &[u8])
    requires sized { (1 ≤ n) × (n ≤ cells) }
    requires counted { (1 ≤ m) × (m ≤ generator_limit) }
{
    let mut list = [0i32; LIST_AREA];
    let mut group = [0u8; GROUP_AREA];
    let mut coefficients = [0i64; COEFFICIENTS_AREA];
    let rows = LIST_LIMIT * n;
    let table = GROUP_LIMIT * n;
    let numbers = LIST_LIMIT * m;
    with_coefficients_in(
        name,
        n,
        m,
        generators,
        exchanges,
        &mut list[..rows],
        &mut group[..table],
        &mut coefficients[..numbers],
    );
}

// Prints the name of a sample and how an order of a session ends; its rows are numbers of `width` each.
fn show_ending(name: &[u8], ending: Result<Ending, Refusal>, numbers: &[i32], width: usize)
    requires some { 1 ≤ width }
{
    match ending {
        Ok(
            Ending::Moves {
                rows,
                members,
                stored,
                sums,
            },
        ) => {
            let answer = Answer::Moves {
                rows,
                members,
                stored,
                sums,
            };
            show(name, Ok(answer), numbers, width);
        }
        Ok(Ending::Unfinished { sums }) => {
            io::write_all(1, name);
            show_unfinished(sums);
        }
        Err(refusal) => {
            show(name, Err(refusal), numbers, width);
        }
    }
}

// Prints that an order has sums left, and how many it has tried. The test is always met.
fn show_unfinished(sums: u64) {
    let mut text = [0u8; WORD];
    let counts = [sums];
    let end = answers::put_head(&mut text, 0, b"UNFINISHED", &counts);
    if end <= WORD {
        io::write_all(1, &text[..end]);
    }
}

// Prints the numbers of a group area.
fn show_group(group: &[u8]) {
    io::write_all(1, b"GROUP");
    for byte in group {
        io::write_all(1, b" ");
        show_number(*byte as i64);
    }
    io::write_all(1, b"\n");
}

// A session of two orders of n cells: how each ends, and the group area.
fn session_in(
    name: &[u8],
    n: usize,
    generators0: &[i32],
    exchanges0: &[u8],
    images0: &[i64],
    generators1: &[i32],
    exchanges1: &[u8],
    list: &mut [i32],
    group: &mut [u8],
    steps: &[u8],
)
    requires sized { (1 ≤ n) × (n ≤ cells) }
    requires halves { n * session_rows ≤ length list.old }
{
    let answer = sessions::session(
        n,
        generators0,
        exchanges0,
        images0,
        n,
        generators1,
        exchanges1,
        &NO_IMAGES,
        &mut *list,
        &mut *group,
        steps,
    );
    let half = n * SESSION_ROWS;
    let first = answer.first;
    let second = answer.second;
    show_ending(name, first, &list[..half], n);
    show_ending(b"", second, &list[half..], n);
    show_group(&*group);
}

// ---- samples

// P1: no generators.
fn p1() {
    let generators = [0i32; 0];
    list(b"P1\n", 1, &generators, b"", &NO_IMAGES);
}

// P2: (2) and (3).
fn p2() {
    list(b"P2\n", 1, &GENERATORS_2, b"", &NO_IMAGES);
}

// P3: the differences of neighbouring cells.
fn p3() {
    list(b"P3\n", 3, &GENERATORS_3, b"", &NO_IMAGES);
}

// P4: the order of the sample file.
fn p4() {
    list(b"P4\n", 3, &GENERATORS_4, &EXCHANGE_4, &NO_IMAGES);
}

// P5: P4 with two list rows lent.
fn p5() {
    let mut list = [0i32; 6];
    let mut group = [0u8; GROUP_AREA];
    let table = GROUP_LIMIT * 3;
    list_in(
        b"P5\n",
        3,
        &GENERATORS_4,
        &EXCHANGE_4,
        &NO_IMAGES,
        &mut list,
        &mut group[..table],
    );
}

// P6: entries at the limit, and a remainder past it.
fn p6() {
    let most = ENTRY_LIMIT as i32;
    let generators = [most, 1, 1, most];
    list(b"P6\n", 2, &generators, b"", &NO_IMAGES);
}

// P7: (5) by (2) and (3).
fn p7() {
    let vector = [5i32];
    split(b"P7\n", 1, &GENERATORS_2, b"", &NO_IMAGES, &vector);
}

// P8: (1) is no multiple of (2).
fn p8() {
    let generators = [2i32];
    let vector = [1i32];
    split(b"P8\n", 1, &generators, b"", &NO_IMAGES, &vector);
}

// P9: an exchange that does not keep the generators.
fn p9() {
    let generators = [1i32, 0];
    let exchanges = [2u8, 1];
    list(b"P9\n", 2, &generators, &exchanges, &NO_IMAGES);
}

// P10: a row that is twice another.
fn p10() {
    let generators = [1i32];
    let rows = [1i32, 2];
    let coefficients = [1i64, 2];
    check(
        b"P10\n",
        1,
        &generators,
        b"",
        &NO_IMAGES,
        &rows,
        &coefficients,
    );
}

// P11: no rows.
fn p11() {
    let generators = [1i32];
    let rows = [0i32; 0];
    let coefficients = [0i64; 0];
    check(
        b"P11\n",
        1,
        &generators,
        b"",
        &NO_IMAGES,
        &rows,
        &coefficients,
    );
}

// P12: a list that is one row short.
fn p12() {
    let coefficients = [1i64, 0, 0, 1];
    check(
        b"P12\n",
        3,
        &GENERATORS_3,
        b"",
        &NO_IMAGES,
        &GENERATORS_3,
        &coefficients,
    );
}

// Writes generator k of the 3 by 3 table: the move of the rows a and c and the columns b and d (Specification 10).
fn put_move(generators: &mut [i32; 81], k: usize, a: usize, c: usize, b: usize, d: usize)
    requires within { (k < 9) × (a < 3) × (c < 3) × (b < 3) × (d < 3) }
{
    generators[9 * k + 3 * a + b] = 1;
    generators[9 * k + 3 * a + d] = -1;
    generators[9 * k + 3 * c + b] = -1;
    generators[9 * k + 3 * c + d] = 1;
}

// The nine moves of the 3 by 3 table with four nonzero entries.
fn nine_moves() -> [i32; 81] {
    let mut generators = [0i32; 81];
    put_move(&mut generators, 0, 0, 1, 0, 1);
    put_move(&mut generators, 1, 0, 1, 0, 2);
    put_move(&mut generators, 2, 0, 1, 1, 2);
    put_move(&mut generators, 3, 0, 2, 0, 1);
    put_move(&mut generators, 4, 0, 2, 0, 2);
    put_move(&mut generators, 5, 0, 2, 1, 2);
    put_move(&mut generators, 6, 1, 2, 0, 1);
    put_move(&mut generators, 7, 1, 2, 0, 2);
    put_move(&mut generators, 8, 1, 2, 1, 2);
    generators
}

// 13: the moves of the 3 by 3 table, with three exchanges.
fn s13() {
    let generators = nine_moves();
    list(b"13\n", 9, &generators, &EXCHANGES_13, &NO_IMAGES);
}

// 14: the moves of the 3 by 3 table without exchanges.
fn s14() {
    let generators = nine_moves();
    list(b"14\n", 9, &generators, b"", &NO_IMAGES);
}

// P15: a row of lesser degree and greater weight than two others.
fn p15() {
    list(b"P15\n", 2, &GENERATORS_15, b"", &NO_IMAGES);
}

// P16: P15's list, sorted by weight.
fn p16() {
    let rows = [3i32, 0, 1, 2, 2, -2, 1, -4, 0, 6];
    let coefficients = [0i64, 1, -1, 1, 1, 0, 2, -1, -3, 2];
    check(
        b"P16\n",
        2,
        &GENERATORS_15,
        b"",
        &NO_IMAGES,
        &rows,
        &coefficients,
    );
}

// P17: a basis whose generators a 3-cycle does not keep, bare.
fn p17() {
    list(b"P17\n", 3, &GENERATORS_3, &EXCHANGE_17, &IMAGES_17);
}

// P18: (2,−1,−1) by P17.
fn p18() {
    let vector = [2i32, -1, -1];
    split(
        b"P18\n",
        3,
        &GENERATORS_3,
        &EXCHANGE_17,
        &IMAGES_17,
        &vector,
    );
}

// P19: P17's list.
fn p19() {
    let rows = [1i32, 0, -1];
    let coefficients = [1i64, 1];
    check(
        b"P19\n",
        3,
        &GENERATORS_3,
        &EXCHANGE_17,
        &IMAGES_17,
        &rows,
        &coefficients,
    );
}

// P20: P17 with the images by the inverse exchange.
fn p20() {
    let images = [0i64, 1, -1, -1];
    list(b"P20\n", 3, &GENERATORS_3, &EXCHANGE_17, &images);
}

// P21: P17 with the inverse as a second exchange, and the last image wrong.
fn p21() {
    let exchanges = [2u8, 3, 1, 3, 1, 2];
    let images = [-1i64, -1, 1, 0, 0, 1, -1, 0];
    list(b"P21\n", 3, &GENERATORS_3, &exchanges, &images);
}

// P22: P17 with one coefficient too few.
fn p22() {
    let images = [-1i64, -1, 1];
    list(b"P22\n", 3, &GENERATORS_3, &EXCHANGE_17, &images);
}

// Writes generator k of 23: the move of the rows a and a + 1 and the columns b and b + 1.
fn put_neighbours(generators: &mut [i32; 36], k: usize, a: usize, b: usize)
    requires within { (k < 4) × (a < 2) × (b < 2) }
{
    let at = 9 * k + 3 * a + b;
    generators[at] = 1;
    generators[at + 1] = -1;
    generators[at + 3] = -1;
    generators[at + 4] = 1;
}

// The four moves of neighbouring rows and columns of the 3 by 3 table.
fn four_moves() -> [i32; 36] {
    let mut generators = [0i32; 36];
    put_neighbours(&mut generators, 0, 0, 0);
    put_neighbours(&mut generators, 1, 0, 1);
    put_neighbours(&mut generators, 2, 1, 0);
    put_neighbours(&mut generators, 3, 1, 1);
    generators
}

// Writes image p of 23: its coefficients.
fn put_image(images: &mut [i64; 80], p: usize, a: i64, b: i64, c: i64, d: i64)
    requires within { p < 20 }
{
    images[4 * p] = a;
    images[4 * p + 1] = b;
    images[4 * p + 2] = c;
    images[4 * p + 3] = d;
}

// The images of 23: a swap negates the moves of its two rows or columns, and the moves beside them get these added; the
// transposition trades two moves.
fn images_23() -> [i64; 80] {
    let mut images = [0i64; 80];
    put_image(&mut images, 0, -1, 0, 0, 0);
    put_image(&mut images, 1, 0, -1, 0, 0);
    put_image(&mut images, 2, 1, 0, 1, 0);
    put_image(&mut images, 3, 0, 1, 0, 1);
    put_image(&mut images, 4, 1, 0, 1, 0);
    put_image(&mut images, 5, 0, 1, 0, 1);
    put_image(&mut images, 6, 0, 0, -1, 0);
    put_image(&mut images, 7, 0, 0, 0, -1);
    put_image(&mut images, 8, -1, 0, 0, 0);
    put_image(&mut images, 9, 1, 1, 0, 0);
    put_image(&mut images, 10, 0, 0, -1, 0);
    put_image(&mut images, 11, 0, 0, 1, 1);
    put_image(&mut images, 12, 1, 1, 0, 0);
    put_image(&mut images, 13, 0, -1, 0, 0);
    put_image(&mut images, 14, 0, 0, 1, 1);
    put_image(&mut images, 15, 0, 0, 0, -1);
    put_image(&mut images, 16, 1, 0, 0, 0);
    put_image(&mut images, 17, 0, 0, 1, 0);
    put_image(&mut images, 18, 0, 1, 0, 0);
    put_image(&mut images, 19, 0, 0, 0, 1);
    images
}

// 23: four moves of the 3 by 3 table, bare, with the swaps of rows 0 and 1, of rows 1 and 2, of columns 0 and 1, of
// columns 1 and 2, and the transposition.
fn s23() {
    let generators = four_moves();
    let images = images_23();
    list(
        b"23\n",
        9,
        &generators,
        b"\x04\x05\x06\x01\x02\x03\x07\x08\x09\
          \x01\x02\x03\x07\x08\x09\x04\x05\x06\
          \x02\x01\x03\x05\x04\x06\x08\x07\x09\
          \x01\x03\x02\x04\x06\x05\x07\x09\x08\
          \x01\x04\x07\x02\x05\x08\x03\x06\x09",
        &images,
    );
}

// 24: P2 with coefficients.
fn s24() {
    with_coefficients(b"24\n", 1, 2, &GENERATORS_2, b"");
}

// 25: P3 with coefficients.
fn s25() {
    with_coefficients(b"25\n", 3, 2, &GENERATORS_3, b"");
}

// 26: P4 with coefficients.
fn s26() {
    with_coefficients(b"26\n", 3, 3, &GENERATORS_4, &EXCHANGE_4);
}

// 27: (1) is stored from (−1), whose image is negated and not looked up anew.
fn s27() {
    let generators = [-1i32, 1];
    with_coefficients(b"27\n", 1, 2, &generators, b"");
}

// 28: of equal generators the lowest counts.
fn s28() {
    let generators = [1i32, 1, -1];
    with_coefficients(b"28\n", 1, 3, &generators, b"");
}

// 29: (2,−2) is stored from (−2,2) at position 0, negated, though position 1 makes it too.
fn s29() {
    let generators = [2i32, 2, -2, 2, 2, -2];
    let exchanges = [2u8, 1];
    with_coefficients(b"29\n", 2, 3, &generators, &exchanges);
}

// 30: the exchange makes of each generator the negative of the other.
fn s30() {
    let generators = [1i32, -2, 2, -1];
    let exchanges = [2u8, 1];
    with_coefficients(b"30\n", 2, 2, &generators, &exchanges);
}

// 31: (1,0,−1) is its own image at position 0, and at position 1 the negative of the last generator.
fn s31() {
    let generators = [1i32, 0, -1, 2, -2, -2, -2, -2, 2, -1, 0, 1];
    with_coefficients(b"31\n", 3, 4, &generators, &EXCHANGE_4);
}

// A List with coefficients of four generators, on seven list rows.
fn in_seven_rows(name: &[u8], generators: &[i32]) {
    let mut list = [0i32; 28];
    let mut group = [0u8; 4];
    let mut coefficients = [0i64; 28];
    with_coefficients_in(
        name,
        4,
        4,
        generators,
        b"",
        &mut list,
        &mut group,
        &mut coefficients,
    );
}

// 32: a coefficient at its limit, and as many list rows as are stored.
fn s32() {
    in_seven_rows(b"32\n", &GENERATORS_32);
}

// 33: a coefficient past its limit.
fn s33() {
    in_seven_rows(b"33\n", &GENERATORS_33);
}

// 34: 33 with one list row less: 13 at the same sum.
fn s34() {
    let mut list = [0i32; 24];
    let mut group = [0u8; 4];
    let mut coefficients = [0i64; 24];
    with_coefficients_in(
        b"34\n",
        4,
        4,
        &GENERATORS_33,
        b"",
        &mut list,
        &mut group,
        &mut coefficients,
    );
}

// 35: 13 with coefficients.
fn s35() {
    let generators = nine_moves();
    with_coefficients(b"35\n", 9, 9, &generators, &EXCHANGES_13);
}

// 36: steps that are mixed, and one order with sums left.
fn s36() {
    let others = [4i32, 6];
    let steps =
        *b"\x00\x01\x00\x00\x30\x01\x00\x00\x00\x01\x02\x00\x01\x00\x00\x00\x00\x01\x00\x00\x00";
    let mut list = [0i32; 128];
    let mut group = [0u8; 2];
    session_in(
        b"36\n",
        1,
        &GENERATORS_2,
        b"",
        &NO_IMAGES,
        &others,
        b"",
        &mut list,
        &mut group,
        &steps,
    );
}

// A session of orders of two cells, with these steps.
fn in_two_cells(
    name: &[u8],
    generators0: &[i32],
    exchanges0: &[u8],
    generators1: &[i32],
    exchanges1: &[u8],
    group: &mut [u8],
    steps: &[u8],
) {
    let mut list = [0i32; 256];
    session_in(
        name,
        2,
        generators0,
        exchanges0,
        &NO_IMAGES,
        generators1,
        exchanges1,
        &mut list,
        group,
        steps,
    );
}

// 37: one order refused, and the other's rows and the table kept.
fn s37() {
    let generators = [1i32, 0, 0, 0];
    let others = [1i32, -1];
    let steps = [1u8, 0, 1, 1, 1, 1];
    let mut group = [0u8; 6];
    in_two_cells(
        b"37\n",
        &generators,
        &SWAP,
        &others,
        &SWAP,
        &mut group,
        &steps,
    );
}

// 38: an exchange that the other order lacks.
fn s38() {
    let generators = [1i32, -1];
    let exchanges = [2u8, 1, 1, 2];
    let steps = [0u8, 1];
    let mut group = [0u8; 4];
    in_two_cells(
        b"38\n",
        &generators,
        &exchanges,
        &generators,
        &SWAP,
        &mut group,
        &steps,
    );
}

// 39: exchanges that are no whole rows, beside sound ones.
fn s39() {
    let none = [0i32; 0];
    let exchanges = [2u8, 1, 1];
    let mut group = [0u8; 4];
    in_two_cells(b"39\n", &none, &SWAP, &none, &exchanges, &mut group, b"");
}

// 40 and 41: no cells, with a list area of another size and with none.
fn without_cells(name: &[u8], list: &mut [i32]) {
    let none = [0i32; 0];
    let mut group = [0u8; 1];
    let answer = sessions::session(
        0, &none, b"", &NO_IMAGES, 0, &none, b"", &NO_IMAGES, &mut *list, &mut group, b"",
    );
    let first = answer.first;
    let second = answer.second;
    show_ending(name, first, &*list, 1);
    show_ending(b"", second, &*list, 1);
    show_group(&group);
}

fn s40() {
    let mut list = [0i32; 5];
    without_cells(b"40\n", &mut list);
}

fn s41() {
    let mut list = [0i32; 0];
    without_cells(b"41\n", &mut list);
}

// 42: an order without generators, and one that no step names.
fn s42() {
    let none = [0i32; 0];
    let others = [1i32, 1];
    let steps = [0u8];
    let mut group = [0u8; 4];
    in_two_cells(b"42\n", &none, &SWAP, &others, &SWAP, &mut group, &steps);
}

// 43: a bare order beside one that is not.
fn s43() {
    let others = [1i32, -1, 0, 0, 1, -1, 1, 0, -1];
    let steps = [0u8, 1, 1, 0, 0, 0, 1, 1, 0, 1, 0, 1];
    let mut list = [0i32; 384];
    let mut group = [0u8; 9];
    session_in(
        b"43\n",
        3,
        &GENERATORS_3,
        &EXCHANGE_17,
        &IMAGES_17,
        &others,
        &EXCHANGE_17,
        &mut list,
        &mut group,
        &steps,
    );
}

// 44: one order refused at a step, the other with a sum left: the table is kept.
fn s44() {
    let most = ENTRY_LIMIT as i32;
    let generators = [most, 1, 1, most];
    let others = [1i32, 0];
    let steps = [0u8, 0, 0, 0, 1, 0, 0, 0, 0];
    let mut group = [0u8; 2];
    in_two_cells(b"44\n", &generators, b"", &others, b"", &mut group, &steps);
}

// 45: both refused at a step.
fn s45() {
    let most = ENTRY_LIMIT as i32;
    let generators = [most, 1, 1, most];
    let steps = [0u8, 1, 0, 1, 0, 1, 0, 1, 0, 1, 0, 1, 0, 1];
    let mut group = [0u8; 2];
    in_two_cells(
        b"45\n",
        &generators,
        b"",
        &generators,
        b"",
        &mut group,
        &steps,
    );
}

// Every sample, line by line of the table.
fn main() {
    p1();
    p2();
    p3();
    p4();
    p5();
    p6();
    p7();
    p8();
    p9();
    p10();
    p11();
    p12();
    s13();
    s14();
    p15();
    p16();
    p17();
    p18();
    p19();
    p20();
    p21();
    p22();
    s23();
    s24();
    s25();
    s26();
    s27();
    s28();
    s29();
    s30();
    s31();
    s32();
    s33();
    s34();
    s35();
    s36();
    s37();
    s38();
    s39();
    s40();
    s41();
    s42();
    s43();
    s44();
    s45();
}
