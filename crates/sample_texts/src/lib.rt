// What the programs that work sample calls print: a word and counts, an area row by row, and a group area.
#![tactic(auto)]

ghost use Rattle.std.specs.Prelude.{◌≤◌, length};

use answers::{put_head, put_rows, put_text};

// Room for any text that is printed at once.
const TEXT: usize = 512;

// The most numbers of a group area of the samples.
const GROUP: usize = 6;

// Prints a word and counts behind it. The test is always met; if it were not, the missing text would show against
// `stdout`.
pub fn show_head(word: &[u8], counts: &[u64]) {
    let mut text = [0u8; TEXT];
    let end = put_head(&mut text, 0, word, counts);
    if end <= TEXT {
        io::write_all(1, &text[..end]);
    }
}

// Prints a word, the rows of an area, a line of `width` numbers for each, and END. The test is always met.
pub fn show_area(word: &[u8], numbers: &[i32], width: usize)
    requires some { 1 ≤ width }
{
    let mut text = [0u8; TEXT];
    let none = [0u64; 0];
    let count = numbers.len() / width;
    let head = put_head(&mut text, 0, word, &none);
    let rows = put_rows(&mut text, head, numbers, width, count);
    let end = put_text(&mut text, rows, b"END\n");
    if end <= TEXT {
        io::write_all(1, &text[..end]);
    }
}

// Prints the numbers of a group area.
pub fn show_group(group: &[u8])
    requires few { length group.now ≤ 6 }
{
    let mut counts = [0u64; GROUP];
    let end = group.len();
    for i in 0..end {
        counts[i] = group[i] as u64;
    }
    show_head(b"GROUP", &counts[..end]);
}
