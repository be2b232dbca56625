// Reads an order file from standard input, and writes the answer of Check to standard output (Specification 1.3).
// The three programs differ in the call alone: one function for them would be a crate more for these six lines.
#![tactic(auto)]

use services::{ANSWER_BYTES, ORDER_BYTES};

fn main() {
    let mut order = [0u8; ORDER_BYTES];
    let n = io::read_full(0, &mut order);
    let mut answer = [0u8; ANSWER_BYTES];
    let end = services::print_check(&order, n, &mut answer);
    io::write_all(1, &answer[..end]);
}
