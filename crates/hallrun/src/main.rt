// Reads lines from standard input, makes the call of each on one record store, and prints the answers.
#![tactic(auto)]

// The file descriptor of standard input.
const STDIN: i32 = 0;

fn main() {
    // The store, all zero at the start, with room for 64 ranks: it is lent to every store call.
    let mut store = [0u8; 52260];
    let mut list = [0u8; answering::LIST];
    let mut out = [0u8; answering::ANSWER];
    // At most 4,096 bytes of lines are read.
    let mut text = [0u8; 4096];
    let size = io::read_full(STDIN, &mut text);
    answering::answer_input(&mut store, &mut list, &mut out, &text, size);
}
