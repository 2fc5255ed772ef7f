//! Replays the fixed list of the original's answers for token.rs (tools/make-token-list): a call to a line of
//! standard input, and for each a line as the request stream prints it: place in the list, the call's number,
//! answer, value in hex.
#![tactic(auto)]

mod call;
mod line;

use answers::Refusal;

// The numbers that the system gives the two streams of a program.
const STDIN_FILENO: i32 = 0;

const STDOUT_FILENO: i32 = 1;

// The answer of a call that is done is 0, and so is the value of a refusal.
fn print(place: u64, number: u64, outcome: Result<u64, Refusal>) {
    let (answer, value) = match outcome {
        Ok(value) => (0, value),
        Err(refusal) => (u8::from(refusal), 0),
    };
    io::print_decimal(STDOUT_FILENO, place);
    io::write_all(STDOUT_FILENO, b" ");
    io::print_decimal(STDOUT_FILENO, number);
    io::write_all(STDOUT_FILENO, b" ");
    io::print_decimal(STDOUT_FILENO, answer as u64);
    io::write_all(STDOUT_FILENO, b" ");
    io::print_hex(STDOUT_FILENO, value, 16);
    io::write_all(STDOUT_FILENO, b"\n");
}

// Reads one call, makes it and prints its line; answers whether there was one.
fn replay(place: u64) -> bool {
    let mut text = [0u8; line::LENGTH];
    let n = io::read_full(STDIN_FILENO, &mut text);
    if n < line::LENGTH {
        return false;
    }
    let call = line::read(&text);
    print(place, call.number, call::make(call));
    true
}

// A proved loop has to end, and nothing says that the input does: the list has fewer lines than this.
fn main() {
    for place in 1..0x1_0000 {
        if !replay(place) {
            return;
        }
    }
}
