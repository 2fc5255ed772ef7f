// Document 01's request stream program: reads records from standard input and prints a line for each.
#![tactic(auto)]

use request_run::{ROOM, run_alone};

// The numbers that the system gives the two streams of a program.
const STDIN_FILENO: i32 = 0;

const STDOUT_FILENO: i32 = 1;

// Room for 2,048 records and the first byte of one more, and for all lines.
fn main() {
    let mut records = [0u8; 49153];
    let n = io::read_full(STDIN_FILENO, &mut records);
    let mut lines = [0u8; ROOM];
    let end = run_alone(&records[..n], &mut lines);
    io::write_all(STDOUT_FILENO, &lines[..end]);
}
