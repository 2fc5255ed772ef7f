// A run of the request stream: the records of `request` one after the other on a world of its own, the call that each asks for, and a line
// for each.
#![tactic(auto)]

ghost use Rattle.std.specs.Prelude.{◌≡◌, ◌+◌, ◌*◌, ◌<◌, ◌≤◌, length};
ghost use Rattle.base.specs.Written.{written};
ghost use Rattle.steps.specs.Replies.{told};
ghost use Rattle.request_run.specs.Run as spec;

mod calls;

use answers::Refusal;
use request::{request_of, write_line};
use steps::{Done, Refused};
use world::Numbers;
use world::open::open;

// The length that the program's world needs.
const WORDS: usize = 5687;

// Room for 2,049 lines of 28 bytes.
pub const ROOM: usize = 57372;

// What a record that is not read answers.
const BAD_FIELD: u8 = Refusal::BadField as u8;

// The operations whose value is printed, from 0 to 15.
const VALUED: [u8; 16] = [0, 1, 1, 1, 0, 1, 0, 0, 0, 0, 0, 0, 1, 0, 1, 0];

// The value that a record's line has.
fn printed(op: u64, value: u64) -> u64
    ensures { result ≡ spec.printed op value }
{
    if 15 < op {
        return 0;
    }
    if VALUED[op as usize] == 1 {
        return value;
    }
    0
}

// Makes the call of the record at place `at` and writes its line from place `end` on; answers the place behind it.
fn serve(
    records: &[u8],
    at: usize,
    number: u64,
    mem: &mut [u64],
    lines: &mut [u8],
    end: usize,
) -> usize
    requires { (at + 24 ≤ length records.now) × (number < 10000) × (end + 28 ≤ length lines.old) }
    ensures { spec.Served records.now at number mem.old mem.new end lines.old lines.new result }
{
    let r = request_of(records, at);
    let (answer, value) = match calls::answer(r, mem) {
        Ok(done) => (0, done.value),
        Err(refused) => (u8::from(refused.refusal), 0),
    };
    write_line(lines, end, number, r.op, answer, printed(r.op, value))
}

// The records, 2,048 at most, each with its line; answers the place behind the last line.
fn serve_all(records: &[u8], mem: &mut [u64], lines: &mut [u8]) -> usize
    requires { 28 * spec.lines_for (length records.now) ≤ length lines.old }
    ensures { spec.Ran records.now mem.old mem.new lines.old lines.new result }
{
    let mut left = 2048u64;
    let mut number = 1;
    let mut at = 0;
    let mut end = 0;
    while 0 < left {
        let rest = records.len() - at;
        if rest == 0 {
            return end;
        }
        if rest < 24 {
            return write_line(lines, end, number, 0, BAD_FIELD, 0);
        }
        end = serve(records, at, number, mem, lines, end);
        number += 1;
        at += 24;
        left -= 1;
    }
    if at < records.len() {
        return write_line(lines, end, number, 0, BAD_FIELD, 0);
    }
    end
}

// How many lines there are at most for n bytes.
fn lines_for(n: usize) -> usize
    ensures { (result ≡ spec.lines_for n) × (result ≤ 2049) }
{
    if 49152 < n {
        return 2049;
    }
    (n + 23) / 24
}

/// Opens the program's world and serves the records; the value is how many bytes of `lines` are written.
pub fn run(records: &[u8], mem: &mut [u64], lines: &mut [u8]) -> Result<Done, Refused>
    ensures mem_after { record { reply = record { reply = told result; area = lines.new }; memory = mem.new }
        ≡ spec.run_out records.now mem.old lines.old }
    ensures value_in_bounds { (told result).value ≤ length lines.new }
{
    if lines.len() < 28 * lines_for(records.len()) {
        Err(Refusal::BadField)?;
    }
    let d = Numbers {
        spaces: 4,
        most: 32,
        places: 512,
        pairs: 512,
        queues: 2,
    };
    open(mem, d, &[32, 32, 32, 32])?;
    Ok(Done::with(serve_all(records, mem, lines) as u64))
}

/// The whole program but its input and output: a run on a memory of its own. Answers how many bytes of `lines` are written.
pub fn run_alone(records: &[u8], lines: &mut [u8; ROOM]) -> usize
    ensures lines_after { (lines.new ≡ written (spec.program_lines records.now) lines.old)
        × (result ≡ length (spec.program_lines records.now)) }
    ensures upper_bound { result ≤ length lines.new }
{
    let mut mem = [0u64; WORDS];
    match run(records, &mut mem, lines) {
        Ok(done) => done.value as usize,
        Err(_) => 0,
    }
}
