// Replays the fixed list of request streams (tools/make-stream-list): runs each stream of standard input, all on one memory, and prints its
// lines and an empty one. A stream is three numbers of two bytes, the most significant first, and bytes: how many bytes it keeps of the
// stream before it, how many it has with those that follow here, and how many bytes of its lines are not printed, since they are those of
// the stream before it.
#![tactic(auto)]

// The numbers that the system gives the two streams of a program.
const STDIN_FILENO: i32 = 0;

const STDOUT_FILENO: i32 = 1;

#[derive(Clone, Copy)]
struct Head {
    kept: usize,
    length: usize,
    unprinted: usize,
}

fn number(high: u8, low: u8) -> usize {
    high as usize * 256 + low as usize
}

fn head_of(bytes: &[u8; 6]) -> Head {
    Head {
        kept: number(bytes[0], bytes[1]),
        length: number(bytes[2], bytes[3]),
        unprinted: number(bytes[4], bytes[5]),
    }
}

// Reads the bytes of a stream that are its own behind those that it keeps; answers whether there is room.
fn fill(records: &mut [u8], start: usize, end: usize) -> bool {
    if records.len() < end {
        return false;
    }
    if end < start {
        return false;
    }
    io::read_full(STDIN_FILENO, &mut records[start..end]);
    true
}

// Runs the stream that ends there and prints its lines but for their first bytes.
fn print_lines(records: &[u8], end: usize, mem: &mut [u64], unprinted: usize) {
    if records.len() < end {
        return;
    }
    let mut lines = [0u8; 57372];
    let written = match request_run::run(&records[..end], mem, &mut lines) {
        Ok(done) => done.value as usize,
        Err(_) => 0,
    };
    if unprinted <= written {
        io::write_all(STDOUT_FILENO, &lines[unprinted..written]);
    }
    io::write_all(STDOUT_FILENO, b"\n");
}

// Reads a stream, runs it and prints its lines; answers whether there was one.
fn replay(records: &mut [u8], mem: &mut [u64]) -> bool {
    let mut bytes = [0u8; 6];
    let n = io::read_full(STDIN_FILENO, &mut bytes);
    if n < 6 {
        return false;
    }
    let head = head_of(&bytes);
    if !fill(records, head.kept, head.length) {
        return false;
    }
    print_lines(records, head.length, mem, head.unprinted);
    true
}

// Room for the longest stream, which has two records more than a run takes. A proved loop has to end, and nothing says that the input does:
// the list has fewer streams than this.
fn main() {
    let mut records = [0u8; 49200];
    let mut mem = [0u64; 5687];
    for _stream in 0..1000 {
        if !replay(&mut records, &mut mem) {
            return;
        }
    }
}
