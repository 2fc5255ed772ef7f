//! A line of the list: a call's number and its four words, in lower-case hex.
ghost use Rattle.std.specs.Prelude.{◌≡◌, ◌+◌, ◌*◌, ◌^◌, ◌≤◌, ◌<◌};
ghost use Rattle.token_replay.specs.Line.{digit_of, spelt, call_of};

/// Two digits and four words of 16, a space before each word, and the line end.
pub const LENGTH: usize = 71;

#[derive(Clone, Copy)]
pub struct Call {
    pub number: u64,
    pub a: u64,
    pub b: u64,
    pub c: u64,
    pub d: u64,
}

// The number with one more hex digit.
fn with_digit(value: u64, byte: u8) -> u64
    requires { value < 2 ^ 60 }
    ensures { result ≡ value * 16 + digit_of byte }
{
    let code = byte as u64;
    value * 16 + (code % 16 + code / 64 * 9) % 16
}

// The number that n digits from `at` on spell.
fn number(line: &[u8; LENGTH], at: usize, n: usize) -> u64
    requires { (n ≤ 16) × (at + n ≤ 71) }
    ensures { result ≡ spelt line.now at n }
{
    let mut value = 0;
    for i in 0..n {
        value = with_digit(value, line[at + i]);
    }
    value
}

pub fn read(line: &[u8; LENGTH]) -> Call
    ensures { result ≡ call_of line.now }
{
    Call {
        number: number(line, 0, 2),
        a: number(line, 3, 16),
        b: number(line, 20, 16),
        c: number(line, 37, 16),
        d: number(line, 54, 16),
    }
}
