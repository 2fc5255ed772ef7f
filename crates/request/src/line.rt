//! The line that is printed for a record, written behind the lines before it.
ghost use Rattle.std.specs.Prelude.{[], ◌∷◌, ◌++◌, ◌+◌, ◌<◌, ◌≤◌, length};
ghost use Rattle.request.specs.Laid.{Laid};
ghost use Rattle.request.specs.Lines.{decimal, hex, line_of};

// Writes bytes from place `at` on; answers the place behind them.
fn put(lines: &mut [u8], at: usize, bytes: &[u8]) -> usize
    requires { at + length bytes.now ≤ length lines.old }
    ensures { Laid at bytes.now lines.old lines.new result }
{
    let end = at + bytes.len();
    lines[at..end].copy_from_slice(bytes);
    end
}

// A text and what ends it.
fn put_both(lines: &mut [u8], at: usize, text: &[u8], ending: &[u8]) -> usize
    requires { at + length text.now + length ending.now ≤ length lines.old }
    ensures { Laid at (text.now ++ ending.now) lines.old lines.new result }
{
    let end = put(lines, at, text);
    put(lines, end, ending)
}

// A number and a blank.
fn put_decimal(lines: &mut [u8], at: usize, n: u64) -> usize
    requires { (n < 10000) × (at + 5 ≤ length lines.old) }
    ensures { Laid at (decimal n ++ (32 ∷ [])) lines.old lines.new result }
{
    let mut text = [0u8; 20];
    let k = io::decimal(n, &mut text);
    put_both(lines, at, &text[..k], b" ")
}

// A value and the end of the line.
fn put_hex(lines: &mut [u8], at: usize, value: u64) -> usize
    requires { at + 17 ≤ length lines.old }
    ensures { Laid at (hex value ++ (10 ∷ [])) lines.old lines.new result }
{
    let mut text = [0u8; 16];
    let k = io::hex(value, 16, &mut text);
    put_both(lines, at, &text[..k], b"\n")
}

// Writes a record's line from place `at` on; answers the place behind it.
pub fn write_line(
    lines: &mut [u8],
    at: usize,
    number: u64,
    op: u64,
    answer: u8,
    value: u64,
) -> usize
    requires { (at + 28 ≤ length lines.old) × (number < 10000) × (op < 100) × (answer < 100) }
    ensures { Laid at (line_of number op answer value) lines.old lines.new result × (result ≤ at + 28) }
{
    let second = put_decimal(lines, at, number);
    let third = put_decimal(lines, second, op);
    let fourth = put_decimal(lines, third, answer as u64);
    put_hex(lines, fourth, value)
}
