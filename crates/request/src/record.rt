//! The fields of a record, from its 24 bytes.
ghost use Rattle.std.specs.Prelude.{◌≡◌, ◌+◌, ◌<◌, ◌≤◌, length};
ghost use Rattle.request.specs.Record.{word_at, request_of};

use super::Request;

// Eight bytes from place i on, the most significant first.
fn word_at(bytes: &[u8], i: usize) -> u64
    requires { i + 8 ≤ length bytes.now }
    ensures { result ≡ word_at bytes.now i }
{
    let mut word = [0u8; 8];
    word.copy_from_slice(&bytes[i..i + 8]);
    u64::from_be_bytes(word)
}

// The fields of the record that begins at place i.
pub fn request_of(bytes: &[u8], i: usize) -> Request
    requires { i + 24 ≤ length bytes.now }
    ensures { (result ≡ request_of bytes.now i) × (result.op < 32) }
{
    let w = word_at(bytes, i);
    Request {
        op: w / 0x800_0000_0000_0000,
        space: w / 0x20_0000_0000_0000 % 64,
        second: w / 0x8000_0000_0000 % 64,
        valid: w / 0x4000_0000_0000 % 2,
        cap_type: w / 0x400_0000_0000 % 16,
        rights: w / 0x400 % 0x1_0000_0000,
        zero: w % 0x400,
        a: word_at(bytes, i + 8),
        b: word_at(bytes, i + 16),
    }
}
