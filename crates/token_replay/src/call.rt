//! The functions of token.rs by number, in the source's order (oracle/src/token_calls.rs), on words.
//! What they answer is held to the original's answers where the program runs, so nothing is promised of it here.
ghost use Rattle.io.specs.Counts.{IsPrefixLen};

use super::line::Call;
use answers::Refusal;
use token::{CapabilityFlags, CapabilityToken, Rights};

fn of_rights(rights: Rights) -> u64 {
    u32::from(rights) as u64
}

fn byte(word: u64) -> u8 {
    (word % 0x100) as u8
}

fn rights(word: u64) -> Rights {
    Rights::new((word % 0x1_0000_0000) as u32)
}

// Puts the hex digits of a list, from the low end up to the first 0, into numbers, and answers how many there are.
fn listed(list: u64, numbers: &mut [u8]) -> usize
    ensures { IsPrefixLen result numbers.new }
{
    let mut rest = list;
    for n in 0..numbers.len() {
        if rest % 16 == 0 {
            return n;
        }
        numbers[n] = (rest % 16) as u8;
        rest /= 16;
    }
    numbers.len()
}

fn has(flags: u8, number: u8) -> Result<u64, Refusal> {
    let perm = CapabilityFlags::try_from(number)?;
    Ok(CapabilityFlags::has(flags, perm) as u64)
}

fn combine(list: u64) -> Result<u64, Refusal> {
    let mut numbers = [0u8; 16];
    let n = listed(list, &mut numbers);
    let flags = CapabilityFlags::combine(&numbers[..n])?;
    Ok(flags as u64)
}

fn on_token(call: Call) -> Result<u64, Refusal> {
    let token = CapabilityToken::from_u64(call.a);
    let word = match call.number {
        1 => CapabilityToken::new(call.a, byte(call.b), byte(call.c), byte(call.d))?.to_u64(),
        2 => token.id(),
        3 => token.generation() as u64,
        4 => token.cap_type() as u64,
        5 => token.flags() as u64,
        6 => CapabilityToken::from_id_and_generation(call.a, byte(call.b))?.to_u64(),
        7 => token.to_u64(),
        8 => u64::from(CapabilityToken::from(call.a)),
        9 => token.is_null() as u64,
        10 => CapabilityToken::null().to_u64(),
        _ => CapabilityToken::from_parts(call.a, call.b, byte(call.c), byte(call.d))?.to_u64(),
    };
    Ok(word)
}

// The source's `|`, `|=`, `&` and `!` are 24 to 27.
fn on_rights(call: Call) -> u64 {
    let a = rights(call.a);
    let b = rights(call.b);
    match call.number {
        14 => of_rights(Rights::constant(byte(call.a))),
        15 => of_rights(a),
        16 => a.contains(b) as u64,
        17 => of_rights(a.intersection(b)),
        18 => of_rights(a.union(b)),
        19 => of_rights(a.remove(b)),
        20 => a.bits() as u64,
        21 => a.is_empty() as u64,
        22 => of_rights(Rights::empty()),
        23 => a.to_flags() as u64,
        24 => of_rights(a | b),
        25 => {
            let mut either = a;
            either |= b;
            of_rights(either)
        }
        26 => of_rights(a & b),
        27 => of_rights(!a),
        _ => of_rights(a.difference(b)),
    }
}

/// 1 to 11 are on tokens, 12 and 13 on flags, 14 to 28 on rights.
pub fn make(call: Call) -> Result<u64, Refusal> {
    match call.number {
        0..=11 => on_token(call),
        12 => has(byte(call.a), byte(call.b)),
        13 => combine(call.a),
        _ => Ok(on_rights(call)),
    }
}
