//! The table of the fields that each operation reads, and what is refused by it.
ghost use Rattle.std.specs.Prelude.{true, not, ◌≡◌, ◌%◌, ◌≤◌, eqb, ltb, get_or, IfOk};
ghost use Rattle.base.specs.Choose.{pick};
ghost use Rattle.request.specs.Op.{number_of, forgotten};
ghost use Rattle.request.specs.Reading.{masks, zero_unread, too_far, verdict_of};

use super::{Op, Request};
use answers::Refusal;

// The fields that each operation reads, from 0 to 15, a bit a field, the lowest bit first: space, second space, valid, type, rights,
// word A, word B.
const MASKS: [u8; 16] = [
    0b0000000, 0b0111101, 0b0110011, 0b0100001, 0b0110001, 0b0100001, 0b0100000, 0b1100001,
    0b0000001, 0b0000011, 0b0000001, 0b1110001, 0b0110001, 0b0100001, 0b0100000, 0b1100000,
];

// The fields that an operation reads.
fn mask_of(op: u64) -> u8
    requires { op ≤ 15 }
    ensures { result ≡ get_or masks op 0 }
{
    MASKS[op as usize]
}

// Whether a field that is not read, by the low bit of a mask, is not zero.
fn is_stray(mask: u8, field: u64) -> bool
    ensures { result ≡ not (pick (eqb (mask % 2) 1) true (eqb field 0)) }
{
    mask % 2 != 1 && field != 0
}

// Whether every field that the operation does not read is zero.
fn zero_unread(r: Request) -> bool
    requires { r.op ≤ 15 }
    ensures { result ≡ zero_unread r }
{
    let fields = [r.space, r.second, r.valid, r.cap_type, r.rights, r.a, r.b];
    let mut mask = mask_of(r.op);
    for field in fields {
        if is_stray(mask, field) {
            return false;
        }
        mask = mask / 2;
    }
    r.zero == 0
}

// Whether a space number that is read, by the low bit of a mask, is S or more.
fn is_far(mask: u8, number: u64, spaces: u64) -> bool
    ensures { result ≡ not (pick (eqb (mask % 2) 1) (ltb number spaces) true) }
{
    mask % 2 == 1 && spaces <= number
}

// Whether the operation reads a space number of S or more.
fn too_far(r: Request, spaces: u64) -> bool
    requires { r.op ≤ 15 }
    ensures { result ≡ too_far r spaces }
{
    let mask = mask_of(r.op);
    is_far(mask, r.space, spaces) || is_far(mask / 2, r.second, spaces)
}

// 21 for an operation outside 1..15; 20; 21 for a field that is not read and not zero. The operation of a good record.
#[tactic(auto, unfolding(crate::specs::Op::named, crate::specs::Reading::verdict_of, base::specs::Choose::when))]
pub fn judge(r: Request, spaces: u64) -> Result<Op, Refusal>
    ensures verdict { forgotten result ≡ verdict_of r spaces }
    ensures operation { IfOk result (λ op. number_of op ≡ r.op) }
{
    let op = Op::try_from(r.op)?;
    if too_far(r, spaces) {
        return Err(Refusal::BadSpace);
    }
    if !zero_unread(r) {
        return Err(Refusal::BadField);
    }
    Ok(op)
}
