//! The records of the request stream: the fields of one, which of them each operation reads, what is refused before a call is made, and the
//! line that is printed for it. The calls and a whole run are `request_run`.
#![tactic(auto)]

mod line;
mod masks;
mod op;
mod record;

pub use line::write_line;
pub use masks::judge;
pub use op::Op;
pub use record::request_of;

// A record, field by field, each a number as it is read: the line of a refused record has the number of its operation, and a field that is
// not read, the bit of validity too, is asked for zero like the others.
#[derive(Clone, Copy, PartialEq, Eq, Debug)]
pub struct Request {
    pub op: u64,
    pub space: u64,
    pub second: u64,
    pub valid: u64,
    pub cap_type: u64,
    pub rights: u64,
    pub zero: u64,
    pub a: u64,
    pub b: u64,
}
