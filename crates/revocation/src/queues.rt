// The notification queue of one process. revocation.rs's `notify_process`, `drain_notifications` and `peek_notifications`, on a queue's
// own words.
ghost use Rattle.std.specs.Prelude.{◌≡◌, ◌+◌, ◌*◌, ◌<◌, ◌≤◌, length};
ghost use Rattle.std.proofs.lemmas.List.Edits.{sets};
ghost use Rattle.base.specs.Written.{written};
ghost use Rattle.revocation.specs.Words.{first_of, length_of};
ghost use Rattle.revocation.specs.Queue.{notice_set, pushed, begun, freed, notices_from, notices};

// How many words a queue has.
pub const QUEUE: usize = 771;

// Which they are: its pid, where in the ring its oldest notice stands, its length, and from there on the ring.
pub const PID: usize = 0;

pub const FIRST: usize = 1;

pub const LENGTH: usize = 2;

pub const RING: usize = 3;

// Writes a notice at place k of the ring.
fn set_notice(qu: &mut [u64], k: usize, id: u64, time: u64, reason: u64)
    requires { (771 ≤ length qu.old) × (k < 256) }
    ensures { qu.new ≡ notice_set k id time reason qu.old }
{
    let at = RING + 3 * k;
    qu[at] = id;
    qu[at + 1] = time;
    qu[at + 2] = reason;
}

// One notice more, behind the others; where there are 256, the oldest goes.
pub fn push(qu: &mut [u64], id: u64, time: u64, reason: u64)
    requires { (771 ≤ length qu.old) × (first_of qu.old < 256) × (length_of qu.old ≤ 256) }
    ensures { qu.new ≡ pushed id time reason qu.old }
{
    let first = qu[FIRST];
    let length = qu[LENGTH];
    if length < 256 {
        set_notice(qu, ((first + length) % 256) as usize, id, time, reason);
        qu[LENGTH] = length + 1;
        return;
    }
    set_notice(qu, first as usize, id, time, reason);
    qu[FIRST] = (first + 1) % 256;
}

// A free place becomes the queue of a pid, with its first notice.
pub fn begin(qu: &mut [u64], pid: u64, id: u64, time: u64, reason: u64)
    requires { 771 ≤ length qu.old }
    ensures { qu.new ≡ begun pid id time reason qu.old }
{
    set_notice(qu, 0, id, time, reason);
    qu[PID] = pid;
    qu[FIRST] = 0;
    qu[LENGTH] = 1;
}

// The place of the queue is free.
pub fn free(qu: &mut [u64])
    requires { 771 ≤ length qu.old }
    ensures { qu.new ≡ freed qu.old }
{
    qu[LENGTH] = 0;
}

// The i-th notice, oldest first, to the i-th three places of the area.
fn copy_notice(qu: &[u64], i: usize, area: &mut [u64])
    requires { (771 ≤ length qu.now) × (first_of qu.now < 256) × (i < 256) × (3 * i + 3 ≤ length area.old) }
    ensures { area.new ≡ sets area.old (3 * i) (notices_from qu.now i 1) }
{
    let from = RING + 3 * ((qu[FIRST] as usize + i) % 256);
    let to = 3 * i;
    area[to..to + 3].copy_from_slice(&qu[from..from + 3]);
}

// The notices of the queue, oldest first, to the front of the area.
pub fn copy_notices(qu: &[u64], area: &mut [u64])
    requires in_bounds { (771 ≤ length qu.now) × (first_of qu.now < 256) × (length_of qu.now ≤ 256) }
    requires qu_in_bounds { 3 * length_of qu.now ≤ length area.old }
    ensures { area.new ≡ written (notices qu.now) area.old }
{
    let count = qu[LENGTH] as usize;
    for i in 0..count {
        copy_notice(qu, i, area);
    }
}
