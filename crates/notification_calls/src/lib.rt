// The calls for notifications: every public function of revocation.rs that queues, lists, counts or drops the notices of a process, on the
// world's memory. No call asks anything of its arguments or of the memory: each looks first, and refuses by the table of answers. What each
// answers and leaves is defined in specs/.
#![tactic(auto)]

mod notices;
mod notifying;
mod stats;

pub use notices::{
    cleanup_process_notifications, drain_notifications, notification_count, peek_notifications,
};
pub use notifying::notify_process;
pub use stats::notification_stats;

/// How many processes have notifications, and how many notifications there are.
#[derive(Clone, Copy, PartialEq, Eq, Debug)]
pub struct Queues {
    pub processes: u64,
    pub notifications: u64,
}
