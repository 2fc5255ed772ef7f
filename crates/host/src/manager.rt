// The calls of the manager for a host: the memory is a slice of words that the host lends, a token its word, a set of rights its 32 bits.
// Each is the call of the same name in `manager_calls` or `delegation_calls`, with its answer as a number.
ghost use Rattle.std.specs.Prelude.{◌≡◌};
ghost use Rattle.delegation_calls.specs.Delegation.{delegate_out};
ghost use Rattle.manager_calls.specs.Calls.{create_out, delete_out, check_out, is_valid_out, stats_out, children_out, tree_stats_out, census_out};
ghost use Rattle.host.specs.Manager.{manager_answer, tree_answer};
ghost use Rattle.host_replies.specs.Replies.{call_answer, told, area_answer};

use answers::Refusal;
use delegation_calls::delegate;
use host_replies::CallAnswer;
use manager_calls::{ManagerStats, Tree};
use token::{CapabilityToken, Rights};

// The answer's number, and the statistics of the manager.
#[repr(C)]
#[derive(Clone, Copy, PartialEq, Eq, Debug)]
pub struct ManagerAnswer {
    pub answer: u8,
    pub created: u64,
    pub delegated: u64,
    pub revoked: u64,
    pub deleted: u64,
}

// The answer's number, how many capabilities have a list of delegations, and how many delegations there are.
#[repr(C)]
#[derive(Clone, Copy, PartialEq, Eq, Debug)]
pub struct TreeAnswer {
    pub answer: u8,
    pub parents: u64,
    pub children: u64,
}

impl From<Result<ManagerStats, Refusal>> for ManagerAnswer {
    ghost use Rattle.host.specs.Manager.{ManagerAnswers};

    ghost from_gives = { ManagerAnswers };

    #[tactic(auto, unfolding(crate::specs::Manager::manager_answer))]
    fn from(outcome: Result<ManagerStats, Refusal>) -> Self {
        match outcome {
            Ok(stats) => ManagerAnswer {
                answer: 0,
                created: stats.created,
                delegated: stats.delegated,
                revoked: stats.revoked,
                deleted: stats.deleted,
            },
            Err(refusal) => ManagerAnswer {
                answer: refusal.into(),
                created: 0,
                delegated: 0,
                revoked: 0,
                deleted: 0,
            },
        }
    }
}

impl From<Result<Tree, Refusal>> for TreeAnswer {
    ghost use Rattle.host.specs.Manager.{TreeAnswers};

    ghost from_gives = { TreeAnswers };

    #[tactic(auto, unfolding(crate::specs::Manager::tree_answer))]
    fn from(outcome: Result<Tree, Refusal>) -> Self {
        match outcome {
            Ok(tree) => TreeAnswer {
                answer: 0,
                parents: tree.parents,
                children: tree.children,
            },
            Err(refusal) => TreeAnswer {
                answer: refusal.into(),
                parents: 0,
                children: 0,
            },
        }
    }
}

// ---- capabilities

#[unsafe(no_mangle)]
pub extern "C" fn stonespry_create_capability(
    mem: &mut [u64],
    s: usize,
    object: u64,
    valid: bool,
    cap_type: u8,
    rights: u32,
) -> CallAnswer
    ensures { record { reply = result; memory = mem.new }
        ≡ told call_answer (create_out mem.old s object valid cap_type rights) }
{
    manager_calls::create_capability(mem, s, object, valid, cap_type, Rights(rights)).into()
}

#[unsafe(no_mangle)]
pub extern "C" fn stonespry_delegate(
    mem: &mut [u64],
    token: u64,
    source: usize,
    target: usize,
    rights: u32,
) -> CallAnswer
    ensures { record { reply = result; memory = mem.new }
        ≡ told call_answer (delegate_out mem.old token source target rights) }
{
    delegate(mem, CapabilityToken(token), source, target, Rights(rights)).into()
}

#[unsafe(no_mangle)]
pub extern "C" fn stonespry_delete(mem: &mut [u64], token: u64) -> CallAnswer
    ensures { record { reply = result; memory = mem.new } ≡ told call_answer (delete_out mem.old token) }
{
    manager_calls::delete(mem, CapabilityToken(token)).into()
}

#[unsafe(no_mangle)]
pub extern "C" fn stonespry_check_capability(
    mem: &mut [u64],
    token: u64,
    required: u32,
    s: usize,
) -> CallAnswer
    ensures { record { reply = result; memory = mem.new } ≡ told call_answer (check_out mem.old token required s) }
{
    manager_calls::check_capability(mem, CapabilityToken(token), Rights(required), s).into()
}

#[unsafe(no_mangle)]
pub extern "C" fn stonespry_is_valid(mem: &[u64], token: u64) -> CallAnswer
    ensures { result ≡ call_answer (is_valid_out mem.now token) }
{
    manager_calls::is_valid(mem, CapabilityToken(token)).into()
}

// ---- what the manager says of itself

#[unsafe(no_mangle)]
pub extern "C" fn stonespry_manager_stats(mem: &[u64]) -> ManagerAnswer
    ensures { result ≡ manager_answer (stats_out mem.now) }
{
    manager_calls::stats(mem).into()
}

#[unsafe(no_mangle)]
pub extern "C" fn stonespry_get_children(mem: &[u64], id: u64, area: &mut [u64]) -> CallAnswer
    ensures { record { reply = result; area = area.new }
        ≡ area_answer (children_out mem.now id area.old) }
{
    manager_calls::get_children(mem, id, area).into()
}

#[unsafe(no_mangle)]
pub extern "C" fn stonespry_derivation_tree_stats(mem: &[u64]) -> TreeAnswer
    ensures { result ≡ tree_answer (tree_stats_out mem.now) }
{
    manager_calls::derivation_tree_stats(mem).into()
}

#[unsafe(no_mangle)]
pub extern "C" fn stonespry_space_census(mem: &[u64], s: usize) -> CallAnswer
    ensures { result ≡ call_answer (census_out mem.now s) }
{
    manager_calls::census(mem, s).into()
}
