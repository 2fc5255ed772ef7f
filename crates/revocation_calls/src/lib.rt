// The calls that revoke: by a token, by a token that a space holds, by many tokens. manager.rs's `revoke`; revocation.rs's
// `revoke_capability`, `revoke_held` and `revoke_batch`. No call asks anything of its arguments or of the memory: each looks first, and
// refuses by the table of answers. What revocation says of itself is in `revocation_reads`, the calls for notifications in
// `notification_calls`.
#![tactic(auto)]

ghost use Rattle.std.specs.Prelude.{◌≡◌, ◌≤◌, length};
ghost use Rattle.steps.specs.Replies.{done, told};
ghost use Rattle.world.specs.Sound.{SoundAt};
ghost use Rattle.revocation_calls.specs.Calls.{revoke_out, revoke_capability_out, revoke_held_out, revoke_batch_out};
ghost use Rattle.revocation_calls.specs.Revoking.{logging_token, revoking_token, revoking_held, revoking_each};

use answers::Refusal;
use cascade::revoke_at;
use revocation_steps::log::{append_pairs, keep_absent};
use space::LookedUp;
use space_steps::spaces;
use steps::enter::{enter_space, enter_world};
use steps::registered::{add, place_of};
use steps::{Done, Refused};
use token::{CapabilityToken, Rights};
use world::Numbers;
use world::head::{EPOCH, LOGGED, REGISTERED};

// The token's pair joins the log if absent, and the epoch counts one: all there is to revoke of an id that is not registered.
#[tactic(auto, using(steps::proofs::laws::Ready::ready_at, revocation_steps::proofs::Pairs::token_pair, crate::proofs::laws::Each::joining), unfolding(crate::specs::Revoking::logging_token, base::specs::Choose::when))]
fn log_token(mem: &mut [u64], d: Numbers, token: CapabilityToken) -> Result<Done, Refused>
    requires { SoundAt d mem.old }
    ensures { record { reply = told result; memory = mem.new } ≡ logging_token d token.0 mem.old }
{
    let mut pairs = [token.0 % 0x100_0000_0000_0000; 1];
    let absent = keep_absent(mem, d, &mut pairs, 1);
    if d.pairs < mem[LOGGED] as usize + absent {
        Err(Refusal::LogFull)?;
    }
    append_pairs(mem, d, &pairs[..absent]);
    add(mem, EPOCH, 1);
    Ok(Done::with(0))
}

// The id decides: registered or not.
#[tactic(auto, using(steps::proofs::laws::Ready::ready_at), unfolding(crate::specs::Revoking::revoking_token))]
fn revoke_token(
    mem: &mut [u64],
    d: Numbers,
    token: CapabilityToken,
    time: u64,
    listed: &[u64],
) -> Result<Done, Refused>
    requires { SoundAt d mem.old }
    ensures { record { reply = told result; memory = mem.new }
        ≡ revoking_token d token.0 time listed.now mem.old }
{
    let r = place_of(mem, d, token.id());
    if r < mem[REGISTERED] as usize {
        return revoke_at(mem, d, r, time, listed);
    }
    log_token(mem, d, token)
}

// The entry that was looked for must be there and have REVOKE.
#[tactic(auto, unfolding(base::specs::Choose::when))]
fn revoke_looked_up(
    mem: &mut [u64],
    d: Numbers,
    token: CapabilityToken,
    time: u64,
    listed: &[u64],
    l: LookedUp,
) -> Result<Done, Refused>
    requires { SoundAt d mem.old }
    ensures { record { reply = told result; memory = mem.new }
        ≡ revoking_held d token.0 time listed.now mem.old l.got l.visits }
{
    let entry = l.got.ok_or(Refused::after(Refusal::NotFound, l.visits))?;
    if !entry.rights.contains(Rights::REVOKE) {
        return Err(Refused::after(Refusal::InsufficientRights, l.visits));
    }
    revoke_token(mem, d, token, time, listed).map_err(|r| Refused::after(r.refusal, l.visits))?;
    Ok(Done {
        value: 0,
        count: l.visits,
    })
}

// Each token in turn; answers how many gave 0.
fn revoke_each(mem: &mut [u64], d: Numbers, tokens: &[u64], time: u64, listed: &[u64]) -> u64
    requires { SoundAt d mem.old × (length tokens.now ≤ 65535) }
    ensures { record { reply = done result; memory = mem.new }
        ≡ revoking_each d tokens.now time listed.now 0 mem.old }
{
    let mut gave = 0;
    for token in tokens {
        gave += revoke_token(mem, d, CapabilityToken(*token), time, listed).is_ok() as u64;
    }
    gave
}

/// The manager's `revoke`, of a token's id and all its descendants; `listed` are the processes that are told. 21 for more than 32
/// processes, 1 for an id that is not registered, 24 or 25 where the log or the queues have no room.
#[tactic(auto, unfolding(crate::specs::Calls::revoke_out, steps::specs::Enter::on_world, base::specs::Choose::when))]
pub fn revoke(
    mem: &mut [u64],
    token: CapabilityToken,
    time: u64,
    listed: &[u64],
) -> Result<Done, Refused>
    ensures { record { reply = told result; memory = mem.new } ≡ revoke_out mem.old token.0 time listed.now }
{
    let d = enter_world(mem)?;
    if 32 < listed.len() {
        Err(Refusal::BadField)?;
    }
    let r = place_of(mem, d, token.id());
    if mem[REGISTERED] as usize <= r {
        Err(Refusal::InvalidCapability)?;
    }
    revoke_at(mem, d, r, time, listed)
}

/// The same of any token: one whose id is not registered joins the log.
#[tactic(auto, unfolding(crate::specs::Calls::revoke_capability_out, steps::specs::Enter::on_world, base::specs::Choose::when))]
pub fn revoke_capability(
    mem: &mut [u64],
    token: CapabilityToken,
    time: u64,
    listed: &[u64],
) -> Result<Done, Refused>
    ensures { record { reply = told result; memory = mem.new }
        ≡ revoke_capability_out mem.old token.0 time listed.now }
{
    let d = enter_world(mem)?;
    if 32 < listed.len() {
        Err(Refusal::BadField)?;
    }
    revoke_token(mem, d, token, time, listed)
}

/// The same of a token that a space holds with REVOKE. Where 26, 20 and 21 are not given, the space's own lookup comes first and is
/// counted; the count is its visits. 8 for a token that is not held, 2 without REVOKE.
#[tactic(auto, using(crate::proofs::laws::Kept::looked_up_sound), unfolding(crate::specs::Calls::revoke_held_out, steps::specs::Enter::on_space, base::specs::Choose::when))]
pub fn revoke_held(
    mem: &mut [u64],
    s: usize,
    token: CapabilityToken,
    time: u64,
    listed: &[u64],
) -> Result<Done, Refused>
    ensures { record { reply = told result; memory = mem.new }
        ≡ revoke_held_out mem.old s token.0 time listed.now }
{
    let d = enter_space(mem, s)?;
    if 32 < listed.len() {
        Err(Refusal::BadField)?;
    }
    let l = spaces::lookup(mem, d, s, token);
    revoke_looked_up(mem, d, token, time, listed, l)
}

/// The same of many tokens, each a word of `tokens`; the value is how many were not refused. 21 for more than 65,535 tokens.
#[tactic(auto, unfolding(crate::specs::Calls::revoke_batch_out, steps::specs::Enter::on_world, base::specs::Choose::when))]
pub fn revoke_batch(
    mem: &mut [u64],
    tokens: &[u64],
    time: u64,
    listed: &[u64],
) -> Result<Done, Refused>
    ensures { record { reply = told result; memory = mem.new }
        ≡ revoke_batch_out mem.old tokens.now time listed.now }
{
    let d = enter_world(mem)?;
    if 65535 < tokens.len() {
        Err(Refusal::BadField)?;
    }
    if 32 < listed.len() {
        Err(Refusal::BadField)?;
    }
    Ok(Done::with(revoke_each(mem, d, tokens, time, listed)))
}
