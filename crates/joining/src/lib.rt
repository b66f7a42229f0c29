// dynamic_honey_badger.rs: what `new` and `new_joining` check before a node starts. The Rust's asserts and errors are refusals here.
#![tactic(auto)]

ghost use Rattle.std.specs.Prelude.{◌≡◌};
ghost use Rattle.bincode.specs.Answer.{outcome_as_said};
ghost use Rattle.bincode.specs.Sizes.{base};
ghost use Rattle.change.specs.Change.{state_of};
ghost use Rattle.join_plan.specs.JoinPlan.{plan_of};
ghost use Rattle.joining.specs.Starting.{empty_progress, join_checked, join_plan, join_row8, join_row10, start_checked, start_of};

use bincode::{FixintEncoding, Refusal};
use change::{Change, ChangeState};
use due::DueList;
use join_plan::JoinPlan;
use params::Params;
use pub_key_map::PubKeyMap;

// Whether the map of a change in progress is empty.
fn has_empty_progress(change: ChangeState) -> bool
    ensures { result ≡ empty_progress (state_of change) }
{
    match change {
        ChangeState::InProgress(Change::NodeChange(map)) => map.len() == 0,
        _ => false,
    }
}

// Row 8: the plan's map, or its in-progress map, is empty.
#[tactic(auto, using(crate::proofs::StartLaws::empty_length), unfolding(crate::specs::Starting::join_row8))]
fn has_empty_map(p: JoinPlan) -> bool
    ensures { result ≡ join_row8 (plan_of p) }
{
    p.pub_keys.len() == 0 || has_empty_progress(p.change)
}

// Row 10: a complete change differs from the plan.
#[tactic(auto, using(pub_key_map::proofs::MapLaws::map_eq, honey_badger::proofs::ScheduleLaws::schedule_eq), unfolding(crate::specs::Starting::join_row10))]
fn has_other_change(p: JoinPlan) -> bool
    ensures { result ≡ join_row10 (plan_of p) }
{
    match p.change {
        ChangeState::Complete(Change::NodeChange(map)) => map != p.pub_keys,
        ChangeState::Complete(Change::EncryptionSchedule(schedule)) => schedule
            != p.params.encryption_schedule,
        _ => false,
    }
}

// The rows behind reading, in order.
#[tactic(auto, unfolding(crate::specs::Starting::join_plan, crate::specs::Starting::join_row9))]
fn check_plan(our_id: u32, secret_key: u64, plan: JoinPlan) -> Result<JoinPlan, Refusal>
    ensures { outcome_as_said plan_of result ≡ join_plan our_id secret_key (plan_of plan) }
{
    let keys = plan.pub_keys;
    if secret_key == 0 {
        return Err(Refusal::Malformed);
    }
    if has_empty_map(plan) {
        return Err(Refusal::EmptyMap);
    }
    if network_info::is_member(keys, our_id) {
        return Err(Refusal::AlreadyMember);
    }
    if has_other_change(plan) {
        return Err(Refusal::OtherChange);
    }
    Ok(plan)
}

// Joining: 1 for fewer places lent for due items than 01 says; 2 and 3 of the plan, then of the own key; 8; 9; 10. Else a plan that a node may start from.
#[tactic(auto, using(join_plan::proofs::PlanLaws::held_plan), unfolding(crate::specs::Starting::join_checked))]
pub fn check_joining(
    due_places: usize,
    our_id: u32,
    secret_key: u64,
    plan: &[u8],
) -> Result<JoinPlan, Refusal>
    ensures { outcome_as_said plan_of result ≡ join_checked base due_places our_id secret_key plan.now }
{
    if due_places < DueList::LIMIT {
        return Err(Refusal::ShortBuffer);
    }
    let (read, _) = bincode::read_whole::<FixintEncoding, JoinPlan>(plan)?;
    check_plan(our_id, secret_key, read)
}

// Starting: 2 and 3 of the map, of the parameters, then of the own key; 8. Else a map and parameters that a node may start from.
#[tactic(auto, using(crate::proofs::StartLaws::empty_length), unfolding(crate::specs::Starting::start_checked, crate::specs::Starting::start_map))]
pub fn check_starting(
    secret_key: u64,
    map: &[u8],
    params: &[u8],
) -> Result<(PubKeyMap, Params), Refusal>
    ensures { outcome_as_said start_of result ≡ start_checked base secret_key map.now params.now }
{
    let (pub_keys, _) = bincode::read_whole::<FixintEncoding, PubKeyMap>(map)?;
    let (read, _) = bincode::read_whole::<FixintEncoding, Params>(params)?;
    if secret_key == 0 {
        return Err(Refusal::Malformed);
    }
    if pub_keys.len() == 0 {
        return Err(Refusal::EmptyMap);
    }
    Ok((pub_keys, read))
}
