// dynamic_honey_badger.rs, `process_output`, behind its loop: a ready key generation, else the winner, else nothing.
// What it decides on is changed in place; the message store is filtered by the caller where an era begins.
#![tactic(auto)]

ghost use Rattle.std.specs.Prelude.{◌≡◌, List, Some};
ghost use Rattle.lists.specs.Lists.{Found, found};
ghost use Rattle.bincode.specs.Sizes.{base};
ghost use Rattle.pub_key_map.specs.PubKeyMap.{nodes_of};
ghost use Rattle.batch.specs.Batch.{ruling_of};
ghost use Rattle.voters.specs.Voters.{ids_of};
ghost use Rattle.vote_counter.specs.VoteCounter.{counter_of, carried};
ghost use Rattle.key_gen_message.specs.KeyGenMessage.{SignedKeyGenMsgOf};
ghost use Rattle.key_gen_state.specs.KeyGenState as running;
ghost use Rattle.dynamic_honey_badger.specs.State.{Stamp, candidate_nodes};
ghost use Rattle.decision.specs.Decision.{of_parts, decided_of, elected_of, completed_by, is_candidate};
ghost use Rattle.decision.specs.Decision.{map_wins, schedule_wins, elected_by, decide_by, change_in, is_empty_map};

use batch::Ruling;
use change::{Change, ChangeState};
use honey_badger::EncryptionSchedule;
use key_gen::KeyGen;
use key_gen_state::KeyGenState;
use params::Params;
use pub_key_map::PubKeyMap;
use recipe::Recipe;
use vote_counter::VoteCounter;
use voters::Voters;

// What steps 6 to 8 go by, and what they change: a node's state but for its store and its last report.
#[derive(Clone, Copy)]
pub struct Parts {
    pub params: Params,
    pub vote_counter: VoteCounter,
    pub key_gen_state: Option<KeyGenState>,
}

// A change that has won, and the voters who carried it.
#[derive(Clone, Copy)]
pub struct Carried {
    pub change: Change,
    pub voters: Voters,
}

// Whether an era begins, so that the store loses lower eras; what the report tells, whether a part is due, and the recipe where key generation completed.
#[derive(Clone, Copy)]
pub struct Decision {
    pub restarted: bool,
    pub ruling: Ruling,
    pub part_due: bool,
    pub recipe: Option<Recipe>,
}

// The winning change with its voters, or that there is none; looked for only where more than f votes are committed. Asked while they stand: a new era has none.
pub fn elect(counter: &VoteCounter) -> Option<Carried>
    ensures { elected_of result ≡ carried (counter_of counter.now) }
{
    if counter.committed.len() <= network_info::num_faulty(counter.pub_keys) {
        return None;
    }
    let winner = counter.compute_winner()?;
    let change = counter.committed.votes.as_slice()[winner.place].vote.change;
    Some(Carried {
        change,
        voters: winner.voters,
    })
}

// Whether an empty map wins: row 7, where key generation is not ready.
pub fn is_empty_map(e: &Option<Carried>) -> bool
    ensures { result ≡ is_empty_map (change_in (elected_of e.now)) }
{
    let Some(won) = e else {
        return false;
    };
    match won.change {
        Change::NodeChange(map) => map.len() == 0,
        Change::EncryptionSchedule(_) => false,
    }
}

// Step 6: the candidate map takes effect, key generation ends, a new era begins.
fn complete(parts: &mut Parts, ended: KeyGenState, era: u64) -> Decision
    ensures { (st : List SignedKeyGenMsgOf) (l : Found Stamp) → decided_of era st l parts.new result ≡ completed_by era (of_parts parts.old st l) (found (running.running_of ended)) }
{
    let key_gen = ended.key_gen;
    let map = key_gen.pub_keys;
    let ruling = Ruling::unvoted(ChangeState::complete(Change::node_change(map)));
    parts.vote_counter = parts.vote_counter.new_era(map, era);
    parts.key_gen_state = None;
    Decision {
        restarted: true,
        ruling,
        part_due: false,
        recipe: Some(Recipe::generate(key_gen)),
    }
}

// Whether key generation runs for just this map.
#[tactic(auto, using(pub_key_map::proofs::MapLaws::map_eq))]
fn is_candidate(state: Option<KeyGenState>, map: PubKeyMap) -> bool
    ensures { result ≡ is_candidate (candidate_nodes (running.state_of state)) (nodes_of map) }
{
    state.is_some_and(|s| s.key_gen.pub_keys == map)
}

// Step 7 where a map wins: the candidate map again restarts nothing; another one begins an era and a fresh key generation.
fn map_wins(parts: &mut Parts, era: u64, map: PubKeyMap, voters: Voters) -> Decision
    ensures { (st : List SignedKeyGenMsgOf) (l : Found Stamp) → decided_of era st l parts.new result ≡ map_wins base era (of_parts parts.old st l) (ids_of voters) (nodes_of map) }
{
    let ruling = Ruling {
        change: ChangeState::in_progress(Change::node_change(map)),
        voters,
    };
    if is_candidate(parts.key_gen_state, map) {
        return Decision {
            restarted: false,
            ruling,
            part_due: false,
            recipe: None,
        };
    }
    let our_id = parts.vote_counter.our_id;
    let current = parts.vote_counter.pub_keys;
    let begun = KeyGen::new(our_id, map);
    parts.vote_counter = parts.vote_counter.new_era(current, era);
    parts.key_gen_state = Some(KeyGenState::new(begun));
    Decision {
        restarted: true,
        ruling,
        part_due: network_info::is_member(map, our_id),
        recipe: None,
    }
}

// Step 7 where a schedule wins: it is put into the parameters, an era begins, key generation is kept.
fn schedule_wins(
    parts: &mut Parts,
    era: u64,
    schedule: EncryptionSchedule,
    voters: Voters,
) -> Decision
    ensures { (st : List SignedKeyGenMsgOf) (l : Found Stamp) → decided_of era st l parts.new result ≡ schedule_wins era (of_parts parts.old st l) (ids_of voters) schedule }
{
    let map = parts.vote_counter.pub_keys;
    parts.params.encryption_schedule = schedule;
    parts.vote_counter = parts.vote_counter.new_era(map, era);
    Decision {
        restarted: true,
        ruling: Ruling {
            change: ChangeState::complete(Change::schedule(schedule)),
            voters,
        },
        part_due: false,
        recipe: None,
    }
}

// Steps 7 and 8: a change that has won is made; without one all stays as it is.
fn elected(parts: &mut Parts, era: u64, e: Option<Carried>) -> Decision
    ensures { (st : List SignedKeyGenMsgOf) (l : Found Stamp) → decided_of era st l parts.new result ≡ elected_by base era (of_parts parts.old st l) (elected_of e) }
{
    let Some(Carried { change, voters }) = e else {
        return Decision {
            restarted: false,
            ruling: Ruling::unvoted(ChangeState::none()),
            part_due: false,
            recipe: None,
        };
    };
    match change {
        Change::NodeChange(map) => map_wins(parts, era, map, voters),
        Change::EncryptionSchedule(schedule) => schedule_wins(parts, era, schedule, voters),
    }
}

// Steps 6 to 8, with the era that a change begins and the winner that `elect` found.
pub fn decide(parts: &mut Parts, era: u64, e: Option<Carried>) -> Decision
    ensures { (st : List SignedKeyGenMsgOf) (l : Found Stamp) → decided_of era st l parts.new result ≡ decide_by base era (of_parts parts.old st l) (elected_of e) }
{
    match parts.key_gen_state {
        Some(running) if running.key_gen.is_ready() => complete(parts, running, era),
        _ => elected(parts, era, e),
    }
}
