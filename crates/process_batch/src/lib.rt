// dynamic_honey_badger.rs, `process_output`: the batch call as a host makes it. Faults and due items go into lists that it lends, one a field. A refused call
// writes nothing: what a batch brings up stands in lists of its own until row 7 is known. The state is lent to the steps, and only the parts that a batch changed
// are put back into it, since each hand that a large value passes through is a copy.
#![tactic(auto)]

ghost use Rattle.std.specs.Prelude.{◌≡◌, true, false, cond, length};
ghost use Rattle.bincode.specs.Stands.{Bytes};
ghost use Rattle.pub_key_map.specs.PubKeyMap.{nodes_of};
ghost use Rattle.fault_log.specs.FaultLog.{faults_of};
ghost use Rattle.key_gen_state.specs.KeyGenState as running;
ghost use Rattle.message_store.specs.MessageStore.{store_of};
ghost use Rattle.internal_contrib.specs.Index.{contribs_in};
ghost use Rattle.commit.specs.Arisen.{acks_of};
ghost use Rattle.batch.specs.Batch.{batch_held};
ghost use Rattle.decision.specs.Decision.{elected_of, change_in, is_empty_map};
ghost use Rattle.process_output.specs.Opening.{call_by};
ghost use Rattle.process_batch.specs.Answer.{faults_told, nothing_decided, told_of, kept_by};
ghost use Rattle.process_batch.specs.Steps.{BegunAs, CommittedAs, FewArisen, Quiet, SettledAs, StepsDone};
ghost use Rattle.process_batch.specs.Lent.{BatchDone};

use batch::{Batch, Ruling};
use bincode::Refusal;
use change::ChangeState;
use commit::tally::Tally;
use commit::{Arisen, Committed, Terms};
use decision::{Carried, Decision, Parts};
use due::DueList;
use dynamic_honey_badger::{DynamicHoneyBadger, ReportStamp};
use filled::{DueLists, FaultLists};
use internal_contrib::BatchIndex;
use key_gen_state::KeyGenState;
use message_store::MessageStore;
use params::Params;
use process_output::{Agreed, LentPlaces};
use pub_key_map::PubKeyMap;
use recipe::Recipe;
use vote_counter::VoteCounter;

// When a batch is: its epoch, its era, and the era that begins behind it where one does.
#[derive(Clone, Copy)]
pub struct BatchTime {
    pub epoch: u64,
    pub era: u64,
    pub next_era: u64,
}

impl BatchTime {
    // What a state keeps of the batch's report: the era is that of the batch.
    fn stamp(self) -> ReportStamp
        ensures { result ≡ record { epoch = self.epoch; era = self.era } }
    {
        ReportStamp {
            epoch: self.epoch,
            era: self.era,
        }
    }

    // The report of the batch; map and parameters are those after it.
    fn report(self, ruling: Ruling, pub_keys: PubKeyMap, params: Params) -> Batch
        ensures { result ≡ batch_held self.epoch self.era ruling pub_keys params }
    {
        Batch::new(self.epoch, self.era, ruling, pub_keys, params)
    }
}

// A report with what stands beside it, faults and due items by their numbers.
#[derive(Clone, Copy)]
pub struct Report {
    pub batch: Batch,
    pub faults: usize,
    pub due: usize,
    pub recipe: Option<Recipe>,
}

// What is told of a batch that is not refused: the report, the era that began, where one did, and that of the part that is due behind the acks, where one is.
#[derive(Clone, Copy)]
pub struct Told {
    pub report: Report,
    pub begun: Option<u64>,
    pub part: Option<u64>,
}

// The state after a batch, and the report; where the batch was refused, the state given.
#[derive(Clone, Copy)]
pub struct Processed {
    pub state: DynamicHoneyBadger,
    pub outcome: Result<Report, Refusal>,
}

// How many faults stand in the lent lists: those of the report, none beside a refusal.
pub fn fault_count(outcome: &Result<Report, Refusal>) -> usize
    ensures { result ≡ faults_told outcome.now }
{
    outcome.as_ref().map_or(0, |r| r.faults)
}

// All rows but 7: when the batch is, and where its contributions stand.
fn begin(era: u64, agreed: Agreed, places: LentPlaces) -> Result<(BatchTime, BatchIndex), Refusal>
    ensures { BegunAs result era (call_by agreed.entry places)
        × Bytes agreed.entry.batch.now }
{
    let (epoch, index) = process_output::open_batch(era, agreed, places)?;
    let time = BatchTime {
        epoch,
        era,
        next_era: epoch + 1,
    };
    Ok((time, index))
}

// Steps 2 to 5 of the contributions that an index notes.
fn commit(
    agreed: Agreed,
    index: BatchIndex,
    counter: &VoteCounter,
    state: Option<KeyGenState>,
    arisen: &mut Arisen,
) -> Committed
    ensures { CommittedAs agreed.entry.batch.now agreed.entry.verdicts.now counter.now state index result arisen.new }
{
    let terms = Terms {
        bytes: agreed.batch,
        verdicts: agreed.verdicts,
        era: counter.era,
        map: counter.pub_keys,
    };
    commit::commit_batch(&terms, index, Tally::of(counter.committed), state, arisen)
}

// Whether a batch decides nothing: no vote stayed, key generation is not ready, and so few votes stand that nobody can win.
fn is_quiet(c: &Committed, map: PubKeyMap) -> bool
    ensures { result ≡ true → Quiet c.now (nodes_of map) }
{
    !c.tally.has_fresh()
        && !key_gen_state::is_ready(&c.state)
        && c.tally.len() <= network_info::num_faulty(map)
}

// What is told of such a batch.
fn nothing_decided(time: BatchTime, pub_keys: PubKeyMap, params: Params, arisen: &Arisen) -> Told
    ensures { (result ≡ nothing_decided time pub_keys params (length (faults_of arisen.now.faults)) (length (acks_of arisen.now)))
        × FewArisen arisen.now }
{
    Told {
        report: Report {
            batch: time.report(Ruling::unvoted(ChangeState::none()), pub_keys, params),
            faults: arisen.faults.len(),
            due: arisen.acks.len(),
            recipe: None,
        },
        begun: None,
        part: None,
    }
}

// What is told of one that decides: map and parameters are those after the batch, the era is that of the batch.
fn decided(parts: &Parts, d: &Decision, time: BatchTime, arisen: &Arisen) -> Told
    ensures { (result ≡ told_of time parts.now d.now (length (faults_of arisen.now.faults)) (length (acks_of arisen.now)))
        × FewArisen arisen.now }
{
    let acks = arisen.acks.len();
    let part = (d.part_due && acks < DueList::LIMIT).then_some(time.next_era);
    Told {
        report: Report {
            batch: time.report(d.ruling, parts.vote_counter.pub_keys, parts.params),
            faults: arisen.faults.len(),
            due: acks + part.is_some() as usize,
            recipe: d.recipe,
        },
        begun: d.restarted.then_some(time.next_era),
        part,
    }
}

// Row 7: an empty map wins, and key generation is not ready.
fn is_void(state: &Option<KeyGenState>, e: &Option<Carried>) -> bool
    ensures { result ≡ cond (running.ready_state (running.state_of state.now)) false (is_empty_map (change_in (elected_of e.now))) }
{
    !key_gen_state::is_ready(state) && decision::is_empty_map(e)
}

// Steps 6 to 8 on the parts where they stand, the votes that stayed put in first; or row 7, and the parts count no more.
fn settle(parts: &mut Parts, s: &[u8], tally: Tally, next_era: u64) -> Result<Decision, Refusal>
    ensures { SettledAs s.now parts.old tally next_era parts.new result }
{
    parts.vote_counter = commit::voting::put_votes(parts.vote_counter, s, tally);
    let e = decision::elect(&parts.vote_counter);
    if is_void(&parts.key_gen_state, &e) {
        return Err(Refusal::EmptyMapWins);
    }
    Ok(decision::decide(parts, next_era, e))
}

// In place: the stored messages without the batch's, and without those of lower eras where an era began.
fn keep(store: &mut MessageStore, batch: &[u8], index: BatchIndex, begun: Option<u64>)
    ensures { store_of store.new ≡ kept_by batch.now (contribs_in index) begun (store_of store.old) }
{
    *store = store_filter::without_batch(*store, batch, index);
    if let Some(era) = begun {
        *store = store.from_era(era);
    }
}

// All rows, then all steps, on the state where it stands; a refusal leaves it as it was. Faults and acks go into the call's own lists.
fn take_steps(
    state: &mut DynamicHoneyBadger,
    agreed: Agreed,
    places: LentPlaces,
    arisen: &mut Arisen,
) -> Result<Told, Refusal>
    ensures { StepsDone state.old (call_by agreed.entry places) result state.new arisen.new }
{
    let held = state.store.len();
    let (time, index) = begin(state.vote_counter.era, agreed, places)?;
    let committed = commit(
        agreed,
        index,
        &state.vote_counter,
        state.key_gen_state,
        arisen,
    );
    let told = if is_quiet(&committed, state.vote_counter.pub_keys) {
        state.key_gen_state = committed.state;
        nothing_decided(time, state.vote_counter.pub_keys, state.params, arisen)
    } else {
        let mut parts = Parts {
            params: state.params,
            vote_counter: state.vote_counter,
            key_gen_state: committed.state,
        };
        let d = settle(&mut parts, agreed.batch, committed.tally, time.next_era)?;
        state.params = parts.params;
        state.vote_counter = parts.vote_counter;
        state.key_gen_state = parts.key_gen_state;
        decided(&parts, &d, time, arisen)
    };
    if 0 < held {
        keep(&mut state.store, agreed.batch, index, told.begun);
    }
    state.last = Some(time.stamp());
    Ok(told)
}

// A batch as it was agreed. Row 1 where a lent list is shorter than its size.
pub fn process_batch(
    mut state: DynamicHoneyBadger,
    agreed: Agreed,
    fault_ids: &mut [u32],
    fault_kinds: &mut [u8],
    due_kinds: &mut [u8],
    due_indices: &mut [u64],
    due_eras: &mut [u64],
) -> Processed
    ensures { BatchDone state agreed.entry.era agreed.entry.epoch agreed.entry.batch.now agreed.entry.verdicts.now
        (record {
          fault_ids = fault_ids.old;
          fault_kinds = fault_kinds.old;
          due_kinds = due_kinds.old;
          due_indices = due_indices.old;
          due_eras = due_eras.old;
        })
        result
        (record {
          fault_ids = fault_ids.new;
          fault_kinds = fault_kinds.new;
          due_kinds = due_kinds.new;
          due_indices = due_indices.new;
          due_eras = due_eras.new;
        }) }
{
    let faults = FaultLists {
        ids: fault_ids,
        kinds: fault_kinds,
    };
    let due = DueLists {
        kinds: due_kinds,
        indices: due_indices,
        eras: due_eras,
    };
    let era = state.vote_counter.era;
    let mut arisen = Arisen::empty();
    let places = LentPlaces {
        faults: faults.places(),
        due: due.places(),
    };
    let told = take_steps(&mut state, agreed, places, &mut arisen);
    if let Ok(t) = &told {
        faults.put(arisen.faults.faults.as_slice());
        due.put(era, arisen.acks.as_slice(), t.part);
    }
    Processed {
        state,
        outcome: told.map(|t| t.report),
    }
}
