// The replicas of a season: each takes every batch, and all are compared with the first.
use crate::calls::{Called, call};
use crate::compare::{Difference, shared_difference, told_difference};
use crate::show;
use crate::show::Network;
use batch::Batch;
use bincode::Refusal;
use dynamic_honey_badger::{DynamicHoneyBadger, Handled, Voted};
use fault_log::FaultKind;
use process_output::Agreed;
use std::alloc::{AllocError, Global};
use voters::Voters;

// The report is the first replica's of the last batch, where that was not refused.
#[derive(Drop)]
pub struct Fleet {
    pub alloc: Global,
    pub states: Vec<DynamicHoneyBadger>,
    pub report: Option<Batch>,
}

// The replica that differs from the first, by its place, and in what; none where all are alike.
pub type Differing = Option<(usize, Difference)>;

// How a replica handled a message.
pub type Handling = Result<Option<FaultKind>, Refusal>;

// A batch of an era, as the replicas are given it.
#[derive(Clone, Copy)]
pub struct Given<'a> {
    pub era: u64,
    pub inner: u64,
    pub batch: &'a [u8],
}

impl<'a> Given<'a> {
    pub(crate) fn new(era: u64, inner: u64, batch: &'a [u8]) -> Given<'a> {
        Given { era, inner, batch }
    }
}

// The batch as replica i handles it, with as many verdicts as it asks for. They are its own: i for every message, and 3 from replica 3 on.
fn handle(
    alloc: Global,
    state: &mut DynamicHoneyBadger,
    i: usize,
    given: Given<'_>,
) -> Result<Called, AllocError> {
    let n = internal_contrib::check_batch(given.batch).unwrap_or(0);
    let verdicts = vec![in alloc; i.min(3) as u8; n as usize]?;
    let agreed = Agreed {
        era: given.era,
        epoch: given.inner,
        batch: given.batch,
        verdicts: &verdicts,
    };
    call(alloc, state, agreed)
}

// Era and roster of a replica.
pub(crate) fn network(state: &DynamicHoneyBadger) -> Network {
    let counter = state.vote_counter;
    Network {
        era: counter.era,
        map: counter.pub_keys,
    }
}

// The answer; the state after it takes the place of the one before.
fn put(state: &mut DynamicHoneyBadger, r: Handled) -> Handling {
    let Handled {
        state: next,
        outcome,
    } = r;
    *state = next;
    outcome
}

// The same of an own vote: whether one was cast.
fn put_voted(state: &mut DynamicHoneyBadger, r: Voted) -> bool {
    let Voted {
        state: next,
        outcome,
    } = r;
    *state = next;
    matches!(outcome, Ok(Some(_)))
}

impl Fleet {
    pub(crate) fn new(alloc: Global) -> Fleet {
        Fleet {
            alloc,
            states: Vec::new(alloc),
            report: None,
        }
    }

    // One replica more.
    pub(crate) fn add(&mut self, state: DynamicHoneyBadger) -> Result<(), AllocError> {
        self.states.push(state).map_err(AllocError::from)
    }

    // All but the first take a batch, as the first did; what each told, and then what it holds, is compared with the first, and the first that differs is told.
    fn follow_all(&mut self, led: &Called, given: Given<'_>) -> Result<Differing, AllocError> {
        let Some((first, others)) = self.states.split_first_mut() else {
            return Ok(None);
        };
        let mut differing = None;
        for (i, state) in (1..).zip(others) {
            let told = handle(self.alloc, state, i, given)?;
            let d = told_difference(led, &told).or_else(|| shared_difference(first, state));
            differing = differing.or(d.map(|d| (i, d)));
        }
        Ok(differing)
    }

    // All take a batch, and the step's line is written.
    pub(crate) fn take(
        &mut self,
        rt: &impl Print,
        step: u64,
        given: Given<'_>,
    ) -> anyhow::Result<()> {
        let Some(first) = self.states.first_mut() else {
            return Ok(());
        };
        let led = handle(self.alloc, first, 0, given)?;
        let network = network(first);
        let report = led.outcome.ok().map(|r| r.batch);
        let voters = report.map_or(Voters::empty(), |b| b.voters);
        self.report = report;
        match self.follow_all(&led, given)? {
            Some((i, d)) => show::differ(rt, step, i, d),
            None => show::agree(
                rt,
                step,
                led.outcome.err(),
                led.faults.len(),
                voters,
                network,
            ),
        }
    }

    // The first replica that differs from the first of all in what it holds.
    fn differing(&self) -> Differing {
        let (first, others) = self.states.split_first()?;
        (1..).zip(others).find_map(|(i, state)| shared_difference(first, state).map(|d| (i, d)))
    }

    // Replica i alone is given a batch; then all are compared in what they hold, and the step's line is written.
    pub(crate) fn take_alone(
        &mut self,
        rt: &impl Print,
        step: u64,
        i: usize,
        given: Given<'_>,
    ) -> anyhow::Result<()> {
        let Some(state) = self.states.get_mut(i) else {
            return Ok(());
        };
        let told = handle(self.alloc, state, i, given)?;
        let differing = self.differing();
        let Some(first) = self.states.first() else {
            return Ok(());
        };
        match differing {
            Some((i, d)) => show::differ(rt, step, i, d),
            None => show::alone(rt, step, i, told.outcome.err(), network(first)),
        }
    }

    // Replica i receives a message.
    pub(crate) fn hear(&mut self, i: usize, sender: u32, message: &[u8]) -> Option<Handling> {
        let state = self.states.get_mut(i)?;
        let r = state.handle_message(sender, message);
        Some(put(state, r))
    }

    // Replica i's host hands back what was due.
    pub(crate) fn hand_back(&mut self, i: usize, item: &[u8]) -> Option<Handling> {
        let state = self.states.get_mut(i)?;
        let r = due_item::handle_due_item(*state, item);
        Some(put(state, r))
    }

    // Whether replica i casts a vote of its own, to remove a node.
    pub(crate) fn vote_to_remove(&mut self, i: usize, id: u32) -> bool {
        let Some(state) = self.states.get_mut(i) else {
            return false;
        };
        let r = state.vote_to_remove(id);
        put_voted(state, r)
    }
}
