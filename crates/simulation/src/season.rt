// The season: a node is added, a schedule is chosen, a replica joins while a node leaves, a vote waits for another, and comes again forged.
use crate::compare::shared_difference;
use crate::fleet::{Fleet, Given, network};
use crate::{batches, show};
use batch::Batch;
use change::Change;
use due::DueList;
use dynamic_honey_badger::{DynamicHoneyBadger, JoinStarted};
use honey_badger::EncryptionSchedule;
use join_plan::JoinPlan;
use params::{Params, SubsetHandlingStrategy};
use pub_key_map::PubKeyMap;

fn initial_params() -> Params {
    Params {
        max_future_epochs: 3,
        subset_handling_strategy: SubsetHandlingStrategy::Incremental,
        encryption_schedule: EncryptionSchedule::Always,
    }
}

// Two validators and an observer, in era 0 of nodes 1 to 4.
fn start(rt: &(impl Print + AllocGlobal)) -> anyhow::Result<Fleet> {
    let mut f = Fleet::new(rt.alloc());
    let map = batches::encoded(f.alloc, batches::roster(4))?;
    let params = batches::encoded(f.alloc, initial_params())?;
    for our_id in [1, 2, 9] {
        match DynamicHoneyBadger::new(our_id, batches::node(our_id).key, 0, &map, &params) {
            Ok(state) => f.add(state)?,
            Err(_) => show::expect(rt, 0, false)?,
        }
    }
    Ok(f)
}

// Between steps 1 and 2: the first replica casts a vote of its own, the second receives a vote of node 4 and a part of node 5, the third a message whose last byte is missing.
fn between(rt: &impl Print, f: &mut Fleet, candidate: PubKeyMap) -> anyhow::Result<()> {
    let alloc = f.alloc;
    show::expect(rt, 1, f.vote_to_remove(0, 3))?;
    let vote = batches::vote_message(alloc, 1, 4, Change::node_change(candidate))?;
    show::expect(rt, 1, f.hear(1, 4, &vote) == Some(Ok(None)))?;
    let part = batches::key_message(alloc, 1, 5, batches::part(candidate, 5))?;
    show::expect(rt, 1, f.hear(1, 5, &part) == Some(Ok(None)))?;
    let mut damaged = batches::key_message(alloc, 1, 4, batches::part(candidate, 4))?;
    damaged.pop();
    show::expect(rt, 1, matches!(f.hear(2, 4, &damaged), Some(Err(_))))
}

// Steps 2 and 3: the parts and the acks of key generation; between them the first replica's host hands back an ack that was due.
fn generate(rt: &impl Print, f: &mut Fleet, candidate: PubKeyMap) -> anyhow::Result<()> {
    let alloc = f.alloc;
    let parts = batches::parts(alloc, 1, candidate)?;
    f.take(rt, 2, Given::new(1, 0, &parts))?;
    let item = batches::key_message(alloc, 1, 1, batches::ack(candidate, 0))?;
    show::expect(rt, 2, f.hand_back(0, &item) == Some(Ok(None)))?;
    let acks = batches::acks(alloc, 1, candidate)?;
    f.take(rt, 3, Given::new(1, 1, &acks))
}

// Steps 1 to 3: node 5 is voted in, and key generation with it runs and completes.
fn grow(rt: &impl Print, f: &mut Fleet) -> anyhow::Result<()> {
    let candidate = batches::roster(5);
    let votes = batches::votes(f.alloc, 0, 2, Change::node_change(candidate))?;
    f.take(rt, 1, Given::new(0, 0, &votes))?;
    between(rt, f, candidate)?;
    generate(rt, f, candidate)
}

// The map without node 3.
fn remaining() -> PubKeyMap {
    node_change::without_node(batches::roster(5), 3)
}

// Steps 4 to 6: a batch with a byte left over, a schedule, and node 3 is voted out.
fn shrink(rt: &impl Print, f: &mut Fleet) -> anyhow::Result<()> {
    let alloc = f.alloc;
    let longer = batches::nothing(alloc, 9)?;
    f.take(rt, 4, Given::new(3, 0, &longer))?;
    let never = batches::votes(alloc, 3, 2, Change::schedule(EncryptionSchedule::Never))?;
    f.take(rt, 5, Given::new(3, 0, &never))?;
    let leaving = batches::votes(alloc, 4, 2, Change::node_change(remaining()))?;
    f.take(rt, 6, Given::new(4, 2, &leaving))
}

// Node 7 starts from the plan that a report gives; none where there is no plan, or it is refused.
fn start_joining(report: Option<Batch>) -> Option<JoinStarted> {
    let mut plan = [0u8; JoinPlan::BYTES];
    let n = report?.join_plan(&mut plan, 1).ok()??;
    DynamicHoneyBadger::new_joining(
        7,
        batches::node(7).key,
        plan.get(..n)?,
        &mut [0u8; DueList::LIMIT],
        &mut [0u64; DueList::LIMIT],
        &mut [0u64; DueList::LIMIT],
    )
    .ok()
}

// One replica more, compared with the first; says that it joined, where it stands where the first stands.
fn admit(rt: &impl Print, f: &mut Fleet, joiner: DynamicHoneyBadger) -> anyhow::Result<()> {
    match f
        .states
        .first()
        .and_then(|first| shared_difference(first, &joiner))
    {
        Some(d) => show::differ(rt, 7, 3, d)?,
        None => show::joined(rt, 7, network(&joiner))?,
    }
    f.add(joiner)?;
    Ok(())
}

// Step 7: a replica joins from the plan that the first replica's report gives.
fn join(rt: &impl Print, f: &mut Fleet) -> anyhow::Result<()> {
    match start_joining(f.report) {
        Some(r) => admit(rt, f, r.state),
        None => show::expect(rt, 7, false),
    }
}

// Step 10: the second replica alone is given one more batch of era 7, which step 9 closed; its votes would win in era 9.
fn catch_up(rt: &impl Print, f: &mut Fleet) -> anyhow::Result<()> {
    let change = Change::schedule(EncryptionSchedule::Always);
    let votes = batches::votes(f.alloc, 9, 2, change)?;
    f.take_alone(rt, 10, 1, Given::new(7, 2, &votes))
}

// Steps 7 to 11: a replica joins, a part of the leaving node is a fault of it, key generation completes, a replica gets a batch too late, and nothing is left to do.
fn end(rt: &impl Print, f: &mut Fleet) -> anyhow::Result<()> {
    let alloc = f.alloc;
    join(rt, f)?;
    let part = batches::one_part(alloc, 7, remaining(), 3)?;
    f.take(rt, 8, Given::new(7, 0, &part))?;
    let all = batches::parts_and_acks(alloc, 7, remaining())?;
    f.take(rt, 9, Given::new(7, 1, &all))?;
    catch_up(rt, f)?;
    let nothing = batches::nothing(alloc, 8)?;
    f.take(rt, 11, Given::new(9, 0, &nothing))
}

// Steps 12 to 14: the vote of node 1 alone stays committed, and that of node 3, which has left, is a fault; node 1's comes again under no key, and is one too, though its number is old;
// with the vote of node 2 the schedule wins.
fn wait(rt: &impl Print, f: &mut Fleet) -> anyhow::Result<()> {
    let alloc = f.alloc;
    let change = Change::schedule(EncryptionSchedule::EveryNthEpoch(2));
    let with_leaver = batches::votes(alloc, 9, 3, change)?;
    f.take(rt, 12, Given::new(9, 1, &with_leaver))?;
    let again = batches::forged_vote(alloc, 9, 1, change)?;
    f.take(rt, 13, Given::new(9, 2, &again))?;
    let second = batches::one_vote(alloc, 9, 2, change)?;
    f.take(rt, 14, Given::new(9, 3, &second))
}

// All of it.
pub(crate) fn play(rt: &(impl Print + AllocGlobal)) -> anyhow::Result<()> {
    let mut f = start(rt)?;
    grow(rt, &mut f)?;
    shrink(rt, &mut f)?;
    end(rt, &mut f)?;
    wait(rt, &mut f)
}
