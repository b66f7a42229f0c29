// The calls of a log. Each answers one line; a line that is no call changes nothing. The checker writes out a large value's type at each step of a function that makes one, so
// those that make a replica or a host are short.
use crate::answers::kind_name;
use crate::batches::{join, say_batch, say_join};
use crate::lent::Lists;
use crate::parse::{BatchCall, Call, Join, New, Order};
use crate::queries::{ask, plan_new, plan_old, schedule, user};
use crate::text::{Failure, put_value};
use batch::Batch;
use bincode::Refusal;
use dynamic_honey_badger::DynamicHoneyBadger;
use fault_log::FaultKind;
use message::Message;
use process_output::Agreed;
use std::alloc::AllocError;
use votes::SignedVote;

// A replica, and the last report once there is one.
#[derive(Clone, Copy)]
pub struct Host {
    pub replica: DynamicHoneyBadger,
    pub report: Option<Batch>,
}

// The bytes of the message that broadcasts an own vote.
fn say_cast(out: &mut String, vote: SignedVote) -> Result<(), AllocError> {
    out.push_str("vote ")?;
    put_value(out, Message::SignedVote(vote))?;
    out.push_str("\n")
}

// What an own vote answers.
fn say_vote(out: &mut String, outcome: Result<Option<SignedVote>, Refusal>) -> Result<(), Failure> {
    match outcome? {
        Some(vote) => say_cast(out, vote)?,
        None => writeln!(out, "nothing")?,
    }
    Ok(())
}

// What a message answers: a fault is its sender's, and a due item has none.
fn say_handled(
    out: &mut String,
    sender: Option<u32>,
    outcome: Result<Option<FaultKind>, Refusal>,
) -> Result<(), Failure> {
    match (outcome?, sender) {
        (Some(kind), Some(id)) => writeln!(out, "fault {id}:{}", kind_name(u8::from(kind)))?,
        (Some(kind), None) => writeln!(out, "fault {}", kind_name(u8::from(kind)))?,
        (None, _) => writeln!(out, "handled")?,
    }
    Ok(())
}

// The host of a replica that starts, with no report yet.
fn begin(replica: DynamicHoneyBadger) -> Option<Host> {
    Some(Host {
        replica,
        report: None,
    })
}

fn start(host: &mut Option<Host>, n: &New, out: &mut String) -> Result<(), Failure> {
    let replica = DynamicHoneyBadger::new(n.id, n.key, n.era, &n.map, &n.params)?;
    *host = begin(replica);
    writeln!(out, "started")?;
    Ok(())
}

fn start_joining(
    host: &mut Option<Host>,
    j: &Join,
    lists: &mut Lists,
    out: &mut String,
) -> Result<(), AllocError> {
    match join(j, lists) {
        Ok(r) => {
            *host = begin(r.state);
            say_join(out, Ok(r.due), j.places, lists)
        }
        Err(refusal) => say_join(out, Err(refusal), j.places, lists),
    }
}

// The state goes straight into a call and is put back at once: any other order copies it once more, and so does a call that is handed in as a closure.
impl Host {
    // A refused batch keeps the last report.
    fn batch(&mut self, b: &BatchCall, lists: &mut Lists, out: &mut String) -> Result<(), Failure> {
        let agreed = Agreed {
            era: b.era,
            epoch: b.epoch,
            batch: &b.batch,
            verdicts: &b.verdicts,
        };
        let r = process_batch::process_batch(
            self.replica,
            agreed,
            lists.ids.lend(b.faults),
            lists.kinds.lend(b.faults),
            lists.due_kinds.lend(b.due),
            lists.indices.lend(b.due),
            lists.eras.lend(b.due),
        );
        self.replica = r.state;
        if let Ok(report) = r.outcome {
            self.report = Some(report.batch);
        }
        say_batch(out, r.outcome, b, lists)?;
        Ok(())
    }

    fn receive(&mut self, sender: u32, message: &[u8], out: &mut String) -> Result<(), Failure> {
        let r = self.replica.handle_message(sender, message);
        self.replica = r.state;
        say_handled(out, Some(sender), r.outcome)
    }

    fn take_back(&mut self, item: &[u8], out: &mut String) -> Result<(), Failure> {
        let r = due_item::handle_due_item(self.replica, item);
        self.replica = r.state;
        say_handled(out, None, r.outcome)
    }

    fn vote_for(&mut self, change: &[u8], out: &mut String) -> Result<(), Failure> {
        let r = self.replica.vote_for(change);
        self.replica = r.state;
        say_vote(out, r.outcome)
    }

    fn vote_to_add(&mut self, id: u32, key: u64, out: &mut String) -> Result<(), Failure> {
        let r = self.replica.vote_to_add(id, key);
        self.replica = r.state;
        say_vote(out, r.outcome)
    }

    fn vote_to_remove(&mut self, id: u32, out: &mut String) -> Result<(), Failure> {
        let r = self.replica.vote_to_remove(id);
        self.replica = r.state;
        say_vote(out, r.outcome)
    }

    fn order(&mut self, order: &Order, lists: &mut Lists, out: &mut String) -> Result<(), Failure> {
        match order {
            Order::Batch(b) => self.batch(b, lists, out),
            Order::Message(sender, message) => self.receive(*sender, message, out),
            Order::Due(item) => self.take_back(item, out),
            Order::Vote(change) => self.vote_for(change, out),
            Order::Add(id, key) => self.vote_to_add(*id, *key, out),
            Order::Remove(id) => self.vote_to_remove(*id, out),
        }
    }
}

// The answer to a call.
pub(crate) fn answer(
    call: &Call,
    host: &mut Option<Host>,
    lists: &mut Lists,
    out: &mut String,
) -> Result<(), Failure> {
    match call {
        Call::New(n) => start(host, n, out),
        Call::Join(j) => Ok(start_joining(host, j, lists, out)?),
        Call::Schedule(epoch, bytes) => schedule(*epoch, bytes, out),
        Call::User(id, batch) => user(*id, batch, out),
        Call::PlanNew(plan, places) => plan_new(plan, *places, out),
        Call::PlanOld(plan, places) => plan_old(plan, *places, out),
        Call::Order(order) => {
            let h = host.as_mut().ok_or(Failure::NoEngine)?;
            h.order(order, lists, out)
        }
        Call::Ask(question) => {
            let h = host.as_ref().ok_or(Failure::NoEngine)?;
            ask(h, *question, out)
        }
    }
}
