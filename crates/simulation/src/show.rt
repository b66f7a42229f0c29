// The lines of a season.
use crate::compare::Difference;
use anyhow::Context;
use array_list::ArrayList;
use bincode::Refusal;
use pub_key_map::PubKeyMap;
use std::fmt;
use voters::Voters;

const OUTPUT: &str = "standard output";

// Era and roster, as a line ends.
#[derive(Clone, Copy)]
pub struct Network {
    pub era: u64,
    pub map: PubKeyMap,
}

impl fmt::Display for Network {
    fn fmt<W: fmt::Write>(&self, f: &mut fmt::Formatter<W>) -> fmt::Result {
        let mut roster = ArrayList::empty(0);
        for node in self.map.nodes.as_slice() {
            roster.push(node.id);
        }
        write!(f, " era {} roster {}", self.era, Ids(roster))
    }
}

// Ids with commas between them.
#[derive(Clone, Copy)]
struct Ids(ArrayList<u32, { PubKeyMap::LIMIT }>);

impl fmt::Display for Ids {
    fn fmt<W: fmt::Write>(&self, f: &mut fmt::Formatter<W>) -> fmt::Result {
        for (i, id) in self.0.as_slice().iter().enumerate() {
            if 0 < i {
                f.write_str(",")?;
            }
            write!(f, "{id}")?;
        }
        Ok(())
    }
}

// Who carried a change, where a winner was taken.
#[derive(Clone, Copy)]
struct Carried(Voters);

impl fmt::Display for Carried {
    fn fmt<W: fmt::Write>(&self, f: &mut fmt::Formatter<W>) -> fmt::Result {
        match self.0.ids.len() {
            0 => Ok(()),
            _ => write!(f, " voters {}", Ids(self.0.ids)),
        }
    }
}

// A refusal, where there is one.
#[derive(Clone, Copy)]
struct Refused(Option<Refusal>);

impl fmt::Display for Refused {
    fn fmt<W: fmt::Write>(&self, f: &mut fmt::Formatter<W>) -> fmt::Result {
        match self.0 {
            Some(refusal) => write!(f, " refused {refusal}"),
            None => Ok(()),
        }
    }
}

// A number of faults, where there are some.
#[derive(Clone, Copy)]
struct Faults(usize);

impl fmt::Display for Faults {
    fn fmt<W: fmt::Write>(&self, f: &mut fmt::Formatter<W>) -> fmt::Result {
        match self.0 {
            0 => Ok(()),
            n => write!(f, " faults {n}"),
        }
    }
}

// All replicas answered the same: the refusal, how many faults they all told, and who carried the change.
pub(crate) fn agree(
    rt: &impl Print,
    step: u64,
    refusal: Option<Refusal>,
    faults: usize,
    voters: Voters,
    network: Network,
) -> anyhow::Result<()> {
    println!(rt;
        "{step} agree{}{}{}{network}",
        Refused(refusal),
        Faults(faults),
        Carried(voters)
    )
    .context(OUTPUT)
}

// All replicas hold the same, after one of them alone was given a batch; its refusal is shown.
pub(crate) fn alone(
    rt: &impl Print,
    step: u64,
    i: usize,
    refusal: Option<Refusal>,
    network: Network,
) -> anyhow::Result<()> {
    println!(rt; "{step} agree replica {i}{}{network}", Refused(refusal)).context(OUTPUT)
}

// A replica joined, and stands where the others stand.
pub(crate) fn joined(rt: &impl Print, step: u64, network: Network) -> anyhow::Result<()> {
    println!(rt; "{step} joined{network}").context(OUTPUT)
}

// In what replica i differs from the first.
pub(crate) fn differ(rt: &impl Print, step: u64, i: usize, d: Difference) -> anyhow::Result<()> {
    println!(rt; "{step} differ replica {i} in {d}").context(OUTPUT)
}

// Says so where a call behind a step did not answer as it had to; else nothing.
pub(crate) fn expect(rt: &impl Print, step: u64, right: bool) -> anyhow::Result<()> {
    if right {
        return Ok(());
    }
    println!(rt; "{step} unexpected").context(OUTPUT)
}
