// dynamic_honey_badger.rs, `process_output`, its loop over contributions: votes and key messages of a batch, each read again where it stands and handled.
#![tactic(auto)]

ghost use Rattle.std.specs.Prelude.{◌≡◌, []};
ghost use Rattle.bincode.specs.Sizes.{base};
ghost use Rattle.fault_log.specs.FaultLog.{faults_of};
ghost use Rattle.key_gen_state.specs.KeyGenState as running;
ghost use Rattle.internal_contrib.specs.Index.{contribs_in};
ghost use Rattle.commit.specs.Arisen.{acks_of, acks_told, faults_told, nothing_arisen};
ghost use Rattle.commit.specs.Batch.{BatchCommitted};
ghost use Rattle.commit.specs.Terms.{nodes_by};
ghost use Rattle.commit.specs.Told.{said_told};

use crate::messages::{MessageTold, commit_messages};
use crate::tally::Tally;
use crate::voting::commit_votes;
use array_list::ArrayList;
use due::DueList;
use fault_log::{Fault, FaultLog};
use internal_contrib::BatchIndex;
use key_gen_state::KeyGenState;
use pub_key_map::PubKeyMap;

pub mod messages;
pub mod tally;
pub mod voting;

// What a batch is handled by: its bytes, the verdicts on its key messages, and the era and the map of the state before it.
#[derive(Clone, Copy)]
pub struct Terms<'a> {
    pub bytes: &'a [u8],
    pub verdicts: &'a [u8],
    pub era: u64,
    pub map: PubKeyMap,
}

// What a batch brings up, each in order of arising: faults, and the indices of the proposers that acks are due for.
#[derive(Clone, Copy)]
pub struct Arisen {
    pub faults: FaultLog,
    pub acks: ArrayList<usize, { DueList::LIMIT }>,
}

// What a batch came to: committed votes as entries, key generation, and how many verdicts were used.
#[derive(Clone, Copy)]
pub struct Committed {
    pub tally: Tally,
    pub state: Option<KeyGenState>,
    pub judged: usize,
}

impl Arisen {
    pub fn empty() -> Self
        ensures { result ≡ nothing_arisen }
    {
        Arisen {
            faults: FaultLog::empty(),
            acks: ArrayList::empty(0),
        }
    }

    // What a message's end adds: a fault, or an ack that is due.
    pub(crate) fn tell(&mut self, told: MessageTold, proposer: u32, signer: u32)
        ensures faults { faults_of self.new.faults ≡ faults_told base proposer signer (said_told told) (faults_of self.old.faults) }
        ensures acks { acks_of self.new ≡ acks_told base (said_told told) (acks_of self.old) }
    {
        match told {
            MessageTold::Quiet => {}
            MessageTold::Owed(i) => {
                self.acks.push(i);
            }
            MessageTold::BlamedProposer(k) => self.faults.append(Fault::new(proposer, k)),
            MessageTold::BlamedSigner(k) => self.faults.append(Fault::new(signer, k)),
        }
    }
}

// Step 2: the contributions that an index notes, ids ascending: of each its votes, then its messages, though messages are encoded first.
pub fn commit_batch(
    terms: &Terms<'_>,
    index: BatchIndex,
    tally: Tally,
    state: Option<KeyGenState>,
    arisen: &mut Arisen,
) -> Committed
    ensures { BatchCommitted terms.now.bytes.now terms.now.era (nodes_by terms.now) terms.now.verdicts.now tally (running.state_of state) index result arisen.new
        × (contribs_in index ≡ [] → result.state ≡ state) }
{
    let mut done = tally;
    let mut key_gen = state;
    let mut judged: usize = 0;
    arisen.faults.faults.clear();
    arisen.acks.clear();
    let contribs = index.contribs.as_slice();
    for c in contribs {
        commit_votes(terms, c, &mut done, &mut arisen.faults);
        judged = commit_messages(terms, c, judged, &mut key_gen, arisen);
    }
    Committed {
        tally: done,
        state: key_gen,
        judged,
    }
}
