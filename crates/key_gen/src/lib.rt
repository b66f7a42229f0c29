// sync_key_gen.rs: `SyncKeyGen`, the tracking of parts and acks.
#![tactic(auto)]

ghost use Rattle.std.specs.Prelude.{◌≡◌, not, ℕ, ◌≤◌, ◌<◌, [], length};
ghost use Rattle.lists.specs.Lists.{lookup};
ghost use Rattle.bincode.specs.Sizes.{base};
ghost use Rattle.network_info.specs.NetworkInfo.{is_member};
ghost use Rattle.pub_key_map.specs.PubKeyMap.{nodes_of};
ghost use Rattle.sync_key_gen.specs.SyncKeyGen.{PartOf, AckOf, part_of, ack_of};
ghost use Rattle.key_gen.specs.KeyGen.{indices, proposal_at, by_proposer, handled, acked, part_of_index, ack_of_index, key_gen_of, complete, complete_in};
ghost use Rattle.key_gen.specs.KeyGen.{fresh_held, new_proposal, row_effect, value_effect, handle_part, handle_ack, count_complete, node_ready, enough, ready, said_outcome};

use fault_log::{AckFault, FaultKind, PartFault};
use pub_key_map::PubKeyMap;
use sync_key_gen::{Ack, Part};

// What is kept of one proposer's part, at its index: the commitment, who acknowledged, whose value was good.
#[derive(Clone, Copy)]
pub struct Proposal {
    pub commit: u64,
    pub acks: [bool; PubKeyMap::LIMIT],
    pub good: [bool; PubKeyMap::LIMIT],
}

// How many places are marked.
pub fn count_marked(flags: [bool; PubKeyMap::LIMIT]) -> usize
    ensures { (result ≡ length (indices flags)) × (result ≤ base.nodes) }
{
    flags.iter().filter(|flag| **flag).count()
}

impl Proposal {
    // A part that nobody has acknowledged yet.
    pub fn new(commit: u64) -> Self
        ensures { result ≡ new_proposal commit }
    {
        Proposal {
            commit,
            acks: [false; PubKeyMap::LIMIT],
            good: [false; PubKeyMap::LIMIT],
        }
    }

    // Whether it is complete: more than twice the threshold have acknowledged.
    pub fn is_complete(self, threshold: usize) -> bool
        ensures { (i : ℕ) → result ≡ complete threshold (proposal_at i self) }
    {
        threshold.saturating_mul(2) < count_marked(self.acks)
    }

    // An acknowledgement of the node with index j, with a good value or without.
    fn acknowledge(mut self, j: usize, good: bool) -> Self
        requires { j < base.nodes }
        ensures { (i : ℕ) → proposal_at i result ≡ acked (proposal_at i self) j good }
    {
        self.acks[j] = true;
        if good {
            self.good[j] = true;
        }
        self
    }
}

// Whether a complete part stands at a place.
fn is_complete_in(place: Option<Proposal>, threshold: usize) -> bool
    ensures { result ≡ complete_in threshold place }
{
    place.is_some_and(|p| p.is_complete(threshold))
}

// The places of the proposers' parts, by ascending index.
#[derive(Clone, Copy)]
pub struct KeyGen {
    pub our_id: u32,
    pub pub_keys: PubKeyMap,
    pub proposals: [Option<Proposal>; PubKeyMap::LIMIT],
}

// What a key message did: nothing to tell, an ack is due for a proposer, or a fault of the signer.
#[derive(Clone, Copy)]
pub enum KeyOutcome {
    Quiet,
    AckDue(usize),
    Faulty(FaultKind),
}

#[derive(Clone, Copy)]
pub struct KeyHandled {
    pub key_gen: KeyGen,
    pub outcome: KeyOutcome,
}

// The verdict on the own row of the proposer's part.
pub fn row_outcome(i: usize, verdict: u8) -> KeyOutcome
    ensures { said_outcome result ≡ row_effect i verdict }
{
    let fault = match verdict {
        0 => return KeyOutcome::AckDue(i),
        1 => PartFault::DecryptRow,
        2 => PartFault::DeserializeRow,
        _ => PartFault::RowCommitment,
    };
    KeyOutcome::Faulty(FaultKind::SyncKeyGenPart(fault))
}

// The verdict on the own value of an ack.
pub fn value_outcome(verdict: u8) -> KeyOutcome
    ensures { said_outcome result ≡ value_effect verdict }
{
    let fault = match verdict {
        0 => return KeyOutcome::Quiet,
        1 => AckFault::DecryptValue,
        2 => AckFault::DeserializeValue,
        _ => AckFault::ValueCommitment,
    };
    KeyOutcome::Faulty(FaultKind::SyncKeyGenAck(fault))
}

impl KeyGen {
    // A fresh key generation for a map of nodes.
    pub fn new(our_id: u32, pub_keys: PubKeyMap) -> Self
        ensures { result ≡ fresh_held our_id pub_keys }
    {
        KeyGen {
            our_id,
            pub_keys,
            proposals: [None; PubKeyMap::LIMIT],
        }
    }

    pub fn observes(self) -> bool
        ensures { result ≡ not (is_member (nodes_of self.pub_keys) self.our_id) }
    {
        !network_info::is_member(self.pub_keys, self.our_id)
    }

    // How many recorded parts are complete.
    pub fn count_complete(self) -> usize
        ensures { (result ≡ count_complete (key_gen_of self)) × (result ≤ base.nodes) }
    {
        let t = network_info::num_faulty(self.pub_keys);
        self.proposals
            .iter()
            .filter(|p| is_complete_in(**p, t))
            .count()
    }

    // Whether the node's own part is complete.
    pub fn is_node_ready(self, proposer: u32) -> bool
        ensures { result ≡ node_ready (key_gen_of self) proposer }
    {
        let t = network_info::num_faulty(self.pub_keys);
        network_info::node_index(self.pub_keys, proposer)
            .and_then(|i| self.proposals.get(i))
            .is_some_and(|place| is_complete_in(*place, t))
    }

    // `SyncKeyGen::is_ready`: more than t parts are complete.
    pub fn is_enough(self) -> bool
        ensures { result ≡ enough (key_gen_of self) }
    {
        network_info::num_faulty(self.pub_keys) < self.count_complete()
    }

    // `KeyGenState::is_ready`: and more than two thirds of the nodes' parts.
    pub fn is_ready(self) -> bool
        ensures { result ≡ ready (key_gen_of self) }
    {
        let map = self.pub_keys;
        self.is_enough() && 2 * map.len() < 3 * self.count_complete()
    }

    // A part of the node with index i: recorded before its verdict is looked at; once it is, the same one again is nothing.
    fn part_of_index(&mut self, i: usize, commit: u64, verdict: u8) -> KeyOutcome
        requires { i < base.nodes }
        ensures { handled (key_gen_of self.new) (said_outcome result)
            ≡ part_of_index (key_gen_of self.old) i (record { commit = commit; rows = [] }) verdict (lookup by_proposer (key_gen_of self.old).parts i) }
    {
        match self.proposals[i] {
            Some(p) if p.commit == commit => KeyOutcome::Quiet,
            Some(_) => KeyOutcome::Faulty(FaultKind::SyncKeyGenPart(PartFault::MultipleParts)),
            None => {
                self.proposals[i] = Some(Proposal::new(commit));
                if self.observes() {
                    KeyOutcome::Quiet
                } else {
                    row_outcome(i, verdict)
                }
            }
        }
    }

    // A part signed by a node, by its commitment and how many rows it has; one of a node that is not in the map is a fault, whatever else it holds.
    pub fn handle_part_counted(
        &mut self,
        signer: u32,
        commit: u64,
        rows: u64,
        verdict: u8,
    ) -> KeyOutcome
        ensures { (p : PartOf) → p.commit ≡ commit → length p.rows ≡ rows → handled (key_gen_of self.new) (said_outcome result) ≡ handle_part (key_gen_of self.old) signer p verdict }
    {
        let complete = rows == self.pub_keys.len() as u64;
        match network_info::node_index(self.pub_keys, signer) {
            Some(i) if complete => self.part_of_index(i, commit, verdict),
            Some(_) => KeyOutcome::Faulty(FaultKind::SyncKeyGenPart(PartFault::RowCount)),
            None => KeyOutcome::Faulty(FaultKind::UnexpectedKeyGenPart),
        }
    }

    // The same of a whole part.
    pub fn handle_part(mut self, signer: u32, part: Part, verdict: u8) -> KeyHandled
        ensures { handled (key_gen_of result.key_gen) (said_outcome result.outcome) ≡ handle_part (key_gen_of self) signer (part_of part) verdict }
    {
        let rows = part.rows;
        let outcome = self.handle_part_counted(signer, part.commit, rows.len() as u64, verdict);
        KeyHandled {
            key_gen: self,
            outcome,
        }
    }

    // An ack of the node with index j for the part of the proposer with index i: a new one counts before its verdict, a repeated one is nothing; without a
    // recorded part it is missing.
    fn ack_of_index(&mut self, i: usize, j: usize, verdict: u8) -> KeyOutcome
        requires { j < base.nodes }
        ensures { handled (key_gen_of self.new) (said_outcome result) ≡ ack_of_index (key_gen_of self.old) j verdict (lookup by_proposer (key_gen_of self.old).parts i) }
    {
        match self.proposals.get(i) {
            Some(Some(p)) if p.acks[j] => KeyOutcome::Quiet,
            Some(Some(p)) if self.observes() => {
                self.proposals[i] = Some(p.acknowledge(j, false));
                KeyOutcome::Quiet
            }
            Some(Some(p)) => {
                self.proposals[i] = Some(p.acknowledge(j, verdict == 0));
                value_outcome(verdict)
            }
            Some(None) | None => KeyOutcome::Faulty(FaultKind::SyncKeyGenAck(
                AckFault::MissingPart,
            )),
        }
    }

    // An ack signed by a node, likewise, by its proposer index, which is any number, and how many values it has.
    pub fn handle_ack_counted(
        &mut self,
        signer: u32,
        proposer: u64,
        values: u64,
        verdict: u8,
    ) -> KeyOutcome
        ensures { (a : AckOf) → a.proposer ≡ proposer → length a.values ≡ values → handled (key_gen_of self.new) (said_outcome result) ≡ handle_ack (key_gen_of self.old) signer a verdict }
    {
        let complete = values == self.pub_keys.len() as u64;
        match network_info::node_index(self.pub_keys, signer) {
            Some(j) if complete => self.ack_of_index(proposer as usize, j, verdict),
            Some(_) => KeyOutcome::Faulty(FaultKind::SyncKeyGenAck(AckFault::ValueCount)),
            None => KeyOutcome::Faulty(FaultKind::UnexpectedKeyGenAck),
        }
    }

    // The same of a whole ack.
    pub fn handle_ack(mut self, signer: u32, ack: Ack, verdict: u8) -> KeyHandled
        ensures { handled (key_gen_of result.key_gen) (said_outcome result.outcome) ≡ handle_ack (key_gen_of self) signer (ack_of ack) verdict }
    {
        let values = ack.values;
        let outcome = self.handle_ack_counted(signer, ack.proposer, values.len() as u64, verdict);
        KeyHandled {
            key_gen: self,
            outcome,
        }
    }
}
