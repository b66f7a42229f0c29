// In what two replicas differ first, in what they tell and in what they hold of what is shared.
use crate::calls::Called;
use batch::Batch;
use bincode::{Encoded, FixintEncoding};
use board::Board;
use change::Change;
use dynamic_honey_badger::DynamicHoneyBadger;
use fault_log::{AckFault, FaultKind, PartFault};
use key_gen::Proposal;
use key_gen_state::KeyGenState;
use pub_key_map::PubKeyMap;
use signed_votes::SignedVotes;
use std::fmt;
use vote_counter::VoteCounter;

// What differs.
#[derive(Clone, Copy)]
pub enum Difference {
    Refusal,
    Report,
    Faults,
    Era,
    Roster,
    Votes,
    Board,
    Params,
    KeyGeneration,
}

impl fmt::Display for Difference {
    fn fmt<W: fmt::Write>(&self, f: &mut fmt::Formatter<W>) -> fmt::Result {
        f.write_str(match self {
            Difference::Refusal => "refusal",
            Difference::Report => "report",
            Difference::Faults => "faults",
            Difference::Era => "era",
            Difference::Roster => "roster",
            Difference::Votes => "votes",
            Difference::Board => "board",
            Difference::Params => "params",
            Difference::KeyGeneration => "key generation",
        })
    }
}

// The first of these that differs; each stands with whether it is the same.
fn first_difference(parts: &[(Difference, bool)]) -> Option<Difference> {
    parts.iter().find(|part| !part.1).map(|part| part.0)
}

// By their bytes: what is not encoded is not compared.
fn same_bytes<T: Encoded<FixintEncoding>>(a: T, b: T) -> bool {
    let mut x = [0u8; 256];
    let mut y = [0u8; 256];
    a.write(&mut x, 0) == b.write(&mut y, 0) && x == y
}

fn same_votes(a: SignedVotes, b: SignedVotes) -> bool {
    let (a, b) = (a.votes.as_slice(), b.votes.as_slice());
    a.len() == b.len() && a.iter().zip(b).all(|(x, y)| same_bytes(*x, *y))
}

// A row of the board as the counter hands it out.
fn row(counter: VoteCounter, place: usize) -> Option<(usize, Change)> {
    counter.board_row(place).map(|row| (row.count, row.change))
}

fn same_board(a: VoteCounter, b: VoteCounter) -> bool {
    (0..Board::LIMIT).all(|place| row(a, place) == row(b, place))
}

// The commitment of a proposer, and who acknowledged it.
pub type SharedProposal = (u64, [bool; PubKeyMap::LIMIT]);

// What replicas share of a proposer: good values are a replica's own.
fn shared(proposal: Option<Proposal>) -> Option<SharedProposal> {
    proposal.map(|p| {
        let acks = p.acks;
        (p.commit, acks)
    })
}

// What replicas share of a key generation: message counts are a replica's own.
fn shared_key_gen(state: KeyGenState) -> (PubKeyMap, [Option<SharedProposal>; PubKeyMap::LIMIT]) {
    let key_gen = state.key_gen;
    (key_gen.pub_keys, key_gen.proposals.map(shared))
}

// Era, map, committed votes, board, parameters and key generation.
pub(crate) fn shared_difference(
    a: &DynamicHoneyBadger,
    b: &DynamicHoneyBadger,
) -> Option<Difference> {
    let (x, y) = (a.vote_counter, b.vote_counter);
    first_difference(&[
        (Difference::Era, x.era == y.era),
        (Difference::Roster, x.pub_keys == y.pub_keys),
        (Difference::Votes, same_votes(x.committed, y.committed)),
        (Difference::Board, same_board(x, y)),
        (Difference::Params, a.params == b.params),
        (
            Difference::KeyGeneration,
            a.key_gen_state.map(shared_key_gen) == b.key_gen_state.map(shared_key_gen),
        ),
    ])
}

fn same_batch(a: Batch, b: Batch) -> bool {
    a.epoch == b.epoch
        && a.era == b.era
        && same_bytes(a.change, b.change)
        && a.pub_keys == b.pub_keys
        && a.params == b.params
        && a.voters.ids == b.voters.ids
}

// Whether a kind of fault, by its number, follows from a replica's own verdicts: on its row of a part, or its value of an ack.
fn is_own(kind: u8) -> bool {
    [
        FaultKind::SyncKeyGenPart(PartFault::DecryptRow),
        FaultKind::SyncKeyGenPart(PartFault::DeserializeRow),
        FaultKind::SyncKeyGenPart(PartFault::RowCommitment),
        FaultKind::SyncKeyGenAck(AckFault::DecryptValue),
        FaultKind::SyncKeyGenAck(AckFault::DeserializeValue),
        FaultKind::SyncKeyGenAck(AckFault::ValueCommitment),
    ]
    .iter()
    .any(|own| u8::from(*own) == kind)
}

// The faults that every replica must tell are the others.
pub(crate) fn is_shared(fault: &(u32, u8)) -> bool {
    !is_own(fault.1)
}

// The refusals or what was told: the reports, then the faults.
pub(crate) fn told_difference(a: &Called, b: &Called) -> Option<Difference> {
    match (a.outcome, b.outcome) {
        (Ok(x), Ok(y)) => first_difference(&[
            (Difference::Report, same_batch(x.batch, y.batch)),
            (Difference::Faults, a.faults == b.faults),
        ]),
        (Err(x), Err(y)) if x == y => None,
        _ => Some(Difference::Refusal),
    }
}
