// votes.rs: the counter of pending and committed votes of one era, and the board of the committed ones.
#![tactic(auto)]

ghost use Rattle.std.specs.Prelude.{◌≡◌, ℕ, ◌<◌, length, Some};
ghost use Rattle.lists.specs.Lists.{map_found, at_place, option_as_found};
ghost use Rattle.bincode.specs.Sizes.{base};
ghost use Rattle.bincode.specs.Outcome.{done};
ghost use Rattle.pub_key_map.specs.PubKeyMap.{nodes_of};
ghost use Rattle.network_info.specs.NetworkInfo.{key_of};
ghost use Rattle.change.specs.Change.{change_of};
ghost use Rattle.votes.specs.Votes.{signed_of};
ghost use Rattle.signed_votes.specs.SignedVotes.{votes_of};
ghost use Rattle.voters.specs.Voters.{ids_of};
ghost use Rattle.board.specs.Board.{said_standing};
ghost use Rattle.vote_counter.specs.VoteCounter.{new_held, counter_of, with_committed, board_after, board_row, obsolete, is_key, commit_vote, add_pending, add_committed};
ghost use Rattle.vote_counter.specs.VoteCounter.{signed_with, sign_vote_for, pending_votes, winner_at, supporters_of, carried};
ghost use Rattle.vote_counter.specs.Answers.{added_of, committed_of, signed_answer, SignRefusedKeeps, carried_of};

use bincode::Refusal;
use board::{Board, BoardRow, Standing};
use change::Change;
use fault_log::FaultKind;
use pub_key_map::PubKeyMap;
use signed_votes::SignedVotes;
use voters::Voters;
use votes::{SignedVote, Vote};

#[derive(Clone, Copy)]
pub struct VoteCounter {
    pub our_id: u32,
    pub secret_key: u64,
    pub pub_keys: PubKeyMap,
    pub era: u64,
    pub pending: SignedVotes,
    pub committed: SignedVotes,
    pub board: Board,
}

// What a vote did: it was stored, it changed nothing, or it is a fault.
#[derive(Clone, Copy)]
pub enum VoteOutcome {
    Stored,
    Nothing,
    Faulty(FaultKind),
}

#[derive(Clone, Copy)]
pub struct VoteAdded {
    pub counter: VoteCounter,
    pub outcome: VoteOutcome,
}

// The committed votes after one more, whether it took a place among them, and what it did.
#[derive(Clone, Copy)]
pub struct VoteCommitted {
    pub votes: SignedVotes,
    pub taken: bool,
    pub outcome: VoteOutcome,
}

// An own vote that was signed, or row 11; where signing was refused the counter is the one given.
#[derive(Clone, Copy)]
pub struct VoteSigned {
    pub counter: VoteCounter,
    pub outcome: Result<SignedVote, Refusal>,
}

// The winner: the place of the first vote for it, its lowest voter's since votes stand by ascending voter; and all voters whose vote is for it.
#[derive(Clone, Copy)]
pub struct Winner {
    pub place: usize,
    pub voters: Voters,
}

// Whether a vote is numbered at or below its voter's stored one.
#[tactic(auto, using(crate::proofs::PendingTurns::at_or_below_some), unfolding(crate::specs::VoteCounter::obsolete))]
fn is_obsolete(votes: SignedVotes, x: SignedVote) -> bool
    ensures { result ≡ obsolete (votes_of votes) (signed_of x) }
{
    let num = x.vote.num;
    votes.find_num(x.voter).is_some_and(|old| num <= old)
}

// Whether a signature is under the id's key of a map.
pub fn is_key(map: PubKeyMap, id: u32, sig: u64) -> bool
    ensures { result ≡ is_key sig (key_of (nodes_of map) id) }
{
    network_info::node_key(map, id) == Some(sig)
}

// A vote of a batch among the committed votes: era, then signature, then number. One exit: so the votes that stay are not copied.
#[tactic(auto, unfolding(crate::specs::VoteCounter::commit_vote, crate::specs::VoteCounter::vote_effect, crate::specs::VoteCounter::valid_vote))]
pub fn commit_vote(votes: SignedVotes, era: u64, map: PubKeyMap, x: SignedVote) -> VoteCommitted
    ensures { committed_of result ≡ commit_vote base era (nodes_of map) (votes_of votes) (signed_of x) }
{
    let vote = x.vote;
    let mut next = votes;
    let mut taken = false;
    let mut outcome = VoteOutcome::Faulty(FaultKind::InvalidCommittedVote);
    if vote.era == era && is_key(map, x.voter, x.sig) {
        if is_obsolete(votes, x) {
            outcome = VoteOutcome::Nothing;
        } else {
            taken = votes.takes(x.voter);
            next = votes.put(x);
            outcome = VoteOutcome::Stored;
        }
    }
    VoteCommitted {
        votes: next,
        taken,
        outcome,
    }
}

// All voters whose vote is for a change, in the order of the votes: so by ascending id.
pub fn supporters_of(votes: SignedVotes, change: Change) -> Voters
    ensures { ids_of result ≡ supporters_of (votes_of votes) (change_of change) }
{
    let mut voters = Voters::empty();
    for x in votes.votes.as_slice() {
        if x.is_for(change) {
            voters.add(x.voter);
        }
    }
    voters
}

impl VoteCounter {
    pub fn new(our_id: u32, secret_key: u64, pub_keys: PubKeyMap, era: u64) -> Self
        ensures { result ≡ new_held our_id secret_key pub_keys era }
    {
        VoteCounter {
            our_id,
            secret_key,
            pub_keys,
            era,
            pending: SignedVotes::empty(),
            committed: SignedVotes::empty(),
            board: Board::empty(),
        }
    }

    // An era begins: the same node, with a map, without votes.
    pub fn new_era(&self, pub_keys: PubKeyMap, era: u64) -> Self
        ensures { result ≡ new_held self.now.our_id self.now.secret_key pub_keys era }
    {
        VoteCounter::new(self.our_id, self.secret_key, pub_keys, era)
    }

    // A vote that was received.
    #[tactic(auto, unfolding(crate::specs::VoteCounter::add_pending, crate::specs::VoteCounter::pending_effect, crate::specs::VoteCounter::valid_vote))]
    pub fn add_pending_vote(mut self, x: SignedVote) -> VoteAdded
        ensures { added_of result ≡ add_pending base (counter_of self) (signed_of x) }
    {
        let vote = x.vote;
        let map = self.pub_keys;
        let old = self.pending;
        let mut outcome = VoteOutcome::Nothing;
        if vote.era == self.era && !is_obsolete(old, x) {
            if is_key(map, x.voter, x.sig) {
                self.pending = old.put(x);
                outcome = VoteOutcome::Stored;
            } else {
                outcome = VoteOutcome::Faulty(FaultKind::InvalidVoteSignature);
            }
        }
        VoteAdded {
            counter: self,
            outcome,
        }
    }

    // The committed votes put in place of those there are. Where one of them took a place the board is worked out anew, else it stays.
    pub fn with_committed(mut self, votes: SignedVotes, taken: bool) -> Self
        ensures { counter_of result ≡ with_committed (counter_of self) (votes_of votes) (board_after taken (votes_of votes) (counter_of self).board) }
    {
        self.committed = votes;
        if taken {
            self.board = Board::of(votes);
        }
        self
    }

    // A vote of a batch: era, then signature, then number.
    #[tactic(auto, unfolding(crate::specs::VoteCounter::add_committed, crate::specs::VoteCounter::commit_vote))]
    pub fn add_committed_vote(mut self, x: SignedVote) -> VoteAdded
        ensures { added_of result ≡ add_committed base (counter_of self) (signed_of x) }
    {
        let map = self.pub_keys;
        let old = self.committed;
        let r = commit_vote(old, self.era, map, x);
        let votes = r.votes;
        let outcome = r.outcome;
        VoteAdded {
            counter: self.with_committed(votes, r.taken),
            outcome,
        }
    }

    // The own vote with a number, signed and pending.
    fn sign_with(mut self, change: Change, num: u64) -> VoteSigned
        ensures { (signed_answer result ≡ signed_with base (counter_of self) (change_of change) (done num)) × SignRefusedKeeps result self }
    {
        let x = SignedVote {
            vote: Vote {
                change,
                era: self.era,
                num,
            },
            voter: self.our_id,
            sig: self.secret_key,
        };
        let pending = self.pending;
        let next = pending.put(x);
        self.pending = next;
        VoteSigned {
            counter: self,
            outcome: Ok(x),
        }
    }

    // An own vote; row 11 where the own pending vote's number is the last.
    #[tactic(auto, unfolding(crate::specs::VoteCounter::sign_vote_for))]
    pub fn sign_vote_for(mut self, change: Change) -> VoteSigned
        ensures { (signed_answer result ≡ sign_vote_for base (counter_of self) (change_of change)) × SignRefusedKeeps result self }
    {
        let pending = self.pending;
        let Some(num) = pending.find_num(self.our_id) else {
            return self.sign_with(change, 0);
        };
        if num == u64::MAX {
            return VoteSigned {
                counter: self,
                outcome: Err(Refusal::LastVoteNumber),
            };
        }
        self.sign_with(change, num + 1)
    }

    // The pending vote at a place, 0 first, of those newer than their voter's committed vote.
    pub fn pending_vote(self, place: usize) -> Option<SignedVote>
        ensures { option_as_found signed_of result ≡ at_place place (pending_votes (counter_of self)) }
    {
        let committed = self.committed;
        let pending = self.pending.votes.as_slice().iter();
        pending
            .filter(|x| !is_obsolete(committed, **x))
            .nth(place)
            .copied()
    }

    // The row of the board at a place, 0 first, as the counter holds it.
    #[tactic(auto, unfolding(crate::specs::VoteCounter::board_row))]
    pub fn board_row(self, place: usize) -> Option<Standing>
        ensures { option_as_found said_standing result ≡ board_row (counter_of self) place }
    {
        let board = self.board;
        let committed = self.committed;
        board.standing(committed, place)
    }

    // The place of the first vote for the winner. Each change is counted at its first vote, and takes over where its row stands before the best so far; the first has to pass f.
    fn winning_place(&self) -> Option<usize>
        ensures { (option_as_found (λ (x : ℕ). x) result ≡ winner_at (counter_of self.now))
            × ((i : ℕ) → result ≡ Some i → i < length (votes_of self.now.committed)) }
    {
        let f = network_info::num_faulty(self.pub_keys);
        let committed = self.committed.votes.as_slice();
        let mut best = BoardRow { voter: 0, count: f };
        let mut won = None;
        'voters: for (i, x) in committed.iter().enumerate() {
            let change = x.vote.change;
            let mut row = BoardRow {
                voter: x.voter,
                count: 0,
            };
            for (j, other) in committed.iter().enumerate() {
                if other.is_for(change) {
                    if j < i {
                        continue 'voters;
                    }
                    row.count += 1;
                    row.voter = row.voter.min(other.voter);
                }
            }
            if board::is_before(row, best) {
                best = row;
                won = Some(i);
            }
        }
        won
    }

    // Who has won, told by the place of the first vote for it, with all who carried it, those of earlier batches too.
    pub fn compute_winner(&self) -> Option<Winner>
        ensures { (option_as_found (carried_of (votes_of self.now.committed)) result ≡ carried (counter_of self.now))
            × (option_as_found (λ (w : Winner). w.place) result ≡ winner_at (counter_of self.now))
            × ((w : Winner) → result ≡ Some w → w.place < length (votes_of self.now.committed)) }
    {
        let place = self.winning_place()?;
        let change = self.committed.votes.as_slice()[place].vote.change;
        Some(Winner {
            place,
            voters: supporters_of(self.committed, change),
        })
    }
}
