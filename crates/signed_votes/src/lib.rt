// votes.rs: signed votes by ascending voter, as the Rust's `BTreeMap` keeps them.
#![tactic(auto)]

ghost use Rattle.std.specs.Prelude.{◌≡◌, ℕ, ◌≤◌, length};
ghost use Rattle.lists.specs.Lists.{lookup, insert_within, takes_place, map_found, option_as_found};
ghost use Rattle.bincode.specs.Sizes.{base};
ghost use Rattle.votes.specs.Votes.{signed_of};
ghost use Rattle.signed_votes.specs.SignedVotes.{votes_of, no_votes, voter_of, num_of};

use array_list::ArrayList;
use votes::SignedVote;

// Voters ascend.
#[derive(Clone, Copy)]
pub struct SignedVotes {
    pub votes: ArrayList<SignedVote, { SignedVotes::LIMIT }>,
}

impl SignedVotes {
    pub const LIMIT: usize = 16;

    pub fn empty() -> Self
        ensures { result ≡ no_votes }
    {
        SignedVotes {
            votes: ArrayList::empty(SignedVote::empty()),
        }
    }

    // How many votes there are: a count past the array counts as the array's length.
    pub fn len(self) -> usize
        ensures { (result ≡ length (votes_of self)) × (result ≤ base.nodes) }
    {
        self.votes.len()
    }

    // The number of a voter's vote, if it has one.
    pub fn num_of(self, voter: u32) -> Option<u64>
        ensures { option_as_found (λ (x : ℕ). x) result ≡ map_found num_of (lookup voter_of (votes_of self) voter) }
    {
        self.find_num(voter)
    }

    // The same of votes that are lent, so that none is copied.
    #[tactic(auto, using(crate::proofs::VotesLaws::held_num))]
    pub fn find_num(&self, voter: u32) -> Option<u64>
        ensures { option_as_found (λ (x : ℕ). x) result ≡ map_found num_of (lookup voter_of (votes_of self.now) voter) }
    {
        let x = self.votes.get(voter)?;
        Some(x.vote.num)
    }

    // Whether a voter's vote gets a place: the voter has one, or there is room.
    pub fn takes(self, voter: u32) -> bool
        ensures { result ≡ takes_place voter_of base.nodes voter (votes_of self) }
    {
        self.votes.has(voter) || self.len() < SignedVotes::LIMIT
    }

    // The votes with one put in: in place of its voter's, or where its voter belongs. A full list has no place for another voter.
    pub fn put(mut self, x: SignedVote) -> Self
        ensures { votes_of result ≡ insert_within voter_of base.nodes (signed_of x) (votes_of self) }
    {
        self.votes.insert(x);
        self
    }
}

#[cfg(test)]
mod tests {
    use super::*;

    fn signed(voter: u32, num: u64) -> SignedVote {
        let mut x = SignedVote::empty();
        x.voter = voter;
        x.vote.num = num;
        x
    }

    // Of lists of no vote and of two, each voter's own number, by value and lent; the list is still there afterwards.
    #[test]
    fn numbers_by_voter(rt: HostRuntime) {
        let none = SignedVotes::empty();
        let two = none.put(signed(7, 9)).put(signed(3, u64::MAX));
        for (voter, num) in [(0, None), (3, Some(u64::MAX)), (5, None), (7, Some(9))] {
            assert_eq!(rt; none.num_of(voter), None, "no vote, {voter}");
            assert_eq!(rt; SignedVotes::num_of(two, voter), num, "by value, {voter}");
            assert_eq!(rt; two.find_num(voter), num, "lent, {voter}");
        }
    }
}
