// The committed votes while a batch is handled, as small numbers by ascending voter. A whole vote is 300 bytes, and voter and number decide what another vote does.
ghost use Rattle.std.specs.Prelude.{◌≡◌, map, ◌≤◌, length};
ghost use Rattle.bincode.specs.Sizes.{base};
ghost use Rattle.signed_votes.specs.SignedVotes.{votes_of};
ghost use Rattle.commit.specs.Tally.{entries_of, entry_voter, no_entry, no_entries, kept_entry, outdated, any_fresh};

use array_list::{ArrayList, Keyed};
use signed_votes::SignedVotes;

// A vote of this batch has the place where it stands in the batch's bytes; another was there before.
#[derive(Clone, Copy)]
pub struct Entry {
    pub voter: u32,
    pub num: u64,
    pub place: Option<usize>,
}

// Voters ascend.
#[derive(Clone, Copy)]
pub struct Tally {
    pub entries: ArrayList<Entry, { Tally::LIMIT }>,
}

impl Entry {
    // What stands where no vote is held.
    pub fn empty() -> Self
        ensures { result ≡ no_entry }
    {
        Entry {
            voter: 0,
            num: 0,
            place: None,
        }
    }
}

// Entries go by the voter.
impl Keyed for Entry {
    ghost key_of = { entry_voter };

    fn key(&self) -> u32 {
        self.voter
    }
}

impl Tally {
    pub const LIMIT: usize = 16;

    pub fn empty() -> Self
        ensures { result ≡ no_entries }
    {
        Tally {
            entries: ArrayList::empty(Entry::empty()),
        }
    }

    // The votes before a batch.
    pub fn of(votes: SignedVotes) -> Self
        ensures { (entries_of result ≡ map kept_entry (votes_of votes)) × (length (entries_of result) ≤ base.nodes) }
    {
        let mut t = Tally::empty();
        for x in votes.votes.as_slice() {
            t.entries.push(Entry {
                voter: x.voter,
                num: x.vote.num,
                place: None,
            });
        }
        t
    }

    // How many entries there are.
    pub fn len(&self) -> usize
        ensures { (result ≡ length (entries_of self.now)) × (result ≤ base.nodes) }
    {
        self.entries.len()
    }

    // Whether a voter's vote with a number would be at or below the one there is.
    pub fn is_obsolete(&self, voter: u32, num: u64) -> bool
        ensures { result ≡ outdated (entries_of self.now) voter num }
    {
        self.entries.get(voter).is_some_and(|e| num <= e.num)
    }

    // Whether some vote is of this batch; where none is, the counter stays as it is.
    pub fn has_fresh(&self) -> bool
        ensures { result ≡ any_fresh (entries_of self.now) }
    {
        self.entries.as_slice().iter().any(|e| e.place.is_some())
    }
}
