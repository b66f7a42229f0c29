// votes.rs: a vote for a change, and a vote with its voter and signature.
#![tactic(auto)]

ghost use Rattle.std.specs.Prelude.{◌≡◌, ◌+◌, ◌*◌, ◌≤◌, length};
ghost use Rattle.bincode.specs.Answer.{answer};
ghost use Rattle.bincode.specs.Sizes.{base};
ghost use Rattle.change.specs.Change.{change_of, same_change};
ghost use Rattle.votes.specs.VoteHead.{head_of};
ghost use Rattle.votes.specs.Votes.{VoteOf, vote_of, vote_held, no_vote, read_vote, vote_bytes, SignedVoteOf, signed_of, signed_held, no_signed};
ghost use Rattle.votes.specs.Votes.{read_signed_vote, signed_bytes, voter_in};

use array_list::Keyed;
use bincode::{Decoded, Encoded, FixintEncoding, Refusal};
use change::Change;
use pub_key_map::PubKeyMap;

#[derive(Clone, Copy)]
pub struct Vote {
    pub change: Change,
    pub era: u64,
    pub num: u64,
}

impl Vote {
    // No vote at all: what stands where none is held.
    pub fn empty() -> Self
        ensures { result ≡ vote_held no_vote }
    {
        Vote {
            change: Change::NodeChange(PubKeyMap::empty()),
            era: 0,
            num: 0,
        }
    }
}

// The signature is the handle of the key under which the host verified it, 0 if none (01, stand-ins).
#[derive(Clone, Copy)]
pub struct SignedVote {
    pub vote: Vote,
    pub voter: u32,
    pub sig: u64,
}

impl SignedVote {
    pub fn empty() -> Self
        ensures { result ≡ signed_held no_signed }
    {
        SignedVote {
            vote: Vote::empty(),
            voter: 0,
            sig: 0,
        }
    }

    // Whether a vote is for a change.
    #[tactic(auto, using(change::proofs::ChangeLaws::change_eq))]
    pub fn is_for(self, change: Change) -> bool
        ensures { result ≡ same_change (signed_of self).vote.change (change_of change) }
    {
        self.vote.change == change
    }
}

// Lists of signed votes go by the voter.
impl Keyed for SignedVote {
    ghost key_of = { voter_in };

    fn key(&self) -> u32 {
        self.voter
    }
}

impl Decoded<FixintEncoding> for Vote {
    ghost Value = { VoteOf };

    ghost held = { vote_held };

    ghost read_at = { read_vote base };

    #[tactic(auto, using(bincode::proofs::NumberLaws::read_refused), unfolding(crate::specs::Votes::read_vote))]
    fn read(s: &[u8], at: usize) -> Result<(Self, usize), Refusal> {
        let (change, a) = <Change as Decoded<FixintEncoding>>::read(s, at)?;
        let Ok((era, b)) = bincode::read_u64(s, a) else {
            return Err(Refusal::Malformed);
        };
        let Ok((num, c)) = bincode::read_u64(s, b) else {
            return Err(Refusal::Malformed);
        };
        Ok((Vote { change, era, num }, c))
    }
}

impl Decoded<FixintEncoding> for SignedVote {
    ghost Value = { SignedVoteOf };

    ghost held = { signed_held };

    ghost read_at = { read_signed_vote base };

    #[tactic(auto, using(bincode::proofs::NumberLaws::read_refused), unfolding(crate::specs::Votes::read_signed_vote))]
    fn read(s: &[u8], at: usize) -> Result<(Self, usize), Refusal> {
        let (vote, a) = Vote::read(s, at)?;
        let Ok((voter, b)) = bincode::read_u32(s, a) else {
            return Err(Refusal::Malformed);
        };
        let Ok((sig, c)) = bincode::read_u64(s, b) else {
            return Err(Refusal::Malformed);
        };
        Ok((SignedVote { vote, voter, sig }, c))
    }
}

// A signed vote without its change.
#[derive(Clone, Copy)]
pub struct VoteHead {
    pub era: u64,
    pub num: u64,
    pub voter: u32,
    pub sig: u64,
}

// The change is tested and not kept, so that no map is copied where the numbers alone are asked for.
#[tactic(auto, using(bincode::proofs::NumberLaws::read_refused), unfolding(crate::specs::Votes::read_signed_vote, crate::specs::Votes::read_vote))]
pub fn read_vote_head(s: &[u8], at: usize) -> Result<(VoteHead, usize), Refusal>
    ensures { result ≡ answer head_of (read_signed_vote base s.now at) }
{
    let a = change::check_change(s, at)?;
    let Ok((era, b)) = bincode::read_u64(s, a) else {
        return Err(Refusal::Malformed);
    };
    let Ok((num, c)) = bincode::read_u64(s, b) else {
        return Err(Refusal::Malformed);
    };
    let Ok((voter, d)) = bincode::read_u32(s, c) else {
        return Err(Refusal::Malformed);
    };
    let Ok((sig, e)) = bincode::read_u64(s, d) else {
        return Err(Refusal::Malformed);
    };
    let head = VoteHead {
        era,
        num,
        voter,
        sig,
    };
    Ok((head, e))
}

impl Encoded<FixintEncoding> for Vote {
    ghost bytes = { λ v. vote_bytes (vote_of v) };

    ghost longest = { 28 + 12 * base.nodes };

    #[tactic(auto, unfolding(crate::specs::Votes::vote_bytes))]
    fn size(&self) -> usize {
        Encoded::<FixintEncoding>::size(&(self.change, self.era, self.num))
    }

    #[tactic(auto, unfolding(crate::specs::Votes::vote_bytes))]
    fn write(&self, buf: &mut [u8], at: usize) -> usize {
        Encoded::<FixintEncoding>::write(&(self.change, self.era, self.num), buf, at)
    }
}

impl Encoded<FixintEncoding> for SignedVote {
    ghost bytes = { λ x. signed_bytes (signed_of x) };

    ghost longest = { 40 + 12 * base.nodes };

    #[tactic(auto, unfolding(crate::specs::Votes::signed_bytes))]
    fn size(&self) -> usize {
        Encoded::<FixintEncoding>::size(&(self.vote, self.voter, self.sig))
    }

    #[tactic(auto, unfolding(crate::specs::Votes::signed_bytes))]
    fn write(&self, buf: &mut [u8], at: usize) -> usize {
        Encoded::<FixintEncoding>::write(&(self.vote, self.voter, self.sig), buf, at)
    }
}
