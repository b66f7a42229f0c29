// dynamic_honey_badger.rs, `process_output`: the votes of one contribution, read again by their heads, and behind a batch the votes that stayed, put into the counter.
ghost use Rattle.std.specs.Prelude.{◌≡◌};
ghost use Rattle.bincode.specs.Items.{foldl};
ghost use Rattle.bincode.specs.Sizes.{base};
ghost use Rattle.bincode.specs.Stands.{Bytes};
ghost use Rattle.vote_counter.specs.VoteCounter.{counter_of};
ghost use Rattle.commit.specs.Tally.{entries_of};
ghost use Rattle.commit.specs.Terms.{nodes_by};
ghost use Rattle.commit.specs.Votes.{good_head, VoteCommitted, VotesCommitted};
ghost use Rattle.commit.specs.Put.{put_in};

use crate::Terms;
use crate::tally::{Entry, Tally};
use bincode::Decoded;
use fault_log::{Fault, FaultKind, FaultLog};
use internal_contrib::Contrib;
use vote_counter::VoteCounter;
use votes::{SignedVote, VoteHead};

// Whether a vote is of the era and signed under its voter's key of the map.
#[tactic(auto, unfolding(crate::specs::Votes::good_head))]
fn is_good(terms: &Terms<'_>, h: VoteHead) -> bool
    ensures { result ≡ good_head terms.now.era (nodes_by terms.now) h }
{
    h.era == terms.era && vote_counter::is_key(terms.map, h.voter, h.sig)
}

// Step 3, in the order of 02, CR 6: a vote by its head, whose bytes stand at a place: one that is not good is a fault of its proposer, an old one changes nothing.
fn commit_vote(terms: &Terms<'_>, h: VoteHead, place: usize, tally: &mut Tally) -> Option<FaultKind>
    ensures { VoteCommitted terms.now place h tally.old tally.new result }
{
    if !is_good(terms, h) {
        return Some(FaultKind::InvalidCommittedVote);
    }
    if tally.is_obsolete(h.voter, h.num) {
        return None;
    }
    tally.entries.insert(Entry {
        voter: h.voter,
        num: h.num,
        place: Some(place),
    });
    None
}

// The votes of a contribution of a batch, whose bytes are bytes.
pub(crate) fn commit_votes(terms: &Terms<'_>, c: &Contrib, tally: &mut Tally, faults: &mut FaultLog)
    ensures committed { VotesCommitted terms.now c.now tally.old faults.old tally.new faults.new }
    ensures bytes { Bytes terms.now.bytes.now }
{
    let mut at = c.votes.first_item(terms.bytes);
    for _ in 0..c.votes.count {
        let Ok((h, next)) = votes::read_vote_head(terms.bytes, at) else {
            return;
        };
        if let Some(kind) = commit_vote(terms, h, at, tally) {
            faults.append(Fault::new(c.id, kind));
        }
        at = next;
    }
}

// The votes of a batch that stayed, put into the counter; the board is worked out once behind them, if one took a place. The counter is named in this function
// alone, since each hand that it passes through is a copy.
pub fn put_votes(counter: VoteCounter, s: &[u8], t: Tally) -> VoteCounter
    ensures { counter_of result ≡ foldl (put_in base s.now) (counter_of counter) (entries_of t) }
{
    let era = counter.era;
    let map = counter.pub_keys;
    let mut votes = counter.committed;
    let mut taken = false;
    for e in t.entries.as_slice() {
        if let Some(place) = e.place {
            if let Ok((x, _)) = SignedVote::read(s, place) {
                let a = vote_counter::commit_vote(votes, era, map, x);
                votes = a.votes;
                taken = taken | a.taken;
            }
        }
    }
    counter.with_committed(votes, taken)
}
