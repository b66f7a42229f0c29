// Answers that are worked out and not only read: the number of faulty nodes, the winner of votes, and how far a key generation is.
use crate::text::{Failure, Hex};
use crate::values::encoded;
use bincode::{Decoded, FixintEncoding, Refusal};
use key_gen::{KeyGen, Proposal};
use pub_key_map::PubKeyMap;
use vote_counter::VoteCounter;
use votes::SignedVote;

// A row of flags: whether a node's part is recorded, and who acknowledged it.
const ROW: usize = PubKeyMap::LIMIT + 1;

// Eight bytes of a number of nodes: how many of them may be faulty.
pub(crate) fn faulty(b: &[u8], out: &mut String) -> Result<(), Failure> {
    let Ok((n, _)) = bincode::read_whole::<FixintEncoding, u64>(b) else {
        return Err(Failure::BadLine);
    };
    writeln!(out, "ok {}", util::max_faulty(n as usize))?;
    Ok(())
}

// Commits the signed votes that stand one after the other from a place to the end. Each vote takes at least a byte, so the turns are enough.
fn commit_votes(map: PubKeyMap, b: &[u8], from: usize) -> Result<VoteCounter, Refusal> {
    let mut counter = VoteCounter::new(0, 1, map, 0);
    let mut at = from;
    for _ in 0..b.len() {
        if b.len() <= at {
            break;
        }
        let (vote, end) = SignedVote::read(b, at)?;
        let added = counter.add_committed_vote(vote);
        counter = added.counter;
        at = end;
    }
    Ok(counter)
}

// A map, and signed votes behind it: the change that wins in era 0, or none.
pub(crate) fn winner(b: &[u8], out: &mut String) -> Result<(), Failure> {
    let (map, at) = <PubKeyMap as Decoded<FixintEncoding>>::read(b, 0)?;
    let counter = commit_votes(map, b, at)?;
    let committed = counter.committed;
    match counter
        .compute_winner()
        .and_then(|w| committed.votes.at(w.place))
    {
        Some(winner) => {
            let change = encoded(*out.allocator(), winner.vote.change)?;
            writeln!(out, "ok {}", Hex(&change))?;
        }
        None => writeln!(out, "no")?,
    }
    Ok(())
}

// What a row of flags records of a node; none where its part is not recorded.
fn proposal(row: &[u8]) -> Option<Proposal> {
    let (recorded, acks) = row.split_first()?;
    let mut p = Proposal::new(0);
    for (ack, flag) in p.acks.iter_mut().zip(acks) {
        *ack = *flag == 1;
    }
    (*recorded == 1).then_some(p)
}

fn key_gen_of(map: PubKeyMap, b: &[u8]) -> KeyGen {
    let mut key_gen = KeyGen::new(0, map);
    for (p, row) in key_gen.proposals.iter_mut().zip(b.chunks(ROW)) {
        *p = proposal(row);
    }
    key_gen
}

fn yes_or_no(yes: bool) -> &'static str {
    if yes { "yes" } else { "no" }
}

// A map, and behind it just one row of flags, 0 or 1, for each of its nodes: how many parts are complete, and whether that is enough for a key and for the group.
pub(crate) fn complete(b: &[u8], out: &mut String) -> Result<(), Failure> {
    let (map, at) = <PubKeyMap as Decoded<FixintEncoding>>::read(b, 0)?;
    let rows = b.get(at..).unwrap_or(b"");
    if rows.len() != ROW * map.len() || rows.iter().any(|x| 1 < *x) {
        return Err(Failure::BadLine);
    }
    let key_gen = key_gen_of(map, rows);
    let enough = yes_or_no(key_gen.is_enough());
    let ready = yes_or_no(key_gen.is_ready());
    writeln!(out, "ok {} {enough} {ready}", key_gen.count_complete())?;
    Ok(())
}
