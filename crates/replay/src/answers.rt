// The values of answers as text: faults, due items, recipe, votes, rows of the board, parts, and encoded values as bytes.
use crate::text::{put_list, put_value};
use board::Board;
use key_gen::KeyGen;
use pub_key_map::PubKeyMap;
use recipe::{Recipe, Share};
use std::alloc::AllocError;
use vote_counter::VoteCounter;
use votes::SignedVote;

// The name of a kind of fault, by the kind's number; past the last kind there is none. Not a `Display`: as one, a batch with 256 of them took 133 us instead of 115.
pub(crate) fn kind_name(number: u8) -> &'static str {
    match number {
        0 => "InvalidVoteSignature",
        1 => "InvalidCommittedVote",
        2 => "UnexpectedDhbMessageEra",
        3 => "InvalidKeyGenMessageSignature",
        4 => "UnexpectedKeyGenMessage",
        5 => "TooManyKeyGenMessages",
        6 => "InvalidKeyGenMessageEra",
        7 => "UnexpectedKeyGenPart",
        8 => "UnexpectedKeyGenAck",
        9 => "SyncKeyGenPart.RowCount",
        10 => "SyncKeyGenPart.MultipleParts",
        11 => "SyncKeyGenPart.DecryptRow",
        12 => "SyncKeyGenPart.DeserializeRow",
        13 => "SyncKeyGenPart.RowCommitment",
        14 => "SyncKeyGenAck.ValueCount",
        15 => "SyncKeyGenAck.MissingPart",
        16 => "SyncKeyGenAck.DecryptValue",
        17 => "SyncKeyGenAck.DeserializeValue",
        18 => "SyncKeyGenAck.ValueCommitment",
        _ => "",
    }
}

// Faults as `ID:KIND`; `-` for none.
pub(crate) fn put_faults(out: &mut String, ids: &[u32], kinds: &[u8]) -> Result<(), AllocError> {
    put_list(out, ",", ids.iter().zip(kinds), |out, (id, kind)| {
        write!(out, "{id}:{}", kind_name(*kind))
    })
}

// A due item as `part@ERA` or `ack:INDEX@ERA`.
fn put_item(out: &mut String, kind: u8, index: u64, era: u64) -> Result<(), AllocError> {
    match kind {
        0 => write!(out, "part@{era}"),
        1 => write!(out, "ack:{index}@{era}"),
        _ => write!(out, "kind:{kind}"),
    }
}

// Due items; `-` for none.
pub(crate) fn put_due(
    out: &mut String,
    kinds: &[u8],
    indices: &[u64],
    eras: &[u64],
) -> Result<(), AllocError> {
    let items = kinds.iter().zip(indices.iter().zip(eras));
    put_list(out, ",", items, |out, (kind, (index, era))| {
        put_item(out, *kind, *index, *era)
    })
}

// The places that are marked, ascending, with a mark between two; `-` for none.
fn put_marked(
    out: &mut String,
    mark: &str,
    flags: &[bool; PubKeyMap::LIMIT],
) -> Result<(), AllocError> {
    let marked = flags.iter().enumerate().filter(|(_, flag)| **flag);
    put_list(out, mark, marked, |out, (i, _)| write!(out, "{i}"))
}

// The complete proposers, ascending, each with its first good acknowledgers.
fn put_shares(
    out: &mut String,
    shares: &[Option<Share>; PubKeyMap::LIMIT],
) -> Result<(), AllocError> {
    let shares = shares.iter().enumerate();
    let complete = shares.filter_map(|(i, share)| Some((i, (*share)?)));
    put_list(out, ",", complete, |out, (i, share)| {
        write!(out, "{i}:")?;
        put_marked(out, "+", &share.used)
    })
}

// The recipe: a word and the complete proposers.
pub(crate) fn put_recipe(out: &mut String, r: &Recipe) -> Result<(), AllocError> {
    match r {
        Recipe::Observer(complete) => {
            out.push_str("observer ")?;
            put_marked(out, ",", complete)
        }
        Recipe::Share(shares) => {
            out.push_str("share ")?;
            put_shares(out, shares)
        }
        Recipe::Missing(complete) => {
            out.push_str("missing ")?;
            put_marked(out, ",", complete)
        }
    }
}

// Ids, in the order of the list; `-` for none.
pub(crate) fn put_ids(out: &mut String, ids: &[u32]) -> Result<(), AllocError> {
    put_list(out, ",", ids.iter(), |out, id| write!(out, "{id}"))
}

// Committed votes by ascending voter, each as `VOTER:NUMBER:CHANGE`; `-` for none.
pub(crate) fn put_votes(out: &mut String, votes: &[SignedVote]) -> Result<(), AllocError> {
    put_list(out, ",", votes.iter(), |out, x| {
        write!(out, "{}:{}:", x.voter, x.vote.num)?;
        put_value(out, x.vote.change)
    })
}

// The board's rows in order, as the counter hands them out, each as `COUNT:CHANGE`; `-` for none.
pub(crate) fn put_board(out: &mut String, counter: &VoteCounter) -> Result<(), AllocError> {
    let rows = (0..Board::LIMIT).map_while(|i| counter.board_row(i));
    put_list(out, ",", rows, |out, row| {
        write!(out, "{}:", row.count)?;
        put_value(out, row.change)
    })
}

// Recorded parts by ascending proposer, each as `INDEX:COMMITMENT:A+A+A`; `-` for none.
pub(crate) fn put_parts(out: &mut String, g: &KeyGen) -> Result<(), AllocError> {
    let proposals = g.proposals.iter().enumerate();
    let recorded = proposals.filter_map(|(i, p)| Some((i, (*p)?)));
    put_list(out, ",", recorded, |out, (i, p)| {
        write!(out, "{i}:{}:", p.commit)?;
        put_marked(out, "+", &p.acks)
    })
}
