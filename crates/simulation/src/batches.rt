// The bytes of a season: batches of one contribution, by node 3, and messages.
use bincode::{Encoded, FixintEncoding};
use change::Change;
use key_gen_message::{KeyGenMessage, SignedKeyGenMsg};
use message::Message;
use pub_key_map::{Node, PubKeyMap};
use std::alloc::{AllocError, Global};
use sync_key_gen::{Ack, Handles, Part};
use votes::{SignedVote, Vote};

// How many parts are acknowledged: those with the least indices.
const ACKED: u64 = 4;

// A node of the season: node i has key 100 + i.
pub(crate) fn node(id: u32) -> Node {
    Node::new(id, 100 + u64::from(id))
}

// The map of nodes 1 to n.
pub(crate) fn roster(n: u32) -> PubKeyMap {
    (1..=n).fold(PubKeyMap::empty(), |map, id| {
        node_change::with_node(map, node(id))
    })
}

// A handle for each node.
fn handles(map: PubKeyMap) -> Handles {
    Handles::new(map.len(), [9; Handles::LIMIT])
}

pub(crate) fn part(map: PubKeyMap, id: u32) -> KeyGenMessage {
    KeyGenMessage::part(Part {
        commit: 70 + u64::from(id),
        rows: handles(map),
    })
}

pub(crate) fn ack(map: PubKeyMap, proposer: u64) -> KeyGenMessage {
    KeyGenMessage::ack(Ack {
        proposer,
        values: handles(map),
    })
}

fn vote(era: u64, id: u32, change: Change) -> SignedVote {
    let voter = node(id);
    SignedVote {
        vote: Vote {
            change,
            era,
            num: 0,
        },
        voter: voter.id,
        sig: voter.key,
    }
}

// A key message of a node.
fn signed(era: u64, signer: Node, message: KeyGenMessage) -> SignedKeyGenMsg {
    SignedKeyGenMsg {
        era,
        id: signer.id,
        message,
        sig: signer.key,
    }
}

// A part of each node of a map.
fn parts_of(alloc: Global, era: u64, map: PubKeyMap) -> Result<Vec<SignedKeyGenMsg>, AllocError> {
    let mut parts = Vec::new(alloc);
    for signer in map.nodes.as_slice() {
        parts.push(signed(era, *signer, part(map, signer.id)))?;
    }
    Ok(parts)
}

// The acks of one node.
fn add_acks_of(
    messages: &mut Vec<SignedKeyGenMsg>,
    era: u64,
    map: PubKeyMap,
    signer: Node,
) -> Result<(), AllocError> {
    for proposer in 0..ACKED {
        messages.push(signed(era, signer, ack(map, proposer)))?;
    }
    Ok(())
}

// The acks of each node of a map.
fn add_acks(
    messages: &mut Vec<SignedKeyGenMsg>,
    era: u64,
    map: PubKeyMap,
) -> Result<(), AllocError> {
    for signer in map.nodes.as_slice() {
        add_acks_of(messages, era, map, *signer)?;
    }
    Ok(())
}

// The bytes of a value.
pub(crate) fn encoded<T: Encoded<FixintEncoding>>(
    alloc: Global,
    value: T,
) -> Result<Vec<u8>, AllocError> {
    let mut bytes = vec![in alloc; 0u8; value.size()]?;
    value.write(&mut bytes, 0);
    Ok(bytes)
}

// How many values there are, and each.
fn add_all<T: Encoded<FixintEncoding>>(
    bytes: &mut Vec<u8>,
    values: &[T],
) -> Result<(), AllocError> {
    let alloc = *bytes.allocator();
    bytes.extend_from_slice(&encoded(alloc, values.len() as u64)?)?;
    for x in values {
        bytes.extend_from_slice(&encoded(alloc, *x)?)?;
    }
    Ok(())
}

// A batch of one contribution, by node 3, with four user bytes, key messages and votes.
fn batch(
    alloc: Global,
    user: u32,
    messages: &[SignedKeyGenMsg],
    votes: &[SignedVote],
) -> Result<Vec<u8>, AllocError> {
    let mut bytes = encoded(alloc, (1u64, 3u32, 4u64, user))?;
    add_all(&mut bytes, messages)?;
    add_all(&mut bytes, votes)?;
    Ok(bytes)
}

// A batch without a contribution takes 8 bytes; what is longer has bytes left over.
pub(crate) fn nothing(alloc: Global, len: usize) -> Result<Vec<u8>, AllocError> {
    vec![in alloc; 0u8; len]
}

// The votes of node 1 and another for a change.
pub(crate) fn votes(
    alloc: Global,
    era: u64,
    other: u32,
    change: Change,
) -> Result<Vec<u8>, AllocError> {
    let both = [vote(era, 1, change), vote(era, other, change)];
    batch(alloc, 41, &[], &both)
}

// One vote for a change.
pub(crate) fn one_vote(
    alloc: Global,
    era: u64,
    id: u32,
    change: Change,
) -> Result<Vec<u8>, AllocError> {
    batch(alloc, 46, &[], &[vote(era, id, change)])
}

// One vote for a change, which verifies under no key.
pub(crate) fn forged_vote(
    alloc: Global,
    era: u64,
    id: u32,
    change: Change,
) -> Result<Vec<u8>, AllocError> {
    let forged = SignedVote {
        sig: 0,
        ..vote(era, id, change)
    };
    batch(alloc, 47, &[], &[forged])
}

// One part, of a node that need not be in the map.
pub(crate) fn one_part(
    alloc: Global,
    era: u64,
    map: PubKeyMap,
    id: u32,
) -> Result<Vec<u8>, AllocError> {
    batch(alloc, 42, &[signed(era, node(id), part(map, id))], &[])
}

// The parts of a map's nodes.
pub(crate) fn parts(alloc: Global, era: u64, map: PubKeyMap) -> Result<Vec<u8>, AllocError> {
    batch(alloc, 43, &parts_of(alloc, era, map)?, &[])
}

// The acks of a map's nodes.
pub(crate) fn acks(alloc: Global, era: u64, map: PubKeyMap) -> Result<Vec<u8>, AllocError> {
    let mut messages = Vec::new(alloc);
    add_acks(&mut messages, era, map)?;
    batch(alloc, 44, &messages, &[])
}

// Parts and acks of a map's nodes.
pub(crate) fn parts_and_acks(
    alloc: Global,
    era: u64,
    map: PubKeyMap,
) -> Result<Vec<u8>, AllocError> {
    let mut messages = parts_of(alloc, era, map)?;
    add_acks(&mut messages, era, map)?;
    batch(alloc, 45, &messages, &[])
}

// A vote of a node, as a message.
pub(crate) fn vote_message(
    alloc: Global,
    era: u64,
    id: u32,
    change: Change,
) -> Result<Vec<u8>, AllocError> {
    encoded(alloc, Message::of_vote(vote(era, id, change)))
}

// A key message of a node, as a message.
pub(crate) fn key_message(
    alloc: Global,
    era: u64,
    id: u32,
    message: KeyGenMessage,
) -> Result<Vec<u8>, AllocError> {
    encoded(alloc, Message::of_key_gen(era, message, node(id).key))
}
