// Answers one line.
use crate::text::Failure;
use crate::values::again;
use crate::{counts, values};
use change::{Change, ChangeState};
use hex::FromHexError;
use honey_badger::EncryptionSchedule;
use join_plan::JoinPlan;
use key_gen_message::{KeyGenMessage, SignedKeyGenMsg};
use message::Message;
use params::Params;
use std::alloc::Global;
use sync_key_gen::{Ack, Part};
use votes::SignedVote;

// The greatest length of a line.
pub const LIMIT: usize = 140000;

// The answer of a kind for bytes.
fn dispatch(kind: &str, b: &[u8], out: &mut String) -> Result<(), Failure> {
    match kind {
        "map" => values::map(b, out),
        "schedule" => again::<EncryptionSchedule>(b, out),
        "params" => again::<Params>(b, out),
        "change" => again::<Change>(b, out),
        "state" => again::<ChangeState>(b, out),
        "vote" => values::vote(b, out),
        "signed-vote" => again::<SignedVote>(b, out),
        "part" => again::<Part>(b, out),
        "ack" => again::<Ack>(b, out),
        "key-gen" => again::<KeyGenMessage>(b, out),
        "signed-key-gen" => again::<SignedKeyGenMsg>(b, out),
        "message" => again::<Message>(b, out),
        "plan" => again::<JoinPlan>(b, out),
        "plan-new" => values::plan_new(b, out),
        "plan-old" => values::plan_old(b, out),
        "batch" => values::batch(b, out),
        "user" => values::user(b, out),
        "max-faulty" => counts::faulty(b, out),
        "winner" => counts::winner(b, out),
        "complete" => counts::complete(b, out),
        _ => Err(Failure::BadLine),
    }
}

// The bytes that lowercase digits stand for; `-` stands for none.
fn unhex(alloc: Global, digits: &str) -> Result<Vec<u8>, Failure> {
    if digits == "-" {
        return Ok(Vec::new(alloc));
    }
    if digits.is_empty() || digits.bytes().any(|b| b.is_ascii_uppercase()) {
        return Err(Failure::BadLine);
    }
    hex::decode(alloc, digits).map_err(|e| match e {
        FromHexError::OutOfMemory => Failure::OutOfMemory,
        _ => Failure::BadLine,
    })
}

// A kind, one space, and digits. A line that is empty or begins with `#` answers nothing.
fn value(line: &[u8], out: &mut String) -> Result<(), Failure> {
    if LIMIT < line.len() {
        return Err(Failure::BadLine);
    }
    if line.is_empty() || line.starts_with(b"#") {
        return Ok(());
    }
    let Ok(text) = str::from_utf8(line) else {
        return Err(Failure::BadLine);
    };
    let Some((kind, digits)) = text.split_once(' ') else {
        return Err(Failure::BadLine);
    };
    let bytes = unhex(*out.allocator(), digits)?;
    dispatch(kind, &bytes, out)
}

// Puts the answer of a line into `out`; only where memory has run out there is none.
pub(crate) fn answer(line: &[u8], out: &mut String) -> Result<(), Failure> {
    match value(line, out) {
        Ok(()) => Ok(()),
        Err(Failure::OutOfMemory) => Err(Failure::OutOfMemory),
        Err(failure) => Ok(writeln!(out, "{failure}")?),
    }
}
