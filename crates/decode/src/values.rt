// Values read and written again: `ok` with the bytes, or the refusal's number. A map and a vote are shown in words too.
use crate::text::{Failure, Hex};
use bincode::{Decoded, Encoded, FixintEncoding};
use change::Change;
use honey_badger::EncryptionSchedule;
use join_plan::JoinPlan;
use pub_key_map::PubKeyMap;
use std::alloc::{AllocError, Global};
use std::fmt;
use votes::Vote;

// Ids and keys, as `1:11,2:12`; `-` for none.
#[derive(Clone, Copy)]
struct NodesText(PubKeyMap);

impl fmt::Display for NodesText {
    fn fmt<W: fmt::Write>(&self, f: &mut fmt::Formatter<W>) -> fmt::Result {
        let nodes = self.0.nodes.as_slice();
        if nodes.is_empty() {
            return f.write_str("-");
        }
        for (i, node) in nodes.iter().enumerate() {
            if 0 < i {
                f.write_str(",")?;
            }
            write!(f, "{}:{}", node.id, node.key)?;
        }
        Ok(())
    }
}

#[derive(Clone, Copy)]
struct ScheduleText(EncryptionSchedule);

impl fmt::Display for ScheduleText {
    fn fmt<W: fmt::Write>(&self, f: &mut fmt::Formatter<W>) -> fmt::Result {
        match self.0 {
            EncryptionSchedule::Always => f.write_str("Always"),
            EncryptionSchedule::Never => f.write_str("Never"),
            EncryptionSchedule::EveryNthEpoch(n) => write!(f, "EveryNthEpoch {n}"),
            EncryptionSchedule::TickTock(on, off) => write!(f, "TickTock {on} {off}"),
        }
    }
}

// What a change does.
#[derive(Clone, Copy)]
struct ChangeText(Change);

impl fmt::Display for ChangeText {
    fn fmt<W: fmt::Write>(&self, f: &mut fmt::Formatter<W>) -> fmt::Result {
        match self.0 {
            Change::NodeChange(map) => write!(f, "NodeChange {}", NodesText(map)),
            Change::EncryptionSchedule(x) => write!(f, "EncryptionSchedule {}", ScheduleText(x)),
        }
    }
}

// The bytes of a value.
pub(crate) fn encoded<T: Encoded<FixintEncoding>>(
    alloc: Global,
    value: T,
) -> Result<Vec<u8>, AllocError> {
    let mut bytes = vec![in alloc; 0u8; value.size()]?;
    value.write(&mut bytes, 0);
    Ok(bytes)
}

// The value that the whole input is, written again.
pub(crate) fn again<T: Decoded<FixintEncoding> + Encoded<FixintEncoding>>(
    b: &[u8],
    out: &mut String,
) -> Result<(), Failure> {
    let (value, _) = bincode::read_whole::<FixintEncoding, T>(b)?;
    let bytes = encoded(*out.allocator(), value)?;
    writeln!(out, "ok {}", Hex(&bytes))?;
    Ok(())
}

pub(crate) fn map(b: &[u8], out: &mut String) -> Result<(), Failure> {
    let (map, _) = bincode::read_whole::<FixintEncoding, PubKeyMap>(b)?;
    let bytes = encoded(*out.allocator(), map)?;
    writeln!(out, "ok {} {}", Hex(&bytes), NodesText(map))?;
    Ok(())
}

pub(crate) fn vote(b: &[u8], out: &mut String) -> Result<(), Failure> {
    let (vote, _) = bincode::read_whole::<FixintEncoding, Vote>(b)?;
    let bytes = encoded(*out.allocator(), vote)?;
    let Vote { change, era, num } = vote;
    let bytes = Hex(&bytes);
    writeln!(out, "ok {bytes} era {era} num {num} {}", ChangeText(change))?;
    Ok(())
}

// A plan of the old edition in the new one, and back.
pub(crate) fn plan_new(b: &[u8], out: &mut String) -> Result<(), Failure> {
    let mut buf = [0u8; JoinPlan::VARINT_BYTES];
    let n = join_plan::to_variable(b, &mut buf)?;
    writeln!(out, "ok {}", Hex(buf.get(..n).unwrap_or(&buf)))?;
    Ok(())
}

pub(crate) fn plan_old(b: &[u8], out: &mut String) -> Result<(), Failure> {
    let mut buf = [0u8; JoinPlan::BYTES];
    let n = join_plan::to_fixed(b, &mut buf)?;
    writeln!(out, "ok {}", Hex(buf.get(..n).unwrap_or(&buf)))?;
    Ok(())
}

pub(crate) fn batch(b: &[u8], out: &mut String) -> Result<(), Failure> {
    writeln!(out, "ok {}", internal_contrib::check_batch(b)?)?;
    Ok(())
}

// A batch behind four bytes of an id: that node's user bytes, or that there are none.
pub(crate) fn user(b: &[u8], out: &mut String) -> Result<(), Failure> {
    let Ok((id, at)) = bincode::read_u32(b, 0) else {
        return Err(Failure::BadLine);
    };
    let batch = b.get(at..).unwrap_or(b"");
    if internal_contrib::has_contrib(batch, id)? {
        writeln!(out, "ok {}", Hex(internal_contrib::user_bytes(batch, id)))?;
    } else {
        writeln!(out, "no")?;
    }
    Ok(())
}
