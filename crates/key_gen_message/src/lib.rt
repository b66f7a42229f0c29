// mod.rs: a key-generation message, and one signed with its era and signer.
#![tactic(auto)]

ghost use Rattle.std.specs.Prelude.{◌≡◌, ◌+◌, ◌*◌, ◌≤◌, length};
ghost use Rattle.bincode.specs.Answer.{answer};
ghost use Rattle.bincode.specs.Sizes.{base};
ghost use Rattle.bincode.specs.Writing.{written, written_to};
ghost use Rattle.sync_key_gen.specs.SyncKeyGen.{part_of, ack_of, read_handles};
ghost use Rattle.key_gen_message.specs.Head.{body_of, head_of};
ghost use Rattle.key_gen_message.specs.KeyGenMessage.{KeyGenMessageOf, part, ack, message_of, message_held, no_message, read_key_gen_message};
ghost use Rattle.key_gen_message.specs.KeyGenMessage.{message_bytes, SignedKeyGenMsgOf, signed_of, signed_held, no_signed, read_signed_key_gen_msg, signed_bytes};

use bincode::{Decoded, Encoded, FixintEncoding, Refusal};
use sync_key_gen::{Ack, Handles, Part};

// A proposer's part, or an ack of one.
#[derive(Clone, Copy, PartialEq)]
pub enum KeyGenMessage {
    Part(Part),
    Ack(Ack),
}

impl KeyGenMessage {
    pub fn part(p: Part) -> Self
        ensures { message_of result ≡ part (part_of p) }
    {
        KeyGenMessage::Part(p)
    }

    pub fn ack(a: Ack) -> Self
        ensures { message_of result ≡ ack (ack_of a) }
    {
        KeyGenMessage::Ack(a)
    }

    // What stands where no message is held.
    pub fn empty() -> Self
        ensures { result ≡ message_held no_message }
    {
        KeyGenMessage::Part(Part {
            commit: 0,
            rows: Handles::empty(),
        })
    }
}

// Era, signer, message, signature, as the Rust's tuple struct has them.
#[derive(Clone, Copy, PartialEq)]
pub struct SignedKeyGenMsg {
    pub era: u64,
    pub id: u32,
    pub message: KeyGenMessage,
    pub sig: u64,
}

impl SignedKeyGenMsg {
    pub fn empty() -> Self
        ensures { result ≡ signed_held no_signed }
    {
        SignedKeyGenMsg {
            era: 0,
            id: 0,
            message: KeyGenMessage::empty(),
            sig: 0,
        }
    }
}

impl Decoded<FixintEncoding> for KeyGenMessage {
    ghost Value = { KeyGenMessageOf };

    ghost held = { message_held };

    ghost read_at = { read_key_gen_message base };

    #[tactic(auto, using(crate::proofs::Fields::read), unfolding(crate::specs::KeyGenMessage::read_key_gen_message))]
    fn read(s: &[u8], at: usize) -> Result<(Self, usize), Refusal> {
        let Ok((tag, c)) = bincode::read_u32(s, at) else {
            return Err(Refusal::Malformed);
        };
        match tag {
            0 => {
                let (p, d) = Part::read(s, c)?;
                Ok((KeyGenMessage::Part(p), d))
            }
            1 => {
                let (a, d) = Ack::read(s, c)?;
                Ok((KeyGenMessage::Ack(a), d))
            }
            _ => Err(Refusal::Malformed),
        }
    }
}

impl Decoded<FixintEncoding> for SignedKeyGenMsg {
    ghost Value = { SignedKeyGenMsgOf };

    ghost held = { signed_held };

    ghost read_at = { read_signed_key_gen_msg base };

    #[tactic(auto, using(crate::proofs::Fields::read), unfolding(crate::specs::KeyGenMessage::read_signed_key_gen_msg))]
    fn read(s: &[u8], at: usize) -> Result<(Self, usize), Refusal> {
        let Ok((era, a)) = bincode::read_u64(s, at) else {
            return Err(Refusal::Malformed);
        };
        let Ok((id, b)) = bincode::read_u32(s, a) else {
            return Err(Refusal::Malformed);
        };
        let (message, c) = KeyGenMessage::read(s, b)?;
        let Ok((sig, d)) = bincode::read_u64(s, c) else {
            return Err(Refusal::Malformed);
        };
        Ok((
            SignedKeyGenMsg {
                era,
                id,
                message,
                sig,
            },
            d,
        ))
    }
}

// Which of the two a message is.
#[derive(Clone, Copy)]
pub enum KeyGenKind {
    Part,
    Ack,
}

// A message's kind, its commitment or proposer's index, and how many rows or values it has.
#[derive(Clone, Copy)]
pub struct Body {
    pub kind: KeyGenKind,
    pub first: u64,
    pub count: u64,
}

// A signed message without its rows or values.
#[derive(Clone, Copy)]
pub struct MessageHead {
    pub era: u64,
    pub id: u32,
    pub kind: KeyGenKind,
    pub first: u64,
    pub count: u64,
    pub sig: u64,
}

// How many rows or values there are: they are any numbers, so their room alone is tested.
#[tactic(auto, unfolding(sync_key_gen::specs::SyncKeyGen::read_handles, bincode::specs::Items::counted, bincode::specs::Items::read_count))]
fn skip_handles(s: &[u8], at: usize) -> Result<(u64, usize), Refusal>
    ensures { result ≡ answer length (read_handles base s.now at) }
{
    let (n, c) = bincode::read_count::<FixintEncoding>(s, at, Handles::LIMIT as u64)?;
    let size = 8 * (n as usize);
    if !bincode::room(s.len(), c, size) {
        return Err(Refusal::Malformed);
    }
    Ok((n, c + size))
}

#[tactic(auto, using(crate::proofs::Fields::read), unfolding(crate::specs::KeyGenMessage::read_key_gen_message, sync_key_gen::specs::SyncKeyGen::read_part, sync_key_gen::specs::SyncKeyGen::read_ack))]
fn read_body(s: &[u8], at: usize) -> Result<(Body, usize), Refusal>
    ensures { result ≡ answer body_of (read_key_gen_message base s.now at) }
{
    let Ok((tag, c)) = bincode::read_u32(s, at) else {
        return Err(Refusal::Malformed);
    };
    let kind = match tag {
        0 => KeyGenKind::Part,
        1 => KeyGenKind::Ack,
        _ => return Err(Refusal::Malformed),
    };
    let Ok((first, d)) = bincode::read_u64(s, c) else {
        return Err(Refusal::Malformed);
    };
    let (count, e) = skip_handles(s, d)?;
    Ok((Body { kind, first, count }, e))
}

// Rows and values are tested and not kept, so that no array is copied where the numbers alone are asked for.
#[tactic(auto, using(crate::proofs::Fields::read), unfolding(crate::specs::KeyGenMessage::read_signed_key_gen_msg))]
pub fn read_head(s: &[u8], at: usize) -> Result<(MessageHead, usize), Refusal>
    ensures { result ≡ answer head_of (read_signed_key_gen_msg base s.now at) }
{
    let Ok((era, a)) = bincode::read_u64(s, at) else {
        return Err(Refusal::Malformed);
    };
    let Ok((id, b)) = bincode::read_u32(s, a) else {
        return Err(Refusal::Malformed);
    };
    let (body, c) = read_body(s, b)?;
    let Ok((sig, d)) = bincode::read_u64(s, c) else {
        return Err(Refusal::Malformed);
    };
    Ok((
        MessageHead {
            era,
            id,
            kind: body.kind,
            first: body.first,
            count: body.count,
            sig,
        },
        d,
    ))
}

impl Encoded<FixintEncoding> for KeyGenMessage {
    ghost bytes = { λ m. message_bytes (message_of m) };

    ghost longest = { 20 + 8 * base.rows };

    #[tactic(auto, using(crate::proofs::MessageLaws::tagged_part, crate::proofs::MessageLaws::tagged_ack), unfolding(crate::specs::KeyGenMessage::message_bytes))]
    fn size(&self) -> usize {
        match *self {
            KeyGenMessage::Part(p) => Encoded::<FixintEncoding>::size(&(0u32, p)),
            KeyGenMessage::Ack(a) => Encoded::<FixintEncoding>::size(&(1u32, a)),
        }
    }

    #[tactic(auto, using(crate::proofs::MessageLaws::tagged_part, crate::proofs::MessageLaws::tagged_ack), unfolding(crate::specs::KeyGenMessage::message_bytes))]
    fn write(&self, buf: &mut [u8], at: usize) -> usize {
        match *self {
            KeyGenMessage::Part(p) => Encoded::<FixintEncoding>::write(&(0u32, p), buf, at),
            KeyGenMessage::Ack(a) => Encoded::<FixintEncoding>::write(&(1u32, a), buf, at),
        }
    }
}

impl Encoded<FixintEncoding> for SignedKeyGenMsg {
    ghost bytes = { λ x. signed_bytes (signed_of x) };

    ghost longest = { 40 + 8 * base.rows };

    #[tactic(auto, unfolding(crate::specs::KeyGenMessage::signed_bytes))]
    fn size(&self) -> usize {
        Encoded::<FixintEncoding>::size(&(self.era, self.id, self.message, self.sig))
    }

    #[tactic(auto, unfolding(crate::specs::KeyGenMessage::signed_bytes))]
    fn write(&self, buf: &mut [u8], at: usize) -> usize {
        Encoded::<FixintEncoding>::write(&(self.era, self.id, self.message, self.sig), buf, at)
    }
}
