// mod.rs: a message of the protocol. Tag 0, `HoneyBadger`, is unknown here: the host keeps those.
#![tactic(auto)]

ghost use Rattle.std.specs.Prelude.{◌≡◌, ◌+◌, ◌*◌, max};
ghost use Rattle.bincode.specs.Answer.{answer};
ghost use Rattle.bincode.specs.Sizes.{base};
ghost use Rattle.message.specs.Message.{MessageContent, content_of, key_gen_held, vote_held, content_held, read_key_gen, read_vote, read_message, content_bytes};

use bincode::{Decoded, Encoded, FixintEncoding, Refusal};
use key_gen_message::KeyGenMessage;
use votes::SignedVote;

// A key-generation message with its era and signature, or a signed vote.
#[derive(Clone, Copy)]
pub enum Message {
    KeyGen(u64, KeyGenMessage, u64),
    SignedVote(SignedVote),
}

impl Message {
    pub fn of_key_gen(era: u64, message: KeyGenMessage, sig: u64) -> Self
        ensures { result ≡ key_gen_held era message sig }
    {
        Message::KeyGen(era, message, sig)
    }

    pub fn of_vote(vote: SignedVote) -> Self
        ensures { result ≡ vote_held vote }
    {
        Message::SignedVote(vote)
    }
}

#[tactic(auto, using(bincode::proofs::NumberLaws::read_refused), unfolding(crate::specs::Message::read_key_gen))]
fn read_key_gen(s: &[u8], at: usize) -> Result<(Message, usize), Refusal>
    ensures { result ≡ answer content_held (read_key_gen base s.now at) }
{
    let Ok((era, c)) = bincode::read_u64(s, at) else {
        return Err(Refusal::Malformed);
    };
    let (message, d) = KeyGenMessage::read(s, c)?;
    let Ok((sig, e)) = bincode::read_u64(s, d) else {
        return Err(Refusal::Malformed);
    };
    Ok((Message::KeyGen(era, message, sig), e))
}

#[tactic(auto, using(bincode::proofs::NumberLaws::read_refused), unfolding(crate::specs::Message::read_vote))]
fn read_vote(s: &[u8], at: usize) -> Result<(Message, usize), Refusal>
    ensures { result ≡ answer content_held (read_vote base s.now at) }
{
    let (vote, c) = SignedVote::read(s, at)?;
    Ok((Message::SignedVote(vote), c))
}

impl Decoded<FixintEncoding> for Message {
    ghost Value = { MessageContent };

    ghost held = { content_held };

    ghost read_at = { read_message base };

    #[tactic(auto, using(bincode::proofs::NumberLaws::read_refused), unfolding(crate::specs::Message::read_message))]
    fn read(s: &[u8], at: usize) -> Result<(Self, usize), Refusal> {
        let Ok((tag, c)) = bincode::read_u32(s, at) else {
            return Err(Refusal::Malformed);
        };
        match tag {
            1 => read_key_gen(s, c),
            2 => read_vote(s, c),
            _ => Err(Refusal::Malformed),
        }
    }
}

impl Encoded<FixintEncoding> for Message {
    ghost bytes = { λ m. content_bytes (content_of m) };

    ghost longest = { 4 + max (36 + 8 * base.rows) (40 + 12 * base.nodes) };

    #[tactic(auto, unfolding(crate::specs::Message::content_bytes))]
    fn size(&self) -> usize {
        match *self {
            Message::KeyGen(era, message, sig) => Encoded::<FixintEncoding>::size(&(
                1u32, era, message, sig,
            )),
            Message::SignedVote(vote) => Encoded::<FixintEncoding>::size(&(2u32, vote)),
        }
    }

    #[tactic(auto, unfolding(crate::specs::Message::content_bytes))]
    fn write(&self, buf: &mut [u8], at: usize) -> usize {
        match *self {
            Message::KeyGen(era, message, sig) => Encoded::<FixintEncoding>::write(
                &(1u32, era, message, sig),
                buf,
                at,
            ),
            Message::SignedVote(vote) => Encoded::<FixintEncoding>::write(&(2u32, vote), buf, at),
        }
    }
}
