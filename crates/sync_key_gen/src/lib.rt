// sync_key_gen.rs: the messages of distributed key generation, a part and an ack. Rows and values are handles (01, stand-ins).
#![tactic(auto)]

ghost use Rattle.std.specs.Prelude.{◌≡◌, ℕ, List, [], ◌+◌, ◌*◌, ◌≤◌, length};
ghost use Rattle.bincode.specs.Answer.{answer};
ghost use Rattle.bincode.specs.Sizes.{base};
ghost use Rattle.bincode.specs.Writing.{written, written_to};
ghost use Rattle.sync_key_gen.specs.SyncKeyGen.{handles_of, handles_held, headed_held, read_handles, read_headed, handles_bytes, PartOf, part_of, part_held};
ghost use Rattle.sync_key_gen.specs.SyncKeyGen.{read_part, part_bytes, AckOf, ack_of, ack_held, read_ack, ack_bytes};

use array_list::ArrayList;
use bincode::{Decoded, Encoded, FixintEncoding, Refusal};

// Encrypted rows or values, one for each node.
#[derive(Clone, Copy, PartialEq)]
pub struct Handles {
    pub values: ArrayList<u64, { Handles::LIMIT }>,
}

impl Handles {
    pub const LIMIT: usize = 24;

    // The handles of an array below a count.
    pub fn new(count: usize, values: [u64; Handles::LIMIT]) -> Self
        ensures { result ≡ record { values = record { count = count; items = values } } }
    {
        Handles {
            values: ArrayList {
                count,
                items: values,
            },
        }
    }

    #[tactic(auto, unfolding(lists::specs::Lists::padded))]
    pub fn empty() -> Self
        ensures { result ≡ handles_held [] }
    {
        Handles {
            values: ArrayList::empty(0),
        }
    }

    // How many handles there are: a count past the array counts as the array's length.
    pub fn len(self) -> usize
        ensures { (result ≡ length (handles_of self)) × (result ≤ base.rows) }
    {
        self.values.len()
    }
}

// A proposer's commitment and an encrypted row for each node.
#[derive(Clone, Copy, PartialEq)]
pub struct Part {
    pub commit: u64,
    pub rows: Handles,
}

// The proposer's index and an encrypted value for each node.
#[derive(Clone, Copy, PartialEq)]
pub struct Ack {
    pub proposer: u64,
    pub values: Handles,
}

impl Decoded<FixintEncoding> for Handles {
    ghost Value = { List ℕ };

    ghost held = { handles_held };

    ghost read_at = { read_handles base };

    #[tactic(auto, unfolding(crate::specs::SyncKeyGen::read_handles, bincode::specs::Items::counted, bincode::specs::Items::read_count))]
    fn read(s: &[u8], at: usize) -> Result<(Self, usize), Refusal> {
        let (n, first) = bincode::read_count::<FixintEncoding>(s, at, Handles::LIMIT as u64)?;
        let count = n as usize;
        let mut values = [0; Handles::LIMIT];
        let mut c = first;
        for value in values[..count].iter_mut() {
            let Ok((x, next)) = bincode::read_u64(s, c) else {
                return Err(Refusal::Malformed);
            };
            *value = x;
            c = next;
        }
        Ok((Handles::new(count, values), c))
    }
}

// A number with handles behind it, as a part and an ack both are.
#[tactic(auto, using(bincode::proofs::NumberLaws::read_refused), unfolding(crate::specs::SyncKeyGen::read_headed))]
fn read_headed(s: &[u8], at: usize) -> Result<((u64, Handles), usize), Refusal>
    ensures { result ≡ answer headed_held (read_headed base s.now at) }
{
    let Ok((head, c)) = bincode::read_u64(s, at) else {
        return Err(Refusal::Malformed);
    };
    let (handles, d) = Handles::read(s, c)?;
    Ok(((head, handles), d))
}

impl Decoded<FixintEncoding> for Part {
    ghost Value = { PartOf };

    ghost held = { part_held };

    ghost read_at = { read_part base };

    #[tactic(auto, using(bincode::proofs::NumberLaws::read_refused), unfolding(crate::specs::SyncKeyGen::read_headed, crate::specs::SyncKeyGen::read_part))]
    fn read(s: &[u8], at: usize) -> Result<(Self, usize), Refusal> {
        let ((commit, rows), c) = read_headed(s, at)?;
        Ok((Part { commit, rows }, c))
    }
}

impl Decoded<FixintEncoding> for Ack {
    ghost Value = { AckOf };

    ghost held = { ack_held };

    ghost read_at = { read_ack base };

    #[tactic(auto, using(bincode::proofs::NumberLaws::read_refused), unfolding(crate::specs::SyncKeyGen::read_headed, crate::specs::SyncKeyGen::read_ack))]
    fn read(s: &[u8], at: usize) -> Result<(Self, usize), Refusal> {
        let ((proposer, values), c) = read_headed(s, at)?;
        Ok((Ack { proposer, values }, c))
    }
}

impl Encoded<FixintEncoding> for Handles {
    ghost bytes = { λ h. handles_bytes (handles_of h) };

    ghost longest = { 8 + 8 * base.rows };

    #[tactic(auto, using(crate::proofs::KeyGenLaws::length_handles))]
    fn size(&self) -> usize {
        8 + 8 * self.len()
    }

    #[tactic(auto, unfolding(bincode::specs::Writing::written, bincode::specs::Writing::written_to))]
    fn write(&self, buf: &mut [u8], at: usize) -> usize {
        if bincode::room(buf.len(), at, self.size()) {
            let mut c = bincode::write_u64(buf, at, self.len() as u64);
            for x in self.values.as_slice() {
                c = bincode::write_u64(buf, c, *x);
            }
            c
        } else {
            at
        }
    }
}

impl Encoded<FixintEncoding> for Part {
    ghost bytes = { λ p. part_bytes (part_of p) };

    ghost longest = { 16 + 8 * base.rows };

    #[tactic(auto, unfolding(crate::specs::SyncKeyGen::part_bytes))]
    fn size(&self) -> usize {
        Encoded::<FixintEncoding>::size(&(self.commit, self.rows))
    }

    #[tactic(auto, unfolding(crate::specs::SyncKeyGen::part_bytes))]
    fn write(&self, buf: &mut [u8], at: usize) -> usize {
        Encoded::<FixintEncoding>::write(&(self.commit, self.rows), buf, at)
    }
}

impl Encoded<FixintEncoding> for Ack {
    ghost bytes = { λ a. ack_bytes (ack_of a) };

    ghost longest = { 16 + 8 * base.rows };

    #[tactic(auto, unfolding(crate::specs::SyncKeyGen::ack_bytes))]
    fn size(&self) -> usize {
        Encoded::<FixintEncoding>::size(&(self.proposer, self.values))
    }

    #[tactic(auto, unfolding(crate::specs::SyncKeyGen::ack_bytes))]
    fn write(&self, buf: &mut [u8], at: usize) -> usize {
        Encoded::<FixintEncoding>::write(&(self.proposer, self.values), buf, at)
    }
}
