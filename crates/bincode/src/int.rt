// The numbers of bincode's two editions, as the library's `IntEncoding` tells them apart: fixed widths, as its `serialize` writes them, and variable widths, as its
// `DefaultOptions` do (02, CR 5).
#![tactic(auto)]

ghost use Rattle.std.specs.Prelude.{◌≡◌, ◌+◌, ◌≤◌, ℕ, length};
ghost use Rattle.bincode.specs.Numbers.{Edition, fixed, variable, bytes_of, variable_bytes, read_num, read_variable};
ghost use Rattle.bincode.specs.Answer.{answer_as_read, answer};
ghost use Rattle.bincode.specs.Writing.{written, written_to};

use crate::{Encoded, Refusal};

// How an edition reads and writes its numbers.
pub trait IntEncoding: Copy {
    ghost edition: { Edition };

    // No number of a width takes more bytes.
    ghost longest: { ℕ → ℕ };

    // A number with the position behind it.
    fn read_u32(s: &[u8], at: usize) -> Result<(u32, usize), Refusal>
        ensures { result ≡ answer (λ (x : ℕ). x) (edition.read 4 s.now at) };

    fn read_u64(s: &[u8], at: usize) -> Result<(u64, usize), Refusal>
        ensures { result ≡ answer (λ (x : ℕ). x) (edition.read 8 s.now at) };

    // The position behind the number, or `at` where it has no room; then nothing is written.
    fn write_u32(buf: &mut [u8], at: usize, x: u32) -> usize
        ensures { (buf.new ≡ written buf.old at (edition.bytes 4 x)) × (result ≡ written_to buf.old at (edition.bytes 4 x)) };

    fn write_u64(buf: &mut [u8], at: usize, x: u64) -> usize
        ensures { (buf.new ≡ written buf.old at (edition.bytes 8 x)) × (result ≡ written_to buf.old at (edition.bytes 8 x)) };

    // How many bytes a number takes.
    fn size_u32(x: u32) -> usize
        ensures { (result ≡ length (edition.bytes 4 x)) × (result ≤ longest 4) };

    fn size_u64(x: u64) -> usize
        ensures { (result ≡ length (edition.bytes 8 x)) × (result ≤ longest 8) };
}

// Every number takes as many bytes as its field is wide.
#[derive(Clone, Copy)]
pub struct FixintEncoding;

// A number takes as few bytes as it needs.
#[derive(Clone, Copy)]
pub struct VarintEncoding;

impl VarintEncoding {
    // The least numbers that need two, four and eight bytes behind a marker of their own.
    const LEAST_OF_TWO: u64 = 251;

    const LEAST_OF_FOUR: u64 = 65536;

    const LEAST_OF_EIGHT: u64 = 4294967296;
}

impl IntEncoding for FixintEncoding {
    ghost edition = { fixed };

    ghost longest = { λ w. w };

    #[tactic(auto, using(crate::proofs::AnswerLaws::seen_answer))]
    fn read_u32(s: &[u8], at: usize) -> Result<(u32, usize), Refusal> {
        crate::read_u32(s, at)
    }

    #[tactic(auto, using(crate::proofs::AnswerLaws::seen_answer))]
    fn read_u64(s: &[u8], at: usize) -> Result<(u64, usize), Refusal> {
        crate::read_u64(s, at)
    }

    fn write_u32(buf: &mut [u8], at: usize, x: u32) -> usize {
        crate::write_u32(buf, at, x)
    }

    fn write_u64(buf: &mut [u8], at: usize, x: u64) -> usize {
        crate::write_u64(buf, at, x)
    }

    #[tactic(auto, using(crate::proofs::NumberLaws::length_bytes_of))]
    fn size_u32(_x: u32) -> usize {
        4
    }

    #[tactic(auto, using(crate::proofs::NumberLaws::length_bytes_of))]
    fn size_u64(_x: u64) -> usize {
        8
    }
}

#[tactic(auto, unfolding(crate::specs::Numbers::read_num, crate::specs::Numbers::le))]
fn read_u8(s: &[u8], at: usize) -> Result<(u8, usize), Refusal>
    ensures { answer_as_read (λ (x : ℕ). x) result ≡ read_num 1 s.now at }
{
    let (bytes, c) = crate::bytes_at::<1>(s, at)?;
    Ok((bytes[0], c))
}

#[tactic(auto, using(crate::proofs::ByteLaws::from_le2), unfolding(crate::specs::Numbers::read_num))]
fn read_u16(s: &[u8], at: usize) -> Result<(u16, usize), Refusal>
    ensures { answer_as_read (λ (x : ℕ). x) result ≡ read_num 2 s.now at }
{
    let (bytes, c) = crate::bytes_at(s, at)?;
    Ok((u16::from_le_bytes(bytes), c))
}

impl Encoded<FixintEncoding> for u8 {
    ghost bytes = { bytes_of 1 };

    ghost longest = { 1 };

    #[tactic(auto, using(crate::proofs::NumberLaws::length_bytes_of))]
    fn size(&self) -> usize {
        1
    }

    #[tactic(auto, unfolding(crate::specs::Numbers::bytes_of))]
    fn write(&self, buf: &mut [u8], at: usize) -> usize {
        crate::put_bytes(buf, at, [*self])
    }
}

impl Encoded<FixintEncoding> for u16 {
    ghost bytes = { bytes_of 2 };

    ghost longest = { 2 };

    #[tactic(auto, using(crate::proofs::NumberLaws::length_bytes_of))]
    fn size(&self) -> usize {
        2
    }

    #[tactic(auto, using(crate::proofs::ByteLaws::to_le2))]
    fn write(&self, buf: &mut [u8], at: usize) -> usize {
        crate::put_bytes(buf, at, self.to_le_bytes())
    }
}

// 02, CR 5: below 251 a byte of its own; else 251, 252 or 253 in front of two, four or eight bytes. Row 2 where bytes are missing, row 16 for 254 and 255 and where a
// number is longer than it need be.
#[tactic(auto, using(crate::proofs::NumberLaws::read_refused), unfolding(crate::specs::Numbers::read_variable))]
fn read_variable(s: &[u8], at: usize) -> Result<(u64, usize), Refusal>
    ensures { result ≡ answer (λ (x : ℕ). x) (read_variable 8 s.now at) }
{
    let Ok((marker, c)) = read_u8(s, at) else {
        return Err(Refusal::Malformed); // no byte there
    };
    let (x, least, d) = match marker {
        0..=250 => return Ok((u64::from(marker), c)),
        251 => {
            let Ok((x, d)) = read_u16(s, c) else {
                return Err(Refusal::Malformed); // two are announced
            };
            (u64::from(x), VarintEncoding::LEAST_OF_TWO, d)
        }
        252 => {
            let Ok((x, d)) = crate::read_u32(s, c) else {
                return Err(Refusal::Malformed); // four are announced
            };
            (u64::from(x), VarintEncoding::LEAST_OF_FOUR, d)
        }
        253 => {
            let Ok((x, d)) = crate::read_u64(s, c) else {
                return Err(Refusal::Malformed); // eight are announced
            };
            (x, VarintEncoding::LEAST_OF_EIGHT, d)
        }
        _ => return Err(Refusal::InvalidInteger),
    };
    if x < least {
        return Err(Refusal::InvalidInteger); // longer than it need be
    }
    Ok((x, d))
}

// The position behind the number, or `at` where it has no room; then nothing is written.
#[tactic(auto, unfolding(crate::specs::Numbers::variable_bytes))]
fn write_variable(buf: &mut [u8], at: usize, x: u64) -> usize
    ensures { (buf.new ≡ written buf.old at (variable_bytes x)) × (result ≡ written_to buf.old at (variable_bytes x)) }
{
    if x < VarintEncoding::LEAST_OF_TWO {
        Encoded::<FixintEncoding>::write(&(x as u8), buf, at)
    } else if x < VarintEncoding::LEAST_OF_FOUR {
        Encoded::<FixintEncoding>::write(&(251u8, x as u16), buf, at)
    } else if x < VarintEncoding::LEAST_OF_EIGHT {
        Encoded::<FixintEncoding>::write(&(252u8, x as u32), buf, at)
    } else {
        Encoded::<FixintEncoding>::write(&(253u8, x), buf, at)
    }
}

#[tactic(auto, using(crate::proofs::NumberLaws::length_bytes_of, crate::proofs::VariableLaws::length_marked), unfolding(crate::specs::Numbers::variable_bytes))]
fn size_variable(x: u64) -> usize
    ensures { (result ≡ length (variable_bytes x)) × (result ≤ 9) }
{
    if x < VarintEncoding::LEAST_OF_TWO {
        1
    } else if x < VarintEncoding::LEAST_OF_FOUR {
        3
    } else if x < VarintEncoding::LEAST_OF_EIGHT {
        5
    } else {
        9
    }
}

impl IntEncoding for VarintEncoding {
    ghost edition = { variable };

    ghost longest = { λ w. w + 1 };

    #[tactic(auto, unfolding(crate::specs::Numbers::read_variable))]
    fn read_u32(s: &[u8], at: usize) -> Result<(u32, usize), Refusal> {
        let (x, c) = read_variable(s, at)?;
        let Ok(x) = u32::try_from(x) else {
            return Err(Refusal::InvalidInteger); // too large for its field
        };
        Ok((x, c))
    }

    fn read_u64(s: &[u8], at: usize) -> Result<(u64, usize), Refusal> {
        read_variable(s, at)
    }

    fn write_u32(buf: &mut [u8], at: usize, x: u32) -> usize {
        write_variable(buf, at, u64::from(x))
    }

    fn write_u64(buf: &mut [u8], at: usize, x: u64) -> usize {
        write_variable(buf, at, x)
    }

    #[tactic(auto, using(crate::proofs::VariableLaws::variable_four))]
    fn size_u32(x: u32) -> usize {
        size_variable(u64::from(x))
    }

    fn size_u64(x: u64) -> usize {
        size_variable(x)
    }
}
