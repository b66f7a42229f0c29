// bincode's encodings, and what every reader and writer above is made of.
#![tactic(auto)]

ghost use Rattle.std.specs.Prelude.{◌≡◌, ℕ, ◌+◌, ◌≤◌, List, [], ◌∷◌, length};
ghost use Rattle.bincode.specs.Numbers.{bytes_of, read_num, fixed};
ghost use Rattle.bincode.specs.Read.{Read, whole};
ghost use Rattle.bincode.specs.Items.{read_count};
ghost use Rattle.bincode.specs.Rows.{row_number};
ghost use Rattle.bincode.specs.Stands.{concat};
ghost use Rattle.bincode.specs.Writing.{has_room, written, written_to, told_size};
ghost use Rattle.bincode.specs.Answer.{answer_as_read, answer, bytes_at, all_read};

mod int;

pub use int::{FixintEncoding, IntEncoding, VarintEncoding};
use std::fmt;

// 01, "When the engine says no": what each row of the table is called. A row that no call answers (6) has no name.
#[derive(Clone, Copy, Debug, PartialEq, Eq)]
pub enum Refusal {
    ShortBuffer,
    Malformed,
    TooLarge,
    IllFormedVerdicts,
    LastEpoch,
    EmptyMapWins,
    EmptyMap,
    AlreadyMember,
    OtherChange,
    LastVoteNumber,
    StoreFull,
    MapFull,
    BadPeriod,
    OtherEra,
    InvalidInteger,
}

// The number of the row.
impl From<Refusal> for u8 {
    ghost from_gives = { λ r n. n ≡ row_number r };

    fn from(refusal: Refusal) -> u8 {
        match refusal {
            Refusal::ShortBuffer => 1,
            Refusal::Malformed => 2,
            Refusal::TooLarge => 3,
            Refusal::IllFormedVerdicts => 4,
            Refusal::LastEpoch => 5,
            Refusal::EmptyMapWins => 7,
            Refusal::EmptyMap => 8,
            Refusal::AlreadyMember => 9,
            Refusal::OtherChange => 10,
            Refusal::LastVoteNumber => 11,
            Refusal::StoreFull => 12,
            Refusal::MapFull => 13,
            Refusal::BadPeriod => 14,
            Refusal::OtherEra => 15,
            Refusal::InvalidInteger => 16,
        }
    }
}

impl fmt::Display for Refusal {
    fn fmt<W: fmt::Write>(&self, f: &mut fmt::Formatter<W>) -> fmt::Result {
        write!(f, "{}", u8::from(*self))
    }
}

// Whether n bytes have room from `at` on. A position past the end is input like any other.
pub fn room(len: usize, at: usize, n: usize) -> bool
    ensures { result ≡ has_room len at n }
{
    at <= len && n <= len - at
}

// The N bytes at a position, with the position behind them.
fn bytes_at<const N: usize>(s: &[u8], at: usize) -> Result<([u8; N], usize), Refusal>
    ensures { result ≡ bytes_at N s.now at }
{
    if !room(s.len(), at, N) {
        return Err(Refusal::Malformed);
    }
    let mut bytes = [0; N];
    bytes.copy_from_slice(&s[at..at + N]);
    Ok((bytes, at + N))
}

// A number with the position behind it.
#[tactic(auto, using(crate::proofs::ByteLaws::from_le4), unfolding(crate::specs::Numbers::read_num))]
pub fn read_u32(s: &[u8], at: usize) -> Result<(u32, usize), Refusal>
    ensures { answer_as_read (λ (x : ℕ). x) result ≡ read_num 4 s.now at }
{
    let (bytes, c) = bytes_at(s, at)?;
    Ok((u32::from_le_bytes(bytes), c))
}

#[tactic(auto, using(crate::proofs::ByteLaws::from_le8), unfolding(crate::specs::Numbers::read_num))]
pub fn read_u64(s: &[u8], at: usize) -> Result<(u64, usize), Refusal>
    ensures { answer_as_read (λ (x : ℕ). x) result ≡ read_num 8 s.now at }
{
    let (bytes, c) = bytes_at(s, at)?;
    Ok((u64::from_le_bytes(bytes), c))
}

// A count of at most `limit`, as it stands in front of as many items: row 2 where it is cut, row 3 over the limit.
#[tactic(auto, unfolding(crate::specs::Items::read_count))]
pub fn read_count<E: IntEncoding>(s: &[u8], at: usize, limit: u64) -> Result<(u64, usize), Refusal>
    ensures { result ≡ answer (λ (n : ℕ). n) (read_count E.edition s.now limit at) }
{
    let (n, c) = E::read_u64(s, at)?;
    if limit < n {
        return Err(Refusal::TooLarge);
    }
    Ok((n, c))
}

// N bytes put at a position; the position behind them, or `at` where they have no room, and then nothing is written.
#[tactic(auto, unfolding(crate::specs::Writing::written, crate::specs::Writing::written_to))]
fn put_bytes<const N: usize>(buf: &mut [u8], at: usize, bytes: [u8; N]) -> usize
    ensures { (buf.new ≡ written buf.old at bytes.entry) × (result ≡ written_to buf.old at bytes.entry) }
{
    if !room(buf.len(), at, N) {
        return at;
    }
    buf[at..at + N].copy_from_slice(&bytes);
    at + N
}

// The position behind the number, or `at` where it has no room; then nothing is written.
#[tactic(auto, using(crate::proofs::ByteLaws::to_le4))]
pub fn write_u32(buf: &mut [u8], at: usize, x: u32) -> usize
    ensures { (buf.new ≡ written buf.old at (bytes_of 4 x)) × (result ≡ written_to buf.old at (bytes_of 4 x)) }
{
    put_bytes(buf, at, x.to_le_bytes())
}

#[tactic(auto, using(crate::proofs::ByteLaws::to_le8))]
pub fn write_u64(buf: &mut [u8], at: usize, x: u64) -> usize
    ensures { (buf.new ≡ written buf.old at (bytes_of 8 x)) × (result ≡ written_to buf.old at (bytes_of 8 x)) }
{
    put_bytes(buf, at, u64::to_le_bytes(x))
}

// The answer of a reading from the first byte on, where it must take the whole input: nothing may be left over.
pub fn all_read<T: Copy>(s: &[u8], read: Result<(T, usize), Refusal>) -> Result<(T, usize), Refusal>
    ensures { result ≡ all_read s.now read }
{
    match read {
        Ok((_, c)) if c < s.len() => Err(Refusal::Malformed),
        _ => read,
    }
}

// What can be read from bytes, with the numbers of an edition: what is read, and how code holds it.
pub trait Decoded<E: IntEncoding>: Copy {
    ghost Value: { Type 0 };

    ghost held: { Value → Self };

    ghost read_at: { List ℕ → ℕ → Read Value };

    // The value at a position, with the position behind it.
    fn read(s: &[u8], at: usize) -> Result<(Self, usize), Refusal>
        ensures { result ≡ answer held (read_at s.now at) };
}

impl<E: IntEncoding> Decoded<E> for u32 {
    ghost Value = { ℕ };

    ghost held = { λ x. x };

    ghost read_at = { E.edition.read 4 };

    fn read(s: &[u8], at: usize) -> Result<(Self, usize), Refusal> {
        E::read_u32(s, at)
    }
}

impl<E: IntEncoding> Decoded<E> for u64 {
    ghost Value = { ℕ };

    ghost held = { λ x. x };

    ghost read_at = { E.edition.read 8 };

    fn read(s: &[u8], at: usize) -> Result<(Self, usize), Refusal> {
        E::read_u64(s, at)
    }
}

// A value that is a whole input: nothing may be left over.
#[tactic(auto, using(crate::proofs::AnswerLaws::all_read_whole))]
pub fn read_whole<E: IntEncoding, T: Decoded<E>>(s: &[u8]) -> Result<(T, usize), Refusal>
    ensures { result ≡ answer T.held (whole (T.read_at s.now) s.now) }
{
    all_read(s, T::read(s, 0))
}

// What is written as bytes, one after the other, with the numbers of an edition.
pub trait Encoded<E: IntEncoding>: Copy {
    ghost bytes: { Self → List ℕ };

    // No value takes more bytes.
    ghost longest: { ℕ };

    // How many bytes the value takes, as far as a `usize` tells it.
    fn size(&self) -> usize
        ensures { (result ≡ told_size (bytes self.now)) × (result ≤ longest) };

    // The position behind the value, or `at` where it has no room; then nothing is written.
    fn write(&self, buf: &mut [u8], at: usize) -> usize
        ensures { (buf.new ≡ written buf.old at (bytes self.now)) × (result ≡ written_to buf.old at (bytes self.now)) };
}

impl<E: IntEncoding> Encoded<E> for u32 {
    ghost bytes = { E.edition.bytes 4 };

    ghost longest = { E.longest 4 };

    #[tactic(auto, using(crate::proofs::WriteLaws::size_told))]
    fn size(&self) -> usize {
        E::size_u32(*self)
    }

    fn write(&self, buf: &mut [u8], at: usize) -> usize {
        E::write_u32(buf, at, *self)
    }
}

impl<E: IntEncoding> Encoded<E> for u64 {
    ghost bytes = { E.edition.bytes 8 };

    ghost longest = { E.longest 8 };

    #[tactic(auto, using(crate::proofs::WriteLaws::size_told))]
    fn size(&self) -> usize {
        E::size_u64(*self)
    }

    fn write(&self, buf: &mut [u8], at: usize) -> usize {
        E::write_u64(buf, at, *self)
    }
}

// Values one behind the other, as a tag and what it is of; or `at` where they have no room, and then nothing is written.
impl<E: IntEncoding, A: Encoded<E>, B: Encoded<E>> Encoded<E> for (A, B) {
    ghost bytes = { λ x. concat (A.bytes x.0 ∷ B.bytes x.1 ∷ []) };

    ghost longest = { A.longest + B.longest };

    fn size(&self) -> usize {
        self.0.size().saturating_add(self.1.size())
    }

    #[tactic(auto, unfolding(crate::specs::Writing::written, crate::specs::Writing::written_to))]
    fn write(&self, buf: &mut [u8], at: usize) -> usize {
        if room(buf.len(), at, Encoded::<E>::size(self)) {
            let c = self.0.write(buf, at);
            self.1.write(buf, c)
        } else {
            at
        }
    }
}

impl<E: IntEncoding, A: Encoded<E>, B: Encoded<E>, C: Encoded<E>> Encoded<E> for (A, B, C) {
    ghost bytes = { λ x. concat (A.bytes x.0 ∷ B.bytes x.1 ∷ C.bytes x.2 ∷ []) };

    ghost longest = { A.longest + (B.longest + C.longest) };

    fn size(&self) -> usize {
        Encoded::<E>::size(&(self.0, (self.1, self.2)))
    }

    fn write(&self, buf: &mut [u8], at: usize) -> usize {
        Encoded::<E>::write(&(self.0, (self.1, self.2)), buf, at)
    }
}

impl<E: IntEncoding, A: Encoded<E>, B: Encoded<E>, C: Encoded<E>, D: Encoded<E>> Encoded<E>
    for (A, B, C, D) {
    ghost bytes = { λ x. concat (A.bytes x.0 ∷ B.bytes x.1 ∷ C.bytes x.2 ∷ D.bytes x.3 ∷ []) };

    ghost longest = { A.longest + (B.longest + (C.longest + D.longest)) };

    fn size(&self) -> usize {
        Encoded::<E>::size(&(self.0, (self.1, self.2, self.3)))
    }

    fn write(&self, buf: &mut [u8], at: usize) -> usize {
        Encoded::<E>::write(&(self.0, (self.1, self.2, self.3)), buf, at)
    }
}
