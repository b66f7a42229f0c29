// honey_badger.rs: the schedule of threshold encryption.
#![tactic(auto)]

ghost use Rattle.std.specs.Prelude.{◌≡◌, ◌+◌, Bool};
ghost use Rattle.bincode.specs.Answer.{outcome_as_said};
ghost use Rattle.honey_badger.specs.EncryptionSchedule.{cycle_of, use_on_epoch, read_schedule, schedule_bytes};

use bincode::{Decoded, Encoded, IntEncoding, Refusal};

#[derive(Clone, Copy, PartialEq, Eq)]
pub enum EncryptionSchedule {
    Always,
    Never,
    EveryNthEpoch(u32),
    TickTock(u32, u32),
}

// 02, CR 4: a schedule encrypts the epochs whose remainder by the period is below the bound.
#[derive(Clone, Copy)]
pub struct Cycle {
    pub period: u64,
    pub bound: u64,
}

impl Cycle {
    // Row 14 refuses a longer period: the Rust adds the two numbers of `TickTock` as u32.
    pub const LONGEST: u64 = 4294967295;

    fn new(period: u64, bound: u64) -> Self
        ensures { result ≡ record { period = period; bound = bound } }
    {
        Cycle { period, bound }
    }
}

impl EncryptionSchedule {
    // The one place where the schedule call tells the four apart; in u64, since on + 1 may pass u32.
    fn cycle(self) -> Cycle
        ensures { result ≡ cycle_of self }
    {
        match self {
            EncryptionSchedule::Always => Cycle::new(1, 1),
            EncryptionSchedule::Never => Cycle::new(1, 0),
            EncryptionSchedule::EveryNthEpoch(n) => Cycle::new(u64::from(n), 1),
            EncryptionSchedule::TickTock(on, off) => Cycle::new(
                u64::from(on) + u64::from(off),
                u64::from(on) + 1,
            ),
        }
    }

    // Whether an epoch's contributions are encrypted.
    pub fn use_on_epoch(self, epoch: u64) -> Result<bool, Refusal>
        ensures { outcome_as_said (λ (x : Bool). x) result ≡ use_on_epoch self epoch }
    {
        let c = self.cycle();
        let period = c.period;
        let bound = c.bound;
        if period == 0 || Cycle::LONGEST < period {
            return Err(Refusal::BadPeriod);
        }
        Ok(epoch % period < bound)
    }
}

impl<E: IntEncoding> Decoded<E> for EncryptionSchedule {
    ghost use Rattle.honey_badger.specs.declared.EncryptionSchedule.{EncryptionSchedule};

    ghost Value = { EncryptionSchedule };

    ghost held = { λ x. x };

    ghost read_at = { read_schedule E.edition };

    #[tactic(auto, unfolding(crate::specs::EncryptionSchedule::read_schedule))]
    fn read(s: &[u8], at: usize) -> Result<(Self, usize), Refusal> {
        let (tag, c) = E::read_u32(s, at)?;
        match tag {
            0 => Ok((EncryptionSchedule::Always, c)),
            1 => Ok((EncryptionSchedule::Never, c)),
            2 => {
                let (n, d) = E::read_u32(s, c)?;
                Ok((EncryptionSchedule::EveryNthEpoch(n), d))
            }
            3 => {
                let (on, d) = E::read_u32(s, c)?;
                let (off, e) = E::read_u32(s, d)?;
                Ok((EncryptionSchedule::TickTock(on, off), e))
            }
            _ => Err(Refusal::Malformed),
        }
    }
}

impl<E: IntEncoding> Encoded<E> for EncryptionSchedule {
    ghost bytes = { schedule_bytes E.edition };

    ghost longest = { E.longest 4 + (E.longest 4 + E.longest 4) };

    #[tactic(auto, unfolding(crate::specs::EncryptionSchedule::schedule_bytes))]
    fn size(&self) -> usize {
        match *self {
            EncryptionSchedule::Always => E::size_u32(0),
            EncryptionSchedule::Never => E::size_u32(1),
            EncryptionSchedule::EveryNthEpoch(n) => Encoded::<E>::size(&(2u32, n)),
            EncryptionSchedule::TickTock(on, off) => Encoded::<E>::size(&(3u32, on, off)),
        }
    }

    #[tactic(auto, unfolding(crate::specs::EncryptionSchedule::schedule_bytes))]
    fn write(&self, buf: &mut [u8], at: usize) -> usize {
        match *self {
            EncryptionSchedule::Always => E::write_u32(buf, at, 0),
            EncryptionSchedule::Never => E::write_u32(buf, at, 1),
            EncryptionSchedule::EveryNthEpoch(n) => Encoded::<E>::write(&(2u32, n), buf, at),
            EncryptionSchedule::TickTock(on, off) => Encoded::<E>::write(&(3u32, on, off), buf, at),
        }
    }
}
