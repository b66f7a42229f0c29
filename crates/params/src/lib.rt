// params.rs: the parameters of a network; and from epoch_state.rs the strategy, as plain data.
#![tactic(auto)]

ghost use Rattle.std.specs.Prelude.{◌≡◌, ◌+◌};
ghost use Rattle.bincode.specs.Answer.{answer};
ghost use Rattle.params.specs.Params.{read_strategy, strategy_tag, read_params, params_bytes};

use bincode::{Decoded, Encoded, IntEncoding, Refusal};
use honey_badger::EncryptionSchedule;

#[derive(Clone, Copy, PartialEq, Eq)]
pub enum SubsetHandlingStrategy {
    Incremental,
    AllAtEnd,
}

// The number of the case in order of declaration.
impl From<SubsetHandlingStrategy> for u32 {
    ghost from_gives = { λ x n. n ≡ strategy_tag x };

    fn from(strategy: SubsetHandlingStrategy) -> u32 {
        match strategy {
            SubsetHandlingStrategy::Incremental => 0,
            SubsetHandlingStrategy::AllAtEnd => 1,
        }
    }
}

#[derive(Clone, Copy, PartialEq, Eq)]
pub struct Params {
    pub max_future_epochs: u64,
    pub subset_handling_strategy: SubsetHandlingStrategy,
    pub encryption_schedule: EncryptionSchedule,
}

#[tactic(auto, unfolding(crate::specs::Params::read_strategy))]
fn read_strategy<E: IntEncoding>(
    s: &[u8],
    at: usize,
) -> Result<(SubsetHandlingStrategy, usize), Refusal>
    ensures { result ≡ answer (λ (x : SubsetHandlingStrategy). x) (read_strategy E.edition s.now at) }
{
    let (tag, c) = E::read_u32(s, at)?;
    match tag {
        0 => Ok((SubsetHandlingStrategy::Incremental, c)),
        1 => Ok((SubsetHandlingStrategy::AllAtEnd, c)),
        _ => Err(Refusal::Malformed),
    }
}

impl<E: IntEncoding> Decoded<E> for Params {
    ghost use Rattle.params.specs.declared.Params.{Params};

    ghost Value = { Params };

    ghost held = { λ x. x };

    ghost read_at = { read_params E.edition };

    #[tactic(auto, unfolding(crate::specs::Params::read_params))]
    fn read(s: &[u8], at: usize) -> Result<(Self, usize), Refusal> {
        let (max_future_epochs, c) = E::read_u64(s, at)?;
        let (subset_handling_strategy, d) = read_strategy::<E>(s, c)?;
        let (encryption_schedule, e) = <EncryptionSchedule as Decoded<E>>::read(s, d)?;
        Ok((
            Params {
                max_future_epochs,
                subset_handling_strategy,
                encryption_schedule,
            },
            e,
        ))
    }
}

impl<E: IntEncoding> Encoded<E> for Params {
    ghost bytes = { params_bytes E.edition };

    ghost longest = { E.longest 8 + (E.longest 4 + ⟦<EncryptionSchedule as Encoded<E>>⟧.longest) };

    #[tactic(auto, unfolding(crate::specs::Params::params_bytes, crate::specs::Params::strategy_bytes))]
    fn size(&self) -> usize {
        let strategy = u32::from(self.subset_handling_strategy);
        Encoded::<E>::size(&(self.max_future_epochs, strategy, self.encryption_schedule))
    }

    #[tactic(auto, unfolding(crate::specs::Params::params_bytes, crate::specs::Params::strategy_bytes))]
    fn write(&self, buf: &mut [u8], at: usize) -> usize {
        let strategy = u32::from(self.subset_handling_strategy);
        Encoded::<E>::write(
            &(self.max_future_epochs, strategy, self.encryption_schedule),
            buf,
            at,
        )
    }
}
