// change.rs: a change of the network, and how far it has come.
#![tactic(auto)]

ghost use Rattle.std.specs.Prelude.{◌≡◌, ◌+◌, max};
ghost use Rattle.bincode.specs.Numbers.{fixed};
ghost use Rattle.bincode.specs.Answer.{step_of};
ghost use Rattle.bincode.specs.Sizes.{base};
ghost use Rattle.pub_key_map.specs.PubKeyMap.{nodes_of};
ghost use Rattle.change.specs.Change.{ChangeOf, ChangeStateOf, node_change, encryption_schedule, none, in_progress, complete, change_of, change_held};
ghost use Rattle.change.specs.Change.{state_of, state_held, read_change, change_bytes, read_state, state_bytes};

use bincode::{Decoded, Encoded, FixintEncoding, IntEncoding, Refusal};
use honey_badger::EncryptionSchedule;
use pub_key_map::PubKeyMap;

// Another map of nodes, or another schedule.
#[derive(Clone, Copy, PartialEq)]
pub enum Change {
    NodeChange(PubKeyMap),
    EncryptionSchedule(EncryptionSchedule),
}

impl Change {
    pub fn node_change(map: PubKeyMap) -> Self
        ensures { change_of result ≡ node_change (nodes_of map) }
    {
        Change::NodeChange(map)
    }

    pub fn schedule(x: EncryptionSchedule) -> Self
        ensures { result ≡ change_held (encryption_schedule x) }
    {
        Change::EncryptionSchedule(x)
    }
}

// No change, or how far it has come.
#[derive(Clone, Copy)]
pub enum ChangeState {
    None,
    InProgress(Change),
    Complete(Change),
}

impl ChangeState {
    pub fn none() -> Self
        ensures { result ≡ state_held none }
    {
        ChangeState::None
    }

    pub fn in_progress(change: Change) -> Self
        ensures { state_of result ≡ in_progress (change_of change) }
    {
        ChangeState::InProgress(change)
    }

    pub fn complete(change: Change) -> Self
        ensures { state_of result ≡ complete (change_of change) }
    {
        ChangeState::Complete(change)
    }
}

// A change that is passed over: nothing of it is kept.
#[tactic(auto, using(bincode::proofs::NumberLaws::read_refused), unfolding(crate::specs::Change::read_change))]
pub fn check_change(s: &[u8], at: usize) -> Result<usize, Refusal>
    ensures { result ≡ step_of (read_change fixed base s.now at) }
{
    let Ok((tag, c)) = bincode::read_u32(s, at) else {
        return Err(Refusal::Malformed);
    };
    match tag {
        0 => pub_key_map::check_map(s, c),
        1 => {
            let (_, d) = <EncryptionSchedule as Decoded<FixintEncoding>>::read(s, c)?;
            Ok(d)
        }
        _ => Err(Refusal::Malformed),
    }
}

impl<E: IntEncoding> Decoded<E> for Change {
    ghost Value = { ChangeOf };

    ghost held = { change_held };

    ghost read_at = { read_change E.edition base };

    #[tactic(auto, unfolding(crate::specs::Change::read_change))]
    fn read(s: &[u8], at: usize) -> Result<(Self, usize), Refusal> {
        let (tag, c) = E::read_u32(s, at)?;
        match tag {
            0 => {
                let (map, d) = <PubKeyMap as Decoded<E>>::read(s, c)?;
                Ok((Change::NodeChange(map), d))
            }
            1 => {
                let (x, d) = <EncryptionSchedule as Decoded<E>>::read(s, c)?;
                Ok((Change::EncryptionSchedule(x), d))
            }
            _ => Err(Refusal::Malformed),
        }
    }
}

impl<E: IntEncoding> Decoded<E> for ChangeState {
    ghost Value = { ChangeStateOf };

    ghost held = { state_held };

    ghost read_at = { read_state E.edition base };

    #[tactic(auto, unfolding(crate::specs::Change::read_state))]
    fn read(s: &[u8], at: usize) -> Result<(Self, usize), Refusal> {
        let (tag, c) = E::read_u32(s, at)?;
        match tag {
            0 => Ok((ChangeState::None, c)),
            1 => {
                let (change, d) = <Change as Decoded<E>>::read(s, c)?;
                Ok((ChangeState::InProgress(change), d))
            }
            2 => {
                let (change, d) = <Change as Decoded<E>>::read(s, c)?;
                Ok((ChangeState::Complete(change), d))
            }
            _ => Err(Refusal::Malformed),
        }
    }
}

impl<E: IntEncoding> Encoded<E> for Change {
    ghost bytes = { λ c. change_bytes E.edition (change_of c) };

    ghost longest = { E.longest 4 + max ⟦<PubKeyMap as Encoded<E>>⟧.longest ⟦<EncryptionSchedule as Encoded<E>>⟧.longest };

    #[tactic(auto, unfolding(crate::specs::Change::change_bytes))]
    fn size(&self) -> usize {
        match *self {
            Change::NodeChange(map) => Encoded::<E>::size(&(0u32, map)),
            Change::EncryptionSchedule(x) => Encoded::<E>::size(&(1u32, x)),
        }
    }

    #[tactic(auto, unfolding(crate::specs::Change::change_bytes))]
    fn write(&self, buf: &mut [u8], at: usize) -> usize {
        match *self {
            Change::NodeChange(map) => Encoded::<E>::write(&(0u32, map), buf, at),
            Change::EncryptionSchedule(x) => Encoded::<E>::write(&(1u32, x), buf, at),
        }
    }
}

impl<E: IntEncoding> Encoded<E> for ChangeState {
    ghost bytes = { λ x. state_bytes E.edition (state_of x) };

    ghost longest = { E.longest 4 + ⟦<Change as Encoded<E>>⟧.longest };

    #[tactic(auto, unfolding(crate::specs::Change::state_bytes))]
    fn size(&self) -> usize {
        match *self {
            ChangeState::None => E::size_u32(0),
            ChangeState::InProgress(change) => Encoded::<E>::size(&(1u32, change)),
            ChangeState::Complete(change) => Encoded::<E>::size(&(2u32, change)),
        }
    }

    #[tactic(auto, unfolding(crate::specs::Change::state_bytes))]
    fn write(&self, buf: &mut [u8], at: usize) -> usize {
        match *self {
            ChangeState::None => E::write_u32(buf, at, 0),
            ChangeState::InProgress(change) => Encoded::<E>::write(&(1u32, change), buf, at),
            ChangeState::Complete(change) => Encoded::<E>::write(&(2u32, change), buf, at),
        }
    }
}
