// mod.rs: the plan that a joining node starts from, read whole and written whole.
#![tactic(auto)]

ghost use Rattle.std.specs.Prelude.{ℕ, ◌≡◌, ◌+◌};
ghost use Rattle.bincode.specs.Answer.{outcome_as_said};
ghost use Rattle.bincode.specs.Numbers.{fixed};
ghost use Rattle.bincode.specs.Sizes.{base};
ghost use Rattle.join_plan.specs.JoinPlan.{PlanOf, plan_of, plan_held, read_plan, plan_bytes, plan_written, plan_said, to_variable_left, to_variable_said, to_fixed_left, to_fixed_said};

use bincode::{Decoded, Encoded, FixintEncoding, IntEncoding, Refusal, VarintEncoding};
use change::ChangeState;
use params::Params;
use pub_key_map::PubKeyMap;

#[derive(Clone, Copy)]
pub struct JoinPlan {
    pub era: u64,
    pub change: ChangeState,
    pub pub_keys: PubKeyMap,
    pub pub_key_set: u64,
    pub params: Params,
}

impl JoinPlan {
    // The bytes that are lent for a plan: no plan takes more.
    pub const BYTES: usize = 448;

    // 02, CR 5: the same in the variable-width edition.
    pub const VARINT_BYTES: usize = 491;
}

impl<E: IntEncoding> Decoded<E> for JoinPlan {
    ghost Value = { PlanOf };

    ghost held = { plan_held };

    ghost read_at = { read_plan E.edition base };

    #[tactic(auto, unfolding(crate::specs::JoinPlan::read_plan))]
    fn read(s: &[u8], at: usize) -> Result<(Self, usize), Refusal> {
        let (era, a) = E::read_u64(s, at)?;
        let (change, b) = <ChangeState as Decoded<E>>::read(s, a)?;
        let (pub_keys, c) = <PubKeyMap as Decoded<E>>::read(s, b)?;
        let (pub_key_set, d) = E::read_u64(s, c)?;
        let (params, e) = <Params as Decoded<E>>::read(s, d)?;
        let plan = JoinPlan {
            era,
            change,
            pub_keys,
            pub_key_set,
            params,
        };
        Ok((plan, e))
    }
}

impl<E: IntEncoding> Encoded<E> for JoinPlan {
    ghost bytes = { λ p. plan_bytes E.edition (plan_of p) };

    ghost longest = { E.longest 8 + ⟦<ChangeState as Encoded<E>>⟧.longest
        + (⟦<PubKeyMap as Encoded<E>>⟧.longest + (E.longest 8 + ⟦<Params as Encoded<E>>⟧.longest)) };

    fn size(&self) -> usize {
        let first = (self.era, self.change);
        Encoded::<E>::size(&(first, self.pub_keys, self.pub_key_set, self.params))
    }

    fn write(&self, buf: &mut [u8], at: usize) -> usize {
        let first = (self.era, self.change);
        Encoded::<E>::write(
            &(first, self.pub_keys, self.pub_key_set, self.params),
            buf,
            at,
        )
    }
}

// The plan's bytes from the start of a buffer, and how many they are; row 1 where it is shorter than what is lent for a plan. Bytes behind the plan stay as they are.
#[tactic(auto, using(bincode::proofs::WriteLaws::has_room), unfolding(crate::specs::JoinPlan::plan_written, crate::specs::JoinPlan::plan_said))]
pub fn write_plan(buf: &mut [u8], p: JoinPlan) -> Result<usize, Refusal>
    ensures { (buf.new ≡ plan_written fixed base.plan buf.old (plan_of p))
        × (outcome_as_said (λ (x : ℕ). x) result ≡ plan_said fixed base.plan buf.old (plan_of p)) }
{
    if buf.len() < JoinPlan::BYTES {
        return Err(Refusal::ShortBuffer);
    }
    let size = Encoded::<FixintEncoding>::size(&p);
    Encoded::<FixintEncoding>::write(&p, buf, 0);
    Ok(size)
}

// 02, CR 5: a plan of the fixed widths in the variable ones, from the start of a buffer, and how many bytes it is there. Row 1 below 491 bytes, before the plan is looked at; what is
// refused writes nothing.
#[tactic(auto, unfolding(crate::specs::JoinPlan::plan_converted, crate::specs::JoinPlan::conversion_said))]
pub fn to_variable(plan: &[u8], buf: &mut [u8]) -> Result<usize, Refusal>
    ensures { (buf.new ≡ to_variable_left base plan.now buf.old)
        × (outcome_as_said (λ (x : ℕ). x) result ≡ to_variable_said base plan.now buf.old) }
{
    if buf.len() < JoinPlan::VARINT_BYTES {
        return Err(Refusal::ShortBuffer);
    }
    let (p, _) = bincode::read_whole::<FixintEncoding, JoinPlan>(plan)?;
    Ok(Encoded::<VarintEncoding>::write(&p, buf, 0))
}

// 02, CR 5: a plan of the variable widths in the fixed ones, likewise. Row 1 below 448 bytes; row 16 for a number that is not as it should be.
#[tactic(auto, unfolding(crate::specs::JoinPlan::plan_converted, crate::specs::JoinPlan::conversion_said))]
pub fn to_fixed(plan: &[u8], buf: &mut [u8]) -> Result<usize, Refusal>
    ensures { (buf.new ≡ to_fixed_left base plan.now buf.old)
        × (outcome_as_said (λ (x : ℕ). x) result ≡ to_fixed_said base plan.now buf.old) }
{
    if buf.len() < JoinPlan::BYTES {
        return Err(Refusal::ShortBuffer);
    }
    let (p, _) = bincode::read_whole::<VarintEncoding, JoinPlan>(plan)?;
    Ok(Encoded::<FixintEncoding>::write(&p, buf, 0))
}
