// batch.rs: what a batch call reports (01: the report), and the join plan that a report gives.
#![tactic(auto)]

ghost use Rattle.std.specs.Prelude.{◌≡◌, ℕ, not};
ghost use Rattle.lists.specs.Lists.{option_as_found};
ghost use Rattle.bincode.specs.Sizes.{base};
ghost use Rattle.bincode.specs.Answer.{outcome_as_said};
ghost use Rattle.change.specs.Change.{state_of};
ghost use Rattle.batch.specs.Batch.{batch_of, batch_held, unvoted_held, changed, plan_left, plan_answered};

use bincode::Refusal;
use change::ChangeState;
use join_plan::JoinPlan;
use params::Params;
use pub_key_map::PubKeyMap;
use voters::Voters;

// What a batch decides, as its report tells it: the change, and the voters who carried it (02, CR 7).
#[derive(Clone, Copy)]
pub struct Ruling {
    pub change: ChangeState,
    pub voters: Voters,
}

impl Ruling {
    // No winner was taken: nobody carried it.
    pub fn unvoted(change: ChangeState) -> Self
        ensures { result ≡ unvoted_held change }
    {
        Ruling {
            change,
            voters: Voters::empty(),
        }
    }
}

// Epoch and era of the batch, what changed and who carried it, and the map and parameters after it.
#[derive(Clone, Copy)]
pub struct Batch {
    pub epoch: u64,
    pub era: u64,
    pub change: ChangeState,
    pub pub_keys: PubKeyMap,
    pub params: Params,
    pub voters: Voters,
}

impl Batch {
    // The report of a batch with this epoch and era.
    pub fn new(epoch: u64, era: u64, ruling: Ruling, pub_keys: PubKeyMap, params: Params) -> Self
        ensures { result ≡ batch_held epoch era ruling pub_keys params }
    {
        Batch {
            epoch,
            era,
            change: ruling.change,
            pub_keys,
            params,
            voters: ruling.voters,
        }
    }

    // The plan of this report, with the key set that the host lends: how many bytes of it were written; none where nothing changed.
    #[tactic(auto, unfolding(crate::specs::Batch::plan_left, crate::specs::Batch::plan_answered))]
    pub fn join_plan(self, buf: &mut [u8], pub_key_set: u64) -> Result<Option<usize>, Refusal>
        ensures { (buf.new ≡ plan_left base buf.old (batch_of self) pub_key_set)
            × (outcome_as_said (option_as_found (λ (x : ℕ). x)) result ≡ plan_answered base buf.old (batch_of self) pub_key_set) }
    {
        if buf.len() < JoinPlan::BYTES {
            return Err(Refusal::ShortBuffer);
        }
        let change = self.change;
        if is_none(change) {
            return Ok(None);
        }
        let epoch = self.epoch;
        if epoch == u64::MAX {
            return Err(Refusal::LastEpoch);
        }
        let plan = JoinPlan {
            era: epoch + 1,
            change,
            pub_keys: self.pub_keys,
            pub_key_set,
            params: self.params,
        };
        let n = join_plan::write_plan(buf, plan)?;
        Ok(Some(n))
    }
}

// Whether nothing changed.
fn is_none(change: ChangeState) -> bool
    ensures { result ≡ not (changed (state_of change)) }
{
    matches!(change, ChangeState::None)
}
