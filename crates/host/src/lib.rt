// The batch call with a list of fault records that the host lends. A refused call writes nothing.
#![tactic(auto)]

ghost use Rattle.std.specs.Prelude.{◌≡◌, set};
ghost use Rattle.filled.specs.Filled.{filled};
ghost use Rattle.host.specs.Records.{pairs, RecordsDone};

use dynamic_honey_badger::DynamicHoneyBadger;
use fault_log::FaultLog;
use process_batch::Processed;
use process_output::Agreed;

// A faulty node, and the number of what it is blamed for.
#[derive(Clone, Copy)]
pub struct FaultRecord {
    pub node_id: u32,
    pub kind: u8,
}

// Stores id and kind at a place; past the end nothing is stored.
pub fn append(list: &mut [FaultRecord], at: usize, node_id: u32, kind: u8)
    ensures { list.new ≡ set list.old at (record { node_id = node_id; kind = kind }) }
{
    if at < list.len() {
        list[at] = FaultRecord { node_id, kind };
    }
}

// Faults appended at the next places of a lent list, each from its node's id and the number of its kind.
fn write_faults(list: &mut [FaultRecord], ids: &[u32], kinds: &[u8])
    ensures { list.new ≡ filled (pairs ids.now kinds.now) list.old }
{
    for (i, (&id, &kind)) in ids.iter().zip(kinds).enumerate() {
        append(list, i, id, kind);
    }
}

// A batch as it was agreed. Row 1 where a lent list is shorter than its size.
pub fn process_batch_records(
    state: DynamicHoneyBadger,
    agreed: Agreed,
    faults: &mut [FaultRecord],
    due_kinds: &mut [u8],
    due_indices: &mut [u64],
    due_eras: &mut [u64],
) -> Processed
    ensures { RecordsDone state agreed.entry.era agreed.entry.epoch agreed.entry.batch.now agreed.entry.verdicts.now faults.old
        (record { kinds = due_kinds.old; indices = due_indices.old; eras = due_eras.old })
        result faults.new
        (record { kinds = due_kinds.new; indices = due_indices.new; eras = due_eras.new }) }
{
    let mut ids = [0u32; FaultLog::LIMIT];
    let mut kinds = [0u8; FaultLog::LIMIT];
    let places = faults.len().min(FaultLog::LIMIT);
    let processed = process_batch::process_batch(
        state,
        agreed,
        &mut ids[..places],
        &mut kinds[..places],
        due_kinds,
        due_indices,
        due_eras,
    );
    let n = process_batch::fault_count(&processed.outcome);
    write_faults(faults, &ids[..n], &kinds[..n]);
    processed
}
