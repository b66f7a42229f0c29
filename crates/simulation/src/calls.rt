// A batch call as a host makes it, with lists of full length for faults and due items.
use crate::compare::is_shared;
use bincode::Refusal;
use due::DueList;
use dynamic_honey_badger::DynamicHoneyBadger;
use fault_log::FaultLog;
use process_batch::{Processed, Report};
use process_output::Agreed;
use std::alloc::{AllocError, Global};

// What a call told: the report or the refusal, and the faults that every replica must tell, ids with kinds by their numbers.
#[derive(Drop)]
pub struct Called {
    pub outcome: Result<Report, Refusal>,
    pub faults: Vec<(u32, u8)>,
}

// The shared ones of the first n faults of the lists.
fn shared_faults(
    alloc: Global,
    ids: &[u32],
    kinds: &[u8],
    n: usize,
) -> Result<Vec<(u32, u8)>, AllocError> {
    let mut faults = Vec::new(alloc);
    for (id, kind) in ids.iter().zip(kinds).take(n) {
        let fault = (*id, *kind);
        if is_shared(&fault) {
            faults.push(fault)?;
        }
    }
    Ok(faults)
}

// The call; the state after it takes the place of the one before.
pub(crate) fn call(
    alloc: Global,
    state: &mut DynamicHoneyBadger,
    agreed: Agreed<'_>,
) -> Result<Called, AllocError> {
    let mut ids = [0u32; FaultLog::LIMIT];
    let mut kinds = [0u8; FaultLog::LIMIT];
    let Processed {
        state: next,
        outcome,
    } = process_batch::process_batch(
        *state,
        agreed,
        &mut ids,
        &mut kinds,
        &mut [0u8; DueList::LIMIT],
        &mut [0u64; DueList::LIMIT],
        &mut [0u64; DueList::LIMIT],
    );
    *state = next;
    let n = process_batch::fault_count(&outcome);
    let faults = shared_faults(alloc, &ids, &kinds, n)?;
    Ok(Called { outcome, faults })
}
