// dynamic_honey_badger.rs, `process_output`, before its loop: rows 1 to 4, 15 and 5. One pass reads the batch, refuses, and notes where its contributions stand.
#![tactic(auto)]

ghost use Rattle.std.specs.Prelude.{◌≡◌, not, ◌||◌, eqb, length};
ghost use Rattle.bincode.specs.Sizes.{base};
ghost use Rattle.bincode.specs.Stands.{Bytes};
ghost use Rattle.internal_contrib.specs.InternalContrib.{read_batch};
ghost use Rattle.process_output.specs.Refusals.{some, no_verdict, batch_row1};
ghost use Rattle.process_output.specs.Opening.{ReadAs, opened, OpenedAs, EpochBy, call_by};

use bincode::Refusal;
use due::DueList;
use fault_log::FaultLog;
use internal_contrib::BatchIndex;

// A batch as it was agreed: its era, its inner epoch there, its bytes, and the verdicts of its key messages.
#[derive(Clone, Copy)]
pub struct Agreed<'a> {
    pub era: u64,
    pub epoch: u64,
    pub batch: &'a [u8],
    pub verdicts: &'a [u8],
}

// How many faults, and how many due items, the lent lists have places for.
#[derive(Clone, Copy)]
pub struct LentPlaces {
    pub faults: usize,
    pub due: usize,
}

// Row 4: a byte over 3.
fn has_bad_verdict(verdicts: &[u8]) -> bool
    ensures { result ≡ some no_verdict verdicts.now }
{
    verdicts.iter().any(|&v| 3 < v)
}

// Row 4: not as many verdicts as key messages, or a byte over 3.
fn is_ill_formed(verdicts: &[u8], messages: u64) -> bool
    ensures { result ≡ not (eqb (length verdicts.now) messages) || some no_verdict verdicts.now }
{
    verdicts.len() as u64 != messages || has_bad_verdict(verdicts)
}

// Rows 4, 15 and 5, in this order; else the batch's epoch.
fn epoch_of(era: u64, agreed: Agreed, messages: u64) -> Result<u64, Refusal>
    ensures { EpochBy result era agreed.entry.era agreed.entry.epoch agreed.entry.verdicts.now messages }
{
    if is_ill_formed(agreed.verdicts, messages) {
        return Err(Refusal::IllFormedVerdicts);
    }
    if agreed.era != era {
        return Err(Refusal::OtherEra);
    }
    dynamic_honey_badger::epoch_in(era, agreed.epoch)
}

// Row 1 for lists shorter than 01 lends them; 2 and 3 of the bytes, else where the contributions stand and how many key messages there are.
fn read_lent(batch: &[u8], places: LentPlaces) -> Result<(BatchIndex, u64), Refusal>
    ensures { ReadAs result (batch_row1 base places.faults places.due) (read_batch base batch.now)
        × Bytes batch.now }
{
    if places.faults < FaultLog::LIMIT || places.due < DueList::LIMIT {
        return Err(Refusal::ShortBuffer);
    }
    internal_contrib::index_batch(batch)
}

// Rows 1 to 3; then verdicts, the batch's era and its epoch. With the epoch, where the contributions stand.
pub fn open_batch(
    era: u64,
    agreed: Agreed,
    places: LentPlaces,
) -> Result<(u64, BatchIndex), Refusal>
    ensures { OpenedAs result
        (opened base era (call_by agreed.entry places))
        (read_batch base agreed.entry.batch.now)
        × Bytes agreed.entry.batch.now }
{
    let (index, messages) = read_lent(agreed.batch, places)?;
    let epoch = epoch_of(era, agreed, messages)?;
    Ok((epoch, index))
}
