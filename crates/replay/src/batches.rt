// The calls that fill lent lists, made as a host makes them: the engine is lent the first places of the lists, as many as the line names, and faults and due items are read off them.
use crate::answers::{put_due, put_faults, put_ids, put_recipe};
use crate::lent::{Lists, end_line};
use crate::parse::{BatchCall, Join};
use crate::text::put_value;
use batch::Batch;
use bincode::Refusal;
use dynamic_honey_badger::{DynamicHoneyBadger, JoinStarted};
use process_batch::Report;
use recipe::Recipe;
use std::alloc::AllocError;

// A report: its epoch, era, change, map and params; its voters stand at the end of the answer.
fn put_batch(out: &mut String, b: Batch) -> Result<(), AllocError> {
    write!(out, "batch {} {} ", b.epoch, b.era)?;
    put_value(out, b.change)?;
    out.push_str(" ")?;
    put_value(out, b.pub_keys)?;
    out.push_str(" ")?;
    put_value(out, b.params)
}

// The first n due items of the lists.
fn put_due_items(out: &mut String, lists: &Lists, n: usize) -> Result<(), AllocError> {
    out.push_str(" due ")?;
    put_due(
        out,
        lists.due_kinds.first(n),
        lists.indices.first(n),
        lists.eras.first(n),
    )
}

// The recipe, where there is one.
fn put_made(out: &mut String, recipe: &Option<Recipe>) -> Result<(), AllocError> {
    out.push_str(" recipe ")?;
    match recipe {
        Some(r) => put_recipe(out, r),
        None => out.push_str("-"),
    }
}

// What a batch that is not refused answers: the report, and beside it faults, due items and the recipe; behind them the report's voters.
fn put_report(out: &mut String, r: Report, lists: &Lists) -> Result<(), AllocError> {
    put_batch(out, r.batch)?;
    out.push_str(" faults ")?;
    put_faults(out, lists.ids.first(r.faults), lists.kinds.first(r.faults))?;
    put_due_items(out, lists, r.due)?;
    put_made(out, &r.recipe)?;
    out.push_str(" voters ")?;
    put_ids(out, r.batch.voters.ids.as_slice())
}

// Says what a batch answers, looks at the places behind those filled, and clears the lists for the next call.
pub(crate) fn say_batch(
    out: &mut String,
    outcome: Result<Report, Refusal>,
    b: &BatchCall,
    lists: &mut Lists,
) -> Result<(), AllocError> {
    match outcome {
        Ok(r) => put_report(out, r, lists)?,
        Err(refusal) => write!(out, "refused {refusal}")?,
    }
    let n = process_batch::fault_count(&outcome);
    let k = outcome.as_ref().map_or(0, |r| r.due);
    let faults = lists.faults_kept(n, b.faults);
    let due = lists.due_kept(k, b.due);
    lists.clear(n, k);
    end_line(out, faults, due)
}

// The call of a joining.
pub(crate) fn join(j: &Join, lists: &mut Lists) -> Result<JoinStarted, Refusal> {
    DynamicHoneyBadger::new_joining(
        j.id,
        j.key,
        &j.plan,
        lists.due_kinds.lend(j.places),
        lists.indices.lend(j.places),
        lists.eras.lend(j.places),
    )
}

// Says what a joining answers, its n due items or the refusal, looks at the places behind those filled, and clears the lists for the next call.
pub(crate) fn say_join(
    out: &mut String,
    n: Result<usize, Refusal>,
    places: usize,
    lists: &mut Lists,
) -> Result<(), AllocError> {
    match n {
        Ok(k) => {
            out.push_str("started")?;
            put_due_items(out, lists, k)?;
        }
        Err(refusal) => write!(out, "refused {refusal}")?,
    }
    let filled = n.unwrap_or(0);
    let due = lists.due_kept(filled, places);
    lists.clear(0, filled);
    end_line(out, true, due)
}
