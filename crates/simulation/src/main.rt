// A season of several replicas in one process: they take the same batches with verdicts of their own, and are compared after each.
#![tactic(auto)]

mod batches;
mod calls;
mod compare;
mod fleet;
mod season;
mod show;

use std::process::ExitCode;

// Where writing fails, that is said in one line, and the exit status says so too.
fn main(rt: HostRuntime) -> ExitCode {
    match season::play(&rt) {
        Ok(()) => ExitCode::SUCCESS,
        Err(e) => {
            let _ = eprintln!(rt; "simulation: {e:#}");
            ExitCode::FAILURE
        }
    }
}
