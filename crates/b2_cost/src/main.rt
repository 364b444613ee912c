//! What updates cost apart from the system: a plan over a host in memory is updated once, and then again with nothing to do.
//! `bench/cost.sh` runs it.
//!
//! Its words are four numbers: of the steps, of the inputs of each step, of the sources that the inputs are taken from in turn, and
//! of the updates. After a fifth word `chain` each step also reads what the step before it makes.
#![tactic(auto)]

mod asked;
mod fault;
mod housed;
mod project;
mod updates;

use crate::asked::{Asked, asked_by};
use crate::fault::CostFault;
use crate::project::{plan_of, source_paths};
use crate::updates::{log_size, run_updates, starts, write_sources};
use b2_memory::memory::MemoryHost;
use std::alloc::Global;
use std::env;

/// Makes the project, and updates it as often as is asked. Gives how many steps were started, and how many bytes the log has.
fn run(alloc: Global, asked: Asked) -> Result<(usize, usize), CostFault> {
    let sources = source_paths(alloc, asked.sources)?;
    let plan = plan_of(alloc, asked, sources.as_slice())?;
    let mut host = MemoryHost::new(alloc)?;
    write_sources(sources.as_slice(), &mut host)?;
    run_updates(alloc, &plan, asked.updates, &mut host)?;
    Ok((starts(&host), log_size(&host)))
}

fn main(rt: HostRuntime) -> Result<(), CostFault> {
    let words: Vec<String> = env::args(&rt)?.collect(rt.alloc())?;
    let asked = asked_by(words.as_slice())?;
    let (starts, log) = run(rt.alloc(), asked)?;
    let updates = asked.updates;
    println!(rt; "updates {updates}, starts {starts}, bytes of the log {log}")?;
    Ok(())
}
