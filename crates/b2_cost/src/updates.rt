//! The updates.
ghost use Rattle.std.specs.Prelude.{◌≡◌, []};
ghost use Rattle.b2_memory.specs.Hosts.{memory_of};
ghost use Rattle.b2_plan.specs.Plans.{Apart};

use crate::fault::CostFault;
use b2_base::path::Path;
use b2_host::children::ChildEvent;
use b2_memory::memory::MemoryHost;
use b2_memory::memory_sink::MemorySink;
use b2_plan::plan::Plan;
use b2_update::options::Options;
use b2_update::update::update;
use b2_update::update_answer::UpdateAnswer;
use std::alloc::Global;

/// Writes the sources, each with its path as its text.
pub fn write_sources(sources: &[Path], host: &mut MemoryHost) -> Result<(), CostFault>
    requires { (memory_of host.old).outside.children.running ≡ [] }
{
    for path in sources {
        host.edit(path, Some(path.as_str().as_bytes()))?;
    }
    Ok(())
}

/// Makes one update.
fn run_update(alloc: Global, plan: &Plan, host: &mut MemoryHost) -> Result<(), CostFault>
    requires { Apart plan.now.steps plan.now.roots }
{
    if !host.running().is_empty() {
        return Err(CostFault::Update);
    }
    let options = Options {
        jobs: 4,
        all: false,
        quit: false,
        by_digest: false,
    };
    let mut out = MemorySink::new(alloc);
    match update(alloc, plan, options, host, &mut out) {
        UpdateAnswer::Done => Ok(()),
        _ => Err(CostFault::Update),
    }
}

/// Makes so many updates, one after another.
pub fn run_updates(
    alloc: Global,
    plan: &Plan,
    updates: u32,
    host: &mut MemoryHost,
) -> Result<(), CostFault>
    requires { Apart plan.now.steps plan.now.roots }
{
    for _ in 0..updates {
        run_update(alloc, plan, host)?;
    }
    Ok(())
}

/// How many steps were started.
pub fn starts(host: &MemoryHost) -> usize {
    host.events()
        .iter()
        .filter(|event| matches!(event, ChildEvent::Start(_)))
        .count()
}

/// How many bytes the log has.
pub fn log_size(host: &MemoryHost) -> usize {
    let mut size = 0;
    for version in host.past() {
        if version.path.as_str() == "bin/b2.log" {
            size = host.bytes_of(version).len();
        }
    }
    size
}
