//! The events of a drill.
ghost use Rattle.std.specs.Prelude.{◌≡◌, ◌++◌, ◌<◌, ◌≤◌, Some, IfOk, OnOk, string_bytes};
ghost use Rattle.b2_drill.specs.Drills.{project_edit, first_edit, first_edits, update, later_edit, round_of, rounds, drill_events};

use crate::event::{Event, EventList};
use crate::project::{jamroot, jamroot_path, source_path};
use b2_base::fault::OutOfMemory;
use b2_base::list::List;
use b2_base::path::Path;
use b2_base::text_list::owned_texts;
use std::alloc::Global;

/// A file is written with a text.
fn edit(path: Path, text: String) -> Event
    ensures { result ≡ Event.Edit path (Some (string_bytes text)) }
{
    Event::Edit {
        path,
        bytes: Some(List::from_vec(text.into_bytes())),
    }
}

fn project_edit(alloc: Global, n: u32) -> Result<Event, OutOfMemory>
    ensures { IfOk result (λ event. event ≡ project_edit n) }
{
    let path = jamroot_path(alloc)?;
    let text = jamroot(alloc, n)?;
    Ok(edit(path, text))
}

fn first_edit(alloc: Global, i: u32) -> Result<Event, OutOfMemory>
    ensures { IfOk result (λ event. event ≡ first_edit i) }
{
    let path = source_path(alloc, i)?;
    let text = format!(in alloc; "{i}\n")?;
    Ok(edit(path, text))
}

fn later_edit(alloc: Global, i: u32, round: u32) -> Result<Event, OutOfMemory>
    ensures { IfOk result (λ event. event ≡ later_edit i round) }
{
    let path = source_path(alloc, i)?;
    let text = format!(in alloc; "{i} {round}\n")?;
    Ok(edit(path, text))
}

fn update(alloc: Global) -> Result<Event, OutOfMemory>
    ensures { IfOk result (λ event. event ≡ update) }
{
    let words = owned_texts(alloc, &["-j4"])?;
    Ok(Event::Update { words })
}

fn push_first_edits(alloc: Global, n: u32, events: &mut EventList) -> Result<(), OutOfMemory>
    ensures { OnOk result (events.new ≡ events.old ++ first_edits n) }
{
    for i in 0..n {
        events.push(first_edit(alloc, i)?)?;
    }
    Ok(())
}

fn push_round(alloc: Global, n: u32, round: u32, events: &mut EventList) -> Result<(), OutOfMemory>
    requires some { 0 < n }
    requires few { round ≤ 5 }
    ensures { OnOk result (events.new ≡ events.old ++ round_of n round) }
{
    events.push(later_edit(alloc, 31 * round % n, round)?)?;
    events.push(update(alloc)?)
}

fn push_rounds(alloc: Global, n: u32, events: &mut EventList) -> Result<(), OutOfMemory>
    requires { 0 < n }
    ensures { OnOk result (events.new ≡ events.old ++ rounds n 5) }
{
    for done in 0..5 {
        push_round(alloc, n, done + 1, events)?;
    }
    Ok(())
}

/// The events of the drill of a project with `n` targets, of which there is one at least: the project is written and updated;
/// five times one of its sources is edited and an update follows; and a last update finds nothing changed.
pub fn drill_events(alloc: Global, n: u32) -> Result<EventList, OutOfMemory>
    requires { 0 < n }
    ensures { IfOk result (λ events. events ≡ drill_events n) }
{
    let mut events = EventList::new(alloc);
    events.push(project_edit(alloc, n)?)?;
    push_first_edits(alloc, n, &mut events)?;
    events.push(update(alloc)?)?;
    push_rounds(alloc, n, &mut events)?;
    events.push(update(alloc)?)?;
    Ok(events)
}
