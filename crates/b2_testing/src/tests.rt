//! The main targets of tests.
ghost use Rattle.std.specs.Prelude.{◌≡◌, ◌<◌, All, OnOk, OnErr, length};
ghost use Rattle.std.specs.List.{flat_map};
ghost use Rattle.b2_testing.specs.Adding.{added};
ghost use Rattle.b2_testing.specs.Readying.{LeavesReady, LeavesPart, HasOneCourse, StaysOpen, AddsTargets, AddsPart, added_at};

use crate::adding::added;
use b2_base::fault::OutOfMemory;
use b2_declared::place::Target;
use b2_project::project::Project;
use b2_testing_text::defining::make_definitions;
use std::alloc::Global;

/// Adds main targets of one project behind the others, in order. After an error a first part of them may stand there.
fn add_all(project: &mut Project, targets: Vec<Target>) -> Result<(), OutOfMemory>
    requires { All (λ target. target.project < length project.old.declared.places) targets.items }
    ensures ok { OnOk result (AddsTargets project.old targets.items project.new) }
    ensures err { OnErr result (AddsPart project.old targets.items project.new) }
{
    for target in targets {
        project.add_target(target)?;
    }
    Ok(())
}

/// Adds what the test at a place becomes.
fn add_test(alloc: Global, project: &mut Project, place: usize) -> Result<(), OutOfMemory>
    requires place { place < length project.old.declared.tests }
    requires within { All (λ test. test.project < length project.old.declared.places) project.old.declared.tests }
    ensures ok { OnOk result (AddsTargets project.old (added_at place project.old.declared.tests) project.new) }
    ensures err { OnErr result (AddsPart project.old (added_at place project.old.declared.tests) project.new) }
{
    let made = added(alloc, &project.declared.tests.as_slice()[place])?;
    add_all(project, made.into_vec())
}

/// Adds what all tests become, in order.
fn add_each(alloc: Global, project: &mut Project) -> Result<(), OutOfMemory>
    requires { All (λ test. test.project < length project.old.declared.places) project.old.declared.tests }
    ensures ok { OnOk result (AddsTargets project.old (flat_map added project.old.declared.tests) project.new) }
    ensures err { OnErr result (AddsPart project.old (flat_map added project.old.declared.tests) project.new) }
{
    for place in 0..project.declared.tests.as_slice().len() {
        add_test(alloc, project, place)?;
    }
    Ok(())
}

/// Adds the main targets of the project's tests behind its own, each with its marker last. Where there is a test, the build
/// text of the rules that make markers is read first, and its rules and actions are defined in the project's world. This leaves
/// what a run of the text leaves there, with turns of its own and over no files. That run always goes on to its end: it cannot
/// fault. So only memory can run out. After that a first part of the definitions may stand in the world, and a first part of the
/// new main targets behind the others; where one of these stands, the definitions are whole. All else of the project is as before.
pub fn add_tests(alloc: Global, project: &mut Project) -> Result<(), OutOfMemory>
    requires { All (λ test. test.project < length project.old.declared.places) project.old.declared.tests }
    ensures ok { OnOk result (LeavesReady project.old project.new) }
    ensures err { OnErr result (LeavesPart project.old project.new) }
    ensures stays { StaysOpen project.old.world project.new.world }
    ensures course { HasOneCourse project.old.world }
{
    if project.declared.tests.as_slice().is_empty() {
        return Ok(());
    }
    make_definitions(alloc, &mut project.world)?;
    add_each(alloc, project)
}
