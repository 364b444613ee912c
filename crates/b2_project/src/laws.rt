//! Laws of loads.
ghost use Rattle.b2_project.specs.Laws.{OneEnding, LoadedAreRecorded, RecordedDeclare};

use b2_project_walk::laws::{calls_are_recorded, files_keep_record, one_course};

/// A load ends in one way.
pub fn one_ending()
    ensures { OneEnding }
{
    one_course();
}

/// The calls of a load are those that its natives recorded, in order, each read as one of a project; what they recorded after these,
/// while the toolset's build text ran, declares nothing.
pub fn loaded_are_recorded()
    ensures { LoadedAreRecorded }
{
    files_keep_record();
    calls_are_recorded();
}

/// The rules whose calls are recorded are those that declare something.
pub fn recorded_declare()
    ensures { RecordedDeclare }
{}
