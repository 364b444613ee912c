//! Laws of walks.
ghost use Rattle.b2_project_walk.specs.Laws.{OneCourse, FilesKeepParents, FilesKeepRecord, CallsAreRecorded};

/// A walk comes to one end.
pub fn one_course()
    ensures { OneCourse }
{}

/// Over the native rules a file puts no module below another one.
pub fn files_keep_parents()
    ensures { FilesKeepParents }
{}

/// Over the native rules a file takes nothing away that was recorded before it.
pub fn files_keep_record()
    ensures { FilesKeepRecord }
{}

/// The calls of a whole walk are those that its natives recorded, in order, each read as one of a project.
pub fn calls_are_recorded()
    ensures { CallsAreRecorded }
{
    files_keep_record();
}
