//! The notes of an open step, and their past.
ghost use Rattle.std.specs.Prelude.{◌≡◌, Some, take, OnOk, OnErr};
ghost use Rattle.std.specs.Option.{option_map};
ghost use Rattle.jam_scope.specs.Steps.{with_input, as_always, as_notfile, notes_then, Fit};

use crate::notes::{NotesThen, StepNotes};
use b2_base::fault::OutOfMemory;
use b2_base::path::Path;
use b2_base::path_list::PathList;
use std::alloc::Global;
use std::marker::Model;

/// The notes of the open step, if there is one, and what they were at marks. It keeps the present notes, and of each mark how
/// many inputs had been added and which of the two flags were set. A mark copies no path.
pub(crate) struct Steps {
    notes: Option<StepNotes>,
    /// What the notes were at the newest mark, if a step was open then.
    at_mark: Option<NotesThen>,
    /// The same at each older mark, and before all marks, the newest last.
    older: Vec<Option<NotesThen>>,
}

/// By hand, so that dropping one is one call.
impl Drop for Steps {
    fn drop(self) {
        let Steps {
            notes,
            at_mark,
            older,
        } = self;
        drop(notes);
        drop(at_mark);
        drop(older);
    }
}

impl Model for Steps {
    ghost use Rattle.std.specs.Prelude.{Option, reverse};
    ghost use Rattle.std.specs.Coded.{coded_list, coded_option, coded×};
    ghost use Rattle.jam_journal.specs.Marks.{Marked};
    ghost use Rattle.jam_scope.specs.declared.notes.StepNotes.{StepNotes as Notes};
    ghost use Rattle.jam_scope.specs.RuleCodes.{notes_code};
    ghost use Rattle.jam_scope.specs.Steps.{notes_by, AllFit};

    ghost Value = { Marked (Option Notes) };

    ghost coded = { coded× (coded_option notes_code) (coded_list (coded_option notes_code)) };

    ghost view = { λ s. (s.notes, notes_by s.notes s.at_mark (reverse s.older.items)) };

    ghost invariant = { λ s. AllFit s.notes s.at_mark (reverse s.older.items) };
}

/// The notes as they were at a mark.
fn back_to(notes: StepNotes, at: NotesThen) -> StepNotes
    ensures { result ≡ record notes { depends = take at.depends notes.depends; always = at.always; notfile = at.notfile } }
{
    let StepNotes {
        outs,
        ins,
        depends,
        always: _,
        notfile: _,
    } = notes;
    let mut depends = depends.into_vec();
    depends.truncate(at.depends);
    StepNotes {
        outs,
        ins,
        depends: PathList::from_vec(depends),
        always: at.always,
        notfile: at.notfile,
    }
}

/// The same of a step that may not have been open.
fn back_then(notes: Option<StepNotes>, at: Option<NotesThen>) -> Option<StepNotes>
    ensures { result ≡ notes_then at notes }
{
    match at {
        Some(at) => match notes {
            Some(notes) => Some(back_to(notes, at)),
            None => None,
        },
        None => None,
    }
}

/// What is kept of notes at a mark.
fn noted(notes: &StepNotes) -> NotesThen
    ensures same { notes_then (Some result) (Some notes.now) ≡ Some notes.now }
    ensures fit { Fit (Some result) (Some notes.now) }
{
    NotesThen {
        depends: notes.depends.as_slice().len(),
        always: notes.always,
        notfile: notes.notfile,
    }
}

/// The same of a step that may not be open.
fn noted_then(notes: &Option<StepNotes>) -> Option<NotesThen>
    ensures same { notes_then result notes.now ≡ notes.now }
    ensures fit { Fit result notes.now }
{
    match notes {
        Some(notes) => Some(noted(notes)),
        None => None,
    }
}

/// Adds an input to the notes, if a step is open. After an error nothing has changed.
fn add_input(notes: &mut Option<StepNotes>, path: Path) -> Result<(), OutOfMemory>
    ensures ok { OnOk result (notes.new ≡ option_map (with_input path) notes.old) }
    ensures err { OnErr result (notes.new ≡ notes.old) }
{
    if let Some(notes) = notes {
        notes.depends.push(path)?;
    }
    Ok(())
}

/// Notes that the open step is run in each update.
fn note_always(notes: &mut Option<StepNotes>)
    ensures { notes.new ≡ option_map as_always notes.old }
{
    if let Some(notes) = notes {
        notes.always = true;
    }
}

/// Notes that the outputs of the open step are no files.
fn note_notfile(notes: &mut Option<StepNotes>)
    ensures { notes.new ≡ option_map as_notfile notes.old }
{
    if let Some(notes) = notes {
        notes.notfile = true;
    }
}

impl Steps {
    ghost use Rattle.std.specs.Prelude.{◌≡◌, [], Some, None, OnOk, OnErr};
    ghost use Rattle.std.specs.Option.{option_copied, option_map};
    ghost use Rattle.jam_journal.specs.Marks.{changed, marked, rolled};
    ghost use Rattle.jam_scope.specs.Steps.{with_input, as_always, as_notfile};

    /// No step is open, and there is no mark; takes no memory.
    pub(crate) fn new(alloc: Global) -> Steps
        ensures { result ≡ (None, []) }
    {
        Steps {
            notes: None,
            at_mark: None,
            older: Vec::new(alloc),
        }
    }

    /// The notes of the open step; takes no memory.
    pub(crate) fn get(&self) -> Option<&StepNotes>
        ensures { option_copied result ≡ self.now.0 }
    {
        self.notes.as_ref()
    }

    /// Opens a step, where none is open; takes no memory.
    pub(crate) fn open(&mut self, notes: StepNotes)
        requires { self.old.0 ≡ None }
        ensures { self.new ≡ changed (λ _. Some notes) self.old }
    {
        self.notes = Some(notes);
    }

    /// Adds an input to the open step. After an error all is as before.
    pub(crate) fn add_depends(&mut self, path: Path) -> Result<(), OutOfMemory>
        ensures ok { OnOk result (self.new ≡ changed (option_map (with_input path)) self.old) }
        ensures err { OnErr result (self.new ≡ self.old) }
    {
        add_input(&mut self.notes, path)?;
        Ok(())
    }

    /// The open step is run in each update; takes no memory.
    pub(crate) fn set_always(&mut self)
        ensures { self.new ≡ changed (option_map as_always) self.old }
    {
        note_always(&mut self.notes);
    }

    /// The outputs of the open step are no files; takes no memory.
    pub(crate) fn set_notfile(&mut self)
        ensures { self.new ≡ changed (option_map as_notfile) self.old }
    {
        note_notfile(&mut self.notes);
    }

    /// Marks the notes as they are now. After an error all is as before.
    pub(crate) fn mark(&mut self) -> Result<(), OutOfMemory>
        ensures ok { OnOk result (self.new ≡ marked self.old) }
        ensures err { OnErr result (self.new ≡ self.old) }
    {
        self.older.reserve(1)?;
        self.older.push_reserved(self.at_mark);
        self.at_mark = noted_then(&self.notes);
        Ok(())
    }

    /// Goes back to the newest mark, and uses it up; without a mark nothing changes. Takes no memory.
    pub(crate) fn roll_back(&mut self)
        ensures { self.new ≡ rolled self.old }
    {
        if let Some(older) = self.older.pop() {
            let notes = self.notes.take();
            self.notes = back_then(notes, self.at_mark);
            self.at_mark = older;
        }
    }
}
