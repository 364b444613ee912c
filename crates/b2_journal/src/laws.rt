//! Laws of what is left of the log's file where the host failed.
ghost use Rattle.b2_journal.specs.Laws.{OpeningIsCut, NoteIsCut};

/// What an opening that failed leaves is what an update leaves that was cut off before its first event.
pub fn opening_is_cut()
    ensures { OpeningIsCut }
{}

/// What a note that failed leaves is what an update leaves that was cut off within this line, or before it.
pub fn note_is_cut()
    ensures { NoteIsCut }
{}
