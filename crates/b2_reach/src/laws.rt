//! Laws of what a step is known to read.
ghost use Rattle.b2_reach.specs.Laws.{MembersAreKnown, MembersAreAllKnown, LacksMissing, KnownHasLine, LinedAsFactsGrow, LinedAsOneGrows, LinedAfterLine, LinedAsForgotten, ReadIsKnown, TooBigIsKnown, StaysAsFar, ReachStays, OpenedStays, ReachStaysAsForgotten, LinesStay, LinesAreLeft, UnnotedIsStill, ReadsGoOn, ReadsGoOnToStop};

/// A step is known to read each member.
pub fn members_are_known()
    ensures { MembersAreKnown }
{}

/// Where all was done that can be, the members are all that the step is known to read.
pub fn members_are_all_known()
    ensures { MembersAreAllKnown }
{}

/// There something lacks exactly where the step is known to read a missing path.
pub fn lacks_missing()
    ensures { LacksMissing }
{}

/// There each scanned file that the step is known to read, and that is settled with bytes, stands with its scan line in the log.
pub fn known_has_line()
    ensures { KnownHasLine }
{}

/// The log goes on to have the line of each file of which is known what it includes, as facts grow by which no includes are
/// learned.
pub fn lined_as_facts_grow()
    ensures { LinedAsFactsGrow }
{}

/// It does where more is learned of one file, and not what it includes.
pub fn lined_as_one_grows()
    ensures { LinedAsOneGrows }
{}

/// It does as a line is noted.
pub fn lined_after_line()
    ensures { LinedAfterLine }
{}

/// It does as what was seen of a file is forgotten, of which is not known what it includes.
pub fn lined_as_forgotten()
    ensures { LinedAsForgotten }
{}

/// A step is known to read a member that is to be read.
pub fn read_is_known()
    ensures { ReadIsKnown }
{}

/// A step is known to read a file that is told to be too big.
pub fn too_big_is_known()
    ensures { TooBigIsKnown }
{}

/// Where nothing more settles that a pending member waits for, all is still done.
pub fn stays_as_far()
    ensures { StaysAsFar }
{}

/// What is known so far of what a step reads stays so as facts grow and more steps settle.
pub fn reach_stays()
    ensures { ReachStays }
{}

/// So it does where nothing was taken yet, whichever steps are settled.
pub fn opened_stays()
    ensures { OpenedStays }
{}

/// It stays so as what was seen of an output is forgotten, whose maker is not settled.
pub fn reach_stays_as_forgotten()
    ensures { ReachStaysAsForgotten }
{}

/// While members are scanned, the log's file has the lines.
pub fn lines_stay()
    ensures { LinesStay }
{}

/// Up to a stop it has them too, or the note of one more failed.
pub fn lines_are_left()
    ensures { LinesAreLeft }
{}

/// Where lines are not noted, neither the files nor the lines change.
pub fn unnoted_is_still()
    ensures { UnnotedIsStill }
{}

/// An update that has read well goes on to while members of a needed step are scanned.
pub fn reads_go_on()
    ensures { ReadsGoOn }
{}

/// Where the work stops it has read well but for the line of its last read.
pub fn reads_go_on_to_stop()
    ensures { ReadsGoOnToStop }
{}
