//! What the definitions say, in other words.
ghost use Rattle.b2_testing.specs.Laws.{OneVerdict, IsJudged, PassedStands, AddedAreSound, MarkersAreLast, AskedByRows, AskedAreNeeded};

pub fn tests_are_judged_once()
    ensures once { OneVerdict }
    ensures judged { IsJudged }
    ensures stands { PassedStands }
{}

pub fn tests_are_added_soundly()
    ensures sound { AddedAreSound }
    ensures last { MarkersAreLast }
{}

pub fn tests_are_asked_by_rows()
    ensures { AskedByRows }
{}

pub fn asked_tests_are_needed()
    ensures { AskedAreNeeded }
{}
