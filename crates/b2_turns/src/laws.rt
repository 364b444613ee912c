//! Laws of an update as its steps start and end.
ghost use Rattle.b2_turns.specs.Laws.{ReadyIsSettled, ChildrenAsLooked, AtRestIsTold, StartIsGiven, StartComes, EndComes, FinishIsTrue};

/// The files that a step is given which is to start are made by settled steps.
pub fn ready_is_settled()
    ensures { ReadyIsSettled }
{}

/// The children that run stay those of the plan as steps are looked at.
pub fn children_as_looked()
    ensures { ChildrenAsLooked }
{}

/// Where no step can be looked at the schedule has what the run has.
pub fn at_rest_is_told()
    ensures { AtRestIsTold }
{}

/// The step that starts is given the members of its closure that have bytes.
pub fn start_is_given()
    ensures { StartIsGiven }
{}

/// An update that is under way is so as the next step starts.
pub fn start_comes()
    ensures { StartComes }
{}

/// In an update that is under way a step ends.
pub fn end_comes()
    ensures { EndComes }
{}

/// What is known of the steps stays true as the schedule is told of an end.
pub fn finish_is_true()
    ensures { FinishIsTrue }
{}
