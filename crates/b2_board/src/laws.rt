//! Laws of what an update knows of its steps.
ghost use Rattle.b2_board.specs.Laws.{BoardGrows, BoardStaysAsForgotten, BoardWaits, BoardIsJudged, BoardTellsTrue, BoardTellsAll};

/// What is known of the steps stays so as facts grow.
pub fn board_grows()
    ensures { BoardGrows }
{}

/// It stays so as what was seen of an output is forgotten, whose maker is not settled.
pub fn board_stays_as_forgotten()
    ensures { BoardStaysAsForgotten }
{}

/// Where a step that was looked at lacks something or waits, nothing is being looked at any more.
pub fn board_waits()
    ensures { BoardWaits }
{}

/// Where nothing can be looked at, each needed step was judged that can be.
pub fn board_is_judged()
    ensures { BoardIsJudged }
{}

/// What the schedule was told is so in a run in which what is known is true.
pub fn board_tells_true()
    ensures { BoardTellsTrue }
{}

/// Where nothing can be looked at, it was told all that the run has.
pub fn board_tells_all()
    ensures { BoardTellsAll }
{}
