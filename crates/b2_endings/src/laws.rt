//! Laws of how an update ends.
ghost use Rattle.b2_endings.specs.Laws.{EndingIsAnswer};

/// What an update leaves is what its answer says.
pub fn ending_is_answer()
    ensures { EndingIsAnswer }
{}
