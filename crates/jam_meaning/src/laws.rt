//! Laws of evaluation.
ghost use Rattle.jam_meaning.specs.Laws.{FileTurnsFall, CallTurnsFall, FileKeepsFrames, CallKeepsFrames, FileKeepsParents, RolledKeepsWorlds, StepKeepsWorlds, FileKeepsRest, SightHasSetting, FileAsWithMore, CallAsWithMore};

/// No more turns are left after evaluation than before, whatever the natives keep.
pub fn turns_fall<Kept>()
    ensures file { FileTurnsFall Kept }
    ensures call { CallTurnsFall Kept }
{}

/// Where no pattern is refused that reads as one, the outcome with more turns is the same, with as many more left, unless the turns
/// ran out.
pub fn turns_only_run_out<Kept>()
    ensures file { FileAsWithMore Kept }
    ensures call { CallAsWithMore Kept }
{}

/// Over natives that leave the frames, the marked worlds, and whether a step is open, evaluation keeps them too, also after a fault:
/// each frame has its module and the names that it bound; only their values may have changed.
pub fn frames_stay<Kept>()
    ensures file { FileKeepsFrames Kept }
    ensures call { CallKeepsFrames Kept }
{}

/// Over natives that put no module below another one, a file puts none there.
pub fn parents_stay<Kept>()
    ensures { FileKeepsParents Kept }
{}

/// A call that is rolled back leaves the worlds of entry, also after a fault, and so does the text of a step.
pub fn rolled_back<Kept>()
    ensures call { RolledKeepsWorlds Kept }
    ensures step { StepKeepsWorlds Kept }
{}

/// Over natives that change no world, evaluation changes nothing but variables, rules, actions, own values and whether
/// output roots can be added.
pub fn rest_stays<Kept>()
    ensures { FileKeepsRest Kept }
{}

/// For what is rightly seen of the outside there is a right setting: each file is missing, too big, or reads as a tree or as the
/// one fault that it has.
pub fn each_sight_has_setting<Kept>()
    ensures { SightHasSetting Kept }
{}
