//! What the load of a drill declares.
ghost use Rattle.b2_drill_project.specs.Laws.{DrillDeclares, DrillLoads};

/// The calls of `make` declare a main target each.
pub fn drill_declares()
    ensures { DrillDeclares }
{}

/// The load of a drill ends with one project, which has these main targets.
pub fn drill_loads()
    ensures { DrillLoads }
{}
