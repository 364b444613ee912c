//! Laws of staleness: it is one of five points.
ghost use Rattle.b2_runs.specs.StaleLaws.{StaleByPoint, StaleByPointAlone, StartedIsStale};

/// A step is stale where one of the five points holds.
pub fn stale_by_point()
    ensures { StaleByPoint }
{}

/// A step is stale nowhere else: where none of the five points holds it is not.
pub fn stale_by_point_alone()
    ensures { StaleByPointAlone }
{}

/// A step that was started was stale then, and is.
pub fn started_is_stale()
    ensures { StartedIsStale }
{}
