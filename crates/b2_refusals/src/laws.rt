//! Laws of refusals.
ghost use Rattle.b2_refusals.specs.Laws.{EvaluationsAreRefused, LoadsAreRefused};

/// Why an evaluation has no value is a refusal, unless it is a fault of the host or out of memory.
pub fn evaluations_are_refused()
    ensures { EvaluationsAreRefused }
{}

/// Why a load has no project is a refusal, unless it is a fault of the host or out of memory.
pub fn loads_are_refused()
    ensures { LoadsAreRefused }
{}
