//! Laws of generation and of plans, each the contract of a function that does nothing.
ghost use Rattle.b2_generate.specs.Laws.{SameAnswer, OwnRowIsFirst, RowsAreOpenings};
ghost use Rattle.b2_generation_laws.specs.Laws.{PlansAreApart, IdsAreDistinct};

/// What a main target gives depends on the target and the set alone: neither on what is open nor on the steps before.
pub fn same_answer<E>()
    ensures { SameAnswer E }
{}

/// The first row of a main target's answer is its own.
pub fn own_row_is_first<E>()
    ensures { OwnRowIsFirst E }
{}

/// Each row of an answer is the own one of a main target that was opened for it.
pub fn rows_are_openings<E>()
    ensures { RowsAreOpenings E }
{}

/// Each output of a plan lies below an output root and has one maker, none is a folder of another, and none is the log or below it;
/// whatever the project's own text answers.
pub fn plans_are_apart<E>()
    ensures { PlansAreApart E }
{}

/// No two generators that the calls of a load declare have one id.
pub fn ids_are_distinct()
    ensures { IdsAreDistinct }
{}
