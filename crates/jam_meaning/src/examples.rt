//! Worked examples of evaluation.
ghost use Rattle.jam_meaning.specs.Examples.{ThreeTurns, TwoRunOut, OneRunsOut, ThreeAreEnough, TwoAreNot, FaultBeforeTurns};
ghost use Rattle.jam_meaning.specs.Examples.{LoopVariableEnds, OnLocalEnds, OwnValueIsSeen, EachAdds, SecondCase, DeepEnough, TooDeep, IncludeGoesOn};
ghost use Rattle.jam_meaning.specs.Examples.{MarksTake, MarksRefuse, RedefinedRule, DynamicScope, DynamicScopeRolled, ArityAtCall, FaultInRule, InnerCallHasItsLists};

/// A call in braces takes three turns: with fewer, they run out at its line, at the call or at its statement.
pub fn turns_run_out()
    ensures enough { ThreeTurns }
    ensures call { TwoRunOut }
    ensures statement { OneRunsOut }
{}

/// An assignment and a call take three turns; a fault of an argument comes before the turn of its call.
pub fn turns()
    ensures enough { ThreeAreEnough }
    ensures too_few { TwoAreNot }
    ensures argument { FaultBeforeTurns }
{}

/// What `for local` and `on` bind ends with them; an own value is seen in `on`; each `+=` adds.
pub fn bindings()
    ensures loop_variable { LoopVariableEnds }
    ensures on_local { OnLocalEnds }
    ensures own_value { OwnValueIsSeen }
    ensures added { EachAdds }
{}

/// The first case that matches runs; 256 levels may be open; an included file runs in the present module, and `return` ends it alone.
pub fn blocks()
    ensures case { SecondCase }
    ensures deep_enough { DeepEnough }
    ensures too_deep { TooDeep }
    ensures included { IncludeGoesOn }
{}

/// What the marks of parameters take, and what they refuse.
pub fn marked_params()
    ensures taken { MarksTake }
    ensures refused { MarksRefuse }
{}

/// A call runs the rule that stood when it began, also where the rule is defined again in it.
pub fn redefined_rule()
    ensures { RedefinedRule }
{}

/// What is bound is seen in the rules that are called; a call that is rolled back leaves nothing.
pub fn dynamic_scope()
    ensures run { DynamicScope }
    ensures rolled { DynamicScopeRolled }
{}

/// Where faults of a call stand, and which lists an inner call sees.
pub fn calls()
    ensures arity { ArityAtCall }
    ensures body { FaultInRule }
    ensures lists { InnerCallHasItsLists }
{}
