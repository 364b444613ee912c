//! Worked examples of the grammar.
ghost use Rattle.jam_grammar.specs.Examples.{AssignmentReads, OneEmptyList, NoParams, TwoParams, ConditionReads, ActionsRead, HeadingsRead, UnendedFaults, SemicolonFaults, OneMoreFaults, IfTooDeep, ElseIfTooDeep, OnTooDeep, TenListsFault, MarkedIsLast, StarIsLast, MarkIsNoName, NameIsLast, ModifiersStandOnce, SixtyFourBegin};

/// What some tokens read as: an assignment; rules without parameters, with one empty list and with two lists; a condition
/// of `||`, `&&` and `!`; actions, and a statement on a target; actions with modifiers.
pub fn readings()
    ensures assignment_reads { AssignmentReads }
    ensures one_empty_list { OneEmptyList }
    ensures no_params { NoParams }
    ensures two_params { TwoParams }
    ensures condition_reads { ConditionReads }
    ensures actions_read { ActionsRead }
    ensures headings_read { HeadingsRead }
{}

/// Where some tokens stop being the beginning of a file: at the end; at a semicolon; at the first brace, `if`, `else if` or
/// `on` above 64; at the tenth list; after a parameter marked `*`, after a list that takes all, and at a mark without name;
/// at a second name of actions.
pub fn faults()
    ensures sixty_four_begin { SixtyFourBegin }
    ensures unended_faults { UnendedFaults }
    ensures semicolon_faults { SemicolonFaults }
    ensures one_more_faults { OneMoreFaults }
    ensures if_too_deep { IfTooDeep }
    ensures else_if_too_deep { ElseIfTooDeep }
    ensures on_too_deep { OnTooDeep }
    ensures ten_lists_fault { TenListsFault }
    ensures marked_is_last { MarkedIsLast }
    ensures star_is_last { StarIsLast }
    ensures mark_is_no_name { MarkIsNoName }
    ensures name_is_last { NameIsLast }
    ensures modifiers_stand_once { ModifiersStandOnce }
{}
