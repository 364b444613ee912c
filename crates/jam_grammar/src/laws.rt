//! Laws of the grammar.
ghost use Rattle.jam_grammar.specs.Laws.{FileOrFault, FileHasTree, NeverBoth, OneFault, WholeIsFile, FileIsWhole, BadIsFault, FaultIsBad, PartsCompose, AskedReads, OneTree, OneUpToLines, SameUpToLines, ReadsAlso};

/// Each list of tokens is a file or has a first fault, never both; each file has a tree, and the first fault is one.
pub fn first_fault_or_tree()
    ensures either { FileOrFault }
    ensures tree { FileHasTree }
    ensures never_both { NeverBoth }
    ensures one_fault { OneFault }
{}

/// The machine that reads part by part ends with all read exactly for the tokens of a file, and at the first fault
/// exactly for other tokens.
pub fn machine_is_grammar()
    ensures whole { WholeIsFile }
    ensures file { FileIsWhole }
    ensures bad { BadIsFault }
    ensures fault { FaultIsBad }
{}

/// What is read as a part, and after it as others, is read as both.
pub fn parts_compose()
    ensures { PartsCompose }
{}

/// Where some tokens read as a tree, tokens that say what the tree asks for, by their kinds and texts, read as it up to
/// lines. It asks for the modifiers of actions in one order, in whichever they were read.
pub fn alike()
    ensures { AskedReads }
{}

/// Tokens read as one tree, and up to lines as one tree up to lines: trees are compared as data, with the texts, marks and
/// lines of all their parts in order.
pub fn one_tree()
    ensures one { OneTree }
    ensures up_to_lines { OneUpToLines }
    ensures same_symbols { SameUpToLines }
    ensures also { ReadsAlso }
{}
