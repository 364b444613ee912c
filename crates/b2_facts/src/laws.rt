//! Laws of facts.
ghost use Rattle.b2_facts.specs.Laws.{GrowsBySame, GrowsThen, TrueAsFilesChange, FactsTellGiven, FactsTellIncludes, FoundStands, DigestsAreGood};

/// Facts that stay have grown.
pub fn grows_by_same()
    ensures { GrowsBySame }
{}

/// Facts that grow, and grow again, have grown.
pub fn grows_then()
    ensures { GrowsThen }
{}

/// Facts stay true where files change of which nothing is known.
pub fn true_as_files_change()
    ensures { TrueAsFilesChange }
{}

/// True facts tell whether a file is a source or an output.
pub fn facts_tell_given()
    ensures { FactsTellGiven }
{}

/// True facts tell what a file includes that a step reads with the directories of a list.
pub fn facts_tell_includes()
    ensures { FactsTellIncludes }
{}

/// A file whose includes were found stands.
pub fn found_stands()
    ensures { FoundStands }
{}

/// A digest is 64 lower-case hexadecimal digits.
pub fn digests_are_good()
    ensures { DigestsAreGood }
{}
