//! What cleaning leaves to the next call that asks for a build of the same free words.
ghost use Rattle.b2_source_laws.specs.AfterCleaning.{NextAfterCleaning};

use crate::laws::meaning_is_apart;
use b2_explain::laws::cleaned_is_stale;
use b2_prepare::laws::one_meaning;

/// After cleaning with status 0 the next call that asks for a build of the same free words, with no edit between them, has the cleaned
/// plan again, and none of its steps is fresh. Each one that is needed starts, or it is told why not; with status 0 each wanted
/// file has the bytes of the clean build of the sources as they stood before cleaning.
pub fn next_after_cleaning()
    ensures { NextAfterCleaning }
{
    one_meaning();
    meaning_is_apart();
    cleaned_is_stale();
}
