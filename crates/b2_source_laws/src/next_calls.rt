//! What a call leaves to the next one that asks for the same.
ghost use Rattle.b2_source_laws.specs.NextCalls.{NextFindsFresh};

use b2_prepare::laws::one_meaning;

/// After status 0, status 1 or a step cycle, the next call that asks for the same, with no edit between them, finds each step fresh of
/// which an output was settled, but for those that an always-step or a notfile step reaches.
pub fn next_finds_fresh()
    ensures { NextFindsFresh }
{
    one_meaning();
}
