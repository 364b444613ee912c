//! The case of a `switch`.
ghost use Rattle.std.specs.Prelude.{◌≡◌, Bool, option_map};
ghost use Rattle.jam_grammar.specs.Trees.{block_tree, cases_tree};
ghost use Rattle.jam_journal.specs.Tables.{Text as Bytes};
ghost use Rattle.jam_values.specs.Choosing.{chosen};
ghost use Rattle.jam_meaning.specs.Settings.{IsMatching};

use jam_grammar::tree::{Block, Case};
use jam_path::glob::glob_match;

/// The statements of the first case whose pattern matches a text. Takes no memory.
pub fn chosen<'a>(cases: &'a [Case], text: &str) -> Option<&'a Block>
    ensures { (matching : Bytes → Bytes → Bool) → IsMatching matching → option_map (λ block. block_tree block.now) result ≡ chosen matching text.now (cases_tree cases.now) }
{
    for case in cases {
        if glob_match(case.pattern.as_str(), text) {
            return Some(&case.block);
        }
    }
    None
}
