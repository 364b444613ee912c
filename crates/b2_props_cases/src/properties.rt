//! The cases of features, sets of properties and requests. There is a current table of features, at first empty, and a set
//! of properties, at first empty too. Each command has the name of the call that it makes.
//!
//! - `new` puts an empty table, an empty set and an empty list of sets in place, `new_set` an empty set alone.
//! - `feature NAME VALUES : ATTRIBUTES` and `compose PROPERTY COMPONENTS` declare; they answer `ok` or the refusal. Without
//!   attributes the sign `:` may be left out.
//! - `declare_features` declares the features of the gcc toolset, with the same answers.
//! - `count`, `at PLACE`, `place_of NAME`, `find NAME`, `implicit_of VALUE`, `default_of NAME`, `is NAME ATTRIBUTE`,
//!   `lists NAME VALUE`, `default_value NAME`, `parts_of PROPERTY`, `name ATTRIBUTE`, `stands_in ATTRIBUTE WORDS` and
//!   `is_attribute_word WORD` ask the table, its features and the attributes.
//! - `set_of PROPERTIES`, `expand` and `refine PROPERTIES` put a set in place and show it; the last two make it of the
//!   current set. `propagated`, `dir_of` and `contains PROPERTY` ask the current set, `has_all PROPERTIES` its `PairIndex`.
//! - `copy` adds a copy of the current set to a list of sets, which it shows; `equals` compares the current set with each
//!   set of that list.
//! - `read_request WORDS` shows the targets and the sets of a request, or its refusal.
//! - `read_property DIR TEXT`, `read_usage DIR TEXT` and `read_requirement DIR TEXT` read a property text of the project of
//!   a directory; `read_properties`, `read_usages` and `read_requirements` read several, the last one shows those without
//!   conditions. `has_two_values PROPERTIES` tells whether a feature has two values.

mod features;
mod sets;
mod shown;
mod texts;

use crate::declaring::{compose, declare_toolset, feature};
use crate::pairs::given;
use crate::properties::sets::{contains, dir_of, expanded, handed, has_all, refined};
use crate::properties::shown::sets_lines;
use crate::properties::texts::text_command;
use crate::shown::{ok, set_line, truth_word};
use b2_features::registry::Registry;
use b2_props::props::Props;
use b2_props::request::PropsList;
use std::alloc::Global;
use std::mem::ManuallyDrop;
use transcript::answer::Answer;
use transcript::case_fault::CaseFault;
use transcript::command::{Command, Word};
use transcript::session::Session;
use transcript::words::no_words;

fn renew_set(alloc: Global, at_hand: &mut Props, words: &[Word]) -> Result<Answer, CaseFault> {
    no_words(words)?;
    *at_hand = Props::new(alloc);
    ok(alloc)
}

/// Puts a set in place and shows it.
fn put(alloc: Global, at_hand: &mut Props, set: Props) -> Result<Answer, CaseFault> {
    *at_hand = set;
    set_line(alloc, at_hand)
}

/// Adds a copy of a set to a list, which it shows.
fn copy(
    alloc: Global,
    set: &Props,
    sets: &mut PropsList,
    words: &[Word],
) -> Result<Answer, CaseFault> {
    no_words(words)?;
    let set = set.copy(alloc)?;
    sets.push(set)?;
    sets_lines(alloc, sets)
}

/// Compares a set with each set of a list.
fn equals(
    alloc: Global,
    set: &Props,
    sets: &PropsList,
    words: &[Word],
) -> Result<Answer, CaseFault> {
    no_words(words)?;
    let mut answer = Answer::new(alloc);
    for other in sets.as_slice() {
        answer.push_line(truth_word(set.equals(other)));
    }
    Ok(answer)
}

/// Asks the current set or the table.
fn ask(
    alloc: Global,
    registry: &Registry,
    set: &Props,
    sets: &PropsList,
    command: &Command,
) -> Result<Answer, CaseFault> {
    let words = command.words();
    match command.name() {
        "propagated" => handed(alloc, registry, set, words),
        "dir_of" => dir_of(alloc, registry, set, words),
        "contains" => contains(alloc, set, words),
        "equals" => equals(alloc, set, sets, words),
        "has_all" => has_all(alloc, set, words),
        _ => text_command(alloc, registry, command),
    }
}

/// The current table and set, and the sets that were copied.
///
/// What is put in place of a table lets it be, until the process ends: a crate that takes it apart proves the drop of all
/// that it holds.
#[derive(Drop)]
pub struct Properties {
    registry: ManuallyDrop<Registry>,
    set: Props,
    sets: PropsList,
}

impl Properties {
    /// An empty table, an empty set, and none that was copied.
    pub fn new(alloc: Global) -> Properties {
        Properties {
            registry: ManuallyDrop::new(Registry::new(alloc)),
            set: Props::new(alloc),
            sets: PropsList::new(alloc),
        }
    }

    fn renew(&mut self, alloc: Global, words: &[Word]) -> Result<Answer, CaseFault> {
        no_words(words)?;
        *self = Properties::new(alloc);
        ok(alloc)
    }

    /// Puts a set in place, or carries out another command.
    fn set_command(&mut self, alloc: Global, command: &Command) -> Result<Answer, CaseFault> {
        let words = command.words();
        match command.name() {
            "set_of" => {
                let set = given(alloc, &self.registry, words)?;
                put(alloc, &mut self.set, set)
            }
            "expand" => {
                let set = expanded(alloc, &self.registry, &self.set, words)?;
                put(alloc, &mut self.set, set)
            }
            "refine" => {
                let set = refined(alloc, &self.registry, &self.set, words)?;
                put(alloc, &mut self.set, set)
            }
            "new_set" => renew_set(alloc, &mut self.set, words),
            "copy" => copy(alloc, &self.set, &mut self.sets, words),
            _ => ask(alloc, &self.registry, &self.set, &self.sets, command),
        }
    }
}

impl Session for Properties {
    fn carry_out(&mut self, alloc: Global, command: &Command) -> Result<Answer, CaseFault> {
        let words = command.words();
        match command.name() {
            "new" => self.renew(alloc, words),
            "feature" => feature(alloc, &mut self.registry, words),
            "compose" => compose(alloc, &mut self.registry, words),
            "declare_features" => declare_toolset(alloc, &mut self.registry, words),
            _ => self.set_command(alloc, command),
        }
    }
}
