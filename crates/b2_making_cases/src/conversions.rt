//! What main targets make. There are current tables of features, types and generators, a project, a set of
//! properties, what sources and libraries supply, and the steps so far; all are empty at first.
//!
//! - `new` empties all, `new_target` the properties and what is supplied, `new_steps` the steps.
//! - `gcc` declares the features, types and generators of the toolset. `feature NAME VALUES : ATTRIBUTES`, `type NAME SUFFIXES`
//!   and `generator ID SOURCES : TARGETS : REQUIRED` declare one each; a property is written `<feature>value`.
//! - `project DIR` is the project of the main targets, with the module `Jamfile<DIR>` and the file `DIR/Jamfile`; `roots PATHS`
//!   are the output roots.
//! - `properties PROPERTIES` is the set that they make. `source FILES` adds files as sources; `source_target ENTRIES : CARRIED`
//!   adds a main target among the sources, and `library ENTRIES : CARRIED` one among the libraries, which supply these paths,
//!   made by steps. `order PATHS` are to be there before each step.
//! - `no_text NAMES` are the steps that have no text. Every other text shows its job: module, file and line, outputs, inputs and
//!   properties, with the sign `|` between them. `notes PATHS` is what each rule notes.
//! - `exe NAME`, `lib NAME`, `obj NAME`, `alias NAME`, `install NAME` and `make NAME RULE` make a main target, which is declared
//!   at line 1, and show its entries, each with its type, its tail and whether it is made, and the libraries that it carries on;
//!   or why it is refused.
//! - `steps` shows each step: its number and name, outputs, inputs and directories, and its text.

mod kinds;
pub mod session;
mod shown;
mod tables;
mod target;
mod texts;
