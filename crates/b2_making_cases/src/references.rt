//! What texts name in a loaded project. There is a current load, at first empty: projects and their calls.
//!
//! - `new` begins a load. `project DIR` adds a project without a parent, `project DIR PLACE` one whose parent is the project
//!   at a place; places count from 0. They answer the place of the project.
//! - `call PLACE RULE WORD .. : WORD .. : ..` adds a call of a declaring rule by the project at a place, its lists divided by
//!   words `:`. The answer is `ok`, or `none` where its lists have another shape.
//!
//! The other commands have the names of the calls that they make, over what the calls of the load declare; `refused` answers
//! them where there is no such load. A project is named by its place, a main target by that and its name.
//!
//! - `source_meaning PLACE TEXT`, `value_meaning TEXT`, `word_meaning WORD` and `project_meaning PLACE` answer what the text
//!   names: `file` and its path, a line for each main target, or `nothing`; `no targets` where it names targets, but none.
//! - `place_at DIR`, `place_with ID`, `numbers PLACE NAME`, `alternatives PLACE NAME`, `lineage PLACE`,
//!   `default_build PLACE NAME` and `target_text PLACE NAME` ask the index. An alternative is shown by its sources.
//! - `sets_for PLACE NAME PROPERTIES` answers the sets that a set stands for.
//! - `asked WORDS` reads the words of a request, and answers what it asks for: a line for each main target with its set,
//!   `no target` for each word that names none.
//!
//! Words of one line have one space between them, and `""` is the empty word. A main target is shown as it is written, a
//! property as `<feature>value`.

mod loads;
mod questions;
pub mod session;
mod shown;
