//! The part `world`: the world of a build file, and the native rules that are called in it. There is a current world, with the
//! marks that were made of it, the native rules with what they keep, and a host in memory; all are new at first. Each command that makes a
//! call has its name; VALUE stands for any number of words, LISTS for lists of words that are divided by `:`.
//!
//! - `new` puts a new world in place, without a mark, with nothing kept and no files.
//! - `look NAME` shows the texts of a name, each on a line. `set NAME VALUE`, `append NAME VALUE` and `bind NAME VALUE` set,
//!   append and bind; `bind` answers `no frame` where none was opened since the newest mark.
//! - `enter MODULE`, `enter_call MODULE` and `leave` open and close frames; `leave` answers `no frame` where none was opened
//!   since the newest mark. `module` and `caller` show the present module, and the one that the innermost call keeps.
//! - `mark` and `roll_back` mark the world and go back to the newest mark; `marked` tells whether there is one.
//! - `define_rule NAME LINE` defines a rule without statements that stands in that line, and `define_actions NAME BODY MODIFIERS`
//!   actions. `find_rule NAME` and `find_actions NAME` show the module and the name where they are found, with the rule's home
//!   and line, or the modifiers and the body. `import_rule MODULE NAME MODULE NAME` puts a rule into a module under a name.
//!   `rule_at MODULE NAME LINE` takes a share of a rule, defines the name again in the present module, and shows the share.
//!   `rule_body MODULE NAME` shows a rule's home and line, and `rule_names MODULE` a module's own rules.
//!   `set_parent MODULE PARENT` puts a module above another one, or answers `not above` where it may not be there.
//! - `assigned NAME` shows the value that `set` would replace, and `assigned_size NAME` its size.
//! - `set_on TARGET NAME VALUE`, `append_on TARGET NAME VALUE`, `on_target TARGET NAME` and `own_size TARGET NAME` set an own value
//!   of a target, add to it, show it, and show its size. `own_names TARGET` shows its names, and `bind_own TARGET` binds them in
//!   the newest frame, or answers `no frame` as `bind` does.
//! - `open_step OUTS : INS` opens a step, or answers `open` where one is; `step` shows its notes.
//!   `add_depends PATH`, `set_always` and `set_notfile` note something of it.
//! - `set_place DIR`, `place`, `add_roots DIRS`, `freeze_roots` and `roots` are about the project's directory and the output
//!   roots.
//! - `sets COUNT NAME VALUE`, `appends COUNT NAME VALUE` and `appends_on COUNT TARGET NAME VALUE` set and add so often,
//!   `marked_sets COUNT NAME VALUE` makes a mark before each setting, and `roll_backs COUNT` goes back so often.
//!   `look_size NAME` shows how many texts a name has.
//! - `call LINE NAME LISTS` calls a native or declaring rule at a line, and shows its value, a text on each line, or what else came
//!   of it. `decls` and `echoes` show what is kept: of each call of a declaring rule the module and directory, the line, and each
//!   list after a `:`.
//! - `file PATHS` puts files there, each with the text lines of the command, and `fail_list N` lets the host's N-th listing from
//!   then on fail. `glob DIRS : PATTERNS` and `project_glob PLACE : PATTERNS : EXCLUDED` show the files that are found, with the
//!   output roots `bin`, `stage` and `dist`.
//! - `line_of TEXTS`, `sorted TEXTS`, `without_repeats TEXTS`, `after_start START : TEXTS` and `match_all PATTERNS : TEXTS` show
//!   what these calls give, a line or each text on one. `match_all` tells of a refused pattern whether it reads as one.
//! - `shape NAME LISTS` tells whether a native rule takes the lists, and `is_declaring NAME` whether a rule of the name declares.
//! - `root_paths LISTS` shows the output roots that a call of `project` with these lists names.
//! - `first_foreign OUTS : INS : ADDED : TARGETS : SOURCES` shows the first text that a step has no place for.

mod calls;
mod files;
mod found;
mod many;
mod marking;
mod naming;
mod paths;
mod project;
mod quoted;
mod rules;
pub mod session;
mod steps;
mod texts;
mod values;
