//! What the words of the command line ask for.
use b2_base::text_list::TextList;

/// How a build is made.
#[derive(Clone, Copy)]
pub struct BuildOptions {
    /// How many child processes may run side by side, from 1 to 64.
    pub jobs: u32,
    /// Whether all that is needed is built again.
    pub all: bool,
    /// Whether nothing more is started after the first failure.
    pub quit: bool,
    /// Whether files are judged by digests, and not by time stamps.
    pub digest: bool,
}

/// What is shown of a plan that is not carried out.
#[derive(Clone, Copy)]
pub enum View {
    /// The steps with their texts.
    Steps,
    /// The targets with their properties.
    Table,
}

/// What the program is to do.
#[derive(Clone, Copy)]
pub enum Command {
    Build(BuildOptions),
    /// Shows the plan. The options of a build may stand beside it and change nothing.
    Look(View),
    /// Tells why each needed step is to run, or is not. With `all`, all that is needed is to run. Judging is by time stamps; the
    /// other options of a build may stand beside it and change nothing.
    Explain { all: bool },
    /// Removes the outputs of the plan's steps. The options of a build may stand beside it and change nothing.
    Clean,
    /// Is to run the updates of a generated project of so many steps in memory.
    Drill { steps: u32 },
}

/// What a command line asks for.
#[derive(Drop)]
pub struct Words {
    pub command: Command,
    /// The words that are no options and no values of options, in order. Which of them are properties and which name
    /// targets depends on the features that the project declares.
    pub words: TextList,
}
