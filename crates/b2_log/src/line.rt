//! The lines of the log as data.
use b2_base::list::List;
use b2_base::path::Path;
use b2_base::path_list::PathList;
use b2_base::text::Text;
use b2_base::text_list::TextList;

/// Paths with their stamps, in order, seen as the list of these pairs.
pub type StampedPaths = List<(Path, u64)>;

/// The includes of a file in order, seen as the list of these pairs: each is a name, and whether it stands in quotes.
pub type IncludeList = List<(Text, bool)>;

/// The digests of what a record names, each as 64 lower-case hexadecimal digits.
pub struct Digests {
    /// Those of the outputs, in the order of the outputs.
    pub outs: TextList,
    /// Those of the inputs, in the order of the inputs.
    pub ins: TextList,
}

/// By hand, so that dropping one is one call.
impl Drop for Digests {
    fn drop(self) {
        let Digests { outs, ins } = self;
        drop(outs);
        drop(ins);
    }
}

/// What a step read and wrote.
pub struct Record {
    /// The text of the step's command.
    pub text: Text,
    /// The outputs in the step's order, each with the stamp that it had then.
    pub outs: StampedPaths,
    /// The inputs in byte order of path, each with the stamp that it had then.
    pub ins: StampedPaths,
    /// The digests of outputs and inputs, if they were taken.
    pub digests: Option<Digests>,
}

/// By hand, so that dropping one is one call.
impl Drop for Record {
    fn drop(self) {
        let Record {
            text,
            outs,
            ins,
            digests,
        } = self;
        drop(text);
        drop(outs);
        drop(ins);
        drop(digests);
    }
}

/// What was found in a file that was scanned.
pub struct ScanLine {
    /// Where the file stood.
    pub path: Path,
    /// The stamp that it had then.
    pub stamp: u64,
    /// In the order of the file.
    pub includes: IncludeList,
}

/// By hand, so that dropping one is one call.
impl Drop for ScanLine {
    fn drop(self) {
        let ScanLine {
            path,
            stamp: _,
            includes,
        } = self;
        drop(path);
        drop(includes);
    }
}

/// What one line of the log says: the word at its start tells which of the three.
pub enum LogLine {
    /// The step with these outputs was run.
    Record(Record),
    /// What is recorded of these outputs holds no longer.
    Drop(PathList),
    /// The file was scanned.
    Scan(ScanLine),
}

// By hand, so that dropping a line is one call of this proved function: a derived drop would be taken apart at each
// exit, with a case for each kind of line.
impl Drop for LogLine {
    fn drop(self) {
        match self {
            LogLine::Record(_record) => {}
            LogLine::Drop(_outs) => {}
            LogLine::Scan(_scan) => {}
        }
    }
}
