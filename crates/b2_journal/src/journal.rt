//! The log while an update runs.
ghost use Rattle.std.specs.Prelude.{◌≡◌, [], ◌∷◌, ◌++◌, IfOk, OnOk, OnErr, IfSome};
ghost use Rattle.std.specs.Option.{option_copied};
ghost use Rattle.std.specs.List.{AllByRecursion};
ghost use Rattle.b2_host.specs.ChildProcesses.{BothTold};
ghost use Rattle.b2_host.specs.Faults.{IoFaultTold};
ghost use Rattle.b2_host.specs.FileCalls.{log_path, Appends};
ghost use Rattle.b2_host.specs.LogChanges.{ChangesOnlyLog};
ghost use Rattle.b2_log.specs.declared.line.LogLine.TheVariants as lines;
ghost use Rattle.b2_log.specs.Lines.{spelling};
ghost use Rattle.b2_log.specs.Good.{IsProper, IsGood};
ghost use Rattle.b2_log.specs.Finding.{find_record};
ghost use Rattle.b2_journal.specs.Rules.{opening_by};
ghost use Rattle.b2_journal.specs.Openings.{Opens, MayFailTold, ReadsOnlyLog};
ghost use Rattle.b2_journal.specs.Notes.{Notes};

use crate::log_reading::read_at;
use crate::opening::{first_lines, put_back};
use crate::opening_rule::OpeningRule;
use b2_base::fault::OutOfMemory;
use b2_base::path::Path;
use b2_host::fault::IoFault;
use b2_host::files::Files;
use b2_host::log_file::log_file;
use b2_log::line::{LogLine, Record};
use b2_log::log::Log;
use b2_log::write::line_bytes;
use std::alloc::Global;
use std::marker::Model;

/// The lines of the log's file, to which lines are appended; seen as the list of these lines.
pub struct Journal {
    alloc: Global,
    path: Path,
    log: Log,
}

/// By hand, so that dropping one is one call.
impl Drop for Journal {
    fn drop(self) {
        let Journal {
            alloc: _,
            path,
            log,
        } = self;
        drop(path);
        drop(log);
    }
}

impl Model for Journal {
    ghost use Rattle.std.specs.Prelude.{◌≡◌, List};
    ghost use Rattle.std.specs.List.{AllByRecursion};
    ghost use Rattle.b2_host.specs.FileCalls.{log_path};
    ghost use Rattle.b2_log.specs.declared.line.LogLine.{LogLine};
    ghost use Rattle.b2_log.specs.Good.{IsGood};
    ghost use Rattle.b2_journal.specs.Notes.{IsKept};

    ghost Value = { List LogLine };

    ghost view = { λ j. j.log.lines };

    ghost invariant = { λ j. IsKept j.path j.log.lines };
}

impl Journal {
    /// Reads the log's file, and replaces it where the rule says so: by its kept lines, or by the empty text where it is too
    /// large. Otherwise nothing is written. The host fails, or no memory is left; in the latter case nothing was written.
    pub fn open<F: Files>(
        alloc: Global,
        files: &mut F,
        rule: OpeningRule,
    ) -> Result<Journal, IoFault>
        ensures only_log { ChangesOnlyLog (F.outside files.old) (F.outside files.new) }
        ensures counts { IoFaultTold (F.outside files.old).faults (F.outside files.new).faults result }
        ensures may_fail { MayFailTold (F.outside files.old) result }
        ensures reads { ReadsOnlyLog (F.outside files.old) (F.outside files.new) result }
        ensures good { IfOk result (AllByRecursion IsGood) }
        ensures opens { BothTold (λ before after. Opens (opening_by rule) before after result) (F.outside files.old).disk (F.outside files.new).disk }
    {
        let path = log_file(alloc)?;
        let reading = read_at(alloc, files, &path)?;
        let first = first_lines(alloc, rule, reading)?;
        put_back(files, &path, &first.bytes)?;
        Ok(Journal {
            alloc,
            path,
            log: first.log,
        })
    }

    /// A journal of the lines of a log, for look-ups alone: the log's file is not opened, and stays as it is.
    pub fn of_log(alloc: Global, log: Log) -> Result<Journal, OutOfMemory>
        requires { AllByRecursion IsGood log.lines }
        ensures { IfOk result (λ journal. journal ≡ log.lines) }
    {
        let path = log_file(alloc)?;
        Ok(Journal { alloc, path, log })
    }

    /// Appends a proper line, by one call. After an error the journal is as before, and of the line nothing stands in the file
    /// where no memory was left, or a front where the host failed.
    pub fn note<F: Files>(&mut self, files: &mut F, line: LogLine) -> Result<(), IoFault>
        requires { IsProper line }
        ensures ok { OnOk result (self.new ≡ self.old ++ line ∷ []) }
        ensures err { OnErr result (self.new ≡ self.old) }
        ensures good { AllByRecursion IsGood self.new }
        ensures appends { Appends log_path (spelling line) (F.outside files.old) (F.outside files.new) result }
        ensures only_log { ChangesOnlyLog (F.outside files.old) (F.outside files.new) }
        ensures counts { IoFaultTold (F.outside files.old).faults (F.outside files.new).faults result }
        ensures notes { BothTold (λ before after. Notes line self.old before after result) (F.outside files.old).disk (F.outside files.new).disk }
    {
        let bytes = line_bytes(self.alloc, &line)?;
        let undo = self.log.add_with_undo(line)?;
        let appended = files.append(&self.path, bytes.as_slice());
        if appended.is_err() {
            self.log.undo(undo);
        }
        appended
    }

    /// The log with the journal's lines.
    pub fn log(&self) -> &Log
        ensures lines { result.now.lines ≡ self.now }
        ensures good { AllByRecursion IsGood self.now }
    {
        &self.log
    }

    /// The record of the last line about exactly these outputs in this order. There is none where that line is a drop or
    /// there is no such line. Takes no memory.
    pub fn record(&self, outs: &[Path]) -> Option<&Record>
        ensures exact { option_copied result ≡ find_record outs.now self.now }
        ensures proper { IfSome result (λ rec. IsProper (lines.Record rec.now)) }
    {
        self.log.find(outs)
    }
}
