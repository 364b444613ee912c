//! Files and child processes of the system.
ghost use Rattle.std.specs.Prelude.{◌≡◌, ◌+◌, ◌≤◌, [], length, vec_len, vec_capacity};
ghost use Rattle.b2_realhost.specs.RealOutside.{outside_of};

use crate::real_files::RealFiles;
use crate::system_files::make_parent;
use crate::system_job::SystemJob;
use crate::waiting::wait_any;
use b2_base::path::Path;
use b2_base::text_list::TextList;
use b2_host::children::{ChildEvent, Children};
use b2_host::fault::{Failed, IoFault};
use b2_host::files::{Files, ReadAnswer};
use std::io;
use std::process::{Child, Command, Processes, SystemProcess};
use std::rt::{Clock, Files as Disk};
use std::sync::Wait;

/// The shell that runs the texts of steps.
const SHELL: &str = "/bin/sh";

/// Files and child processes of the system. Its files are not visible. A child is `sh -c TEXT`, which inherits the
/// program's streams.
#[derive(Drop)]
pub struct RealHost<R: Disk + AllocGlobal + Clone + Drop> {
    files: RealFiles<R>,
    jobs: Vec<SystemJob>,
    processes: Vec<Child>,
    events: Vec<ChildEvent>,
    failed_waits: u64,
    ghost same_len: { vec_len processes ≡ vec_len jobs },
    ghost event_room: { vec_len events + vec_len jobs ≤ vec_capacity events },
}

impl<R: Disk + AllocGlobal + Clone + Drop> RealHost<R> {
    /// The host over the runtime: no child runs, and nothing has failed.
    pub fn new(rt: R) -> RealHost<R>
        ensures { ⟦<RealHost<R> as Files>⟧.outside result ≡ outside_of [] [] 0 0 }
    {
        let alloc = rt.alloc();
        RealHost {
            files: RealFiles::new(rt),
            jobs: Vec::new(alloc),
            processes: Vec::new(alloc),
            events: Vec::new(alloc),
            failed_waits: 0,
        }
    }

    /// How many child processes run.
    pub fn running_count(&self) -> usize
        ensures { result ≡ length (⟦<RealHost<R> as Files>⟧.outside self.now).children.running }
    {
        self.jobs.len()
    }
}

impl<R: Disk + AllocGlobal + Clone + Drop> Files for RealHost<R> {
    ghost outside = { λ host. outside_of host.jobs.items host.events.items host.files.faults.count host.failed_waits };

    ghost consistent = { λ files. tt };

    ghost use Rattle.std.specs.Prelude.{refl};

    ghost reads_alike = { λ files. refl };

    fn stat(&mut self, path: &Path) -> Result<Option<u64>, Failed> {
        self.files.stat(path)
    }

    fn read(&mut self, path: &Path, most: u64) -> Result<ReadAnswer, IoFault> {
        self.files.read(path, most)
    }

    fn list(&mut self, dir: &Path) -> Result<TextList, IoFault> {
        self.files.list(dir)
    }

    fn append(&mut self, path: &Path, piece: &[u8]) -> Result<(), IoFault> {
        self.files.append(path, piece)
    }

    fn replace(&mut self, path: &Path, piece: &[u8]) -> Result<(), IoFault> {
        self.files.replace(path, piece)
    }

    fn remove(&mut self, path: &Path) -> Result<(), Failed> {
        self.files.remove(path)
    }
}

/// Starts a shell that runs a text.
fn start_shell<R>(rt: &R, shell: &mut Command, text: &str) -> io::Result<Child>
where
    R: Disk + AllocGlobal + Processes<Started = SystemProcess>,
{
    let _shell = shell.arg("-c")?.arg(text)?;
    shell.spawn(rt)
}

/// Makes the directories of the outputs, and starts a shell.
fn spawn<R>(rt: &R, text: &str, outs: &[Path]) -> io::Result<Child>
where
    R: Disk + AllocGlobal + Processes<Started = SystemProcess>,
{
    for out in outs {
        make_parent(rt, out.as_str())?;
    }
    let mut shell = Command::new(rt.alloc(), SHELL)?;
    start_shell(rt, &mut shell, text)
}

impl<R> Children for RealHost<R>
where
    R: Disk + AllocGlobal + Clone + Drop + Processes<Started = SystemProcess> + Wait + Clock,
{
    ghost made = { λ text held out. [] };

    ghost use Rattle.std.specs.Prelude.{refl};

    ghost told_alike = { λ host. refl };

    fn start(&mut self, step: u32, text: &str, ins: &[Path], outs: &[Path]) -> Result<(), IoFault> {
        self.events.reserve(self.jobs.len() + 2)?;
        self.jobs.reserve(1)?;
        self.processes.reserve(1)?;
        let job = SystemJob::new(self.files.rt.alloc(), step, ins, outs)?;
        match spawn(&self.files.rt, text, outs) {
            Err(error) => Err(self.files.faults.fault(&error)),
            Ok(process) => {
                self.processes.push_reserved(process);
                self.jobs.push_reserved(job);
                self.events.push_reserved(ChildEvent::Start(step));
                Ok(())
            }
        }
    }

    fn wait_one(&mut self) -> Result<(u32, bool), Failed> {
        match wait_any(&self.files.rt, &mut self.processes) {
            Err(_error) => {
                self.failed_waits = self.failed_waits.saturating_add(1);
                Err(self.files.faults.fail())
            }
            Ok((place, well)) => {
                let _process = self.processes.remove(place);
                let job = self.jobs.remove(place);
                self.events.push_reserved(ChildEvent::Done(job.step, well));
                Ok((job.step, well))
            }
        }
    }
}
