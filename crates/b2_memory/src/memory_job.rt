//! What a start gives a child.
ghost use Rattle.std.specs.Prelude.{◌≡◌, ◌∷◌, [], ◌++◌, codes, map, take, IfOk, OnOk};
ghost use Rattle.std.specs.Option.{option_to_list};
ghost use Rattle.b2_host.specs.ChildProcesses.{read_at, read_all, given_at};
ghost use Rattle.b2_files.specs.Stores.{write_of};
ghost use Rattle.b2_files.specs.StoreDisks.{told};
ghost use Rattle.b2_memory.specs.Results.{made_of};

use crate::made::make;
use b2_base::fault::OutOfMemory;
use b2_base::path::Path;
use b2_base::path_list::{PathList, copy_paths};
use b2_files::file_bytes::FileBytes;
use b2_files::store::Store;
use std::alloc::Global;

/// A step's text, what it reads and writes, and the inputs that stood when it started.
#[derive(Drop)]
pub struct MemoryJob {
    pub step: u32,
    pub text: String,
    pub ins: PathList,
    pub outs: PathList,
    pub held: Vec<FileBytes>,
}

/// Adds an input with its bytes, if it stands.
fn hold_one(
    alloc: Global,
    held: &mut Vec<FileBytes>,
    store: &Store,
    path: &Path,
) -> Result<(), OutOfMemory>
    ensures { OnOk result (map write_of held.new.items ≡ map write_of held.old.items ++ option_to_list (read_at (told store.now).now path.now)) }
{
    if let Some(entry) = store.held(alloc, path)? {
        held.push(entry)?;
    }
    Ok(())
}

/// The inputs that stand, with their bytes.
#[tactic(auto, using(crate::proofs::LoopsAddOneMore::read_more))]
fn hold(alloc: Global, store: &Store, ins: &[Path]) -> Result<Vec<FileBytes>, OutOfMemory>
    ensures { IfOk result (λ held. map write_of held.items ≡ read_all (told store.now).now ins.now) }
{
    let mut held = Vec::new(alloc);
    for path in ins {
        hold_one(alloc, &mut held, store, path)?;
    }
    Ok(held)
}

/// What a child that ends well writes.
fn good_writes(
    alloc: Global,
    text: &str,
    held: &[FileBytes],
    outs: &[Path],
) -> Result<Vec<FileBytes>, OutOfMemory>
    ensures { IfOk result (λ entries. map write_of entries.items ≡ map (λ out. (out, made_of text.now (map write_of held.now) out)) outs.now) }
{
    let mut entries = Vec::new(alloc);
    for out in outs {
        let bytes = make(alloc, text, held, out)?;
        entries.push(FileBytes::new(alloc, out, bytes)?)?;
    }
    Ok(entries)
}

/// What a child that ends badly writes.
fn bad_writes(alloc: Global, outs: &[Path]) -> Result<Vec<FileBytes>, OutOfMemory>
    ensures { IfOk result (λ entries. map write_of entries.items ≡ map (λ out. (out, codes "torn" ++ 10 ∷ [])) (take 1 outs.now)) }
{
    let mut entries = Vec::new(alloc);
    if let Some(out) = outs.first() {
        let bytes = Vec::from_slice(alloc, b"torn\n")?;
        entries.push(FileBytes::new(alloc, out, bytes)?)?;
    }
    Ok(entries)
}

impl MemoryJob {
    ghost use Rattle.b2_memory.specs.Jobs.{given_of, IsLeft};

    /// The job of a step, with the bytes that its inputs have now; an input that is missing is left out.
    pub fn new(
        alloc: Global,
        step: u32,
        text: &str,
        ins: &[Path],
        outs: &[Path],
        store: &Store,
    ) -> Result<MemoryJob, OutOfMemory>
        ensures { IfOk result (λ job. given_of job ≡ given_at step text.now ins.now outs.now (told store.now)) }
    {
        let text = String::from_str(alloc, text)?;
        let held = hold(alloc, store, ins)?;
        let ins = copy_paths(alloc, ins)?;
        let outs = copy_paths(alloc, outs)?;
        Ok(MemoryJob {
            step,
            text,
            ins,
            outs,
            held,
        })
    }

    /// What a child that runs the job writes by its end.
    pub fn writes(&self, alloc: Global, well: bool) -> Result<Vec<FileBytes>, OutOfMemory>
        ensures { IfOk result (λ entries. IsLeft self.now well entries.items) }
    {
        let outs = self.outs.as_slice();
        if well {
            good_writes(alloc, self.text.as_str(), self.held.as_slice(), outs)
        } else {
            bad_writes(alloc, outs)
        }
    }
}
