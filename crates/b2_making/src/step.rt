//! The job of a step, and the step that it becomes.
ghost use Rattle.std.specs.Prelude.{◌≡◌, ◌++◌, ◌∷◌, [], codes, map, IfOk, OnOk};
ghost use Rattle.std.specs.Option.{option_copied};
ghost use Rattle.jam_meaning.specs.StepJobs.{job_of, step_answer};
ghost use Rattle.b2_props.specs.Texts.{property_text};
ghost use Rattle.b2_making.specs.Contexts.{site_of};
ghost use Rattle.b2_making.specs.Steps.{paths_of, location_of, include_dirs, job, step_of};
ghost use Rattle.b2_making.specs.Conversions.{copy_step};

use crate::site::Site;
use b2_base::fault::OutOfMemory;
use b2_base::path::{Path, path_of};
use b2_base::path_list::{PathList, push_paths};
use b2_base::text::Text;
use b2_base::text_list::{TextList, copy_texts};
use b2_plan::step::Step;
use b2_props::props::Props;
use b2_virtual::entry::Entry;
use jam_meaning::step::{StepJob, StepText};
use std::alloc::Global;

/// The paths of entries, in order.
fn paths_of(alloc: Global, entries: &[Entry]) -> Result<PathList, OutOfMemory>
    ensures { IfOk result (λ paths. paths ≡ paths_of entries.now) }
{
    let mut paths = PathList::new(alloc);
    for entry in entries {
        paths.push(entry.path.copy()?)?;
    }
    Ok(paths)
}

/// The value of the last `<location>` of a set; takes no memory.
pub(crate) fn location_of(set: &Props) -> Option<&Text>
    ensures { option_copied result ≡ location_of set.now }
{
    let mut found = None;
    for pair in set.pairs() {
        if pair.0.as_str() == "location" {
            found = Some(&pair.1);
        }
    }
    found
}

/// Adds the directory of a pair, where its feature is `include`.
fn push_include(alloc: Global, dirs: &mut PathList, pair: &(Text, Text)) -> Result<(), OutOfMemory>
    ensures { OnOk result (dirs.new ≡ dirs.old ++ include_dirs (pair.now ∷ [])) }
{
    if pair.0.as_str() != "include" {
        return Ok(());
    }
    let dir = path_of(alloc, pair.1.as_str())?;
    dirs.push(dir)?;
    Ok(())
}

/// The directories of `<include>` in a set, in order.
fn include_dirs(alloc: Global, set: &Props) -> Result<PathList, OutOfMemory>
    ensures { IfOk result (λ dirs. dirs ≡ include_dirs set.now) }
{
    let mut dirs = PathList::new(alloc);
    for pair in set.pairs() {
        push_include(alloc, &mut dirs, pair)?;
    }
    Ok(dirs)
}

// ---- jobs

/// What a job names: its step, and where its rule is looked for.
#[derive(Drop)]
struct JobTexts {
    name: Text,
    module: Text,
    path: Text,
}

fn job_texts(site: &Site<'_>, name: &Text) -> Result<JobTexts, OutOfMemory>
    ensures { IfOk result (λ made. made ≡ record { name = name.now; «module» = site.now.owner.now; path = site.now.file.now }) }
{
    let name = name.copy()?;
    let module = site.owner.copy()?;
    let path = site.file.as_text().copy()?;
    Ok(JobTexts { name, module, path })
}

/// What a job hands to its rule.
#[derive(Drop)]
struct JobLists {
    outs: PathList,
    ins: PathList,
    props: TextList,
}

fn job_lists(
    alloc: Global,
    props: &[Text],
    outs: &[Entry],
    ins: &[Entry],
) -> Result<JobLists, OutOfMemory>
    ensures { IfOk result (λ made. made ≡ record { outs = paths_of outs.now; ins = paths_of ins.now; props = props.now }) }
{
    let outs = paths_of(alloc, outs)?;
    let ins = paths_of(alloc, ins)?;
    let props = copy_texts(alloc, props)?;
    Ok(JobLists { outs, ins, props })
}

/// The job of a step of this name that makes files of others, with the properties as texts.
pub(crate) fn job(
    alloc: Global,
    site: &Site<'_>,
    props: &[Text],
    name: &Text,
    outs: &[Entry],
    ins: &[Entry],
) -> Result<StepJob, OutOfMemory>
    requires { props.now ≡ map property_text site.now.set.now }
    ensures { IfOk result (λ made. job_of made ≡ job (site_of site.now) name.now (paths_of outs.now) (paths_of ins.now)) }
{
    let lists = job_lists(alloc, props, outs, ins)?;
    let texts = job_texts(site, name)?;
    Ok(StepJob {
        name: texts.name,
        module: texts.module,
        path: texts.path,
        outs: lists.outs,
        ins: lists.ins,
        props: lists.props,
        line: site.line,
    })
}

// ---- steps

/// The files that a step reads, and the directories where their includes are looked for.
#[derive(Drop)]
struct StepFiles {
    ins: PathList,
    dirs: PathList,
}

/// The inputs of a job, what is only to be there before its step, and what its rule has noted.
fn job_files(
    alloc: Global,
    site: &Site<'_>,
    ins: &[Path],
    depends: &[Path],
) -> Result<StepFiles, OutOfMemory>
    ensures { IfOk result (λ made. made ≡ record { ins = ins.now ++ site.now.order.now ++ depends.now; dirs = include_dirs site.now.set.now }) }
{
    let dirs = include_dirs(alloc, site.set)?;
    let mut made = PathList::new(alloc);
    push_paths(&mut made, ins)?;
    push_paths(&mut made, site.order)?;
    push_paths(&mut made, depends)?;
    Ok(StepFiles { ins: made, dirs })
}

/// The step of a job with its text, which reads these files.
fn step_with(job: StepJob, text: StepText, files: StepFiles) -> Step
    ensures { result ≡ record { name = job.name; text = text.text; outs = job.outs; ins = files.ins; dirs = files.dirs; always = text.always; notfile = text.notfile } }
{
    Step {
        name: job.name,
        text: text.text,
        outs: job.outs,
        ins: files.ins,
        dirs: files.dirs,
        always: text.always,
        notfile: text.notfile,
    }
}

/// The step of a job that has a text.
pub(crate) fn step_of(
    alloc: Global,
    site: &Site<'_>,
    job: StepJob,
    text: StepText,
) -> Result<Step, OutOfMemory>
    ensures { IfOk result (λ step. step ≡ step_of (site_of site.now) (job_of job) (step_answer text)) }
{
    match job_files(alloc, site, job.ins.as_slice(), text.depends.as_slice()) {
        Ok(files) => Ok(step_with(job, text, files)),
        Err(fault) => {
            drop(job);
            drop(text);
            Err(fault)
        }
    }
}

// ---- copies

/// The inputs of the step that copies a file, and its directories.
fn copy_files(alloc: Global, site: &Site<'_>, from: &Path) -> Result<StepFiles, OutOfMemory>
    ensures { IfOk result (λ made. made ≡ record { ins = from.now ∷ site.now.order.now; dirs = include_dirs site.now.set.now }) }
{
    let dirs = include_dirs(alloc, site.set)?;
    let mut made = PathList::new(alloc);
    made.push(from.copy()?)?;
    push_paths(&mut made, site.order)?;
    Ok(StepFiles { ins: made, dirs })
}

fn copy_text(alloc: Global, from: &Path, to: &Path) -> Result<Text, OutOfMemory>
    ensures { IfOk result (λ text. text ≡ codes "cp \"" ++ from.now ++ codes "\" \"" ++ to.now ++ codes "\"") }
{
    let from = from.as_str();
    let to = to.as_str();
    Ok(Text::from_string(format!(in alloc; "cp \"{from}\" \"{to}\"")?))
}

/// The name, the text and the output of the step that copies a file.
#[derive(Drop)]
struct CopyParts {
    name: Text,
    text: Text,
    outs: PathList,
}

fn copy_parts(alloc: Global, from: &Path, to: &Path) -> Result<CopyParts, OutOfMemory>
    ensures { IfOk result (λ made. made ≡ record { name = codes "install.copy"; text = codes "cp \"" ++ from.now ++ codes "\" \"" ++ to.now ++ codes "\""; outs = to.now ∷ [] }) }
{
    let mut outs = PathList::new(alloc);
    outs.push(to.copy()?)?;
    let text = copy_text(alloc, from, to)?;
    let name = Text::new(alloc, "install.copy")?;
    Ok(CopyParts { name, text, outs })
}

/// The step that copies the file of an entry to a path.
pub(crate) fn copy_step(
    alloc: Global,
    site: &Site<'_>,
    entry: &Entry,
    to: &Path,
) -> Result<Step, OutOfMemory>
    ensures { IfOk result (λ step. step ≡ copy_step (site_of site.now) entry.now to.now) }
{
    let files = copy_files(alloc, site, &entry.path)?;
    let parts = copy_parts(alloc, &entry.path, to)?;
    Ok(Step {
        name: parts.name,
        text: parts.text,
        outs: parts.outs,
        ins: files.ins,
        dirs: files.dirs,
        always: false,
        notfile: false,
    })
}
