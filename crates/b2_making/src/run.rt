//! Steps that are made and joined.
ghost use Rattle.std.specs.Prelude.{◌≡◌, ◌≢◌, [], map, IfOk};
ghost use Rattle.b2_props.specs.Texts.{property_text};
ghost use Rattle.jam_meaning.specs.StepJobs.{job_of};
ghost use Rattle.b2_making.specs.Answers.{AreHoused};
ghost use Rattle.b2_making.specs.Contexts.{site_of};
ghost use Rattle.b2_making.specs.MakingParts.{Asked, IsJoined, Does, texts_of};
ghost use Rattle.b2_making.specs.Steps.{paths_of, job, asks, runs};

use crate::fault::MakingFault;
use crate::output::Output;
use crate::place::place_all;
use crate::set_texts::SetTexts;
use crate::setting::Setting;
use crate::site::Site;
use crate::step::{job, step_of};
use b2_base::fault::OutOfMemory;
use b2_base::text::Text;
use b2_evaluator::evaluate::Evaluate;
use b2_plan::step::Step;
use b2_virtual::builder::Builder;
use b2_virtual::entry::{Entry, EntryList};
use jam_meaning::step::{StepJob, StepText};
use std::alloc::Global;

fn text_of<V: Evaluate>(job: &StepJob, evaluator: &mut V) -> Result<StepText, MakingFault<V::Fault>>
    ensures { Asked V.answers V.kept V.faults V.is_host_fault V.is_out_of_memory V.CanFault (job_of job.now) evaluator.old evaluator.new result }
{
    match evaluator.step_text(job) {
        Ok(text) => Ok(text),
        Err(fault) => Err(MakingFault::Eval(fault)),
    }
}

/// A step joins those before.
pub(crate) fn join<F: Drop>(step: Step, builder: &mut Builder) -> Result<(), MakingFault<F>>
    ensures { IsJoined step builder.old builder.new result }
{
    builder.add(step)?;
    Ok(())
}

/// The step of a job gets its text and is joined.
fn ask<V: Evaluate>(
    setting: &Setting<'_>,
    site: &Site<'_>,
    job: StepJob,
    evaluator: &mut V,
    builder: &mut Builder,
) -> Result<(), MakingFault<V::Fault>>
    requires { AreHoused setting.now.roots.now job.outs }
    ensures { Does V.Evaluate (λ c s. asks c s (job_of job) tt) setting.now site.now evaluator.old evaluator.new builder.old builder.new result }
{
    let text = text_of(&job, evaluator)?;
    let step = step_of(setting.alloc, site, job, text)?;
    join(step, builder)
}

/// The job of a step of this name that makes files of others. The others are dropped here: the job has their paths.
fn job_of_all(
    alloc: Global,
    site: &Site<'_>,
    props: &[Text],
    name: &Text,
    outs: &[Entry],
    ins: EntryList,
) -> Result<StepJob, OutOfMemory>
    requires { props.now ≡ map property_text site.now.set.now }
    ensures { IfOk result (λ made. job_of made ≡ job (site_of site.now) name.now (paths_of outs.now) (paths_of ins)) }
{
    job(alloc, site, props, name, outs, ins.as_slice())
}

/// A step of this name makes outputs of inputs, which are dropped before its text is evaluated.
pub(crate) fn run<V: Evaluate>(
    setting: &Setting<'_>,
    site: &Site<'_>,
    texts: &SetTexts,
    name: &Text,
    ins: EntryList,
    outputs: &[Output],
    evaluator: &mut V,
    builder: &mut Builder,
) -> Result<EntryList, MakingFault<V::Fault>>
    requires texts { texts.now ≡ texts_of setting.now.registry.now site.now.set.now }
    requires some { outputs.now ≢ [] }
    ensures { Does V.Evaluate (λ c s. runs c s name.now ins outputs.now) setting.now site.now evaluator.old evaluator.new builder.old builder.new result }
{
    let made = place_all::<V::Fault>(setting, site, &texts.dir, outputs)?;
    let outs = made.as_slice();
    let props = texts.props.as_slice();
    let job = job_of_all(setting.alloc, site, props, name, outs, ins)?;
    ask(setting, site, job, evaluator, builder)?;
    Ok(made)
}
