//! How a main target is made.
use crate::conversions::session::Conversions;
use crate::conversions::shown::made_answer;
use crate::conversions::target::Needs;
use b2_declaring_calls::declaration::Kind;
use b2_features::registry::Registry;
use b2_making::make::make;
use b2_making::setting::Setting;
use b2_making::site::Site;
use b2_props::refinement::set_of;
use std::alloc::Global;
use std::mem::ManuallyDrop;
use transcript::answer::Answer;
use transcript::case_fault::CaseFault;
use transcript::words::text;

/// Makes a main target of a kind, a name and a rule; the rule is empty but for a `make`.
pub fn made_target(
    alloc: Global,
    held: &mut Conversions,
    kind: Kind,
    name: &str,
    rule: &str,
) -> Result<Answer, CaseFault> {
    let name = text(alloc, name)?;
    let rule = text(alloc, rule)?;
    let Some(project) = &*held.project else {
        return Err(CaseFault::WrongWords);
    };
    let registry: &Registry = &held.registry;
    let needs: &Needs = &held.needs;
    let set = set_of(alloc, registry, needs.properties.as_slice())?;
    let setting = Setting {
        alloc,
        registry,
        types: &held.types,
        roots: held.roots.as_slice(),
    };
    let site = Site {
        kind,
        name: &name,
        rule: &rule,
        line: 1,
        dir: &project.dir,
        owner: &project.owner,
        file: &project.file,
        set: &set,
        sources: needs.sources.as_slice(),
        parts: needs.parts.as_slice(),
        order: needs.order.as_slice(),
    };
    let made = ManuallyDrop::new(make(&setting, &site, &mut *held.texts, &mut held.builder));
    made_answer(alloc, &made)
}
