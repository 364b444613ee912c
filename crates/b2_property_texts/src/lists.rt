//! Lists of property texts.
ghost use Rattle.std.specs.Prelude.{◌≡◌, Ok, IfOk, IfErr, map};
ghost use Rattle.b2_property_texts.specs.Readings.{property_reading, usage_reading, requirement_reading, all_read, IsFaultOf};

use crate::reading::{Conditional, RequirementText, read_property, read_requirement, read_usage};
use b2_base::list::List;
use b2_base::path::Path;
use b2_base::text::Text;
use b2_features::fault::FeatureFault;
use b2_features::registry::Registry;
use b2_props::pair_list::PairList;
use std::alloc::Global;

/// Reads properties in order, up to the first that is none.
pub fn read_properties(
    alloc: Global,
    registry: &Registry,
    dir: &Path,
    texts: &[Text],
) -> Result<PairList, FeatureFault>
    ensures ok { IfOk result (λ made. all_read (map (property_reading registry.now dir.now) texts.now) ≡ Ok made) }
    ensures fault { IfErr result (IsFaultOf (all_read (map (property_reading registry.now dir.now) texts.now))) }
{
    let mut made = PairList::new(alloc);
    for text in texts {
        let (feature, value) = read_property(alloc, registry, dir, text)?;
        made.push(feature, value)?;
    }
    Ok(made)
}

/// Reads usage requirements in order, up to the first that is none.
pub fn read_usages(
    alloc: Global,
    registry: &Registry,
    dir: &Path,
    texts: &[Text],
) -> Result<List<Conditional>, FeatureFault>
    ensures ok { IfOk result (λ made. all_read (map (usage_reading registry.now dir.now) texts.now) ≡ Ok made) }
    ensures fault { IfErr result (IsFaultOf (all_read (map (usage_reading registry.now dir.now) texts.now))) }
{
    let mut made = List::new(alloc);
    for text in texts {
        made.push(read_usage(alloc, registry, dir, text)?)?;
    }
    Ok(made)
}

/// Reads requirements in order, up to the first that is none.
pub fn read_requirements(
    alloc: Global,
    registry: &Registry,
    dir: &Path,
    texts: &[Text],
) -> Result<List<RequirementText>, FeatureFault>
    ensures ok { IfOk result (λ made. all_read (map (requirement_reading registry.now dir.now) texts.now) ≡ Ok made) }
    ensures fault { IfErr result (IsFaultOf (all_read (map (requirement_reading registry.now dir.now) texts.now))) }
{
    let mut made = List::new(alloc);
    for text in texts {
        made.push(read_requirement(alloc, registry, dir, text)?)?;
    }
    Ok(made)
}
