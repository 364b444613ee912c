//! The paths of outputs.
ghost use Rattle.std.specs.Prelude.{◌≡◌, codes, List, None, if◌then◌else◌};
ghost use Rattle.b2_base.specs.Bytes.{HasNoZero};
ghost use Rattle.b2_plan.specs.declared.step.Step.{Step as PlanStep};
ghost use Rattle.b2_plan.specs.Sources.{IsInRoots};
ghost use Rattle.b2_props.specs.Elements.{dir_text};
ghost use Rattle.b2_virtual.specs.Paths.{located, IsPlaced};
ghost use Rattle.b2_making.specs.Acts.{for_each};
ghost use Rattle.b2_making.specs.MakingParts.{IsInside, IsPlacedAt, Alone, bin_path};
ghost use Rattle.b2_making.specs.Steps.{location_of, places};

use crate::fault::MakingFault;
use crate::output::Output;
use crate::setting::Setting;
use crate::site::Site;
use crate::step::location_of;
use b2_base::path::{Path, path_of};
use b2_base::text::Text;
use b2_plan::roots::is_in_roots;
use b2_virtual::entry::{Entry, EntryList};
use b2_virtual::fault::VirtualFault;
use b2_virtual::paths::{location_path, output_path};

/// The path of an output in `bin`, which lies in the output roots, by the part of it that tells the set.
fn path_in_bin(
    setting: &Setting<'_>,
    site: &Site<'_>,
    dir: &Text,
    output: &Output,
) -> Result<Path, VirtualFault>
    requires { dir.now ≡ dir_text setting.now.registry.now site.now.set.now }
    ensures { IsInside (IsInRoots setting.now.roots.now (bin_path setting.now site.now output.now)) (bin_path setting.now site.now output.now) result }
{
    let path = output_path(setting.alloc, dir.as_str(), &output.tail)?;
    if !is_in_roots(setting.roots, &path) {
        return Err(VirtualFault::LocationOutside { path });
    }
    Ok(path)
}

/// The path of a file of this name at a location, which is relative to the folder.
pub(crate) fn path_at(
    setting: &Setting<'_>,
    location: &str,
    name: &str,
) -> Result<Path, VirtualFault>
    requires location { HasNoZero location.now }
    requires name { HasNoZero name.now }
    ensures { IsInside (IsPlaced setting.now.roots.now (codes ".") location.now name.now) (located (codes ".") location.now name.now) result }
{
    let here = path_of(setting.alloc, ".")?;
    location_path(setting.alloc, setting.roots, &here, location, name)
}

/// The path of an output: at the location of the set, where it moves and there is one, else in `bin`.
fn path_for(
    setting: &Setting<'_>,
    site: &Site<'_>,
    dir: &Text,
    output: &Output,
) -> Result<Path, VirtualFault>
    requires { dir.now ≡ dir_text setting.now.registry.now site.now.set.now }
    ensures { IsPlacedAt setting.now site.now output.now (if output.now.moves then location_of site.now.set.now else None) result }
{
    if output.moves {
        if let Some(location) = location_of(site.set) {
            return path_at(setting, location.as_str(), output.tail.file_name());
        }
    }
    path_in_bin(setting, site, dir, output)
}

/// An output with its path.
fn place<F: Drop>(
    setting: &Setting<'_>,
    site: &Site<'_>,
    dir: &Text,
    output: &Output,
) -> Result<Entry, MakingFault<F>>
    requires { dir.now ≡ dir_text setting.now.registry.now site.now.set.now }
    ensures { (before : List PlanStep) → Alone (λ c s. places c s output.now) setting.now site.now before before result }
{
    let path = path_for(setting, site, dir, output)?;
    let file_type = output.file_type.copy()?;
    let tail = output.tail.copy()?;
    Ok(Entry {
        path,
        file_type,
        tail,
        is_made: true,
    })
}

/// Outputs with their paths, in order.
pub(crate) fn place_all<F: Drop>(
    setting: &Setting<'_>,
    site: &Site<'_>,
    dir: &Text,
    outputs: &[Output],
) -> Result<EntryList, MakingFault<F>>
    requires { dir.now ≡ dir_text setting.now.registry.now site.now.set.now }
    ensures { (before : List PlanStep) → Alone (λ c s. for_each (places c s) outputs.now) setting.now site.now before before result }
{
    let mut made = EntryList::new(setting.alloc);
    for output in outputs {
        let entry = place::<F>(setting, site, dir, output)?;
        made.push(entry)?;
    }
    Ok(made)
}
