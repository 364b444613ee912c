//! What an `install` copies.
ghost use Rattle.std.specs.Prelude.{◌≡◌, true, IfOk};
ghost use Rattle.std.specs.Option.{option_copied};
ghost use Rattle.b2_base.specs.Bytes.{HasNoZero};
ghost use Rattle.b2_virtual.specs.Paths.{source_tail};
ghost use Rattle.b2_making.specs.Acts.{for_each};
ghost use Rattle.b2_making.specs.Answers.{Grows};
ghost use Rattle.b2_making.specs.MakingParts.{Alone, IsCopiedTo};
ghost use Rattle.b2_making.specs.Steps.{location_of};
ghost use Rattle.b2_making.specs.Conversions.{copies_at, makes_copies};

use crate::fault::MakingFault;
use crate::place::path_at;
use crate::run::join;
use crate::setting::Setting;
use crate::site::Site;
use crate::step::{copy_step, location_of};
use b2_base::fault::OutOfMemory;
use b2_base::path::Path;
use b2_base::text::Text;
use b2_virtual::builder::Builder;
use b2_virtual::entry::{Entry, EntryList, Supply, only};
use b2_virtual::fault::VirtualFault;
use b2_virtual::paths::location_path;
use b2_virtual::supplies::entries_of;
use b2_virtual::tails::source_tail;
use std::alloc::Global;

/// Where a file of this name is copied: to a location, else to the place of the target's name.
fn copy_path(
    setting: &Setting<'_>,
    site: &Site<'_>,
    location: Option<&Text>,
    name: &str,
) -> Result<Path, VirtualFault>
    requires { HasNoZero name.now }
    ensures { IsCopiedTo setting.now site.now (option_copied location.entry) name.now result }
{
    match location {
        None => location_path(
            setting.alloc,
            setting.roots,
            site.dir,
            site.name.as_str(),
            name,
        ),
        Some(location) => path_at(setting, location.as_str(), name),
    }
}

/// The entry of a copy.
fn copied(alloc: Global, entry: &Entry, path: Path) -> Result<Entry, OutOfMemory>
    ensures { IfOk result (λ made. made ≡ record { path = path; file_type = entry.now.file_type; tail = source_tail path; is_made = true }) }
{
    let tail = source_tail(alloc, &path)?;
    let file_type = entry.file_type.copy()?;
    Ok(Entry {
        path,
        file_type,
        tail,
        is_made: true,
    })
}

/// An entry is copied.
fn copy_one<F: Drop>(
    setting: &Setting<'_>,
    site: &Site<'_>,
    location: Option<&Text>,
    entry: &Entry,
    builder: &mut Builder,
) -> Result<Entry, MakingFault<F>>
    ensures copies { Alone (λ c s. copies_at c s (option_copied location.entry) entry.now) setting.now site.now builder.old builder.new result }
    ensures grows { Grows setting.now.roots.now builder.old builder.new }
{
    let path = copy_path(setting, site, location, entry.path.file_name())?;
    let step = copy_step(setting.alloc, site, entry, &path)?;
    let made = copied(setting.alloc, entry, path)?;
    join::<F>(step, builder)?;
    Ok(made)
}

/// Entries are copied, one after another.
fn copy_all<F: Drop>(
    setting: &Setting<'_>,
    site: &Site<'_>,
    entries: &[Entry],
    builder: &mut Builder,
) -> Result<EntryList, MakingFault<F>>
    ensures copies { Alone (λ c s. for_each (copies_at c s (location_of s.set)) entries.now) setting.now site.now builder.old builder.new result }
    ensures grows { Grows setting.now.roots.now builder.old builder.new }
{
    let location = location_of(site.set);
    let mut made = EntryList::new(setting.alloc);
    for entry in entries {
        let copy = copy_one::<F>(setting, site, location, entry, builder)?;
        made.push(copy)?;
    }
    Ok(made)
}

/// Copies all entries of the parts.
pub(crate) fn make_copies<F: Drop>(
    setting: &Setting<'_>,
    site: &Site<'_>,
    builder: &mut Builder,
) -> Result<Supply, MakingFault<F>>
    ensures copies { Alone makes_copies setting.now site.now builder.old builder.new result }
    ensures grows { Grows setting.now.roots.now builder.old builder.new }
{
    let entries = entries_of(setting.alloc, site.parts)?;
    let list = entries.as_slice();
    let made = copy_all::<F>(setting, site, list, builder)?;
    Ok(only(setting.alloc, made))
}
