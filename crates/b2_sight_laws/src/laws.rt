//! That there is a right sight and a right setting, so that what is told for each of them is told for one.
ghost use Rattle.std.specs.Prelude.{IfSome};
ghost use Rattle.b2_sight_laws.specs.Sights.{HasMatching, HasListing, HasSight, HasSetting, RunHasSetting, LoadHasSetting, CanBeSeen};

use b2_host::files::Files;
use jam_meaning::laws::each_sight_has_setting;

/// A test is the matching of patterns.
pub fn patterns_have_matching()
    ensures { HasMatching }
{}

/// On a consistent disk each directory has a listing.
pub fn directory_has_listing()
    ensures { HasListing }
{}

/// Of each consistent disk there is a right sight: the files, their names by directory, and which patterns match.
pub fn disk_has_sight()
    ensures { HasSight }
{}

/// Of each host whose files are visible there is a right sight.
pub fn host_has_sight<F: Files>()
    ensures { (files : F) → IfSome (F.outside files).disk CanBeSeen }
{}

/// Over each consistent disk there is a right setting, with any turns, any natives and anything refused.
pub fn disk_has_setting<Kept>()
    ensures { HasSetting Kept }
{
    each_sight_has_setting::<Kept>();
}

/// Where evaluation begins with natives that are told and files that are visible, there is a right setting for it that names
/// what was refused in it, if anything was.
pub fn run_has_setting<Kept>()
    ensures { RunHasSetting Kept }
{
    each_sight_has_setting::<Kept>();
}

/// Where a load begins over files that are visible, there is a right setting for it that names what was refused in it, if
/// anything was.
pub fn load_has_setting()
    ensures { LoadHasSetting }
{
    each_sight_has_setting::<u8>();
}
