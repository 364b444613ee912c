//! The files that programs, libraries and `make` targets are named after.
ghost use Rattle.std.specs.Prelude.{◌≡◌, ◌++◌, codes, IfOk, IfSome};
ghost use Rattle.std.specs.Option.{option_copied};
ghost use Rattle.b2_base.specs.Bytes.{HasNoZero};
ghost use Rattle.b2_virtual.specs.Paths.{dotted};
ghost use Rattle.b2_making.specs.Contexts.{site_of};
ghost use Rattle.b2_making.specs.Conversions.{program, is_shared, library_type, library_file, named_file};

use crate::output::Output;
use crate::site::Site;
use b2_base::fault::OutOfMemory;
use b2_base::text::Text;
use b2_generators::types::Types;
use b2_virtual::paths::named_tail;
use std::alloc::Global;

/// The file of an `exe`: the target's name.
pub(crate) fn program(alloc: Global, site: &Site<'_>) -> Result<Output, OutOfMemory>
    ensures { IfOk result (λ made. made ≡ program (site_of site.now)) }
{
    let file_type = Text::new(alloc, "EXE")?;
    let tail = named_tail(alloc, site.dir, site.name.as_str())?;
    Ok(Output {
        file_type,
        tail,
        moves: true,
    })
}

/// Whether a `lib` is a shared one; takes no memory.
pub(crate) fn is_shared(site: &Site<'_>) -> bool
    ensures { result ≡ is_shared (site_of site.now) }
{
    site.set.contains("link", "shared")
}

fn library_type(site: &Site<'_>) -> &'static str
    ensures name { result.now ≡ library_type (site_of site.now) }
    ensures no_zero { HasNoZero result.now }
{
    if is_shared(site) {
        "SHARED_LIB"
    } else {
        "STATIC_LIB"
    }
}

/// The name of the file of a `lib`.
fn library_name(alloc: Global, name: &Text, suffix: Option<&str>) -> Result<Text, OutOfMemory>
    requires { IfSome (option_copied suffix) HasNoZero }
    ensures { IfOk result (λ made. made ≡ codes "lib" ++ name.now ++ dotted (option_copied suffix.entry)) }
{
    let name = name.as_str();
    match suffix {
        None => {
            let file = format!(in alloc; "lib{name}")?;
            Ok(Text::from_string(file))
        }
        Some(suffix) => {
            let file = format!(in alloc; "lib{name}.{suffix}")?;
            Ok(Text::from_string(file))
        }
    }
}

/// The file of a `lib`: `lib`, the target's name and the suffix of its type.
pub(crate) fn library_file(
    alloc: Global,
    types: &Types,
    site: &Site<'_>,
) -> Result<Output, OutOfMemory>
    ensures { IfOk result (λ made. made ≡ library_file types.now.types (site_of site.now)) }
{
    let file_type = library_type(site);
    let name = library_name(alloc, site.name, types.suffix_of(file_type))?;
    let tail = named_tail(alloc, site.dir, name.as_str())?;
    Ok(Output {
        file_type: Text::new(alloc, file_type)?,
        tail,
        moves: true,
    })
}

/// The file of a `make`: the target's name, of its type.
pub(crate) fn named_file(
    alloc: Global,
    types: &Types,
    site: &Site<'_>,
) -> Result<Output, OutOfMemory>
    ensures { IfOk result (λ made. made ≡ named_file types.now.types (site_of site.now)) }
{
    let tail = named_tail(alloc, site.dir, site.name.as_str())?;
    let file_type = Text::new(alloc, types.type_of(&tail))?;
    Ok(Output {
        file_type,
        tail,
        moves: true,
    })
}
