//! Values of paths and dependencies, completed in the project of a directory.
ghost use Rattle.std.specs.Prelude.{◌≡◌, [], codes, IfOk, if◌then◌else◌};
ghost use Rattle.std.specs.Str.{bytes_eq};
ghost use Rattle.b2_base.specs.Bytes.{HasNoZero};
ghost use Rattle.b2_property_texts.specs.Completion.{reference_to, reference_in, value_in};

use crate::cuts::cut_at;
use b2_base::fault::OutOfMemory;
use b2_base::path::{Path, path_from};
use b2_base::rooted::is_rooted;
use b2_base::text::Text;
use b2_features::attribute::Attribute;
use b2_features::registry::Registry;
use std::alloc::Global;

/// A directory as references show it; nothing for the folder itself.
fn shown_dir(dir: &Path) -> &str
    ensures shown { result.now ≡ (if bytes_eq dir.now (codes ".") then [] else dir.now) }
    ensures clean { HasNoZero result.now }
{
    let text = dir.as_str();
    if text == "." { "" } else { text }
}

/// A directory and a name as a reference.
pub fn reference_to(alloc: Global, dir: &Path, name: &str) -> Result<Text, OutOfMemory>
    requires { HasNoZero name.now }
    ensures { IfOk result (λ made. made ≡ reference_to dir.now name.now) }
{
    let dir = shown_dir(dir);
    let text = format!(in alloc; "{dir}//{name}")?;
    Ok(Text::from_string(text))
}

/// A reference as a whole one.
fn reference_in(alloc: Global, dir: &Path, value: &Text) -> Result<Text, OutOfMemory>
    ensures { IfOk result (λ made. made ≡ reference_in dir.now value.now) }
{
    let text = value.as_str();
    if is_rooted(text) {
        return value.copy();
    }
    match cut_at(text, "//") {
        None => reference_to(alloc, dir, text),
        Some((place, name)) => {
            let place = path_from(alloc, dir, place)?;
            reference_to(alloc, &place, name)
        }
    }
}

/// The value of a feature, completed.
pub(crate) fn value_in(
    alloc: Global,
    registry: &Registry,
    dir: &Path,
    feature: &Text,
    value: &Text,
) -> Result<Text, OutOfMemory>
    ensures { IfOk result (λ made. made ≡ value_in registry.now dir.now (feature.now, value.now)) }
{
    match registry.find(feature.as_str()) {
        None => value.copy(),
        Some(known) => {
            if known.is(Attribute::Path) {
                path_from(alloc, dir, value.as_str())?.as_text().copy()
            } else if known.is(Attribute::Dependency) {
                reference_in(alloc, dir, value)
            } else {
                value.copy()
            }
        }
    }
}
