//! The spots of paths.
ghost use Rattle.std.specs.Prelude.{◌≡◌, ◌≢◌, ◌||◌, ◌++◌, codes, map, IfOk, OnOk};
ghost use Rattle.std.specs.List.{AllByRecursion};
ghost use Rattle.b2_base.specs.Bytes.{HasNoZero};
ghost use Rattle.b2_base.specs.Normal.{IsNormal, first_part};
ghost use Rattle.b2_base.specs.Segments.{is_rooted, is_up};
ghost use Rattle.b2_virtual.specs.Spots.{spot};

use b2_base::fault::OutOfMemory;
use b2_base::path::Path;
use b2_base::rooted::is_rooted;
use b2_base::segments::begins_above;
use b2_base::text::Text;
use b2_base::text_list::TextList;
use std::alloc::Global;

/// Whether a path's spot begins with the path itself, and not with a `.`.
fn is_led(path: &str) -> bool
    requires { IsNormal path.now }
    ensures { result ≡ (is_rooted path.now || is_up (first_part path.now)) }
{
    is_rooted(path) || begins_above(path)
}

fn slashed(alloc: Global, text: &str) -> Result<Text, OutOfMemory>
    requires { HasNoZero text.now }
    ensures { IfOk result (λ made. made ≡ text.now ++ codes "/") }
{
    Ok(Text::from_string(format!(in alloc; "{text}/")?))
}

fn slashed_here(alloc: Global, text: &str) -> Result<Text, OutOfMemory>
    requires { HasNoZero text.now }
    ensures { IfOk result (λ made. made ≡ codes "./" ++ text.now ++ codes "/") }
{
    Ok(Text::from_string(format!(in alloc; "./{text}/")?))
}

/// The spot of a path that is neither the folder nor the root.
fn spot_of_name(alloc: Global, text: &str) -> Result<Text, OutOfMemory>
    requires normal { IsNormal text.now }
    requires no_zero { HasNoZero text.now }
    requires not_here { text.now ≢ codes "." }
    requires not_root { text.now ≢ codes "/" }
    ensures { IfOk result (λ made. made ≡ spot text.now) }
{
    if is_led(text) {
        return slashed(alloc, text);
    }
    slashed_here(alloc, text)
}

/// The spot of a path: a text that begins the spot of each path inside, and of no other one.
pub fn spot(alloc: Global, path: &Path) -> Result<Text, OutOfMemory>
    ensures text { IfOk result (λ made. made ≡ spot path.now) }
    ensures normal { IsNormal path.now }
{
    match path.as_str() {
        "." => Ok(Text::new(alloc, "./")?),
        "/" => Ok(Text::new(alloc, "/")?),
        text => spot_of_name(alloc, text),
    }
}

/// The spots of paths, in order.
pub fn spots(alloc: Global, paths: &[Path]) -> Result<TextList, OutOfMemory>
    ensures texts { IfOk result (λ made. made ≡ map spot paths.now) }
    ensures normal { OnOk result (AllByRecursion IsNormal paths.now) }
{
    let mut made = TextList::new(alloc);
    for path in paths {
        made.push(spot(alloc, path)?)?;
    }
    Ok(made)
}
