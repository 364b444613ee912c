//! A file name, taken apart and put together.
ghost use Rattle.std.specs.Prelude.{◌≡◌, ◌++◌, IfOk, OnOk, string_bytes};
ghost use Rattle.b2_base.specs.Bytes.{HasNoZero};
ghost use Rattle.jam_path.specs.Names.{parts_of, joined, grist_text, slash_text, member_text, path_text};

use crate::cut::{cut_dir, cut_grist, cut_member, cut_suffix};
use crate::name_parts::NameParts;
use b2_base::fault::OutOfMemory;
use b2_base::text::Text;
use std::alloc::Global;

/// The parts of a name. The grist is a leading `<` up to the first `>`, with both. The directory stands before the last
/// slash of what follows, and is `/` where nothing stands there. A file that ends with `)` and has a `(` has a member,
/// which stands between the first `(` and the end. In what is left, the suffix begins at the last dot.
pub fn parts(alloc: Global, text: &str) -> Result<NameParts, OutOfMemory>
    requires { HasNoZero text.now }
    ensures { IfOk result (λ name. name ≡ parts_of text.now) }
{
    let (grist, path) = cut_grist(text);
    let (dir, file) = cut_dir(path);
    let (stem, member) = cut_member(file);
    let (base, suffix) = cut_suffix(stem);
    let grist = Text::new(alloc, grist)?;
    let dir = Text::new(alloc, dir)?;
    let base = Text::new(alloc, base)?;
    let suffix = Text::new(alloc, suffix)?;
    let member = Text::new(alloc, member)?;
    Ok(NameParts {
        grist,
        dir,
        base,
        suffix,
        member,
    })
}

/// Writes a grist at the end: in `<` and `>`, unless it is empty or begins with `<`.
pub fn push_grist(text: &mut String, grist: &Text) -> Result<(), OutOfMemory>
    requires { HasNoZero (string_bytes text.old) }
    ensures value { OnOk result (string_bytes text.new ≡ string_bytes text.old ++ grist_text grist.now) }
    ensures no_zero { OnOk result (HasNoZero (string_bytes text.new)) }
{
    let grist = grist.as_str();
    if grist.is_empty() || grist.starts_with('<') {
        text.push_str(grist)?;
        return Ok(());
    }
    text.push('<')?;
    text.push_str(grist)?;
    text.push('>')?;
    Ok(())
}

fn push_slash(text: &mut String, name: &NameParts) -> Result<(), OutOfMemory>
    requires { HasNoZero (string_bytes text.old) }
    ensures value { OnOk result (string_bytes text.new ≡ string_bytes text.old ++ slash_text name.now) }
    ensures no_zero { OnOk result (HasNoZero (string_bytes text.new)) }
{
    let dir = name.dir.as_str();
    let has_file = !name.base.as_str().is_empty() || !name.suffix.as_str().is_empty();
    if !dir.is_empty() && !dir.ends_with('/') && has_file {
        text.push('/')?;
    }
    Ok(())
}

fn push_member(text: &mut String, member: &Text) -> Result<(), OutOfMemory>
    requires { HasNoZero (string_bytes text.old) }
    ensures value { OnOk result (string_bytes text.new ≡ string_bytes text.old ++ member_text member.now) }
    ensures no_zero { OnOk result (HasNoZero (string_bytes text.new)) }
{
    let member = member.as_str();
    if member.is_empty() {
        return Ok(());
    }
    text.push('(')?;
    text.push_str(member)?;
    text.push(')')?;
    Ok(())
}

/// Writes all parts but the grist at the end: the directory; a slash, where the directory is neither empty nor ends with
/// one and there is a base or a suffix; the base, the suffix, and a member that is not empty in parentheses.
pub fn push_path(text: &mut String, name: &NameParts) -> Result<(), OutOfMemory>
    requires { HasNoZero (string_bytes text.old) }
    ensures value { OnOk result (string_bytes text.new ≡ string_bytes text.old ++ path_text name.now) }
    ensures no_zero { OnOk result (HasNoZero (string_bytes text.new)) }
{
    text.push_str(name.dir.as_str())?;
    push_slash(text, name)?;
    text.push_str(name.base.as_str())?;
    text.push_str(name.suffix.as_str())?;
    push_member(text, &name.member)?;
    Ok(())
}

/// The name that the parts make: the grist, as `push_grist` writes it, and the path, as `push_path` does.
pub fn join(alloc: Global, name: &NameParts) -> Result<Text, OutOfMemory>
    ensures { IfOk result (λ made. made ≡ joined name.now) }
{
    let mut text = String::new(alloc);
    push_grist(&mut text, &name.grist)?;
    push_path(&mut text, name)?;
    Ok(Text::from_string(text))
}
