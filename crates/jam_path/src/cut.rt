//! A name, cut in two at a sign.
ghost use Rattle.std.specs.Prelude.{◌≡◌};
ghost use Rattle.b2_base.specs.Segments.{file_name, without_suffix};
ghost use Rattle.jam_path.specs.Names.{grist_of, path_of, or_root, dir_of, member_of, stem_of, suffix_of};

/// The grist, and the path after it.
pub(crate) fn cut_grist(text: &str) -> (&str, &str)
    ensures grist { result.0.now ≡ grist_of text.now }
    ensures path { result.1.now ≡ path_of text.now }
{
    if !text.starts_with('<') {
        return ("", text);
    }
    match text.find('>') {
        None => ("", text),
        Some(end) => text.split_at(end + 1),
    }
}

/// The root where nothing stands before the slash.
fn or_root(before: &str) -> &str
    ensures { result.now ≡ or_root before.now }
{
    if before.is_empty() { "/" } else { before }
}

/// The directory, which stands before the last slash and is `/` where nothing stands there, and the file after it. Takes no
/// memory.
pub fn cut_dir(path: &str) -> (&str, &str)
    ensures dir { result.0.now ≡ dir_of path.now }
    ensures file { result.1.now ≡ file_name path.now }
{
    match path.rsplit_once('/') {
        None => ("", path),
        Some((before, file)) => (or_root(before), file),
    }
}

/// What stands before the member, and the member.
pub(crate) fn cut_member(file: &str) -> (&str, &str)
    ensures stem { result.0.now ≡ stem_of file.now }
    ensures member { result.1.now ≡ member_of file.now }
{
    let Some((stem, after)) = file.split_once('(') else {
        return (file, "");
    };
    match after.strip_suffix(')') {
        None => (file, ""),
        Some(member) => (stem, member),
    }
}

/// The base, and the suffix with its dot.
pub(crate) fn cut_suffix(stem: &str) -> (&str, &str)
    ensures base { result.0.now ≡ without_suffix stem.now }
    ensures suffix { result.1.now ≡ suffix_of stem.now }
{
    match stem.rfind('.') {
        None => (stem, ""),
        Some(dot) => stem.split_at(dot),
    }
}
