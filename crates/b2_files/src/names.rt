//! The names of files directly in a directory.
ghost use Rattle.std.specs.Prelude.{◌≡◌, ◌==◌, ℕ, List, ◌++◌, not, IfSome, IfNone};
ghost use Rattle.std.specs.List.{list_all};
ghost use Rattle.b2_base.specs.Bytes.{HasNoZero};
ghost use Rattle.b2_files.specs.Names.{IsNameIn, lead_in};

use b2_base::path::Path;

/// What follows the lead in a text that begins with it, else nothing.
fn after<'a>(text: &'a str, lead: &str) -> &'a str
    ensures { (rest : List ℕ) → text.now ≡ lead.now ++ rest → result.now ≡ rest }
{
    text.strip_prefix(lead).unwrap_or("")
}

/// What follows a directory and a slash in a text that begins so. Nothing stands before the names in `.`.
fn below<'a>(path: &'a str, dir: &str) -> &'a str
    ensures { (rest : List ℕ) → path.now ≡ lead_in dir.now ++ rest → result.now ≡ rest }
{
    match dir {
        "." => path,
        "/" => after(path, "/"),
        _ => after(after(path, dir), "/"),
    }
}

fn has_no_slash(text: &str) -> bool
    ensures { result ≡ list_all (λ byte. not (byte == 47)) text.now }
{
    text.as_bytes().iter().all(|byte| *byte != b'/')
}

/// The name of a path that is directly in a directory; None where it is not.
pub fn name_in<'a>(path: &'a Path, dir: &Path) -> Option<&'a str>
    ensures name { IfSome result (λ name. IsNameIn path.now dir.now name.now) }
    ensures text { IfSome result (λ name. path.now ≡ lead_in dir.now ++ name.now) }
    ensures none { IfNone result ((name : List ℕ) → IsNameIn path.now dir.now name → ⊥) }
    ensures no_zero { IfSome result (λ name. HasNoZero name.now) }
{
    if !path.under(dir) {
        return None;
    }
    let name = below(path.as_str(), dir.as_str());
    if has_no_slash(name) { Some(name) } else { None }
}
