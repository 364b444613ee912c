//! Laws of names and patterns.
ghost use Rattle.std.specs.Prelude.{◌≡◌, ◌↔◌, ℕ, List};
ghost use Rattle.jam_path.specs.Names.{parts_of, joined, IsPlain};

/// Joining the parts of a name gives the name back exactly where it is plain: its last slash does not follow another
/// one, something other than a member stands after that slash, unless the directory is the root, and parentheses at the
/// end are not empty.
pub fn join_gives_back()
    ensures { (text : List ℕ) → (joined (parts_of text) ≡ text) ↔ IsPlain text }
{}
