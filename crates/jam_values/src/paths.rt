//! Where paths of files lie.
ghost use Rattle.std.specs.Prelude.{◌≡◌};
ghost use Rattle.std.specs.List.{list_any};
ghost use Rattle.b2_base.specs.Below.{is_below};

use b2_base::path::Path;

/// Whether a path lies below one of some directories. Takes no memory.
pub fn is_below_any(path: &Path, dirs: &[Path]) -> bool
    ensures { result ≡ list_any (λ dir. is_below path.now dir) dirs.now }
{
    dirs.iter().any(|dir| path.under(dir))
}
