//! Output roots.
ghost use Rattle.std.specs.Prelude.{◌↔◌, IsTrue};
ghost use Rattle.b2_plan.specs.Sources.{IsInRoots};

use b2_base::path::Path;

/// Whether a path lies under an output root; takes no memory.
pub fn is_in_roots(roots: &[Path], path: &Path) -> bool
    ensures { IsTrue result ↔ IsInRoots roots.now path.now }
{
    for root in roots {
        if path.under(root) {
            return true;
        }
    }
    false
}
