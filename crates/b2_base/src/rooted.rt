//! Where a path begins.
ghost use Rattle.std.specs.Prelude.{◌≡◌};
ghost use Rattle.b2_base.specs.Segments.{is_rooted};

/// Whether a text begins with a slash; takes no memory.
pub fn is_rooted(text: &str) -> bool
    ensures { result ≡ is_rooted text.now }
{
    text.starts_with('/')
}
