//! The suffix of a file's name.
ghost use Rattle.std.specs.Prelude.{◌≡◌};
ghost use Rattle.std.specs.Option.{option_copied};
ghost use Rattle.b2_generators.specs.Table.{last_suffix};

/// What stands after the last dot of a file's name, where it has one; takes no memory.
pub(crate) fn last_suffix(name: &str) -> Option<&str>
    ensures { option_copied result ≡ last_suffix name.now }
{
    match name.rsplit_once('.') {
        None => None,
        Some((_before, suffix)) => Some(suffix),
    }
}
