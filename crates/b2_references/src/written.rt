//! References as they are written.
ghost use Rattle.std.specs.Prelude.{◌≡◌, codes, option_map, IfSome};
ghost use Rattle.b2_base.specs.Bytes.{HasNoZero};
ghost use Rattle.b2_property_texts.specs.Cuts.{cut_at, AreClean};

/// What stands before and after the first `//` of a text, where it stands there; takes no memory.
pub(crate) fn cut_reference(text: &str) -> Option<(&str, &str)>
    requires { HasNoZero text.now }
    ensures cut { option_map (λ parts. (parts.0.now, parts.1.now)) result ≡ cut_at (codes "//") text.now }
    ensures clean { IfSome result (λ parts. AreClean (parts.0.now, parts.1.now)) }
{
    text.split_once("//")
}
