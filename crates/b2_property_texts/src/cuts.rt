//! Texts cut at a mark.
ghost use Rattle.std.specs.Prelude.{◌≡◌, ◌<◌, ◌∷◌, option_map, length, IfSome};
ghost use Rattle.b2_base.specs.Bytes.{HasNoZero};
ghost use Rattle.b2_property_texts.specs.Cuts.{cut_at, named_pair, AreClean};

/// What stands before and after the first place of a mark in a text, where it stands there; takes no memory.
pub fn cut_at<'a>(text: &'a str, mark: &str) -> Option<(&'a str, &'a str)>
    requires text { HasNoZero text.now }
    requires mark { 0 < length mark.now }
    ensures cut { option_map (λ parts. (parts.0.now, parts.1.now)) result ≡ cut_at mark.now text.now }
    ensures clean { IfSome result (λ parts. AreClean (parts.0.now, parts.1.now)) }
{
    text.split_once(mark)
}

/// The feature and the value of a text `<feature>value` that is given without its `<`, which is 60; takes no memory.
pub fn pair_after(rest: &str) -> Option<(&str, &str)>
    requires { HasNoZero rest.now }
    ensures named { option_map (λ parts. (parts.0.now, parts.1.now)) result ≡ named_pair (60 ∷ rest.now) }
    ensures clean { IfSome result (λ parts. AreClean (parts.0.now, parts.1.now)) }
{
    rest.split_once('>')
}

/// The feature and the value of a text `<feature>value`; takes no memory.
pub fn named_pair(text: &str) -> Option<(&str, &str)>
    requires { HasNoZero text.now }
    ensures named { option_map (λ parts. (parts.0.now, parts.1.now)) result ≡ named_pair text.now }
    ensures clean { IfSome result (λ parts. AreClean (parts.0.now, parts.1.now)) }
{
    match text.strip_prefix('<') {
        None => None,
        Some(rest) => pair_after(rest),
    }
}
