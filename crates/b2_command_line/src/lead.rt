//! Texts that begin with a lead.
ghost use Rattle.std.specs.Prelude.{◌≡◌, option_map, IfSome};
ghost use Rattle.b2_base.specs.Bytes.{HasNoZero};
ghost use Rattle.b2_command_line.specs.Words.{after_lead};

/// What follows a lead in a text that begins with it. Takes no memory.
pub fn after_lead<'a>(text: &'a str, lead: &str) -> Option<&'a str>
    requires { HasNoZero text.now }
    ensures rest { option_map (λ rest. rest.now) result ≡ after_lead lead.now text.now }
    ensures no_zero { IfSome result (λ rest. HasNoZero rest.now) }
{
    text.strip_prefix(lead)
}
