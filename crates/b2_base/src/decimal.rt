//! Decimal digits.
ghost use Rattle.std.specs.Prelude.{◌≡◌};
ghost use Rattle.b2_base.specs.Decimals.{has_lead};

/// Whether a plus sign stands first, or a zero before further digits: then no number is written so, though it may parse. Takes
/// no memory.
pub fn has_lead(digits: &[u8]) -> bool
    ensures { result ≡ has_lead digits.now }
{
    matches!(digits, [b'+', ..] | [b'0', _, ..])
}
