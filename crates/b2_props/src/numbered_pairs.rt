//! Pairs with the number of their list.
ghost use Rattle.std.specs.Prelude.{◌≡◌};
ghost use Rattle.b2_props.specs.Numbers.{with_byte, with_text, number_of};

use b2_base::text::Text;

/// Pairs, which never change, beside the number of their list, by which lists that differ are mostly told apart.
#[derive(Drop)]
pub(crate) struct NumberedPairs {
    pub(crate) pairs: Vec<(Text, Text)>,
    pub(crate) number: u64,
    ghost is_number: { number ≡ number_of pairs.items },
}

fn with_byte(number: u64, byte: u8) -> u64
    ensures { result ≡ with_byte number byte }
{
    number
        .wrapping_mul(1_099_511_628_211)
        .wrapping_add(byte as u64)
}

#[tactic(auto, unfolding(crate::specs::Numbers::with_text))]
fn with_text(before: u64, text: &Text) -> u64
    ensures { result ≡ with_text before text.now }
{
    let mut number = before;
    for byte in text.as_str().as_bytes() {
        number = with_byte(number, *byte);
    }
    with_byte(number, 0)
}

#[tactic(auto, unfolding(crate::specs::Numbers::number_of))]
fn number_of(pairs: &[(Text, Text)]) -> u64
    ensures { result ≡ number_of pairs.now }
{
    let mut number = 0;
    for pair in pairs {
        number = with_text(with_text(number, &pair.0), &pair.1);
    }
    number
}

impl NumberedPairs {
    /// These pairs with their number; takes no memory.
    pub(crate) fn new(pairs: Vec<(Text, Text)>) -> NumberedPairs
        ensures { result.pairs ≡ pairs }
    {
        let number = number_of(pairs.as_slice());
        NumberedPairs { pairs, number }
    }
}
