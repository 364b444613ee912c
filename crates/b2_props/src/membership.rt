//! Whether pairs stand among others.
ghost use Rattle.std.specs.Prelude.{◌≡◌};
ghost use Rattle.b2_props.specs.Membership.{has, has_all};

use b2_base::text::Text;

fn has(pairs: &[(Text, Text)], pair: &(Text, Text)) -> bool
    ensures { result ≡ has pairs.now pair.now }
{
    pairs
        .iter()
        .any(|other| other.0 == pair.0 && other.1 == pair.1)
}

/// Whether some pairs have all of some others; takes no memory.
pub fn has_all(pairs: &[(Text, Text)], others: &[(Text, Text)]) -> bool
    ensures { result ≡ has_all pairs.now others.now }
{
    others.iter().all(|pair| has(pairs, pair))
}
