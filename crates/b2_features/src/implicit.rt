//! The implicit values.
ghost use Rattle.std.specs.Prelude.{◌≡◌, ℕ, List, [], string_bytes, IfOk};
ghost use Rattle.std.specs.List.{list_any};
ghost use Rattle.std.specs.Str.{bytes_eq};
ghost use Rattle.b2_features.specs.Table.{declared, is_implicit_in};

use crate::attribute::Attribute;
use crate::text_places::copy_strings;
use b2_base::fault::OutOfMemory;
use b2_base::text::Text;
use std::alloc::Global;

/// The implicit values of a feature: all of them where it is implicit, else none.
pub(crate) fn implicit_values(
    alloc: Global,
    values: &[Text],
    attributes: &[Text],
) -> Result<Vec<String>, OutOfMemory>
    ensures { IfOk result (λ made. (q : List ℕ) → list_any (λ value. bytes_eq q (string_bytes value)) made.items ≡ is_implicit_in q (declared [] values.now attributes.now)) }
{
    if Attribute::Implicit.stands_in(attributes) {
        copy_strings(alloc, values)
    } else {
        Ok(Vec::new(alloc))
    }
}
