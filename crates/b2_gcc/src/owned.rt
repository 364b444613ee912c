//! The pairs of tables.
ghost use Rattle.std.specs.Prelude.{◌≡◌, ◌∷◌, [], ◌++◌, All, IfOk, OnOk};
ghost use Rattle.b2_base.specs.Bytes.{HasNoZero};
ghost use Rattle.b2_gcc.specs.Rows.{pairs};

use b2_base::fault::OutOfMemory;
use b2_base::text::Text;
use b2_props::pair_list::PairList;
use std::alloc::Global;

fn push_pair(
    alloc: Global,
    made: &mut PairList,
    feature: &str,
    value: &str,
) -> Result<(), OutOfMemory>
    requires feature { HasNoZero feature.now }
    requires value { HasNoZero value.now }
    ensures { OnOk result (made.new ≡ made.old ++ (feature.now, value.now) ∷ []) }
{
    let feature = Text::new(alloc, feature)?;
    let value = Text::new(alloc, value)?;
    made.push(feature, value)
}

/// Copies of a table's properties, in order.
pub(crate) fn owned_pairs(alloc: Global, rows: &[(&str, &str)]) -> Result<PairList, OutOfMemory>
    requires features { All (λ pair. HasNoZero pair.0.now) rows.now }
    requires values { All (λ pair. HasNoZero pair.1.now) rows.now }
    ensures { IfOk result (λ made. made ≡ pairs rows.now) }
{
    let mut made = PairList::new(alloc);
    for pair in rows {
        push_pair(alloc, &mut made, pair.0, pair.1)?;
    }
    Ok(made)
}
