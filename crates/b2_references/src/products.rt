//! All rows with one pair of each of some lists.
ghost use Rattle.std.specs.Prelude.{◌≡◌, ◌++◌, ◌∷◌, [], IfOk, OnOk, map};
ghost use Rattle.std.specs.List.{flat_map};
ghost use Rattle.b2_props.specs.Requests.{product};

use crate::groups::PairLists;
use b2_base::fault::OutOfMemory;
use b2_base::text::Text;
use b2_props::pair_list::PairList;
use std::alloc::Global;

/// A row followed by one pair more.
fn longer(alloc: Global, row: &PairList, pair: &(Text, Text)) -> Result<PairList, OutOfMemory>
    ensures { IfOk result (λ made. made ≡ row.now ++ pair.now ∷ []) }
{
    let mut made = row.copy(alloc)?;
    made.push(pair.0.copy()?, pair.1.copy()?)?;
    Ok(made)
}

fn push_longer(
    alloc: Global,
    rows: &mut PairLists,
    row: &PairList,
    pairs: &[(Text, Text)],
) -> Result<(), OutOfMemory>
    ensures { OnOk result (rows.new ≡ rows.old ++ map (λ pair. row.now ++ pair ∷ []) pairs.now) }
{
    for pair in pairs {
        rows.push(longer(alloc, row, pair)?)?;
    }
    Ok(())
}

/// Each row with one of some pairs more.
fn grown(alloc: Global, rows: &[PairList], pairs: &[(Text, Text)]) -> Result<PairLists, OutOfMemory>
    ensures { IfOk result (λ made. made ≡ flat_map (λ row. map (λ pair. row ++ pair ∷ []) pairs.now) rows.now) }
{
    let mut made = PairLists::new(alloc);
    for row in rows {
        push_longer(alloc, &mut made, row, pairs)?;
    }
    Ok(made)
}

/// A row followed by one pair of each list, in all ways, the leftmost varying slowest.
pub(crate) fn rows_after(
    alloc: Global,
    row: PairList,
    lists: &[PairList],
) -> Result<PairLists, OutOfMemory>
    ensures { IfOk result (λ made. made ≡ map (λ pairs. row ++ pairs) (product lists.now)) }
{
    let mut rows = PairLists::new(alloc);
    rows.push(row)?;
    for list in lists {
        rows = grown(alloc, rows.as_slice(), list.as_slice())?;
    }
    Ok(rows)
}
