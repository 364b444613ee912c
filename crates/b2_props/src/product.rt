//! All choices of one of each.
ghost use Rattle.std.specs.Prelude.{◌≡◌, ◌++◌, ◌∷◌, [], IfOk, OnOk, map};
ghost use Rattle.std.specs.List.{flat_map};
ghost use Rattle.b2_props.specs.Requests.{product};

use crate::pair_list::copy_pair;
use crate::word_choice::{Factor, WordChoice};
use b2_base::fault::OutOfMemory;
use std::alloc::Global;

fn copy(choice: &WordChoice) -> Result<WordChoice, OutOfMemory>
    ensures { IfOk result (λ made. made ≡ choice.now) }
{
    Ok(WordChoice {
        pair: copy_pair(&choice.pair)?,
        word: choice.word,
    })
}

/// A row followed by one choice more.
fn longer(
    alloc: Global,
    row: &[WordChoice],
    choice: &WordChoice,
) -> Result<Vec<WordChoice>, OutOfMemory>
    ensures { IfOk result (λ made. made.items ≡ row.now ++ choice.now ∷ []) }
{
    let mut made = Vec::new(alloc);
    for earlier in row {
        made.push(copy(earlier)?)?;
    }
    made.push(copy(choice)?)?;
    Ok(made)
}

fn push_all(
    alloc: Global,
    rows: &mut Vec<Vec<WordChoice>>,
    row: &[WordChoice],
    choices: &[WordChoice],
) -> Result<(), OutOfMemory>
    ensures { OnOk result (map (λ r. r.items) rows.new.items ≡ map (λ r. r.items) rows.old.items ++ map (λ choice. row.now ++ choice ∷ []) choices.now) }
{
    for choice in choices {
        rows.push(longer(alloc, row, choice)?)?;
    }
    Ok(())
}

/// Adds a row for each choice; the row itself becomes the last of them, so that one choice alone costs no copy of the row.
fn branch(
    alloc: Global,
    rows: &mut Vec<Vec<WordChoice>>,
    row: Vec<WordChoice>,
    choices: &[WordChoice],
) -> Result<(), OutOfMemory>
    ensures { OnOk result (map (λ r. r.items) rows.new.items ≡ map (λ r. r.items) rows.old.items ++ map (λ choice. row.items ++ choice ∷ []) choices.now) }
{
    let mut row = row;
    if let Some((last, others)) = choices.split_last() {
        push_all(alloc, rows, row.as_slice(), others)?;
        row.push(copy(last)?)?;
        rows.push(row)?;
    }
    Ok(())
}

fn grown(
    alloc: Global,
    rows: Vec<Vec<WordChoice>>,
    choices: &[WordChoice],
) -> Result<Vec<Vec<WordChoice>>, OutOfMemory>
    ensures { IfOk result (λ made. map (λ r. r.items) made.items ≡ flat_map (λ row. map (λ choice. row ++ choice ∷ []) choices.now) (map (λ r. r.items) rows.items)) }
{
    let mut made = Vec::new(alloc);
    for row in rows {
        branch(alloc, &mut made, row, choices)?;
    }
    Ok(made)
}

/// All lists with one choice of each factor, the leftmost varying slowest.
pub(crate) fn product(
    alloc: Global,
    factors: &[Factor],
) -> Result<Vec<Vec<WordChoice>>, OutOfMemory>
    ensures { IfOk result (λ made. map (λ r. r.items) made.items ≡ product (map (λ f. f.choices.items) factors.now)) }
{
    let mut rows = Vec::new(alloc);
    rows.push(Vec::new(alloc))?;
    for factor in factors {
        rows = grown(alloc, rows, factor.choices.as_slice())?;
    }
    Ok(rows)
}
