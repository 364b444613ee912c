//! Texts of lists.
ghost use Rattle.std.specs.Prelude.{◌≡◌, ◌++◌, ◌∷◌, IfOk, OnOk, string_bytes, codes};
ghost use Rattle.std.specs.List.{flat_map};
ghost use Rattle.b2_alternatives.specs.Choosing.{property_text};
ghost use Rattle.b2_refusals.specs.Pieces.{joined, with_arrows, after_spaces, props_text};
ghost use Rattle.b2_runs.specs.Reports.{first_out, cycle_text};

use b2_base::fault::OutOfMemory;
use b2_base::text::Text;
use b2_plan::step::Step;
use b2_props::props::Props;
use b2_runs::steps::{find_step, first_path};
use std::alloc::Global;

/// Adds two texts.
fn push_both(line: &mut String, first: &str, second: &str) -> Result<(), OutOfMemory>
    ensures { OnOk result (string_bytes line.new ≡ string_bytes line.old ++ (first.now ++ second.now)) }
{
    line.push_str(first)?;
    line.push_str(second)?;
    Ok(())
}

// Texts.

/// The first text, and the others each after the same one.
fn joined_from(
    alloc: Global,
    between: &str,
    first: &Text,
    others: &[Text],
) -> Result<String, OutOfMemory>
    ensures { IfOk result (λ text. string_bytes text ≡ first.now ++ flat_map (λ other. between.now ++ other) others.now) }
{
    let mut line = String::from_str(alloc, first.as_str())?;
    for other in others {
        push_both(&mut line, between, other.as_str())?;
    }
    Ok(line)
}

/// Texts with one between each two.
pub fn joined(alloc: Global, between: &str, texts: &[Text]) -> Result<String, OutOfMemory>
    ensures { IfOk result (λ text. string_bytes text ≡ joined between.now texts.now) }
{
    match texts {
        [] => Ok(String::new(alloc)),
        [first, others @ ..] => joined_from(alloc, between, first, others),
    }
}

/// Texts with an arrow between each two, and the first one again after the last one.
fn circle_from(alloc: Global, first: &Text, texts: &[Text]) -> Result<String, OutOfMemory>
    ensures { IfOk result (λ text. string_bytes text ≡ joined (codes " -> ") texts.now ++ codes " -> " ++ first.now) }
{
    let mut line = joined(alloc, " -> ", texts)?;
    push_both(&mut line, " -> ", first.as_str())?;
    Ok(line)
}

/// Texts of which each needs the next one, and the last one the first.
pub fn with_arrows(alloc: Global, texts: &[Text]) -> Result<String, OutOfMemory>
    ensures { IfOk result (λ text. string_bytes text ≡ with_arrows texts.now) }
{
    match texts {
        [] => Ok(String::new(alloc)),
        [first, ..] => circle_from(alloc, first, texts),
    }
}

// Properties.

/// A property as `<feature>value`.
pub fn property_text(alloc: Global, feature: &Text, value: &Text) -> Result<String, OutOfMemory>
    ensures { IfOk result (λ text. string_bytes text ≡ property_text (feature.now, value.now)) }
{
    let feature = feature.as_str();
    let value = value.as_str();
    Ok(format!(in alloc; "<{feature}>{value}")?)
}

/// Adds properties, each after a space.
pub fn push_properties(
    alloc: Global,
    line: &mut String,
    pairs: &[(Text, Text)],
) -> Result<(), OutOfMemory>
    ensures { OnOk result (string_bytes line.new ≡ string_bytes line.old ++ after_spaces pairs.now) }
{
    for pair in pairs {
        let text = property_text(alloc, &pair.0, &pair.1)?;
        push_both(line, " ", text.as_str())?;
    }
    Ok(())
}

fn properties_from(
    alloc: Global,
    first: &(Text, Text),
    others: &[(Text, Text)],
) -> Result<String, OutOfMemory>
    ensures { IfOk result (λ text. string_bytes text ≡ property_text first.now ++ after_spaces others.now) }
{
    let mut line = property_text(alloc, &first.0, &first.1)?;
    push_properties(alloc, &mut line, others)?;
    Ok(line)
}

/// The properties of a set with one space between them.
pub fn props_text(alloc: Global, set: &Props) -> Result<String, OutOfMemory>
    ensures { IfOk result (λ text. string_bytes text ≡ props_text set.now) }
{
    match set.pairs() {
        [] => Ok(String::new(alloc)),
        [first, others @ ..] => properties_from(alloc, first, others),
    }
}

// Steps.

/// The first output of the step with a number; of a number that is no step's the empty text.
fn first_out(steps: &[Step], number: u32) -> &str
    ensures { result.now ≡ first_out steps.now number }
{
    match find_step(steps, number) {
        None => "",
        Some(step) => first_path(step),
    }
}

/// Adds the first outputs of steps, each after an arrow.
fn push_outs(line: &mut String, steps: &[Step], numbers: &[u32]) -> Result<(), OutOfMemory>
    ensures { OnOk result (string_bytes line.new ≡ string_bytes line.old ++ flat_map (λ number. codes " -> " ++ first_out steps.now number) numbers.now) }
{
    for number in numbers {
        push_both(line, " -> ", first_out(steps, *number))?;
    }
    Ok(())
}

fn cycle_from(
    alloc: Global,
    steps: &[Step],
    first: u32,
    others: &[u32],
) -> Result<String, OutOfMemory>
    ensures { IfOk result (λ text. string_bytes text ≡ cycle_text steps.now (first ∷ others.now)) }
{
    let out = first_out(steps, first);
    let mut line = String::from_str(alloc, out)?;
    push_outs(&mut line, steps, others)?;
    push_both(&mut line, " -> ", out)?;
    Ok(line)
}

/// The first outputs of the steps of a cycle.
pub fn cycle_text(alloc: Global, steps: &[Step], list: &[u32]) -> Result<String, OutOfMemory>
    ensures { IfOk result (λ text. string_bytes text ≡ cycle_text steps.now list.now) }
{
    match list {
        [] => Ok(String::new(alloc)),
        [first, others @ ..] => cycle_from(alloc, steps, *first, others),
    }
}
