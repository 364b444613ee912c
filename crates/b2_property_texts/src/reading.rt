//! The property texts of a project file.
ghost use Rattle.std.specs.Prelude.{◌≡◌, Ok, IfOk, IfErr, IfSome, option_map};
ghost use Rattle.std.specs.Option.{option_copied};
ghost use Rattle.b2_base.specs.Bytes.{HasNoZero};
ghost use Rattle.b2_features.specs.declared.fault.FeatureFault.TheVariants as faults;
ghost use Rattle.b2_property_texts.specs.Readings.{property_reading, conditional_of, usage_reading, rule_value, rule_name, rule_reading, requirement_reading, IsFaultOf};

use crate::cuts::{cut_at, named_pair};
use crate::properties::{all_of, property_of, unknown_word};
use b2_base::fault::OutOfMemory;
use b2_base::path::Path;
use b2_base::text::Text;
use b2_features::fault::FeatureFault;
use b2_features::registry::Registry;
use b2_props::pair_list::PairList;
use b2_props::words::commas;
use std::alloc::Global;

/// What stands between the conditions of a text and its property, of which the sign `<` is the first one.
const CONDITION_END: &str = ":<";

/// A property, and the conditions under which it is required; without any it always is.
#[derive(Drop)]
pub struct Conditional {
    pub conditions: PairList,
    pub property: (Text, Text),
}

/// What a target or a project requires, as its file says it.
#[derive(Drop)]
pub enum RequirementText {
    Plain(Conditional),
    /// The properties that the rule of this name answers.
    Indirect(Text),
}

fn unknown(alloc: Global, word: &str) -> Result<FeatureFault, OutOfMemory>
    requires { HasNoZero word.now }
    ensures { IfOk result (λ fault. fault ≡ faults.Unknown word.now) }
{
    Ok(FeatureFault::Unknown {
        word: Text::new(alloc, word)?,
    })
}

/// Reads a property without conditions: `<feature>value`, or an implicit value. The value of a path is made relative to
/// the folder, that of a dependency a whole reference, both from the project's directory. Unknown is a text that names
/// no feature, a feature that is not there, or a value that its feature does not have.
pub fn read_property(
    alloc: Global,
    registry: &Registry,
    dir: &Path,
    text: &Text,
) -> Result<(Text, Text), FeatureFault>
    ensures ok { IfOk result (λ property. property_reading registry.now dir.now text.now ≡ Ok property) }
    ensures fault { IfErr result (IsFaultOf (property_reading registry.now dir.now text.now)) }
{
    match property_of(alloc, registry, dir, text)? {
        Some(property) => Ok(property),
        None => Err(unknown(alloc, unknown_word(registry, text))?),
    }
}

/// The property with conditions of a text that is cut at its first `:<`, where it is one.
fn conditional_of(
    alloc: Global,
    registry: &Registry,
    dir: &Path,
    before: &str,
    after: &str,
) -> Result<Option<Conditional>, OutOfMemory>
    requires before { HasNoZero before.now }
    requires after { HasNoZero after.now }
    ensures { IfOk result (λ made. made ≡ conditional_of registry.now dir.now (before.now, after.now)) }
{
    let conditions = commas(alloc, before)?;
    let Some(conditions) = all_of(alloc, registry, dir, conditions.as_slice())? else {
        return Ok(None);
    };
    let property = Text::from_string(format!(in alloc; "<{after}")?);
    match property_of(alloc, registry, dir, &property)? {
        None => Ok(None),
        Some(property) => Ok(Some(Conditional {
            conditions,
            property,
        })),
    }
}

/// Reads a usage requirement: a property, or conditions with commas between them, the sign `:` and a property
/// `<feature>value`. Where a part of a text with conditions is no property, the whole text is unknown.
pub fn read_usage(
    alloc: Global,
    registry: &Registry,
    dir: &Path,
    text: &Text,
) -> Result<Conditional, FeatureFault>
    ensures ok { IfOk result (λ usage. usage_reading registry.now dir.now text.now ≡ Ok usage) }
    ensures fault { IfErr result (IsFaultOf (usage_reading registry.now dir.now text.now)) }
{
    match cut_at(text.as_str(), CONDITION_END) {
        None => Ok(Conditional {
            conditions: PairList::new(alloc),
            property: read_property(alloc, registry, dir, text)?,
        }),
        Some((before, after)) => match conditional_of(alloc, registry, dir, before, after)? {
            Some(usage) => Ok(usage),
            None => Err(FeatureFault::Unknown { word: text.copy()? }),
        },
    }
}

/// The value of a text `<conditional>value` without conditions.
fn rule_value(text: &str) -> Option<&str>
    requires { HasNoZero text.now }
    ensures value { option_map (λ value. value.now) result ≡ rule_value text.now }
    ensures clean { IfSome result (λ value. HasNoZero value.now) }
{
    if cut_at(text, CONDITION_END).is_some() {
        return None;
    }
    let (feature, value) = named_pair(text)?;
    if feature == "conditional" {
        Some(value)
    } else {
        None
    }
}

/// The rule that a value names after its `@`.
fn rule_name(value: &str) -> Option<&str>
    requires { HasNoZero value.now }
    ensures rule { option_copied result ≡ rule_name value.now }
    ensures clean { IfSome result (λ rule. HasNoZero rule.now) }
{
    match value.strip_prefix('@') {
        None => None,
        Some(rule) => { if rule.is_empty() { None } else { Some(rule) } }
    }
}

/// Reads the value of an indirect requirement: `@` and the name of a rule. Every other value is a bad one.
fn read_rule(alloc: Global, value: &str) -> Result<RequirementText, FeatureFault>
    requires { HasNoZero value.now }
    ensures ok { IfOk result (λ read. rule_reading value.now ≡ Ok read) }
    ensures fault { IfErr result (IsFaultOf (rule_reading value.now)) }
{
    match rule_name(value) {
        Some(rule) => Ok(RequirementText::Indirect(Text::new(alloc, rule)?)),
        None => Err(FeatureFault::BadValue {
            word: Text::new(alloc, value)?,
        }),
    }
}

/// Reads a requirement of a target or a project: what a usage requirement may be, or `<conditional>@rule`, which is no
/// property. A text `<conditional>value` of another value is a bad one; with conditions, `conditional` is a feature like
/// others.
pub fn read_requirement(
    alloc: Global,
    registry: &Registry,
    dir: &Path,
    text: &Text,
) -> Result<RequirementText, FeatureFault>
    ensures ok { IfOk result (λ read. requirement_reading registry.now dir.now text.now ≡ Ok read) }
    ensures fault { IfErr result (IsFaultOf (requirement_reading registry.now dir.now text.now)) }
{
    match rule_value(text.as_str()) {
        Some(value) => read_rule(alloc, value),
        None => Ok(RequirementText::Plain(read_usage(alloc, registry, dir, text)?)),
    }
}
