//! What a main target depends on.
ghost use Rattle.std.specs.Prelude.{◌≡◌, IfOk, map};
ghost use Rattle.b2_alternatives.specs.Needs.{way_of, source_need, property_need, property_needs};

use b2_base::fault::OutOfMemory;
use b2_base::list::List;
use b2_base::text::Text;
use b2_features::attribute::Attribute;
use b2_props::lookups::is_with;
use b2_references::index::Index;
use b2_references::meaning::Meaning;
use b2_references::name::TargetName;
use b2_references::references::{source_meaning, value_meaning};
use std::alloc::Global;

/// How a target needs something.
#[derive(Clone, Copy)]
pub enum NeedKind {
    /// As a source: one of its sources, or the value of a `<source>` property.
    Source,
    /// As a library, by a `<library>` property.
    Library,
    /// Only to be there before it is made: by a `<dependency>` or `<use>` property, or by one of another dependency feature.
    Order,
}

/// A source or a dependency property: how it is needed, its text, and what that names.
#[derive(Drop)]
pub struct Need {
    pub way: NeedKind,
    pub text: Text,
    pub meaning: Meaning,
}

/// What the walk over the needs of an alternative does next.
#[derive(Drop)]
pub enum Next {
    /// Nothing more.
    Complete,
    /// This text names nothing.
    Missing { text: Text },
    /// This main target is to be generated.
    Due { name: TargetName },
}

fn way_of(feature: &str) -> NeedKind
    ensures { result ≡ way_of feature.now }
{
    if feature == "source" {
        NeedKind::Source
    } else if feature == "library" {
        NeedKind::Library
    } else {
        NeedKind::Order
    }
}

fn source_need(
    alloc: Global,
    index: &Index<'_>,
    project: usize,
    text: &Text,
) -> Result<Need, OutOfMemory>
    ensures { IfOk result (λ made. made ≡ source_need index.now project text.now) }
{
    let meaning = source_meaning(alloc, index, project, text)?;
    Ok(Need {
        way: NeedKind::Source,
        text: text.copy()?,
        meaning,
    })
}

fn property_need(
    alloc: Global,
    index: &Index<'_>,
    property: &(Text, Text),
) -> Result<Need, OutOfMemory>
    ensures { IfOk result (λ made. made ≡ property_need index.now property.now) }
{
    let meaning = value_meaning(alloc, index, &property.1)?;
    Ok(Need {
        way: way_of(property.0.as_str()),
        text: property.1.copy()?,
        meaning,
    })
}

/// Sources of a main target of a project as needs, in order.
pub(crate) fn source_needs(
    alloc: Global,
    index: &Index<'_>,
    project: usize,
    sources: &[Text],
) -> Result<List<Need>, OutOfMemory>
    ensures { IfOk result (λ made. made ≡ map (source_need index.now project) sources.now) }
{
    let mut made = List::new(alloc);
    for text in sources {
        made.push(source_need(alloc, index, project, text)?)?;
    }
    Ok(made)
}

/// The dependency properties of a set as needs, in order.
pub(crate) fn property_needs(
    alloc: Global,
    index: &Index<'_>,
    set: &[(Text, Text)],
) -> Result<List<Need>, OutOfMemory>
    ensures { IfOk result (λ made. made ≡ property_needs index.now set.now) }
{
    let mut made = List::new(alloc);
    for property in set {
        if is_with(
            &index.declared().registry,
            Attribute::Dependency,
            property.0.as_str(),
        ) {
            made.push(property_need(alloc, index, property)?)?;
        }
    }
    Ok(made)
}
