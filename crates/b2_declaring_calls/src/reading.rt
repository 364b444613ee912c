//! The declaration of a call.
ghost use Rattle.std.specs.Prelude.{◌≡◌, IfOk};
ghost use Rattle.b2_base.specs.Lists.{list_at};
ghost use Rattle.b2_declaring_calls.specs.Lists.{text_at};
ghost use Rattle.b2_declaring_calls.specs.Targets.{is_refused_name};
ghost use Rattle.b2_declaring_calls.specs.Tests.{marker_name};
ghost use Rattle.b2_declaring_calls.specs.Declarations.{is_shaped, declared, shape_of, is_refused};

use crate::attributes::{are_attributes, attribute_lists, attributes, id_of};
use crate::declaration::Declaration;
use crate::declaring_rule::{DeclaringRule, rule_of};
use crate::lists::{first_of, text_at};
use crate::target::{counts_of, is_refused_name, target};
use crate::testing::{is_test_shaped, marker_name, test_of};
use b2_base::fault::OutOfMemory;
use b2_base::path::path_of;
use b2_base::shape::{Count, has_shape};
use b2_base::text::Text;
use b2_base::text_list::{TextList, copy_texts, list_at};
use b2_property_texts::cuts::named_pair;
use std::alloc::Global;

/// Whether the lists of a call are those of its rule; takes no memory.
fn is_shaped(rule: DeclaringRule, lists: &[TextList]) -> bool
    ensures { result ≡ is_shaped rule lists.now }
{
    match rule {
        DeclaringRule::Project => {
            Count::AtMostOne.holds(list_at(lists, 0)) && are_attributes(attribute_lists(lists))
        }
        DeclaringRule::Target(kind) => has_shape(counts_of(kind), lists),
        DeclaringRule::Explicit => has_shape(&[Count::AtLeastOne], lists),
        DeclaringRule::BuildProject => has_shape(&[Count::One], lists),
        DeclaringRule::UseProject => has_shape(&[Count::One, Count::One], lists),
        DeclaringRule::Using => {
            has_shape(&[Count::One, Count::Nothing, Count::AtMostOne], lists)
                && text_at(lists, 0) == "gcc"
        }
        DeclaringRule::Feature => has_shape(&[Count::One, Count::Any, Count::Any], lists),
        DeclaringRule::Compose => {
            has_shape(&[Count::One, Count::AtLeastOne], lists)
                && named_pair(text_at(lists, 0)).is_some()
        }
        DeclaringRule::FileType => has_shape(&[Count::One, Count::Any], lists),
        DeclaringRule::Generator => has_shape(
            &[Count::One, Count::AtLeastOne, Count::AtLeastOne, Count::Any],
            lists,
        ),
        DeclaringRule::Import => true,
        DeclaringRule::Test(rule) => is_test_shaped(rule, lists),
    }
}

fn use_project(alloc: Global, lists: &[TextList]) -> Result<Declaration, OutOfMemory>
    ensures { IfOk result (λ made. made ≡ declared DeclaringRule.UseProject lists.now) }
{
    let dir = path_of(alloc, text_at(lists, 1))?;
    let id = id_of(alloc, text_at(lists, 0))?;
    Ok(Declaration::UseProject { id, dir })
}

fn feature(alloc: Global, lists: &[TextList]) -> Result<Declaration, OutOfMemory>
    ensures { IfOk result (λ made. made ≡ declared DeclaringRule.Feature lists.now) }
{
    let name = Text::new(alloc, text_at(lists, 0))?;
    let values = copy_texts(alloc, list_at(lists, 1))?;
    let attributes = copy_texts(alloc, list_at(lists, 2))?;
    Ok(Declaration::Feature {
        name,
        values,
        attributes,
    })
}

fn compose(alloc: Global, lists: &[TextList]) -> Result<Declaration, OutOfMemory>
    ensures { IfOk result (λ made. made ≡ declared DeclaringRule.Compose lists.now) }
{
    let property = Text::new(alloc, text_at(lists, 0))?;
    let parts = copy_texts(alloc, list_at(lists, 1))?;
    Ok(Declaration::Compose { property, parts })
}

fn file_type(alloc: Global, lists: &[TextList]) -> Result<Declaration, OutOfMemory>
    ensures { IfOk result (λ made. made ≡ declared DeclaringRule.FileType lists.now) }
{
    let name = Text::new(alloc, text_at(lists, 0))?;
    let suffixes = copy_texts(alloc, list_at(lists, 1))?;
    Ok(Declaration::FileType { name, suffixes })
}

fn generator(alloc: Global, lists: &[TextList]) -> Result<Declaration, OutOfMemory>
    ensures { IfOk result (λ made. made ≡ declared DeclaringRule.Generator lists.now) }
{
    let id = Text::new(alloc, text_at(lists, 0))?;
    let sources = copy_texts(alloc, list_at(lists, 1))?;
    let targets = copy_texts(alloc, list_at(lists, 2))?;
    let requirements = copy_texts(alloc, list_at(lists, 3))?;
    Ok(Declaration::Generator {
        id,
        sources,
        targets,
        requirements,
    })
}

/// What lists of a rule's shape declare.
fn declared(
    alloc: Global,
    rule: DeclaringRule,
    lists: &[TextList],
) -> Result<Declaration, OutOfMemory>
    ensures { IfOk result (λ made. made ≡ declared rule lists.now) }
{
    match rule {
        DeclaringRule::Project => Ok(Declaration::Project(attributes(alloc, lists)?)),
        DeclaringRule::Target(kind) => Ok(Declaration::Main(target(alloc, kind, lists)?)),
        DeclaringRule::Explicit => Ok(Declaration::Explicit(copy_texts(alloc, list_at(lists, 0))?)),
        DeclaringRule::BuildProject => Ok(Declaration::BuildProject(path_of(
            alloc,
            text_at(lists, 0),
        )?)),
        DeclaringRule::UseProject => use_project(alloc, lists),
        DeclaringRule::Using => Ok(Declaration::Using {
            command: first_of(list_at(lists, 2))?,
        }),
        DeclaringRule::Feature => feature(alloc, lists),
        DeclaringRule::Compose => compose(alloc, lists),
        DeclaringRule::FileType => file_type(alloc, lists),
        DeclaringRule::Generator => generator(alloc, lists),
        DeclaringRule::Import => Ok(Declaration::Import),
        DeclaringRule::Test(rule) => Ok(Declaration::Test(test_of(alloc, rule, lists)?)),
    }
}

/// The declaration of a call, by the name of its rule and its lists. There is none where no declaring rule has this name,
/// or where the lists are not those of the rule. It may be refused for all that.
pub fn declaration(
    alloc: Global,
    rule: &str,
    lists: &[TextList],
) -> Result<Option<Declaration>, OutOfMemory>
    ensures { IfOk result (λ found. found ≡ shape_of rule.now lists.now) }
{
    let Some(rule) = rule_of(rule) else {
        return Ok(None);
    };
    if !is_shaped(rule, lists) {
        return Ok(None);
    }
    Ok(Some(declared(alloc, rule, lists)?))
}

/// Whether no test has such a name, since the main target that marks it cannot have its name.
fn is_refused_test(alloc: Global, name: &Text) -> Result<bool, OutOfMemory>
    ensures { IfOk result (λ refused. refused ≡ is_refused_name (marker_name name.now)) }
{
    let marker = marker_name(alloc, name.as_str())?;
    is_refused_name(alloc, marker.as_str())
}

/// Whether a declaration is refused for a name in it: where it is of a main target whose name is empty or absolute, has
/// `//` or a segment `..`, or is `.` in normal form; or of a test whose name with `.test` behind it is such a name.
pub fn is_refused(alloc: Global, declaration: &Declaration) -> Result<bool, OutOfMemory>
    ensures { IfOk result (λ refused. refused ≡ is_refused declaration.now) }
{
    match declaration {
        Declaration::Main(target) => is_refused_name(alloc, target.name.as_str()),
        Declaration::Test(test) => is_refused_test(alloc, &test.name),
        Declaration::Project(_)
        | Declaration::Explicit(_)
        | Declaration::BuildProject(_)
        | Declaration::UseProject { .. }
        | Declaration::Using { .. }
        | Declaration::Feature { .. }
        | Declaration::Compose { .. }
        | Declaration::FileType { .. }
        | Declaration::Generator { .. }
        | Declaration::Import => Ok(false),
    }
}
