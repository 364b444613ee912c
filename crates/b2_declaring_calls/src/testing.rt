//! Tests.
ghost use Rattle.std.specs.Prelude.{◌≡◌, IfOk};
ghost use Rattle.b2_base.specs.Bytes.{HasNoZero};
ghost use Rattle.b2_declaring_calls.specs.Tests.{counts_of, requirements_at, name_at, has_suffix, is_cpp, takes_source, is_test_shaped, name_from, test_name, test_of, marker_name};

use crate::declaration::{ListName, Test, TestRule};
use crate::lists::{push_list, text_at};
use b2_base::fault::OutOfMemory;
use b2_base::list::List;
use b2_base::shape::{Count, has_shape};
use b2_base::text::Text;
use b2_base::text_list::{TextList, copy_texts, list_at};
use jam_path::name::parts;
use std::alloc::Global;

/// How many texts the lists of a rule have.
fn counts_of(rule: TestRule) -> &'static [Count]
    ensures { result.now ≡ counts_of rule }
{
    match rule {
        TestRule::Compile => &[Count::AtLeastOne, Count::Any, Count::AtMostOne],
        TestRule::CompileFail => &[Count::One, Count::Any, Count::AtMostOne],
        TestRule::Run | TestRule::RunFail => &[
            Count::AtLeastOne,
            Count::Nothing,
            Count::Nothing,
            Count::Any,
            Count::AtMostOne,
        ],
    }
}

/// The place of the requirements.
fn requirements_at(rule: TestRule) -> usize
    ensures { result ≡ requirements_at rule }
{
    match rule {
        TestRule::Compile | TestRule::CompileFail => 1,
        TestRule::Run | TestRule::RunFail => 3,
    }
}

/// The place of the name.
fn name_at(rule: TestRule) -> usize
    ensures { result ≡ name_at rule }
{
    match rule {
        TestRule::Compile | TestRule::CompileFail => 2,
        TestRule::Run | TestRule::RunFail => 4,
    }
}

fn has_suffix(text: &str, suffix: &str) -> bool
    ensures { result ≡ has_suffix text.now suffix.now }
{
    text.ends_with(suffix)
}

/// Whether a source has a suffix of C++.
fn is_cpp(source: &str) -> bool
    ensures { result ≡ is_cpp source.now }
{
    has_suffix(source, ".cpp") || has_suffix(source, ".cc") || has_suffix(source, ".cxx")
}

/// Whether a rule takes its first source.
fn takes_source(rule: TestRule, source: &str) -> bool
    ensures { result ≡ takes_source rule source.now }
{
    match rule {
        TestRule::CompileFail => is_cpp(source),
        TestRule::Compile | TestRule::Run | TestRule::RunFail => true,
    }
}

/// Whether the lists of a call are those of its rule; takes no memory.
pub(crate) fn is_test_shaped(rule: TestRule, lists: &[TextList]) -> bool
    ensures { result ≡ is_test_shaped rule lists.now }
{
    has_shape(counts_of(rule), lists) && takes_source(rule, text_at(lists, 0))
}

/// The name that is given, else the base of a source.
fn name_from(alloc: Global, given: &[Text], source: &str) -> Result<Text, OutOfMemory>
    requires { HasNoZero source.now }
    ensures { IfOk result (λ name. name ≡ name_from given.now source.now) }
{
    match given {
        [] => Ok(parts(alloc, source)?.base),
        [name, ..] => name.copy(),
    }
}

/// The test of a call.
pub(crate) fn test_of(
    alloc: Global,
    rule: TestRule,
    lists: &[TextList],
) -> Result<Test, OutOfMemory>
    ensures { IfOk result (λ made. made ≡ test_of rule lists.now) }
{
    let name = name_from(alloc, list_at(lists, name_at(rule)), text_at(lists, 0))?;
    let sources = copy_texts(alloc, list_at(lists, 0))?;
    let mut found = List::new(alloc);
    let texts = list_at(lists, requirements_at(rule));
    push_list(alloc, &mut found, ListName::Requirements, texts)?;
    Ok(Test {
        rule,
        name,
        sources,
        lists: found,
    })
}

/// The name of the main target that marks a test: its name and `.test`.
pub fn marker_name(alloc: Global, name: &str) -> Result<Text, OutOfMemory>
    requires { HasNoZero name.now }
    ensures { IfOk result (λ made. made ≡ marker_name name.now) }
{
    let marker = format!(in alloc; "{name}.test")?;
    Ok(Text::from_string(marker))
}
