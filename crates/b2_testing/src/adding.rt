//! The main targets that a test becomes.
ghost use Rattle.std.specs.Prelude.{◌≡◌, ◌++◌, All, Some, None, IfOk};
ghost use Rattle.std.specs.Option.{option_map};
ghost use Rattle.std.specs.Str.{bytes_eq};
ghost use Rattle.b2_base.specs.Bytes.{HasNoZero};
ghost use Rattle.b2_declaring_calls.specs.Tests.{marker_name};
ghost use Rattle.b2_testing.specs.Adding.{of_test, built, maker, with_marker, added};

use b2_base::fault::OutOfMemory;
use b2_base::list::List;
use b2_base::text::Text;
use b2_base::text_list::{TextList, copy_texts};
use b2_declared::place::{Target, TestCall};
use b2_declaring_calls::declaration::Kind;
use b2_declaring_calls::testing::marker_name;
use b2_props::pair_list::{PairList, copy_pair};
use b2_props::requirement::Requirement;
use std::alloc::Global;

/// What a test builds before its marker.
#[derive(Drop)]
struct TestPart {
    name: Text,
    kind: Kind,
}

fn copy_requirement(alloc: Global, requirement: &Requirement) -> Result<Requirement, OutOfMemory>
    ensures { IfOk result (λ made. made ≡ requirement.now) }
{
    match requirement {
        Requirement::Indirect { rule } => Ok(Requirement::Indirect { rule: *rule }),
        Requirement::Plain {
            conditions,
            property,
        } => Ok(Requirement::Plain {
            conditions: conditions.copy(alloc)?,
            property: copy_pair(property)?,
        }),
    }
}

fn copy_requirements(
    alloc: Global,
    requirements: &[Requirement],
) -> Result<List<Requirement>, OutOfMemory>
    ensures { IfOk result (λ made. made ≡ requirements.now) }
{
    let mut made = List::new(alloc);
    for requirement in requirements {
        made.push(copy_requirement(alloc, requirement)?)?;
    }
    Ok(made)
}

/// A main target of a test: its requirements and its line are those of the call.
fn of_test(
    alloc: Global,
    test: &TestCall,
    name: Text,
    kind: Kind,
    sources: TextList,
    rule: Text,
) -> Result<Target, OutOfMemory>
    ensures { IfOk result (λ target. target ≡ of_test test.now name kind sources rule) }
{
    let requirements = copy_requirements(alloc, test.requirements.as_slice())?;
    Ok(Target {
        project: test.project,
        name,
        kind,
        sources,
        rule,
        requirements,
        usage: List::new(alloc),
        defaults: PairList::new(alloc),
        line: test.line,
    })
}

/// Whether a test's rule has this name; takes no memory.
pub(crate) fn has_rule(test: &TestCall, rule: &str) -> bool
    ensures { result ≡ bytes_eq test.now.rule rule.now }
{
    test.rule.as_str() == rule
}

fn named(alloc: Global, test: &TestCall, suffix: &str) -> Result<Text, OutOfMemory>
    requires { HasNoZero suffix.now }
    ensures { IfOk result (λ name. name ≡ test.now.name ++ suffix.now) }
{
    let name = test.name.as_str();
    Ok(Text::from_string(format!(in alloc; "{name}{suffix}")?))
}

/// What a test builds before its marker: an object file, a program, or nothing.
fn built(alloc: Global, test: &TestCall) -> Result<Option<TestPart>, OutOfMemory>
    ensures { IfOk result (λ made. option_map (λ one. (one.name, one.kind)) made ≡ built test.now) }
{
    if has_rule(test, "compile") {
        let name = named(alloc, test, ".obj")?;
        return Ok(Some(TestPart {
            name,
            kind: Kind::Obj,
        }));
    }
    if has_rule(test, "compile-fail") {
        return Ok(None);
    }
    let name = named(alloc, test, ".run")?;
    Ok(Some(TestPart {
        name,
        kind: Kind::Exe,
    }))
}

/// The rule that makes a test's marker.
fn maker(alloc: Global, test: &TestCall) -> Result<Text, OutOfMemory>
    ensures { IfOk result (λ rule. rule ≡ maker test.now) }
{
    if has_rule(test, "compile") {
        return Text::new(alloc, "testing.pass");
    }
    let rule = test.rule.as_str();
    Ok(Text::from_string(format!(in alloc; "testing.{rule}")?))
}

/// The marker of a test, made of these sources.
fn marker(alloc: Global, test: &TestCall, sources: TextList) -> Result<Target, OutOfMemory>
    ensures { IfOk result (λ target. target ≡ of_test test.now (marker_name test.now.name) Kind.Make sources (maker test.now)) }
{
    let name = marker_name(alloc, test.name.as_str())?;
    let rule = maker(alloc, test)?;
    of_test(alloc, test, name, Kind::Make, sources, rule)
}

/// What a test builds, and the marker that is made of it.
fn with_built(alloc: Global, test: &TestCall, one: TestPart) -> Result<List<Target>, OutOfMemory>
    ensures { IfOk result (λ made. made ≡ with_marker test.now (Some (one.name, one.kind))) }
{
    let TestPart { name, kind } = one;
    let mut sources = TextList::new(alloc);
    sources.push(name.copy()?)?;
    let files = copy_texts(alloc, test.sources.as_slice())?;
    let rule = Text::new(alloc, "")?;
    let first = of_test(alloc, test, name, kind, files, rule)?;
    let mut made = List::new(alloc);
    made.push(first)?;
    made.push(marker(alloc, test, sources)?)?;
    Ok(made)
}

/// The marker of a test that builds nothing before it.
fn without_built(alloc: Global, test: &TestCall) -> Result<List<Target>, OutOfMemory>
    ensures { IfOk result (λ made. made ≡ with_marker test.now None) }
{
    let sources = copy_texts(alloc, test.sources.as_slice())?;
    let mut made = List::new(alloc);
    made.push(marker(alloc, test, sources)?)?;
    Ok(made)
}

/// What a test becomes; its marker is the last.
pub(crate) fn added(alloc: Global, test: &TestCall) -> Result<List<Target>, OutOfMemory>
    ensures exact { IfOk result (λ made. made ≡ added test.now) }
    ensures own { IfOk result (λ made. All (λ target. target.project ≡ test.now.project) made) }
{
    match built(alloc, test)? {
        Some(one) => with_built(alloc, test, one),
        None => without_built(alloc, test),
    }
}
