//! How declarations are shown.
use b2_base::text::Text;
use b2_declaring_calls::declaration::{
    Attributes, Declaration, Kind, ListName, MainTarget, PropertyList, Test, TestRule,
};
use transcript::answer::Answer;

/// Adds a line of a name and a word.
fn push_headed(answer: &mut Answer, name: &str, word: &str) {
    answer.put(name);
    answer.put_word(word);
    answer.end_line();
}

/// Adds a line of a name, and a word where there is one.
fn push_maybe_headed(answer: &mut Answer, name: &str, word: Option<&Text>) {
    match word {
        None => answer.push_line(name),
        Some(word) => push_headed(answer, name, word.as_str()),
    }
}

/// Adds a line of a name and words.
fn push_listed(answer: &mut Answer, name: &str, words: &[Text]) {
    answer.put(name);
    answer.put_words(words);
    answer.end_line();
}

/// Adds a line of a name and words, where there are some.
fn push_list(answer: &mut Answer, name: &str, words: &[Text]) {
    if !words.is_empty() {
        push_listed(answer, name, words);
    }
}

/// A kind of main target as the rule that declares it.
pub fn kind_word(kind: Kind) -> &'static str {
    match kind {
        Kind::Exe => "exe",
        Kind::Lib => "lib",
        Kind::Obj => "obj",
        Kind::Alias => "alias",
        Kind::Make => "make",
        Kind::Install => "install",
    }
}

fn list_word(name: ListName) -> &'static str {
    match name {
        ListName::Requirements => "requirements",
        ListName::DefaultBuild => "default-build",
        ListName::Usage => "usage-requirements",
    }
}

/// Adds a line for each property list that is not empty, in order.
fn push_lists(answer: &mut Answer, lists: &[PropertyList]) {
    for list in lists {
        push_list(answer, list_word(list.name), list.texts.as_slice());
    }
}

fn push_main_target(answer: &mut Answer, target: &MainTarget) {
    push_headed(answer, kind_word(target.kind), target.name.as_str());
    push_list(answer, "sources", target.sources.as_slice());
    if matches!(target.kind, Kind::Make) {
        push_headed(answer, "rule", target.rule.as_str());
    }
    push_lists(answer, target.lists.as_slice());
}

fn test_word(rule: TestRule) -> &'static str {
    match rule {
        TestRule::Compile => "compile",
        TestRule::CompileFail => "compile-fail",
        TestRule::Run => "run",
        TestRule::RunFail => "run-fail",
    }
}

fn push_test(answer: &mut Answer, test: &Test) {
    push_headed(answer, test_word(test.rule), test.name.as_str());
    push_list(answer, "sources", test.sources.as_slice());
    push_lists(answer, test.lists.as_slice());
}

fn push_project(answer: &mut Answer, attributes: &Attributes) {
    push_maybe_headed(answer, "project", attributes.id.as_ref());
    push_lists(answer, attributes.lists.as_slice());
}

fn push_used_project(answer: &mut Answer, id: &Text, dir: &str) {
    answer.put("use-project");
    answer.put_word(id.as_str());
    answer.put_word(dir);
    answer.end_line();
}

/// Adds a declaration of the tables in lines; the only other one is an import.
fn push_registered(answer: &mut Answer, declaration: &Declaration) {
    match declaration {
        Declaration::Feature {
            name,
            values,
            attributes,
        } => {
            push_headed(answer, "feature", name.as_str());
            push_list(answer, "values", values.as_slice());
            push_list(answer, "attributes", attributes.as_slice());
        }
        Declaration::Compose { property, parts } => {
            push_headed(answer, "compose", property.as_str());
            push_list(answer, "components", parts.as_slice());
        }
        Declaration::FileType { name, suffixes } => {
            push_headed(answer, "type", name.as_str());
            push_list(answer, "suffixes", suffixes.as_slice());
        }
        Declaration::Generator {
            id,
            sources,
            targets,
            requirements,
        } => {
            push_headed(answer, "generator", id.as_str());
            push_list(answer, "sources", sources.as_slice());
            push_list(answer, "targets", targets.as_slice());
            push_list(answer, "requirements", requirements.as_slice());
        }
        _ => answer.push_line("import"),
    }
}

/// Adds a declaration in lines.
pub fn push_declaration(answer: &mut Answer, declaration: &Declaration) {
    match declaration {
        Declaration::Project(attributes) => push_project(answer, attributes),
        Declaration::Main(target) => push_main_target(answer, target),
        Declaration::Explicit(names) => push_listed(answer, "explicit", names.as_slice()),
        Declaration::BuildProject(dir) => push_headed(answer, "build-project", dir.as_str()),
        Declaration::UseProject { id, dir } => push_used_project(answer, id, dir.as_str()),
        Declaration::Using { command } => {
            push_maybe_headed(answer, "using gcc", command.as_ref());
        }
        Declaration::Test(test) => push_test(answer, test),
        _ => push_registered(answer, declaration),
    }
}
