//! The declaring rules by their names.
ghost use Rattle.std.specs.Prelude.{◌≡◌, map};
ghost use Rattle.b2_declaring_calls.specs.Rules.{rule_in, rule_of};

use crate::declaration::{Kind, TestRule};

/// Which declaring rule a name calls, with what its name says beside that.
#[derive(Clone, Copy)]
pub(crate) enum DeclaringRule {
    Project,
    /// A rule that declares a main target.
    Target(Kind),
    Explicit,
    BuildProject,
    UseProject,
    Using,
    Feature,
    Compose,
    FileType,
    Generator,
    Import,
    /// A rule that declares a test.
    Test(TestRule),
}

/// The declaring rules with their names.
static RULES: [(&str, DeclaringRule); 20] = [
    ("project", DeclaringRule::Project),
    ("exe", DeclaringRule::Target(Kind::Exe)),
    ("lib", DeclaringRule::Target(Kind::Lib)),
    ("obj", DeclaringRule::Target(Kind::Obj)),
    ("alias", DeclaringRule::Target(Kind::Alias)),
    ("make", DeclaringRule::Target(Kind::Make)),
    ("install", DeclaringRule::Target(Kind::Install)),
    ("explicit", DeclaringRule::Explicit),
    ("build-project", DeclaringRule::BuildProject),
    ("use-project", DeclaringRule::UseProject),
    ("using", DeclaringRule::Using),
    ("feature.feature", DeclaringRule::Feature),
    ("feature.compose", DeclaringRule::Compose),
    ("type.register", DeclaringRule::FileType),
    ("generators.register-standard", DeclaringRule::Generator),
    ("import", DeclaringRule::Import),
    ("compile", DeclaringRule::Test(TestRule::Compile)),
    ("compile-fail", DeclaringRule::Test(TestRule::CompileFail)),
    ("run", DeclaringRule::Test(TestRule::Run)),
    ("run-fail", DeclaringRule::Test(TestRule::RunFail)),
];

/// The rule of the first row with this name.
fn rule_in(rows: &[(&str, DeclaringRule)], name: &str) -> Option<DeclaringRule>
    ensures { result ≡ rule_in (map (λ row. (row.0.now, row.1)) rows.now) name.now }
{
    match rows {
        [] => None,
        [first, more @ ..] => {
            if name == first.0 {
                Some(first.1)
            } else {
                rule_in(more, name)
            }
        }
    }
}

/// The declaring rule of a name; takes no memory.
#[tactic(auto, unfolding(crate::specs::Rules::rule_of))]
pub(crate) fn rule_of(name: &str) -> Option<DeclaringRule>
    ensures { result ≡ rule_of name.now }
{
    rule_in(&RULES, name)
}
