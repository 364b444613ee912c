//! The native rules by their names.
ghost use Rattle.std.specs.Prelude.{◌≡◌, map};
ghost use Rattle.jam_natives.specs.Rules.{native_in, native_of, shape_of, is_declaring};

use b2_base::shape::Count;
use b2_base::text::is_among;

/// Native rules that look at their lists and the world alone.
#[derive(Clone, Copy)]
pub enum ReadingRule {
    /// `EXIT`
    Exit,
    /// `MATCH`
    Match,
    /// `feature.get-values`
    GetValues,
    /// `RULENAMES`
    RuleNames,
    /// `VARNAMES`
    VarNames,
    /// `CALLER_MODULE`
    CallerModule,
    /// `SORT`
    Sort,
    /// `sequence.transform`
    Transform,
    /// `sequence.filter`
    Filter,
}

/// Native rules that note something of the open step.
#[derive(Clone, Copy)]
pub enum Noting {
    /// `DEPENDS`
    Depends,
    /// `INCLUDES`
    Includes,
    /// `ALWAYS`
    Always,
    /// `NOTFILE`
    NotFile,
}

/// Which native rule a name calls, by what it asks for and changes.
#[derive(Clone, Copy)]
pub enum Native {
    /// `ECHO`
    Echo,
    /// One that looks at its lists and the world alone.
    Reads(ReadingRule),
    /// One that notes something of the open step.
    Notes(Noting),
    /// `IMPORT`
    Import,
    /// `EXPORT`
    Export,
    /// `GLOB`
    Glob,
    /// `glob`
    ProjectGlob,
}

/// The native rules with their names.
static NATIVES: [(&str, Native); 18] = [
    ("ECHO", Native::Echo),
    ("EXIT", Native::Reads(ReadingRule::Exit)),
    ("MATCH", Native::Reads(ReadingRule::Match)),
    ("feature.get-values", Native::Reads(ReadingRule::GetValues)),
    ("GLOB", Native::Glob),
    ("glob", Native::ProjectGlob),
    ("DEPENDS", Native::Notes(Noting::Depends)),
    ("INCLUDES", Native::Notes(Noting::Includes)),
    ("ALWAYS", Native::Notes(Noting::Always)),
    ("NOTFILE", Native::Notes(Noting::NotFile)),
    ("IMPORT", Native::Import),
    ("EXPORT", Native::Export),
    ("RULENAMES", Native::Reads(ReadingRule::RuleNames)),
    ("VARNAMES", Native::Reads(ReadingRule::VarNames)),
    ("CALLER_MODULE", Native::Reads(ReadingRule::CallerModule)),
    ("SORT", Native::Reads(ReadingRule::Sort)),
    ("sequence.transform", Native::Reads(ReadingRule::Transform)),
    ("sequence.filter", Native::Reads(ReadingRule::Filter)),
];

/// The native rule of the first row with this name.
fn native_in(rows: &[(&str, Native)], name: &str) -> Option<Native>
    ensures { result ≡ native_in (map (λ row. (row.0.now, row.1)) rows.now) name.now }
{
    match rows {
        [] => None,
        [first, more @ ..] => {
            if name == first.0 {
                Some(first.1)
            } else {
                native_in(more, name)
            }
        }
    }
}

/// The native rule of a name; takes no memory.
#[tactic(auto, unfolding(crate::specs::Rules::native_of))]
pub fn native_of(name: &str) -> Option<Native>
    ensures { result ≡ native_of name.now }
{
    native_in(&NATIVES, name)
}

/// How many texts the lists of a rule have that looks at them.
fn shape_of_reading(rule: ReadingRule) -> &'static [Count]
    ensures { result.now ≡ shape_of (Native.Reads rule) }
{
    match rule {
        ReadingRule::Exit => &[Count::Any],
        ReadingRule::Match => &[Count::AtLeastOne, Count::Any],
        ReadingRule::GetValues => &[Count::One, Count::Any],
        ReadingRule::RuleNames => &[Count::AtMostOne],
        ReadingRule::VarNames => &[Count::AtMostOne],
        ReadingRule::CallerModule => &[],
        ReadingRule::Sort => &[Count::Any],
        ReadingRule::Transform => &[Count::AtLeastOne, Count::Any],
        ReadingRule::Filter => &[Count::AtLeastOne, Count::Any],
    }
}

/// How many texts the lists of a rule have that notes something.
fn shape_of_noting(rule: Noting) -> &'static [Count]
    ensures { result.now ≡ shape_of (Native.Notes rule) }
{
    match rule {
        Noting::Depends => &[Count::AtLeastOne, Count::Any],
        Noting::Includes => &[Count::AtLeastOne, Count::Any],
        Noting::Always => &[Count::AtLeastOne],
        Noting::NotFile => &[Count::AtLeastOne],
    }
}

/// How many texts the lists of a native rule have; takes no memory.
pub fn shape_of(native: Native) -> &'static [Count]
    ensures { result.now ≡ shape_of native }
{
    match native {
        Native::Echo => &[Count::Any],
        Native::Reads(rule) => shape_of_reading(rule),
        Native::Notes(rule) => shape_of_noting(rule),
        Native::Import => &[Count::AtMostOne, Count::Any, Count::AtMostOne, Count::Any],
        Native::Export => &[Count::One, Count::Any],
        Native::Glob => &[Count::AtLeastOne, Count::AtLeastOne],
        Native::ProjectGlob => &[Count::AtLeastOne, Count::Any],
    }
}

/// The names of the declaring rules.
static DECLARING: [&str; 20] = [
    "project",
    "exe",
    "lib",
    "obj",
    "alias",
    "install",
    "make",
    "explicit",
    "build-project",
    "use-project",
    "using",
    "feature.feature",
    "feature.compose",
    "type.register",
    "generators.register-standard",
    "import",
    "compile",
    "compile-fail",
    "run",
    "run-fail",
];

/// Whether a rule of this name declares; takes no memory.
#[tactic(auto, unfolding(crate::specs::Rules::is_declaring))]
pub fn is_declaring(name: &str) -> bool
    ensures { result ≡ is_declaring name.now }
{
    is_among(name, &DECLARING)
}
