//! What the values of options ask for.
ghost use Rattle.std.specs.Prelude.{◌≡◌, option_map};
ghost use Rattle.b2_command_line.specs.Words.{jobs_meant, digest_meant, options_meant, explain_meant, command_meant};

use crate::number::number_of;
use crate::words::{BuildOptions, Command, View};

/// How many jobs there are at most.
const MOST_JOBS: u32 = 64;

fn jobs_of(value: Option<&str>) -> Option<u32>
    ensures { result ≡ jobs_meant (option_map (λ v. v.now) value.entry) }
{
    match value {
        None => Some(1),
        Some(text) => number_of(text, MOST_JOBS),
    }
}

fn digest_of(value: Option<&str>) -> Option<bool>
    ensures { result ≡ digest_meant (option_map (λ v. v.now) value.entry) }
{
    match value {
        None => Some(false),
        Some(text) => { if text == "digest" { Some(true) } else { None } }
    }
}

/// How a build is made, where each value is one that its option can have.
pub fn options_of(
    jobs: Option<&str>,
    by: Option<&str>,
    all: bool,
    quit: bool,
) -> Option<BuildOptions>
    ensures { result ≡ options_meant (option_map (λ v. v.now) jobs.entry) (option_map (λ v. v.now) by.entry) all quit }
{
    let jobs = jobs_of(jobs)?;
    let digest = digest_of(by)?;
    Some(BuildOptions {
        jobs,
        all,
        quit,
        digest,
    })
}

/// An explanation, which is by time stamps alone.
fn explain_of(options: BuildOptions) -> Option<Command>
    ensures { result ≡ explain_meant options }
{
    if options.digest {
        return None;
    }
    Some(Command::Explain { all: options.all })
}

/// The command, where at most one of a view, an explanation and cleaning is asked for.
pub fn command_of(
    options: BuildOptions,
    steps: bool,
    table: bool,
    explain: bool,
    clean: bool,
) -> Option<Command>
    ensures { result ≡ command_meant options steps table explain clean }
{
    match (steps, table, explain, clean) {
        (false, false, false, false) => Some(Command::Build(options)),
        (true, false, false, false) => Some(Command::Look(View::Steps)),
        (false, true, false, false) => Some(Command::Look(View::Table)),
        (false, false, true, false) => explain_of(options),
        (false, false, false, true) => Some(Command::Clean),
        _ => None,
    }
}
