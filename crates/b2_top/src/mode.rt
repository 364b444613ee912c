//! What the program is called for.
ghost use Rattle.std.specs.Prelude.{◌≡◌};
ghost use Rattle.b2_base.specs.Bytes.{HasNoZero};
ghost use Rattle.b2_top.specs.Modes.{is_file, is_drill, mode_named, mode_asked, mode_of};

use b2_base::text::Text;
use b2_command_line::lead::after_lead;

/// What the program is called for, by its words alone. The words may still not be of that command's grammar.
#[derive(Clone, Copy)]
pub enum Mode {
    /// To build.
    Build,
    /// To show the table or the steps of a plan.
    Look,
    /// To tell why steps are to run, or are not.
    Explain,
    /// To remove what steps have made.
    Clean,
    /// To run the updates of a generated project in memory.
    Drill,
    /// To build targets of a Jam file.
    Jam,
}

fn is_file(word: &str) -> bool
    ensures { result ≡ is_file word.now }
{
    word == "-f"
}

fn is_drill(word: &str) -> bool
    requires { HasNoZero word.now }
    ensures { result ≡ is_drill word.now }
{
    after_lead(word, "--drill=").is_some()
}

/// What a word alone asks for that is one of `-n`, `--show`, `--explain` and `--clean`.
fn mode_named(word: &str) -> Option<Mode>
    ensures { result ≡ mode_named word.now }
{
    if word == "-n" || word == "--show" {
        return Some(Mode::Look);
    }
    if word == "--explain" {
        return Some(Mode::Explain);
    }
    if word == "--clean" {
        return Some(Mode::Clean);
    }
    None
}

/// What the first such word before the first `--` asks for.
fn mode_asked(words: &[Text]) -> Option<Mode>
    ensures { result ≡ mode_asked words.now }
{
    for word in words {
        if word.as_str() == "--" {
            return None;
        }
        let mode = mode_named(word.as_str());
        if mode.is_some() {
            return mode;
        }
    }
    None
}

/// Jam where the first word is `-f`, and Drill where it begins with `--drill=`. Else Look, Explain or Clean by the first of the words `-n`, `--show`,
/// `--explain` and `--clean` before the first `--`, and Build where none of them stands there. Takes no memory.
pub fn mode_of(words: &[Text]) -> Mode
    ensures { result ≡ mode_of words.now }
{
    let [first, ..] = words else {
        return Mode::Build;
    };
    if is_file(first.as_str()) {
        return Mode::Jam;
    }
    if is_drill(first.as_str()) {
        return Mode::Drill;
    }
    mode_asked(words).unwrap_or(Mode::Build)
}
