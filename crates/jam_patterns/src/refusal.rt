//! Refused patterns.
ghost use Rattle.std.specs.Prelude.{◌≡◌, IfOk, not};
ghost use Rattle.b2_base.specs.Bytes.{HasNoZero};
ghost use Rattle.jam_patterns.specs.Pattern.{is_pattern};

use b2_base::fault::OutOfMemory;
use b2_base::text::Text;
use regex::Error;
use std::alloc::Global;
use std::marker::Model;

/// A pattern that was refused, seen as the pattern's text. `groups` alone makes one, and `copy` the same again.
pub struct Refusal {
    pattern: Text,
    syntax: bool,
}

/// By hand, so that dropping one is one call.
impl Drop for Refusal {
    fn drop(self) {
        let Refusal { pattern, syntax: _ } = self;
        drop(pattern);
    }
}

impl Model for Refusal {
    ghost use Rattle.std.specs.Prelude.{◌≡◌, ℕ, List, not};
    ghost use Rattle.jam_patterns.specs.Pattern.{is_pattern};

    ghost Value = { List ℕ };

    ghost view = { λ r. r.pattern };

    ghost invariant = { λ r. r.syntax ≡ not (is_pattern r.pattern) };
}

impl Refusal {
    /// The pattern; takes no memory.
    pub fn text(&self) -> &str
        ensures value { result.now ≡ self.now }
        ensures no_zero { HasNoZero self.now }
    {
        self.pattern.as_str()
    }

    /// Whether the text is no pattern: the grammar of regular expressions does not read it, or it is nested more than
    /// 250 deep. A pattern that is refused all the same, as one too big when it is compiled, gives false. Takes no
    /// memory.
    pub fn syntax(&self) -> bool
        ensures { result ≡ not (is_pattern self.now) }
    {
        self.syntax
    }

    /// The same refusal.
    pub fn copy(&self) -> Result<Refusal, OutOfMemory>
        ensures { IfOk result (λ made. made ≡ self.now) }
    {
        let pattern = self.pattern.copy()?;
        Ok(Refusal {
            pattern,
            syntax: self.syntax,
        })
    }
}

/// Why a pattern has no answer.
#[derive(Drop)]
pub enum PatternFault {
    /// The pattern was refused.
    Refused(Refusal),
    OutOfMemory,
}

impl From<OutOfMemory> for PatternFault {
    ghost use Rattle.jam_patterns.specs.declared.refusal.PatternFault.TheVariants as faults;

    ghost from_gives = { λ _ fault. fault ≡ faults.OutOfMemory };

    fn from(_error: OutOfMemory) -> PatternFault {
        PatternFault::OutOfMemory
    }
}

impl PatternFault {
    ghost use Rattle.std.specs.Prelude.{◌⊎◌};
    ghost use Rattle.regex.specs.Strings.{IsDefaultFailure};

    /// The fault for what the compiler of patterns answered.
    pub(crate) fn of_error(alloc: Global, pattern: &str, error: Error) -> PatternFault
        requires no_zero { HasNoZero pattern.now }
        requires failed { IsDefaultFailure pattern.now error }
        ensures { (result ≡ PatternFault.OutOfMemory) ⊎ (result ≡ PatternFault.Refused pattern.now) }
    {
        let syntax = match error {
            Error::Syntax(_) => true,
            Error::CompiledTooBig => false,
            Error::Internal => false,
            Error::OutOfMemory => return PatternFault::OutOfMemory,
        };
        match Text::new(alloc, pattern) {
            Ok(pattern) => PatternFault::Refused(Refusal { pattern, syntax }),
            Err(_) => PatternFault::OutOfMemory,
        }
    }
}
