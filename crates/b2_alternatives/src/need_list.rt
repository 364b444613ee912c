//! Needs in order, and how far they are met.
ghost use Rattle.std.specs.Prelude.{◌≡◌, not, find, List, IfOk};
ghost use Rattle.std.specs.Option.{option_copied};
ghost use Rattle.b2_references.specs.Names.{Name};
ghost use Rattle.b2_alternatives.specs.Needs.{next_by, next_among};
ghost use Rattle.b2_alternatives.specs.declared.need.Next.TheVariants as nexts;
ghost use Rattle.b2_alternatives.specs.DependencyWork.{is_known, AreKnown, is_complete, AreMet, Finds};

use crate::known::KnownNames;
use crate::need::{Need, Next};
use b2_base::fault::OutOfMemory;
use b2_base::list::List;
use b2_references::meaning::Meaning;
use b2_references::name::TargetName;

/// Needs in order. Those before the place are met: each names a file, or its main targets were generated.
pub struct NeedList {
    needs: List<Need>,
    place: usize,
}

/// By hand, so that dropping one is one call.
impl Drop for NeedList {
    fn drop(self) {
        let NeedList { needs, place: _ } = self;
        drop(needs);
    }
}

/// What comes next by a list of needs, and the place of the need that asks for it.
#[derive(Drop)]
struct NextNeed {
    place: usize,
    next: Next,
}

fn is_complete(next: &Next) -> bool
    ensures { result ≡ is_complete next.now }
{
    match next {
        Next::Complete => true,
        Next::Missing { .. } => false,
        Next::Due { .. } => false,
    }
}

fn first_due<'a>(names: &'a [TargetName], done: &KnownNames) -> Option<&'a TargetName>
    ensures { option_copied result ≡ find (λ name. not (is_known done.now name)) names.now }
{
    names.iter().find(|name| !done.has(name))
}

/// What comes next by a need alone.
fn next_by(need: &Need, done: &KnownNames) -> Result<Next, OutOfMemory>
    ensures { (known : List Name) → AreKnown known done.now → IfOk result (λ next. next ≡ next_by known need.now.text need.now.meaning nexts.Complete) }
{
    match &need.meaning {
        Meaning::File { .. } => Ok(Next::Complete),
        Meaning::Nothing => Ok(Next::Missing {
            text: need.text.copy()?,
        }),
        Meaning::Targets { names } => match first_due(names.as_slice(), done) {
            Some(name) => Ok(Next::Due { name: name.copy()? }),
            None => Ok(Next::Complete),
        },
    }
}

/// What comes next by some needs, of which those before a place are met.
fn first_next(needs: &[Need], done: &KnownNames, from: usize) -> Result<NextNeed, OutOfMemory>
    ensures { (known : List Name) → AreKnown known done.now → AreMet known needs.now from → IfOk result (λ found. Finds known needs.now found.place found.next) }
{
    for place in from..needs.len() {
        let next = next_by(&needs[place], done)?;
        if !is_complete(&next) {
            return Ok(NextNeed { place, next });
        }
    }
    Ok(NextNeed {
        place: needs.len(),
        next: Next::Complete,
    })
}

impl NeedList {
    /// Needs of which none is known to be met; takes no memory.
    pub(crate) fn new(needs: List<Need>) -> NeedList
        ensures needs { result.needs ≡ needs }
        ensures first { result.place ≡ 0 }
    {
        NeedList { needs, place: 0 }
    }

    /// The needs in order; takes no memory.
    pub(crate) fn as_slice(&self) -> &[Need]
        ensures { result.now ≡ self.now.needs }
    {
        self.needs.as_slice()
    }

    /// What comes next by the needs.
    pub(crate) fn next(&mut self, done: &KnownNames) -> Result<Next, OutOfMemory>
        ensures next { (known : List Name) → AreKnown known done.now → AreMet known self.old.needs self.old.place → IfOk result (λ next. next ≡ next_among known self.old.needs) }
        ensures met { (known : List Name) → AreKnown known done.now → AreMet known self.old.needs self.old.place → AreMet known self.new.needs self.new.place }
        ensures needs { self.new.needs ≡ self.old.needs }
    {
        let found = first_next(self.needs.as_slice(), done, self.place)?;
        self.place = found.place;
        Ok(found.next)
    }
}
