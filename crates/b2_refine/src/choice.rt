//! The choice among alternatives.
ghost use Rattle.std.specs.Prelude.{◌≡◌, ◌<◌, ◌&&◌, ℕ, false, true, length, IfSome, IfNone};
ghost use Rattle.b2_refine.specs.Choices.{is_viable, is_better, is_strict_subset, clashes, IsFirstClash, IsChoiceOf, IsChoice};
ghost use Rattle.b2_refine.specs.Choosing.{improves, is_rival, IsFavourite, ClashesFirst};

use b2_base::text::Text;
use b2_props::membership::has_all;
use b2_props::pair_list::PairList;
use b2_props::props::Props;

/// The condition of an alternative: the base properties that it requires without conditions.
pub type Condition = PairList;

/// Which alternative of a target is built, numbered from 1.
#[derive(Clone, Copy)]
pub enum Choice {
    /// This one.
    One(usize),
    /// None is viable.
    None,
    /// Both are viable, and neither is better.
    Ambiguous { i: usize, k: usize },
}

fn is_strict_subset(smaller: &[(Text, Text)], larger: &[(Text, Text)]) -> bool
    ensures { result ≡ is_strict_subset smaller.now larger.now }
{
    has_all(larger, smaller) && !has_all(smaller, larger)
}

fn is_viable(full: &Props, conditions: &[Condition], place: usize) -> bool
    ensures { result ≡ is_viable full.now conditions.now place }
{
    match conditions.get(place) {
        Some(condition) => has_all(full.pairs(), condition.as_slice()),
        None => false,
    }
}

fn is_better(conditions: &[Condition], place: usize, other: usize) -> bool
    ensures { result ≡ is_better conditions.now place other }
{
    match conditions.get(place) {
        None => false,
        Some(larger) => match conditions.get(other) {
            None => false,
            Some(smaller) => is_strict_subset(smaller.as_slice(), larger.as_slice()),
        },
    }
}

fn improves(conditions: &[Condition], place: usize, best: Option<usize>) -> bool
    ensures { result ≡ improves conditions.now place best }
{
    match best {
        None => true,
        Some(other) => is_better(conditions, place, other),
    }
}

fn takes_over(full: &Props, conditions: &[Condition], place: usize, best: Option<usize>) -> bool
    ensures { result ≡ (is_viable full.now conditions.now place && improves conditions.now place best) }
{
    is_viable(full, conditions, place) && improves(conditions, place, best)
}

/// A viable alternative than which no viable one is better.
#[tactic(auto, using(crate::proofs::RivalMeansNoneIsChosen::favourite_stays, crate::proofs::RivalMeansNoneIsChosen::favourite_changes))]
fn favourite(full: &Props, conditions: &[Condition]) -> Option<usize>
    ensures { IsFavourite full.now conditions.now (length conditions.now) result }
{
    let mut best = None;
    for place in 0..conditions.len() {
        if takes_over(full, conditions, place, best) {
            best = Some(place);
        }
    }
    best
}

fn is_rival(full: &Props, conditions: &[Condition], place: usize, other: usize) -> bool
    ensures { result ≡ is_rival full.now conditions.now place other }
{
    other != place && is_viable(full, conditions, other) && !is_better(conditions, place, other)
}

/// Another viable alternative than which this one is not better.
fn rival(full: &Props, conditions: &[Condition], place: usize) -> Option<usize>
    ensures found { IfSome result (λ other. is_rival full.now conditions.now place other ≡ true) }
    ensures none { IfNone result ((other : ℕ) → other < length conditions.now → is_rival full.now conditions.now place other ≡ false) }
{
    for other in 0..conditions.len() {
        if is_rival(full, conditions, place, other) {
            return Some(other);
        }
    }
    None
}

fn clashes(full: &Props, conditions: &[Condition], i: usize, k: usize) -> bool
    ensures { result ≡ clashes full.now conditions.now i k }
{
    is_viable(full, conditions, i)
        && is_viable(full, conditions, k)
        && !is_better(conditions, i, k)
        && !is_better(conditions, k, i)
}

/// The first alternative after this one that clashes with it.
fn clash_after(full: &Props, conditions: &[Condition], place: usize) -> Option<usize>
    requires { place < length conditions.now }
    ensures found { IfSome result (ClashesFirst full.now conditions.now place) }
    ensures none { IfNone result ((other : ℕ) → place < other → other < length conditions.now → clashes full.now conditions.now place other ≡ false) }
{
    for other in place + 1..conditions.len() {
        if clashes(full, conditions, place, other) {
            return Some(other);
        }
    }
    None
}

/// The first two alternatives that clash.
fn first_clash(full: &Props, conditions: &[Condition]) -> Option<(usize, usize)>
    ensures found { IfSome result (λ pair. IsFirstClash full.now conditions.now pair.0 pair.1) }
    ensures none { IfNone result ((i k : ℕ) → i < k → clashes full.now conditions.now i k ≡ false) }
{
    for place in 0..conditions.len() {
        if let Some(other) = clash_after(full, conditions, place) {
            return Some((place, other));
        }
    }
    None
}

fn choose_among(full: &Props, conditions: &[Condition]) -> Choice
    ensures { IsChoiceOf full.now conditions.now result }
{
    let Some(place) = favourite(full, conditions) else {
        return Choice::None;
    };
    let Some(_rival) = rival(full, conditions, place) else {
        return Choice::One(place + 1);
    };
    match first_clash(full, conditions) {
        Some((i, k)) => Choice::Ambiguous { i: i + 1, k: k + 1 },
        None => unreachable!(),
    }
}

/// The choice among alternatives with these conditions for a full set. An alternative is viable where its condition is in
/// the set, and better than another where the other's condition is a strict subset of its own. The viable one that is
/// better than all other viable ones is chosen; where there is none, the answer is the first two, by their numbers, of
/// which neither is better. A sole alternative counts as one without a condition. Takes no memory.
pub fn choose(conditions: &[Condition], full: &Props) -> Choice
    ensures { IsChoice full.now conditions.now result }
{
    if conditions.len() == 1 {
        return Choice::One(1);
    }
    choose_among(full, conditions)
}
