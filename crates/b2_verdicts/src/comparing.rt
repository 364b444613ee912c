//! Whether a record has a step's files.
ghost use Rattle.std.specs.Prelude.{◌≡◌, ◌≢◌, ◌↔◌, ℕ, List, true, false, Some, IsTrue, MatchOption, slice_get};
ghost use Rattle.b2_facts.specs.Facts.{IsNumber, path_at};
ghost use Rattle.b2_verdicts.specs.Sights.{AreNumbers};
ghost use Rattle.b2_verdicts.specs.Stamps.{IsLogged, AreLogged, IsFirstOther};
ghost use Rattle.b2_verdicts.specs.Points.{HavePaths};

use crate::stamps::is_stamped;
use b2_base::path::Path;
use b2_facts::facts::Facts;
use b2_log::line::Record;
use b2_plan::step::Step;

/// Whether a record has the path of a file, with the stamp with which it was seen to stand.
fn is_logged(facts: &Facts, logged: &(Path, u64), number: u32) -> bool
    requires { IsNumber facts.now number }
    ensures { IsTrue result ↔ IsLogged facts.now logged.now number }
{
    is_stamped(facts, number, logged.1) && *facts.path(number) == logged.0
}

/// Whether a record has a file at a place, with the stamp with which it was seen to stand.
fn is_logged_at(facts: &Facts, logged: &[(Path, u64)], place: usize, number: u32) -> bool
    requires { IsNumber facts.now number }
    ensures yes { result ≡ true
        → (one : List ℕ × ℕ) × (slice_get logged.now place ≡ Some one) × IsLogged facts.now one number }
    ensures no { result ≡ false → (one : List ℕ × ℕ) → slice_get logged.now place ≡ Some one
        → IsLogged facts.now one number → ⊥ }
{
    match logged.get(place) {
        Some(one) => is_logged(facts, one, number),
        None => false,
    }
}

/// The first place at which a record has other files than these, or other stamps.
pub fn first_other(facts: &Facts, logged: &[(Path, u64)], numbers: &[u32]) -> Option<usize>
    requires { AreNumbers facts.now numbers.now }
    ensures { MatchOption result (AreLogged facts.now logged.now numbers.now)
        (IsFirstOther facts.now logged.now numbers.now) }
{
    for (place, number) in numbers.iter().enumerate() {
        if !is_logged_at(facts, logged, place, *number) {
            return Some(place);
        }
    }
    if logged.len() > numbers.len() {
        return Some(numbers.len());
    }
    None
}

/// Whether a record has the path of a file.
fn is_named(facts: &Facts, logged: &(Path, u64), number: u32) -> bool
    requires { IsNumber facts.now number }
    ensures { IsTrue result ↔ (path_at facts.now number ≡ Some logged.now.0) }
{
    *facts.path(number) == logged.0
}

/// Whether a record has the path of a file at a place.
fn is_named_at(facts: &Facts, logged: &[(Path, u64)], place: usize, number: u32) -> bool
    requires { IsNumber facts.now number }
    ensures yes { result ≡ true
        → (one : List ℕ × ℕ) × (slice_get logged.now place ≡ Some one) × (path_at facts.now number ≡ Some one.0) }
    ensures no { result ≡ false → (one : List ℕ × ℕ) → slice_get logged.now place ≡ Some one
        → path_at facts.now number ≡ Some one.0 → ⊥ }
{
    match logged.get(place) {
        Some(one) => is_named(facts, one, number),
        None => false,
    }
}

/// Whether a record has the paths of these files, and no others.
pub fn have_paths(facts: &Facts, logged: &[(Path, u64)], numbers: &[u32]) -> bool
    requires { AreNumbers facts.now numbers.now }
    ensures yes { result ≡ true → HavePaths facts.now logged.now numbers.now }
    ensures no { result ≡ false → HavePaths facts.now logged.now numbers.now → ⊥ }
{
    if logged.len() != numbers.len() {
        return false;
    }
    for (place, number) in numbers.iter().enumerate() {
        if !is_named_at(facts, logged, place, *number) {
            return false;
        }
    }
    true
}

/// Whether a record has the step's text.
pub fn has_text(step: &Step, last: &Record) -> bool
    ensures yes { result ≡ true → last.now.text ≡ step.now.text }
    ensures no { result ≡ false → last.now.text ≢ step.now.text }
{
    last.text == step.text
}
