//! Laws of normal forms.
ghost use Rattle.std.specs.Prelude.{◌≡◌, ◌↔◌, ◌<◌, ℕ, Bool, List, length};
ghost use Rattle.b2_base.specs.Segments.{normal_of, is_rooted, segments};
ghost use Rattle.b2_base.specs.Normal.{IsNormal, parts};
ghost use Rattle.b2_base.specs.Simpler.{Simpler, Reaches, IsSimplest, IsOnlyEnd, IsSimplestText};

/// A normal form is its own normal form.
pub fn normal_stays()
    ensures { (text : List ℕ) → IsNormal text → normal_of text ≡ text }
{}

/// A normal form is settled by its root and its segments: no two texts in normal form have both alike.
pub fn one_normal_text()
    ensures { (a b : List ℕ) → IsNormal a → IsNormal b → is_rooted a ≡ is_rooted b → parts a ≡ parts b → a ≡ b }
{}

/// Steps of simplification come to one end. Each step shortens the list of segments, so that every run of steps ends,
/// and whichever steps are taken, the list from which none leads on is the same.
pub fn one_end()
    ensures ends { (rooted : Bool) (before after : List (List ℕ)) → Simpler rooted before after → length after < length before }
    ensures one { (rooted : Bool) (from a b : List (List ℕ)) → Reaches rooted from a → Reaches rooted from b → IsSimplest rooted a → IsSimplest rooted b → a ≡ b }
{}

/// A text is in normal form exactly where it is its root and its segments written again, and no step of simplification
/// leads on from these segments.
pub fn normal_is_simplest()
    ensures { (text : List ℕ) → IsNormal text ↔ IsSimplestText text }
{}

/// The normal form of a text is where the steps of simplification end: it begins at the root where the text does, steps
/// lead to its segments from those of the text, no step leads on from these, and no other list is such an end.
pub fn normal_is_the_end()
    ensures root { (text : List ℕ) → is_rooted (normal_of text) ≡ is_rooted text }
    ensures reached { (text : List ℕ) → Reaches (is_rooted text) (segments text) (parts (normal_of text)) }
    ensures simplest { (text : List ℕ) → IsSimplest (is_rooted text) (parts (normal_of text)) }
    ensures only { (text : List ℕ) → IsOnlyEnd (is_rooted text) (segments text) (parts (normal_of text)) }
{}
