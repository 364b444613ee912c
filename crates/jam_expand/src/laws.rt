//! Laws of expansion: what its definitions come to, in other words.
ghost use Rattle.std.specs.Prelude.{◌≡◌, ◌↔◌, ◌+◌, ◌*◌, ◌<◌, ℕ, List, [], ◌∷◌, ◌++◌, length, Option, Some, slice_get};
ghost use Rattle.std.specs.List.{flat_map};
ghost use Rattle.jam_expand.specs.Bodies.{words, spaces, interleaved};
ghost use Rattle.jam_expand.specs.Expansions.{expansion};
ghost use Rattle.jam_expand.specs.Indexes.{selected};
ghost use Rattle.jam_expand.specs.Limits.{limit, within};
ghost use Rattle.jam_expand.specs.PlainNames.{IsPlainName};
ghost use Rattle.jam_expand.specs.Products.{product};
ghost use Rattle.jam_expand.specs.Sizes.{size_of, IsStretchOf};
ghost use Rattle.jam_expand.specs.WordCuts.{written, HasNoPart, HasNoSigns, IsCutInto};
ghost use Rattle.jam_expand.specs.Words.{Piece, pieces_of};
ghost use Rattle.jam_expand.specs.declared.index.IndexRange.{IndexRange};

/// A word has one cut: from left to right a part where one begins, whose parentheses are balanced, and a literal byte
/// elsewhere.
pub fn word_has_one_cut()
    ensures { (word : List ℕ) (pieces : List Piece) → IsCutInto word pieces ↔ (pieces ≡ pieces_of word) }
{}

/// The pieces of a word, written again, are the word.
pub fn pieces_spell_word()
    ensures { (word : List ℕ) → flat_map written (pieces_of word) ≡ word }
{}

/// A product has as many elements as the product of its lists' lengths.
pub fn product_has_size()
    ensures { (lists : List (List (List ℕ))) → length (product lists) ≡ size_of lists }
{}

/// The elements of a product stand in order like numbers, of which the leftmost list is the highest digit.
pub fn product_is_ordered()
    ensures { (texts : List (List ℕ)) (lists : List (List (List ℕ))) (i j : ℕ) (first second : List ℕ) →
        slice_get texts i ≡ Some first → slice_get (product lists) j ≡ Some second →
        slice_get (product (texts ∷ lists)) (i * size_of lists + j) ≡ Some (first ++ second) }
{}

/// What an index selects stands side by side in the list.
pub fn selection_is_stretch()
    ensures { (index : Option IndexRange) (texts : List (List ℕ)) → IsStretchOf (selected index texts) texts }
{}

/// A word in which no part begins stands for itself, also with a `$` in it.
pub fn word_without_parts_is_itself()
    ensures no_part { (names : List ℕ → List (List ℕ)) (word : List ℕ) → HasNoPart word → expansion names word ≡ within (word ∷ []) }
    ensures no_signs { (names : List ℕ → List (List ℕ)) (word : List ℕ) → HasNoSigns word → expansion names word ≡ within (word ∷ []) }
{}

/// A part that is a bare name stands for what the name stands for.
pub fn name_is_its_list()
    ensures { (names : List ℕ → List (List ℕ)) (name : List ℕ) → IsPlainName name → length name < limit →
        expansion names (36 ∷ 40 ∷ (name ++ 41 ∷ [])) ≡ within (names name) }
{}

/// The words of a body and its white space, written one after the other, are the body.
pub fn words_spell_body()
    ensures { (body : List ℕ) → interleaved (words body) (spaces body) ≡ body }
{}
