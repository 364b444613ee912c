//! What holds of all tables and maps.
ghost use Rattle.b2_paths.specs.Laws.{PlacesStay, ListedHasPlace, PairIsFound, OtherPairsStay};

/// A number stays the place of its path as the table grows.
pub fn places_stay()
    ensures { PlacesStay }
{}

/// A path is in the table exactly where it has a place.
pub fn listed_has_place()
    ensures { ListedHasPlace }
{}

/// What a pair was given is found there.
pub fn pair_is_found()
    ensures { PairIsFound }
{}

/// What a pair was given changes nothing at another one.
pub fn other_pairs_stay()
    ensures { OtherPairsStay }
{}
