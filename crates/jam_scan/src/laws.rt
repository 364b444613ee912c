//! Laws of includes, of where they are looked for, and of what is gathered.
ghost use Rattle.jam_scan.specs.Laws.{LinesInclude, FilesInclude, UnscannedIncludesNone, IncludesAreNamed, PlacesAreNormal, GatheredIsKnown, GatheredHasValues, ValuesAreOne};

/// A line has an include exactly where it is blanks, `#`, blanks, `include`, blanks, and a name between its signs.
pub fn lines_include()
    ensures { LinesInclude }
{}

/// A file includes what its lines do, and nothing else.
pub fn files_include()
    ensures { FilesInclude }
{}

/// A file without a suffix of C or C++ has no includes.
pub fn unscanned_includes_none()
    ensures { UnscannedIncludesNone }
{}

/// The name of each include is UTF-8, is not empty, and has no zero byte.
pub fn includes_are_named()
    ensures { IncludesAreNamed }
{}

/// Each place where an include is looked for is a path in normal form.
pub fn places_are_normal()
    ensures { PlacesAreNormal }
{}

/// The members of a closure are all that the step is known to read, by the values of the files that were scanned.
pub fn gathered_is_known()
    ensures { GatheredIsKnown }
{}

/// Where no member of a closure is left to be scanned, each has a value, so that no more can become known.
pub fn gathered_has_values()
    ensures { GatheredHasValues }
{}

/// No member of a closure was told two values.
pub fn values_are_one()
    ensures { ValuesAreOne }
{}
