//! Laws of the log: what its lines say, and what keeps it true.
ghost use Rattle.b2_runs.specs.LogLaws.{FoundIsThere, ScanIsThere, LastRecord, LastDrop, OthersUnsaid, LastScan, OtherScansUnsaid, OthersUnsaidThoughTorn, DigestsTell, TrueByKind, EmptyIsTrue, LineTrueAsPastGrows, TrueAsPastGrows, TrueWithLine, TrueWithFewer, ScansTrueAsPastGrows, ScansTrueWithFewer};

/// A record that is found is in the log, and has the outputs that were asked for.
pub fn found_is_there()
    ensures { FoundIsThere }
{}

/// A scan that is found is in the log, and is of the path and at the stamp that were asked for.
pub fn scan_is_there()
    ensures { ScanIsThere }
{}

/// A record at the end is the last line on its outputs.
pub fn last_record()
    ensures { LastRecord }
{}

/// A drop at the end is the last line on its outputs.
pub fn last_drop()
    ensures { LastDrop }
{}

/// A line says nothing of other outputs.
pub fn others_unsaid()
    ensures { OthersUnsaid }
{}

/// A scan line at the end is the last line on its path.
pub fn last_scan()
    ensures { LastScan }
{}

/// A line says nothing of other paths.
pub fn other_scans_unsaid()
    ensures { OtherScansUnsaid }
{}

/// A torn append says nothing of other outputs.
pub fn others_unsaid_though_torn()
    ensures { OthersUnsaidThoughTorn }
{}

/// The digests of a true record are those of the files that stand with its stamps.
pub fn digests_tell()
    ensures { DigestsTell }
{}

/// A log is true where its records and its scan lines are.
pub fn true_by_kind()
    ensures { TrueByKind }
{}

/// A log without lines is true.
pub fn empty_is_true()
    ensures { EmptyIsTrue }
{}

/// A true line stays true where more has stood.
pub fn line_true_as_past_grows()
    ensures { LineTrueAsPastGrows }
{}

/// A true log stays true where more has stood.
pub fn true_as_past_grows()
    ensures { TrueAsPastGrows }
{}

/// A true log stays true where a true line is appended.
pub fn true_with_line()
    ensures { TrueWithLine }
{}

/// Any log whose lines are among those of a true log is true, so what is kept of it is.
pub fn true_with_fewer()
    ensures { TrueWithFewer }
{}

/// Scan lines stay true where more has stood.
pub fn scans_true_as_past_grows()
    ensures { ScansTrueAsPastGrows }
{}

/// Scan lines stay true where lines are left out.
pub fn scans_true_with_fewer()
    ensures { ScansTrueWithFewer }
{}
