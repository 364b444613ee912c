//! Laws of scan lines: they tell what a file includes.
ghost use Rattle.b2_runs.specs.ScanLaws.{ScanIsTrue, ScanTells, FoundScanTells};

/// The scan line of a file that was read is true.
pub fn scan_is_true()
    ensures { ScanIsTrue }
{}

/// A true scan line with the stamp of the file that stands at its path tells the includes of this file.
pub fn scan_tells()
    ensures { ScanTells }
{}

/// So does the scan line that a log gives for the present stamp of a file.
pub fn found_scan_tells()
    ensures { FoundScanTells }
{}
