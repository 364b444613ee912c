//! Laws of reading.
ghost use Rattle.jam_values.specs.FileReadings.{OneReading};

/// A file reads in one way.
pub fn one_reading()
    ensures { OneReading }
{}
