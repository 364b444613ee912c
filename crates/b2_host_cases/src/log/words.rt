//! What a word of the log stands for.
use transcript::case_fault::CaseFault;

/// A word as a time stamp.
pub fn stamp(word: &str) -> Result<u64, CaseFault> {
    match word.parse::<u64>() {
        Ok(stamp) => Ok(stamp),
        Err(_error) => Err(CaseFault::WrongWords),
    }
}
