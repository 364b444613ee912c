//! The log of actions. There is a current log, at first the one without a line.
//!
//! In a text line and in an answer `␉` stands for a tab, and in an answer `␊` for a line feed, since a backslash with a
//! letter is what a field of the log may hold.
//!
//! | Command | Answer |
//! |---|---|
//! | `new` | none; the log is the one without a line |
//! | `read_log WORD ..` | how many of the bytes are good; the bytes are those of the text lines and then those of the words, and the log is what is read from them |
//! | `read_prefixes WORD ..` | of the shortest prefix of the same bytes, and of each longer one of which more are good, its length and how many are good |
//! | `good` | how many of the bytes that the log was read from are good |
//! | `line_count` | how many lines the log has |
//! | `kept_count` | how many of its lines are kept |
//! | `find PATH ..` | the line of the record that the log has of these outputs, or `none` |
//! | `scan PATH STAMP` | the line of the scan that the log has of this path at this stamp, or `none` |
//! | `add LINE` | none; or `not proper`, and the log is as before |
//! | `is_proper LINE` | `yes` or `no` |
//! | `is_digest WORD` | `yes` or `no` |
//! | `kept` | the lines that are kept |
//! | `record_line RECORD`, `drop_line PATH ..`, `scan_line SCAN`, `line_bytes LINE` | the line |
//!
//! A LINE is `record` and a RECORD, `drop` and the paths, or `scan` and a SCAN. A RECORD is its text and then, each three
//! words, `out PATH STAMP` and `in PATH STAMP`, and for a record with digests `digest out WORD` and `digest in WORD`. A
//! SCAN is its path and its stamp and then, each two words, `q NAME` or `a NAME`.

mod bytes;
mod lines;
mod record_words;
pub mod session;
mod words;
