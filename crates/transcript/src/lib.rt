//! Transcripts: tests as data. A transcript program reads commands from the standard input and prints each line again,
//! followed by its answers; so what it prints reads as worked examples, and its input is its output without the answers.
//! docs/TRANSCRIPTS.md describes the format.
//!
//! A [`session::Session`] gets each command with its words and its text. It gives the answer, or tells that it does not know the
//! command or that the command has other words than it takes. It does not get a line whose quotes or escapes are wrong, nor text
//! lines below no command: these are refused. The commands after a refusal are carried out, and the program ends with status 1.
//!
//! # Example
//!
//! A program is a [`session::Session`], which carries out commands, and a `main` that hands it to [`session::run`]:
//!
//! ```rust
//! struct Count {
//!     bytes: usize,
//! }
//!
//! impl Session for Count {
//!     fn carry_out(&mut self, alloc: Global, command: &Command) -> Result<Answer, CaseFault> {
//!         match command.name() {
//!             "add" => match command.words() {
//!                 [word] => {
//!                     self.bytes = self.bytes.saturating_add(word.bytes().len());
//!                     Ok(Answer::new(alloc))
//!                 }
//!                 _ => Err(CaseFault::WrongWords),
//!             },
//!             "sum" => {
//!                 let mut answer = Answer::new(alloc);
//!                 answer.put_number(self.bytes as u64);
//!                 answer.put(" bytes");
//!                 answer.end_line();
//!                 Ok(answer)
//!             }
//!             _ => Err(CaseFault::UnknownCommand),
//!         }
//!     }
//! }
//!
//! fn main(rt: HostRuntime) -> io::Result<ExitCode> {
//!     run(&rt, &mut Count { bytes: 0 })
//! }
//! ```
//!
//! It prints, of the lines `add "a b\xff"`, `add` and `sum`:
//!
//! ```text
//! add "a b\xff"
//! add
//! = wrong words
//! sum
//! = 4 bytes
//! ```
#![tactic(auto)]

pub mod answer;
pub mod case_fault;
pub mod command;
pub mod session;
mod word_reader;
pub mod words;
