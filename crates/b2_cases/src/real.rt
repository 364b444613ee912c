//! The files and child processes of the system, and the program over them, in a folder of its own.

mod child_commands;
mod file_commands;
mod program_commands;
pub mod session;
pub mod system;
