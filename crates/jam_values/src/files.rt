//! Reading files of statements.
ghost use Rattle.std.specs.Prelude.{◌≤◌, length, IfOk};
ghost use Rattle.std.specs.Option.{IfSome};
ghost use Rattle.jam_meaning.specs.Settings.{file_limit, IsReading};
ghost use Rattle.jam_values.specs.FileReadings.{reading_of, ReadsAny, ReadsBytes, ReadsTokens, ReadsOnce};

use b2_base::fault::OutOfMemory;
use b2_base::path::Path;
use b2_base::text::Text;
use b2_base::token::Token;
use b2_host::fault::IoFault;
use b2_host::files::{Files, ReadAnswer};
use jam_grammar::tree::Tree;
use jam_lexer::fault::LexFault;
use jam_lexer::lex;
use jam_parser::fault::SyntaxFault;
use jam_parser::parse::parse;
use std::alloc::Global;

/// The most bytes of a file of statements.
pub const FILE_LIMIT: u64 = 1_048_576;

/// What reading a file gives.
#[derive(Drop)]
pub enum FileReading {
    /// No file stands there.
    Missing,
    /// It has this many bytes, which are too many.
    TooBig { size: u64 },
    /// It has no tokens.
    NoTokens(LexFault),
    /// Its tokens have no tree: the line and the text of the first one with which none goes on.
    NoTree { line: u32, found: Text },
    /// Its statements.
    File(Tree),
}

/// How tokens read.
fn tokens_read(alloc: Global, tokens: &[Token]) -> Result<FileReading, OutOfMemory>
    ensures { IfOk result (λ read. ReadsTokens tokens.now (reading_of read)) }
{
    match parse(alloc, tokens) {
        Ok(tree) => Ok(FileReading::File(tree)),
        Err(SyntaxFault::At { line, found }) => Ok(FileReading::NoTree { line, found }),
        Err(SyntaxFault::OutOfMemory) => Err(OutOfMemory),
    }
}

/// How bytes read.
fn bytes_read(alloc: Global, bytes: &[u8]) -> Result<FileReading, OutOfMemory>
    requires { length bytes.now ≤ file_limit }
    ensures { IfOk result (λ read. ReadsBytes bytes.now (reading_of read)) }
{
    match lex(alloc, bytes) {
        Ok(tokens) => tokens_read(alloc, &tokens),
        Err(LexFault::NotUtf8 { at }) => Ok(FileReading::NoTokens(LexFault::NotUtf8 { at })),
        Err(LexFault::OpenQuote { line }) => Ok(FileReading::NoTokens(LexFault::OpenQuote {
            line,
        })),
        Err(LexFault::OpenActions { line }) => Ok(FileReading::NoTokens(LexFault::OpenActions {
            line,
        })),
        Err(LexFault::OutOfMemory) => Err(OutOfMemory),
    }
}

/// How the bytes of a file read.
#[tactic(auto, using(crate::proofs::OneReading::any_of_short))]
pub fn any_read(alloc: Global, bytes: &[u8]) -> Result<FileReading, OutOfMemory>
    ensures { IfOk result (λ read. ReadsAny bytes.now (reading_of read)) }
{
    let size = bytes.len() as u64;
    if size > FILE_LIMIT {
        return Ok(FileReading::TooBig { size });
    }
    let read = bytes_read(alloc, bytes)?;
    Ok(read)
}

/// Reads a file of statements. Where it is out of memory, the file may have been read.
#[tactic(auto, using(crate::proofs::OneReading::file_reads))]
pub fn read_file<F: Files>(
    alloc: Global,
    files: &mut F,
    path: &Path,
) -> Result<FileReading, IoFault>
    ensures effect { ReadsOnce path.now (F.outside files.old) (F.outside files.new) result }
    ensures answer { IfOk result (λ read. IfSome (F.outside files.old).disk (λ disk. IsReading disk.now path.now (reading_of read))) }
{
    match files.read(path, FILE_LIMIT)? {
        ReadAnswer::Missing => Ok(FileReading::Missing),
        ReadAnswer::TooBig { size } => Ok(FileReading::TooBig { size }),
        ReadAnswer::Bytes(bytes) => Ok(any_read(alloc, &bytes)?),
    }
}
