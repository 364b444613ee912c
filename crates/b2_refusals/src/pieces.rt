//! Pieces of texts.
ghost use Rattle.std.specs.Prelude.{◌≡◌, ◌++◌, IfOk, string_bytes};
ghost use Rattle.b2_refusals.specs.Pieces.{at_line, size_text, steps_text};

use b2_base::fault::OutOfMemory;
use std::alloc::Global;

/// One text directly after another.
pub fn concat(alloc: Global, first: &str, second: &str) -> Result<String, OutOfMemory>
    ensures { IfOk result (λ text. string_bytes text ≡ first.now ++ second.now) }
{
    Ok(format!(in alloc; "{first}{second}")?)
}

/// A text after its path and its line.
pub fn at_line(alloc: Global, path: &str, line: u32, text: &str) -> Result<String, OutOfMemory>
    ensures { IfOk result (λ made. string_bytes made ≡ at_line path.now line text.now) }
{
    Ok(format!(in alloc; "{path}:{line}: {text}")?)
}

/// One text directly after another, both after a path and a line.
pub fn concat_at(
    alloc: Global,
    path: &str,
    line: u32,
    first: &str,
    second: &str,
) -> Result<String, OutOfMemory>
    ensures { IfOk result (λ text. string_bytes text ≡ at_line path.now line (first.now ++ second.now)) }
{
    Ok(format!(in alloc; "{path}:{line}: {first}{second}")?)
}

/// What is said of a file that is too big.
pub fn size_text(alloc: Global, path: &str, size: u64) -> Result<String, OutOfMemory>
    ensures { IfOk result (λ text. string_bytes text ≡ size_text path.now size) }
{
    Ok(format!(in alloc; "{path} has {size} bytes")?)
}

/// What is said of more steps than there are numbers for.
pub fn steps_text(alloc: Global, count: u32) -> Result<String, OutOfMemory>
    ensures { IfOk result (λ text. string_bytes text ≡ steps_text count) }
{
    Ok(format!(in alloc; "{count} steps")?)
}
