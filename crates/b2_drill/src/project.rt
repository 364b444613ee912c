//! The generated project of a drill.
//!
//! Its targets are numbered from 0. Each is made of a source of its own and, but for the first, of the target with half its
//! number.
ghost use Rattle.std.specs.Prelude.{◌≡◌, ◌++◌, IfOk, OnOk, codes, string_bytes};
ghost use Rattle.b2_drill.specs.Drills.{source_name, sources_of, make_line, jamroot};

use b2_base::fault::OutOfMemory;
use b2_base::path::{Path, path_of};
use std::alloc::Global;

/// The path of the source with a number.
pub(crate) fn source_path(alloc: Global, i: u32) -> Result<Path, OutOfMemory>
    ensures { IfOk result (λ path. path ≡ source_name i) }
{
    let name = format!(in alloc; "s{i}")?;
    path_of(alloc, name.as_str())
}

/// The path of the file that declares the project.
pub(crate) fn jamroot_path(alloc: Global) -> Result<Path, OutOfMemory>
    ensures { IfOk result (λ path. path ≡ codes "Jamroot") }
{
    path_of(alloc, "Jamroot")
}

fn sources_of(alloc: Global, i: u32) -> Result<String, OutOfMemory>
    ensures { IfOk result (λ text. string_bytes text ≡ sources_of i) }
{
    if i == 0 {
        return Ok(format!(in alloc; "s{i}")?);
    }
    let half = i / 2;
    Ok(format!(in alloc; "s{i} t{half}")?)
}

fn make_line(alloc: Global, i: u32) -> Result<String, OutOfMemory>
    ensures { IfOk result (λ text. string_bytes text ≡ make_line i) }
{
    let sources = sources_of(alloc, i)?;
    Ok(format!(in alloc; "make t{i} : {sources} : @join ;\n")?)
}

fn push_make_line(alloc: Global, text: &mut String, i: u32) -> Result<(), OutOfMemory>
    ensures { OnOk result (string_bytes text.new ≡ string_bytes text.old ++ make_line i) }
{
    let line = make_line(alloc, i)?;
    text.push_str(line.as_str())?;
    Ok(())
}

/// The text of the file that declares a project with so many targets.
pub(crate) fn jamroot(alloc: Global, n: u32) -> Result<String, OutOfMemory>
    ensures { IfOk result (λ text. string_bytes text ≡ jamroot n) }
{
    let mut text = String::from_str(alloc, "actions join { cat $(>) > $(<) }\n")?;
    for i in 0..n {
        push_make_line(alloc, &mut text, i)?;
    }
    Ok(text)
}
