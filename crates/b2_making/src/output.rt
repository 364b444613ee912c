//! Outputs before they have their paths.
ghost use Rattle.std.specs.Prelude.{◌≡◌, ◌||◌, IfOk, map};
ghost use Rattle.std.specs.Option.{option_copied};
ghost use Rattle.b2_making.specs.Steps.{is_moved};
ghost use Rattle.b2_making.specs.Conversions.{converted, outputs_of, with_named, naming};

use b2_base::fault::OutOfMemory;
use b2_base::list::List;
use b2_base::path::Path;
use b2_base::text::Text;
use b2_generators::types::Types;
use b2_virtual::tails::converted_tail;
use std::alloc::Global;

/// An output before it has its path: the name of its type, the tail of its path, and whether it moves to a location.
#[derive(Drop)]
pub(crate) struct Output {
    pub file_type: Text,
    pub tail: Path,
    pub moves: bool,
}

pub(crate) type OutputList = List<Output>;

impl Output {
    /// The same output again.
    fn copy(&self) -> Result<Output, OutOfMemory>
        ensures { IfOk result (λ made. made ≡ self.now) }
    {
        let file_type = self.file_type.copy()?;
        let tail = self.tail.copy()?;
        Ok(Output {
            file_type,
            tail,
            moves: self.moves,
        })
    }
}

fn is_moved(file_type: &Text) -> bool
    ensures { result ≡ is_moved file_type.now }
{
    let text = file_type.as_str();
    text == "EXE" || text == "STATIC_LIB" || text == "SHARED_LIB"
}

/// A file of a type that is converted from one of this tail.
fn converted(
    alloc: Global,
    types: &Types,
    tail: &Path,
    file_type: &Text,
) -> Result<Output, OutOfMemory>
    ensures { IfOk result (λ made. made ≡ converted types.now.types tail.now file_type.now) }
{
    let suffix = types.suffix_of(file_type.as_str());
    let tail = converted_tail(alloc, tail, suffix)?;
    Ok(Output {
        file_type: file_type.copy()?,
        tail,
        moves: is_moved(file_type),
    })
}

fn all_converted(
    alloc: Global,
    types: &Types,
    tail: &Path,
    file_types: &[Text],
) -> Result<OutputList, OutOfMemory>
    ensures { IfOk result (λ made. made ≡ map (converted types.now.types tail.now) file_types.now) }
{
    let mut made = OutputList::new(alloc);
    for file_type in file_types {
        made.push(converted(alloc, types, tail, file_type)?)?;
    }
    Ok(made)
}

/// The outputs of a generator's step, whose converted files get their tails from this one.
pub(crate) fn outputs_of(
    alloc: Global,
    types: &Types,
    id: &Text,
    tail: &Path,
) -> Result<OutputList, OutOfMemory>
    ensures { IfOk result (λ made. made ≡ outputs_of types.now.types types.now.generators id.now tail.now) }
{
    match types.generator(id.as_str()) {
        None => Ok(OutputList::new(alloc)),
        Some(generator) => all_converted(alloc, types, tail, generator.targets.as_slice()),
    }
}

/// Outputs where a named one stands for the first of its type.
fn with_named(outputs: OutputList, named: &Output) -> Result<OutputList, OutOfMemory>
    ensures { IfOk result (λ made. made ≡ with_named named.now outputs) }
{
    let mut outputs = outputs.into_vec();
    for place in 0..outputs.len() {
        if named.file_type == outputs[place].file_type {
            outputs[place] = named.copy()?;
            return Ok(OutputList::from_vec(outputs));
        }
    }
    Ok(OutputList::from_vec(outputs))
}

/// Outputs, with the named one where there is one.
pub(crate) fn naming(outputs: OutputList, named: Option<&Output>) -> Result<OutputList, OutOfMemory>
    ensures { IfOk result (λ made. made ≡ naming (option_copied named.entry) outputs) }
{
    match named {
        None => Ok(outputs),
        Some(named) => with_named(outputs, named),
    }
}
