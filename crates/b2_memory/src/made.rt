//! What a child in memory makes.
ghost use Rattle.std.specs.Prelude.{◌≡◌, ℕ, List, [], ◌∷◌, ◌++◌, map, IfOk, OnOk};
ghost use Rattle.std.specs.List.{flat_map};
ghost use Rattle.b2_base.specs.Segments.{texts};
ghost use Rattle.b2_files.specs.Stores.{write_of, input_of};
ghost use Rattle.b2_memory.specs.Results.{words_of, bytes_named, joined, digest_line, input_text, by_path, whole_text, made_by, made_of};
ghost use Rattle.b2_memory.specs.NamedBytes.{bytes_found};

use b2_base::fault::OutOfMemory;
use b2_base::hexadecimal::hexadecimal;
use b2_base::path::Path;
use b2_base::white::is_white;
use b2_files::file_bytes::FileBytes;
use sha2::{Digest, Sha256};
use std::alloc::Global;
use std::collections::BTreeMap;

/// The words of a text, which white space divides.
fn words(alloc: Global, text: &str) -> Result<Vec<&[u8]>, OutOfMemory>
    ensures { IfOk result (λ found. texts found.items ≡ words_of text.now) }
{
    let found = text
        .as_bytes()
        .split(|byte| is_white(*byte))
        .filter(|word| !word.is_empty())
        .collect(alloc)?;
    Ok(found)
}

/// The bytes of the inputs by their names.
fn by_name(alloc: Global, held: &[FileBytes]) -> Result<BTreeMap<&[u8], &[u8]>, OutOfMemory>
    ensures { IfOk result (λ found. (name : List ℕ) → bytes_found found name ≡ bytes_named (map write_of held.now) name) }
{
    let mut found = BTreeMap::new(alloc);
    for input in held {
        let name = input.path.as_str().as_bytes();
        found.insert(name, input.bytes.as_ref().as_slice())?;
    }
    Ok(found)
}

/// The bytes that were found for a name, or none.
fn named<'a>(found: &BTreeMap<&'a [u8], &'a [u8]>, name: &'a [u8]) -> &'a [u8]
    ensures { result.now ≡ bytes_found found.now name.now }
{
    match found.get(&name) {
        None => &[],
        Some(bytes) => *bytes,
    }
}

/// The inputs that are named before the first `>`, joined.
fn join(alloc: Global, held: &[FileBytes], names: &[&[u8]]) -> Result<Vec<u8>, OutOfMemory>
    ensures { IfOk result (λ bytes. bytes.items ≡ joined (map write_of held.now) (texts names.now)) }
{
    let found = by_name(alloc, held)?;
    let mut bytes = Vec::new(alloc);
    for name in names {
        if *name == b">".as_slice() {
            return Ok(bytes);
        }
        bytes.extend_from_slice(named(&found, name))?;
    }
    Ok(bytes)
}

/// The digest of a text and its inputs as a line of hexadecimal digits.
fn digest(alloc: Global, text: &str, held: &[FileBytes], out: &Path) -> Result<Vec<u8>, OutOfMemory>
    ensures { IfOk result (λ bytes. bytes.items ≡ digest_line text.now (map write_of held.now) out.now) }
{
    let whole = whole(alloc, text, held, out)?;
    let digits = hexadecimal(alloc, Sha256::digest(whole.as_slice()).as_slice())?;
    let mut line = Vec::new(alloc);
    line.extend_from_slice(digits.as_bytes())?;
    line.push(b'\n')?;
    Ok(line)
}

/// The inputs in byte order of their paths.
fn sorted<'a>(alloc: Global, held: &'a [FileBytes]) -> Result<Vec<&'a FileBytes>, OutOfMemory>
    ensures { IfOk result (λ inputs. map input_of inputs.items ≡ by_path (map write_of held.now)) }
{
    let mut inputs: Vec<&FileBytes> = held.iter().collect(alloc)?;
    inputs.sort_by(|one, other| one.path.cmp(&other.path))?;
    Ok(inputs)
}

fn add_inputs(alloc: Global, bytes: &mut Vec<u8>, inputs: &[&FileBytes]) -> Result<(), OutOfMemory>
    ensures { OnOk result (bytes.new.items ≡ bytes.old.items ++ flat_map input_text (map input_of inputs.now)) }
{
    for input in inputs {
        add_input(alloc, bytes, input)?;
    }
    Ok(())
}

/// What is digested: the output's path and the text, each as a line, and the inputs in byte order of their paths.
fn whole(alloc: Global, text: &str, held: &[FileBytes], out: &Path) -> Result<Vec<u8>, OutOfMemory>
    ensures { IfOk result (λ bytes. bytes.items ≡ whole_text text.now (map write_of held.now) out.now) }
{
    let inputs = sorted(alloc, held)?;
    let mut bytes = Vec::new(alloc);
    let out = out.as_str();
    let head = format!(in alloc; "{out}\n{text}\n")?;
    bytes.extend_from_slice(head.as_bytes())?;
    add_inputs(alloc, &mut bytes, inputs.as_slice())?;
    Ok(bytes)
}

fn add_input(alloc: Global, bytes: &mut Vec<u8>, input: &FileBytes) -> Result<(), OutOfMemory>
    ensures { OnOk result (bytes.new.items ≡ bytes.old.items ++ input_text (write_of input.now)) }
{
    let path = input.path.as_str();
    let size = input.bytes.as_ref().len();
    let head = format!(in alloc; "{path}\n{size}\n")?;
    bytes.extend_from_slice(head.as_bytes())?;
    bytes.extend_from_slice(input.bytes.as_ref().as_slice())?;
    Ok(())
}

fn make_by(
    alloc: Global,
    words: &[&[u8]],
    text: &str,
    held: &[FileBytes],
    out: &Path,
) -> Result<Vec<u8>, OutOfMemory>
    ensures { IfOk result (λ bytes. bytes.items ≡ made_by (texts words.now) text.now (map write_of held.now) out.now) }
{
    match words {
        [] => digest(alloc, text, held, out),
        [first, names @ ..] => {
            if *first == b"cat".as_slice() {
                return join(alloc, held, names);
            }
            digest(alloc, text, held, out)
        }
    }
}

/// What a child makes at an output.
#[tactic(auto, unfolding(crate::specs::Results::made_of))]
pub fn make(
    alloc: Global,
    text: &str,
    held: &[FileBytes],
    out: &Path,
) -> Result<Vec<u8>, OutOfMemory>
    ensures { IfOk result (λ bytes. bytes.items ≡ made_of text.now (map write_of held.now) out.now) }
{
    let words = words(alloc, text)?;
    make_by(alloc, words.as_slice(), text, held, out)
}
