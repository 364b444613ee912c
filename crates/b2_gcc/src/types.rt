//! The types of files and the generators of the gcc toolset.
ghost use Rattle.std.specs.Prelude.{◌≡◌, ◌≢◌, [], ◌∷◌, true, false, Ok, IfOk, OnErr, map};
ghost use Rattle.std.specs.List.{list_all};
ghost use Rattle.b2_generators.specs.Table.{is_type_taken};
ghost use Rattle.b2_gcc.specs.Tables.{file_types, generators};
ghost use Rattle.b2_gcc.specs.TableDeclarations.{with_types, are_types_refused, with_generators, are_generators_refused};
ghost use Rattle.b2_gcc.specs.Rows.{type_in, generator_in, is_clean_type, is_clean_generator};

use crate::owned::owned_pairs;
use b2_base::fault::OutOfMemory;
use b2_base::text::Text;
use b2_base::text_list::owned_texts;
use b2_generators::generator::Generator;
use b2_generators::types::Types;
use std::alloc::Global;

/// A type of files with its suffixes, without dots.
struct TypeRow {
    name: &'static str,
    suffixes: &'static [&'static str],
}

/// A generator from one type to another, in sets that have all of the required properties.
struct GeneratorRow {
    id: &'static str,
    source: &'static str,
    target: &'static str,
    required: &'static [(&'static str, &'static str)],
}

/// The types of files, in order.
static TYPES: [TypeRow; 7] = [
    TypeRow {
        name: "C",
        suffixes: &["c"],
    },
    TypeRow {
        name: "CPP",
        suffixes: &["cpp", "cc", "cxx"],
    },
    TypeRow {
        name: "H",
        suffixes: &["h", "hh", "hpp", "hxx"],
    },
    TypeRow {
        name: "OBJ",
        suffixes: &["o"],
    },
    TypeRow {
        name: "EXE",
        suffixes: &[],
    },
    TypeRow {
        name: "STATIC_LIB",
        suffixes: &["a"],
    },
    TypeRow {
        name: "SHARED_LIB",
        suffixes: &["so"],
    },
];

/// The generators, in order.
static GENERATORS: [GeneratorRow; 5] = [
    GeneratorRow {
        id: "gcc.compile.c++",
        source: "CPP",
        target: "OBJ",
        required: &[],
    },
    GeneratorRow {
        id: "gcc.compile.c",
        source: "C",
        target: "OBJ",
        required: &[],
    },
    GeneratorRow {
        id: "gcc.link",
        source: "OBJ",
        target: "EXE",
        required: &[],
    },
    GeneratorRow {
        id: "gcc.link.dll",
        source: "OBJ",
        target: "SHARED_LIB",
        required: &[("link", "shared")],
    },
    GeneratorRow {
        id: "gcc.archive",
        source: "OBJ",
        target: "STATIC_LIB",
        required: &[("link", "static")],
    },
];

fn register_type(alloc: Global, types: &mut Types, row: &TypeRow) -> Result<bool, OutOfMemory>
    requires { is_clean_type (type_in row.now) ≡ true }
    ensures registered { result ≡ Ok true → types.new ≡ with_types types.old (type_in row.now ∷ []) }
    ensures free { result ≡ Ok true → is_type_taken types.old.types row.now.name.now (type_in row.now).suffixes ≡ false }
    ensures taken { result ≡ Ok false → is_type_taken types.old.types row.now.name.now (type_in row.now).suffixes ≡ true }
    ensures unchanged { result ≡ Ok false → types.new ≡ types.old }
    ensures err { OnErr result (types.new ≡ types.old) }
{
    let suffixes = owned_texts(alloc, row.suffixes)?;
    types.register_type(row.name, suffixes.as_slice())
}

/// Registers the types of some rows in order, up to the first that is refused.
fn register_types(alloc: Global, types: &mut Types, rows: &[TypeRow]) -> Result<bool, OutOfMemory>
    requires { list_all (λ row. is_clean_type (type_in row)) rows.now ≡ true }
    ensures registered { result ≡ Ok true → types.new ≡ with_types types.old (map type_in rows.now) }
    ensures free { result ≡ Ok true → are_types_refused types.old.types (map type_in rows.now) ≡ false }
    ensures taken { result ≡ Ok false → are_types_refused types.old.types (map type_in rows.now) ≡ true }
{
    match rows {
        [] => Ok(true),
        [first, more @ ..] => {
            if !register_type(alloc, types, first)? {
                return Ok(false);
            }
            register_types(alloc, types, more)
        }
    }
}

fn generator(alloc: Global, row: &GeneratorRow) -> Result<Generator, OutOfMemory>
    requires { is_clean_generator row.now ≡ true }
    ensures { IfOk result (λ made. made ≡ generator_in row.now) }
{
    Ok(Generator {
        id: Text::new(alloc, row.id)?,
        sources: owned_texts(alloc, &[row.source])?,
        targets: owned_texts(alloc, &[row.target])?,
        required: owned_pairs(alloc, row.required)?,
    })
}

/// Registers the generators of some rows in order, up to the first that is refused.
fn register_generators(
    alloc: Global,
    types: &mut Types,
    rows: &[GeneratorRow],
) -> Result<bool, OutOfMemory>
    requires { list_all is_clean_generator rows.now ≡ true }
    ensures registered { result ≡ Ok true → types.new ≡ with_generators types.old (map generator_in rows.now) }
    ensures free { result ≡ Ok true → are_generators_refused types.old (map generator_in rows.now) ≡ false }
    ensures taken { result ≡ Ok false → are_generators_refused types.old (map generator_in rows.now) ≡ true }
{
    match rows {
        [] => Ok(true),
        [first, more @ ..] => {
            if !types.register(generator(alloc, first)?)? {
                return Ok(false);
            }
            register_generators(alloc, types, more)
        }
    }
}

/// Registers the toolset's types of files after those that are there. False where the name or a suffix of one is there.
/// Then, and after an error, a first part of them may be registered.
pub fn declare_types(alloc: Global, types: &mut Types) -> Result<bool, OutOfMemory>
    ensures registered { result ≡ Ok true → types.new ≡ with_types types.old file_types }
    ensures free { result ≡ Ok true → are_types_refused types.old.types file_types ≡ false }
    ensures taken { result ≡ Ok false → are_types_refused types.old.types file_types ≡ true }
    ensures on_empty { types.old.types ≡ [] → result ≢ Ok false }
{
    register_types(alloc, types, &TYPES)
}

/// Registers the toolset's generators after those that are there. False where the id of one is there, or a type that it
/// takes or gives is not. Then, and after an error, a first part of them may be registered.
pub fn declare_generators(alloc: Global, types: &mut Types) -> Result<bool, OutOfMemory>
    ensures registered { result ≡ Ok true → types.new ≡ with_generators types.old generators }
    ensures free { result ≡ Ok true → are_generators_refused types.old generators ≡ false }
    ensures taken { result ≡ Ok false → are_generators_refused types.old generators ≡ true }
    ensures on_empty { types.old ≡ record { types = file_types; generators = [] } → result ≢ Ok false }
{
    register_generators(alloc, types, &GENERATORS)
}
