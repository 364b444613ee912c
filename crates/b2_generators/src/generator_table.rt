//! The generators.
ghost use Rattle.std.specs.Prelude.{◌≡◌, [], ◌∷◌, ◌++◌, None, length, slice_get, OnOk, OnErr};
ghost use Rattle.std.specs.Option.{option_copied};
ghost use Rattle.b2_generators.specs.Table.{generator_named};

use crate::generator::Generator;
use b2_base::fault::OutOfMemory;
use indexmap::IndexMap;
use std::alloc::Global;
use std::marker::Model;

/// Generators in order of registration, seen as their list. No two have one id.
pub(crate) struct GeneratorTable {
    alloc: Global,
    generators: IndexMap<String, Generator>,
}

/// By hand, so that dropping one is one call.
impl Drop for GeneratorTable {
    fn drop(self) {
        let GeneratorTable {
            alloc: _,
            generators,
        } = self;
        drop(generators);
    }
}

impl Model for GeneratorTable {
    ghost use Rattle.std.specs.Prelude.{◌≡◌, List, map, string_bytes};
    ghost use Rattle.b2_generators.specs.declared.generator.Generator.{Generator as Row};

    ghost Value = { List Row };

    ghost view = { λ t. map (λ e. e.1) t.generators.entries };

    ghost invariant = { λ t. map (λ e. string_bytes e.0) t.generators.entries ≡ map (λ e. e.1.id) t.generators.entries };
}

impl GeneratorTable {
    /// No generators; takes no memory.
    pub(crate) fn new(alloc: Global) -> GeneratorTable
        ensures { result ≡ [] }
    {
        GeneratorTable {
            alloc,
            generators: IndexMap::new(alloc),
        }
    }

    /// How many generators there are; takes no memory.
    pub(crate) fn count(&self) -> usize
        ensures { result ≡ length self.now }
    {
        self.generators.len()
    }

    /// The generator at a place, from 0; takes no memory.
    pub(crate) fn get(&self, place: usize) -> Option<&Generator>
        ensures { option_copied result ≡ slice_get self.now place }
    {
        match self.generators.get_index(place) {
            Some((_, generator)) => Some(generator),
            None => None,
        }
    }

    /// The generator of an id; takes no memory.
    pub(crate) fn find(&self, id: &str) -> Option<&Generator>
        ensures { option_copied result ≡ generator_named self.now id.now }
    {
        self.generators.get(id)
    }

    /// Adds a generator whose id is not there. After an error nothing has changed.
    pub(crate) fn put(&mut self, generator: Generator) -> Result<(), OutOfMemory>
        requires { generator_named self.old generator.id ≡ None }
        ensures ok { OnOk result (self.new ≡ self.old ++ generator ∷ []) }
        ensures err { OnErr result (self.new ≡ self.old) }
    {
        let key = String::from_str(self.alloc, generator.id.as_str())?;
        self.generators.reserve(1)?;
        let _before = self.generators.insert(key, generator).unwrap();
        Ok(())
    }
}
