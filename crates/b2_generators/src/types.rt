//! The types of files and the generators.
ghost use Rattle.std.specs.Prelude.{◌≡◌, ◌||◌, [], ◌∷◌, ◌++◌, true, false, is_some, Ok, OnErr, IfSome};
ghost use Rattle.std.specs.List.{list_all};
ghost use Rattle.std.specs.Option.{option_copied};
ghost use Rattle.b2_base.specs.Bytes.{HasNoZero};
ghost use Rattle.b2_generators.specs.Table.{is_type, is_type_taken, is_generator_refused, type_of, first_suffix, generator_named, HaveDistinctIds};

use crate::generator::Generator;
use crate::generator_table::GeneratorTable;
use crate::paths::last_suffix;
use crate::type_table::TypeTable;
use b2_base::fault::OutOfMemory;
use b2_base::path::Path;
use b2_base::text::Text;
use std::alloc::Global;
use std::marker::Model;

/// The registered types and generators, each seen as the list in order of registration. No two types have a name or a
/// suffix in common, and no two generators have one id.
pub struct Types {
    types: TypeTable,
    generators: GeneratorTable,
}

/// By hand, so that dropping one is one call.
impl Drop for Types {
    fn drop(self) {
        let Types { types, generators } = self;
        drop(types);
        drop(generators);
    }
}

impl Model for Types {
    ghost use Rattle.b2_generators.specs.Table.{Registered};
    ghost use Rattle.b2_generators.specs.Index.{AreRegistered};

    ghost Value = { Registered };

    ghost view = { λ t. record { types = t.types; generators = t.generators } };

    ghost invariant = { λ t. AreRegistered t.types t.generators };
}

impl Types {
    /// No types and no generators; takes no memory.
    pub fn new(alloc: Global) -> Types
        ensures { result ≡ record { types = []; generators = [] } }
    {
        Types {
            types: TypeTable::new(alloc),
            generators: GeneratorTable::new(alloc),
        }
    }

    /// Registers a type with its suffixes, each without the dot before it; one with a dot inside is no file's. False where
    /// the name or a suffix is there, or a suffix stands twice; then, and after an error, nothing has changed.
    pub fn register_type(&mut self, name: &str, suffixes: &[Text]) -> Result<bool, OutOfMemory>
        requires { HasNoZero name.now }
        ensures registered { result ≡ Ok true → self.new ≡ record self.old { types = self.old.types ++ record { name = name.now; suffixes = suffixes.now } ∷ [] } }
        ensures free { result ≡ Ok true → is_type_taken self.old.types name.now suffixes.now ≡ false }
        ensures taken { result ≡ Ok false → is_type_taken self.old.types name.now suffixes.now ≡ true }
        ensures unchanged { result ≡ Ok false → self.new ≡ self.old }
        ensures err { OnErr result (self.new ≡ self.old) }
    {
        self.types.register(name, suffixes)
    }

    pub(crate) fn generators(&self) -> &GeneratorTable
        ensures { result.now ≡ self.now.generators }
    {
        &self.generators
    }

    fn has_all(&self, names: &[Text]) -> bool
        ensures { result ≡ list_all (is_type self.now.types) names.now }
    {
        names.iter().all(|name| self.types.has(name.as_str()))
    }

    fn is_refused(&self, generator: &Generator) -> bool
        ensures { result ≡ is_generator_refused self.now generator.now }
    {
        self.generators.find(generator.id.as_str()).is_some()
            || !self.has_all(generator.sources.as_slice())
            || !self.has_all(generator.targets.as_slice())
    }

    /// Registers a generator. False where its id is there, or one of its types is not; then, and after an error, nothing
    /// has changed.
    pub fn register(&mut self, generator: Generator) -> Result<bool, OutOfMemory>
        ensures registered { result ≡ Ok true → self.new ≡ record self.old { generators = self.old.generators ++ generator ∷ [] } }
        ensures free { result ≡ Ok true → is_generator_refused self.old generator ≡ false }
        ensures taken { result ≡ Ok false → is_generator_refused self.old generator ≡ true }
        ensures unchanged { result ≡ Ok false → self.new ≡ self.old }
        ensures err { OnErr result (self.new ≡ self.old) }
    {
        if self.is_refused(&generator) {
            return Ok(false);
        }
        self.generators.put(generator)?;
        Ok(true)
    }

    /// The type of a path: that of its last suffix, which is what stands after the last dot of the file's name; else
    /// `FILE`. Takes no memory.
    pub fn type_of(&self, path: &Path) -> &str
        ensures name { result.now ≡ type_of self.now.types path.now }
        ensures no_zero { HasNoZero result.now }
    {
        match last_suffix(path.file_name()) {
            None => "FILE",
            Some(suffix) => self.types.type_with(suffix).unwrap_or("FILE"),
        }
    }

    /// The generator of an id; takes no memory.
    pub fn generator(&self, id: &str) -> Option<&Generator>
        ensures { option_copied result ≡ generator_named self.now.generators id.now }
    {
        self.generators.find(id)
    }

    /// No two generators have one id.
    pub fn ids_are_distinct(&self)
        ensures { HaveDistinctIds self.now.generators }
    {
        let _ = &self.generators;
    }

    /// The first suffix of a type, where there is the type and it has one; takes no memory.
    pub fn suffix_of(&self, name: &str) -> Option<&str>
        ensures suffix { option_copied result ≡ first_suffix self.now.types name.now }
        ensures no_zero { IfSome (option_copied result) HasNoZero }
    {
        let suffix = self.types.suffixes_of(name)?.as_slice().first()?;
        Some(suffix.as_str())
    }
}
