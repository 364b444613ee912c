//! The types of files.
ghost use Rattle.std.specs.Prelude.{◌≡◌, List, [], ◌∷◌, ◌++◌, ◌<◌, true, false, None, Some, length, slice_get, map, is_some, option_map, string_bytes, Ok, IfOk, OnOk, OnErr};
ghost use Rattle.std.specs.List.{list_any};
ghost use Rattle.std.specs.Option.{option_copied};
ghost use Rattle.b2_generators.specs.Table.{FileType, has_repeat, type_named, is_type, type_with, is_type_taken};

use b2_base::fault::OutOfMemory;
use b2_base::text::Text;
use b2_base::text_list::{TextList, copy_texts};
use b2_base::text_map::TextMap;
use b2_features::text_places::{TextPlaces, copy_strings};
use indexmap::IndexMap;
use std::alloc::Global;
use std::marker::Model;

/// Types in order of registration, seen as their list. No two have a name or a suffix in common.
pub(crate) struct TypeTable {
    alloc: Global,
    types: IndexMap<String, TextList>,
    suffixes: TextPlaces,
}

/// By hand, so that dropping one is one call.
impl Drop for TypeTable {
    fn drop(self) {
        let TypeTable {
            alloc: _,
            types,
            suffixes,
        } = self;
        drop(types);
        drop(suffixes);
    }
}

impl Model for TypeTable {
    ghost use Rattle.std.specs.Prelude.{List};
    ghost use Rattle.b2_generators.specs.Table.{FileType};
    ghost use Rattle.b2_generators.specs.Index.{types_in, HasPlaces};

    ghost Value = { List FileType };

    ghost view = { λ t. types_in t.types.entries };

    ghost invariant = { λ t. HasPlaces (types_in t.types.entries) t.suffixes };
}

impl TypeTable {
    /// No types; takes no memory.
    pub(crate) fn new(alloc: Global) -> TypeTable
        ensures { result ≡ [] }
    {
        TypeTable {
            alloc,
            types: IndexMap::new(alloc),
            suffixes: TextPlaces::new(alloc),
        }
    }

    /// The suffixes of the type of a name; takes no memory.
    pub(crate) fn suffixes_of(&self, name: &str) -> Option<&TextList>
        ensures { option_copied result ≡ option_map (λ t. t.suffixes) (type_named self.now name.now) }
    {
        self.types.get(name)
    }

    /// Whether there is a type of this name; takes no memory.
    pub(crate) fn has(&self, name: &str) -> bool
        ensures { result ≡ is_type self.now name.now }
    {
        self.suffixes_of(name).is_some()
    }

    fn name_at(&self, place: usize) -> &str
        requires { place < length self.now }
        ensures { option_map (λ t. t.name) (slice_get self.now place) ≡ Some result.now }
    {
        match self.types.get_index(place) {
            Some((name, _)) => name.as_str(),
            None => unreachable!(),
        }
    }

    /// The name of the type of a suffix; takes no memory.
    pub(crate) fn type_with(&self, suffix: &str) -> Option<&str>
        ensures { option_copied result ≡ type_with self.now suffix.now }
    {
        let place = self.suffixes.get(suffix)?;
        Some(self.name_at(place))
    }

    fn is_taken(&self, suffix: &str) -> bool
        ensures { result ≡ is_some (type_with self.now suffix.now) }
    {
        self.type_with(suffix).is_some()
    }

    fn any_taken(&self, suffixes: &[Text]) -> bool
        ensures { result ≡ list_any (λ suffix. is_some (type_with self.now suffix)) suffixes.now }
    {
        suffixes.iter().any(|suffix| self.is_taken(suffix.as_str()))
    }

    fn put(
        &mut self,
        name: String,
        suffixes: TextList,
        keys: Vec<String>,
    ) -> Result<(), OutOfMemory>
        requires keys { map string_bytes keys.items ≡ suffixes }
        requires absent { type_named self.old (string_bytes name) ≡ None }
        requires untaken { list_any (λ suffix. is_some (type_with self.old suffix)) suffixes ≡ false }
        ensures ok { OnOk result (self.new ≡ self.old ++ record { name = string_bytes name; suffixes = suffixes } ∷ []) }
        ensures err { OnErr result (self.new ≡ self.old) }
    {
        self.types.reserve(1)?;
        let place = self.types.len();
        self.suffixes.add(keys, place)?;
        let _before = self.types.insert(name, suffixes).unwrap();
        Ok(())
    }

    /// Registers a type. False where its name or one of its suffixes is there, or a suffix stands twice; then, and after an
    /// error, nothing has changed.
    pub(crate) fn register(&mut self, name: &str, suffixes: &[Text]) -> Result<bool, OutOfMemory>
        ensures registered { result ≡ Ok true → self.new ≡ self.old ++ record { name = name.now; suffixes = suffixes.now } ∷ [] }
        ensures free { result ≡ Ok true → is_type_taken self.old name.now suffixes.now ≡ false }
        ensures taken { result ≡ Ok false → is_type_taken self.old name.now suffixes.now ≡ true }
        ensures unchanged { result ≡ Ok false → self.new ≡ self.old }
        ensures err { OnErr result (self.new ≡ self.old) }
    {
        if self.has(name) || self.any_taken(suffixes) || has_repeat(self.alloc, suffixes)? {
            return Ok(false);
        }
        let keys = copy_strings(self.alloc, suffixes)?;
        let list = copy_texts(self.alloc, suffixes)?;
        let name = String::from_str(self.alloc, name)?;
        self.put(name, list, keys)?;
        Ok(true)
    }
}

/// Whether some text stands twice.
fn has_repeat(alloc: Global, texts: &[Text]) -> Result<bool, OutOfMemory>
    ensures { IfOk result (λ found. found ≡ has_repeat texts.now) }
{
    let mut seen = TextMap::new(alloc);
    for text in texts {
        if seen.get(text).is_some() {
            return Ok(true);
        }
        let _before = seen.insert(text.copy()?, ())?;
    }
    Ok(false)
}
