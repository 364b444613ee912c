//! The places of texts.
ghost use Rattle.std.specs.Prelude.{◌≡◌, ℕ, List, [], map, string_bytes, Some, IfOk, OnOk, OnErr, if◌then◌else◌};
ghost use Rattle.std.specs.List.{list_any};
ghost use Rattle.std.specs.Map.{lookup};
ghost use Rattle.std.specs.Str.{bytes_eq};

use b2_base::fault::OutOfMemory;
use b2_base::text::Text;
use indexmap::IndexMap;
use std::alloc::Global;
use std::marker::Model;

/// A place for each of some texts, seen as the list of both.
pub struct TextPlaces {
    places: IndexMap<String, usize>,
}

/// By hand, so that dropping one is one call.
impl Drop for TextPlaces {
    fn drop(self) {
        let TextPlaces { places } = self;
        drop(places);
    }
}

impl Model for TextPlaces {
    ghost use Rattle.std.specs.Prelude.{ℕ, List, map, string_bytes};

    ghost Value = { List (List ℕ × ℕ) };

    ghost view = { λ v. map (λ e. (string_bytes e.0, e.1)) v.places.entries };
}

impl TextPlaces {
    /// No texts.
    pub fn new(alloc: Global) -> TextPlaces
        ensures { result ≡ [] }
    {
        TextPlaces {
            places: IndexMap::new(alloc),
        }
    }

    /// The place of a text; takes no memory.
    pub fn get(&self, text: &str) -> Option<usize>
        ensures { result ≡ lookup (bytes_eq text.now) self.now }
    {
        self.places.get(text).copied()
    }

    /// Gives each of some texts this place. After an error nothing has changed.
    pub fn add(&mut self, texts: Vec<String>, place: usize) -> Result<(), OutOfMemory>
        ensures ok { OnOk result ((q : List ℕ) → lookup (bytes_eq q) self.new ≡ (if list_any (λ text. bytes_eq q (string_bytes text)) texts.items then Some place else lookup (bytes_eq q) self.old)) }
        ensures err { OnErr result (self.new ≡ self.old) }
    {
        self.places.reserve(texts.len())?;
        for text in texts {
            let _before = self.places.insert(text, place).unwrap();
        }
        Ok(())
    }
}

/// The same texts as strings, in order.
pub fn copy_strings(alloc: Global, texts: &[Text]) -> Result<Vec<String>, OutOfMemory>
    ensures { IfOk result (λ made. map string_bytes made.items ≡ texts.now) }
{
    let mut made = Vec::new(alloc);
    for text in texts {
        made.push(String::from_str(alloc, text.as_str())?)?;
    }
    Ok(made)
}
