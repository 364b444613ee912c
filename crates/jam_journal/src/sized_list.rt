//! A list of texts that knows its size.
ghost use Rattle.std.specs.Prelude.{◌≡◌, ◌+◌, [], ◌++◌, take, OnOk, OnErr, IfOk};
ghost use Rattle.jam_journal.specs.Sizes.{size_of, capped};

use b2_base::fault::OutOfMemory;
use b2_base::text::Text;
use b2_base::text_list::{TextList, copy_texts};
use std::alloc::Global;
use std::marker::Model;

/// Texts in order, seen as the list of their bytes. Their size, the sum of their lengths plus one each, is kept beside them.
pub struct SizedList {
    texts: Vec<Text>,
    /// The size, or the largest number where it is larger.
    size: u64,
}

/// By hand, so that dropping one is one call.
impl Drop for SizedList {
    fn drop(self) {
        let SizedList { texts, size: _ } = self;
        drop(texts);
    }
}

impl Model for SizedList {
    ghost use Rattle.std.specs.Prelude.{◌≡◌, ℕ, List};
    ghost use Rattle.jam_journal.specs.Sizes.{size_of, capped};

    ghost Value = { List (List ℕ) };

    ghost view = { λ l. l.texts.items };

    ghost invariant = { λ l. l.size ≡ capped (size_of l.texts.items) };
}

/// A size with the texts that are added. Takes no memory.
fn size_with(start: u64, texts: &[Text]) -> u64
    ensures { result ≡ capped (start + size_of texts.now) }
{
    let mut sum = start;
    for text in texts {
        sum = sum
            .saturating_add(text.as_str().len() as u64)
            .saturating_add(1);
    }
    sum
}

/// The size of the first `count` texts, of which `whole` is the size of all. Takes no memory.
fn size_before(whole: u64, texts: &[Text], count: usize) -> u64
    requires { whole ≡ capped (size_of texts.now) }
    ensures { result ≡ capped (size_of (take count texts.now)) }
{
    let Some((first, rest)) = texts.split_at_checked(count) else {
        return whole;
    };
    if whole == u64::MAX {
        return size_with(0, first);
    }
    whole - size_with(0, rest)
}

/// The same texts, in order.
pub fn copies(alloc: Global, texts: &[Text]) -> Result<Vec<Text>, OutOfMemory>
    ensures { IfOk result (λ made. made.items ≡ texts.now) }
{
    let made = copy_texts(alloc, texts)?;
    Ok(made.into_vec())
}

impl SizedList {
    /// The empty list; takes no memory.
    pub fn new(alloc: Global) -> SizedList
        ensures { result ≡ [] }
    {
        SizedList {
            texts: Vec::new(alloc),
            size: 0,
        }
    }

    /// The list of these texts; takes no memory.
    pub fn from_vec(texts: Vec<Text>) -> SizedList
        ensures { result ≡ texts.items }
    {
        let size = size_with(0, texts.as_slice());
        SizedList { texts, size }
    }

    /// The same list; takes no memory.
    pub fn from_list(texts: TextList) -> SizedList
        ensures { result ≡ texts }
    {
        SizedList::from_vec(texts.into_vec())
    }

    /// The texts in order; takes no memory.
    pub fn as_slice(&self) -> &[Text]
        ensures { result.now ≡ self.now }
    {
        self.texts.as_slice()
    }

    /// The size, or the largest number where it is larger. Takes no memory, and constant time.
    pub fn size(&self) -> u64
        ensures { result ≡ capped (size_of self.now) }
    {
        self.size
    }

    /// The first texts, so many. Takes no memory, and time in proportion to those that go.
    pub fn first(self, count: usize) -> SizedList
        ensures { result ≡ take count self }
    {
        let SizedList { mut texts, size } = self;
        let size = size_before(size, texts.as_slice(), count);
        texts.truncate(count);
        SizedList { texts, size }
    }

    /// Adds texts at the end. Copies nothing that is there. After an error the list is as before.
    pub fn append(&mut self, more: Vec<Text>) -> Result<(), OutOfMemory>
        ensures ok { OnOk result (self.new ≡ self.old ++ more.items) }
        ensures err { OnErr result (self.new ≡ self.old) }
    {
        let size = size_with(self.size, more.as_slice());
        let mut more = more;
        self.texts.append(&mut more)?;
        self.size = size;
        Ok(())
    }
}

/// A list with more texts, or as it was where no memory is left.
pub fn joined(list: SizedList, more: Vec<Text>) -> (SizedList, Result<(), OutOfMemory>)
    ensures ok { OnOk result.1 (result.0 ≡ list ++ more.items) }
    ensures err { OnErr result.1 (result.0 ≡ list) }
{
    let mut list = list;
    let result = list.append(more);
    (list, result)
}
