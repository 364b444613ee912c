//! The bytes of the files that stood.
ghost use Rattle.std.specs.Prelude.{◌≡◌, ℕ, List, [], ◌∷◌, ◌++◌, length, take, slice_index_or, IsTrue, IfOk, OnOk, OnErr};
ghost use Rattle.std.specs.Bool.{OnTrue};
ghost use Rattle.b2_files.specs.Buffers.{buffers_of, bytes_in, is_within, Keeps};

use b2_base::fault::OutOfMemory;
use std::alloc::Global;
use std::mem;
use std::rc::Rc;

/// The bytes of a file: bytes of its own, which the children that were given them share, or the beginning of a buffer.
#[derive(Drop)]
pub enum Content {
    Whole(Rc<Vec<u8>>),
    Part { buffer: usize, len: usize },
}

impl Content {
    /// A copy of bytes.
    pub fn whole(alloc: Global, bytes: &[u8]) -> Result<Content, OutOfMemory>
        ensures bytes { IfOk result (λ made. (buffers : List (List ℕ)) → bytes_in buffers made ≡ bytes.now) }
        ensures within { IfOk result (λ made. (buffers : List (List ℕ)) → IsTrue (is_within buffers made)) }
    {
        let bytes = Vec::from_slice(alloc, bytes)?;
        Ok(Content::Whole(Rc::new(alloc, bytes)?))
    }
}

/// The buffers of files that were added to. The last one grows with its file, so that an addition to it copies no more than
/// what is added; it grows no more once another file is added to.
#[derive(Drop)]
pub struct Contents {
    pub settled: Vec<Vec<u8>>,
    pub growing: Vec<u8>,
}

/// The first bytes, as many as there are.
fn first(bytes: &[u8], most: usize) -> &[u8]
    ensures { result.now ≡ take most bytes.now }
{
    if bytes.len() <= most {
        return bytes;
    }
    &bytes[..most]
}

impl Contents {
    /// No buffer but an empty one.
    pub fn new(alloc: Global) -> Contents {
        Contents {
            settled: Vec::new(alloc),
            growing: Vec::new(alloc),
        }
    }

    fn buffer(&self, place: usize) -> &[u8]
        ensures { result.now ≡ slice_index_or (buffers_of self.now) place [] }
    {
        if place < self.settled.len() {
            return self.settled[place].as_slice();
        }
        if place == self.settled.len() {
            return self.growing.as_slice();
        }
        &[]
    }

    /// The bytes of a content; takes no memory.
    pub fn bytes<'a>(&'a self, content: &'a Content) -> &'a [u8]
        ensures { result.now ≡ bytes_in (buffers_of self.now) content.now }
    {
        match content {
            Content::Whole(bytes) => bytes.as_ref().as_slice(),
            Content::Part { buffer, len } => first(self.buffer(*buffer), *len),
        }
    }

    /// The bytes of a content for a reader that keeps them.
    pub fn share(&self, alloc: Global, content: &Content) -> Result<Rc<Vec<u8>>, OutOfMemory>
        ensures { IfOk result (λ shared. shared.value.items ≡ bytes_in (buffers_of self.now) content.now) }
    {
        if let Content::Whole(bytes) = content {
            return Ok(bytes.clone()?);
        }
        let bytes = Vec::from_slice(alloc, self.bytes(content))?;
        Ok(Rc::new(alloc, bytes)?)
    }

    /// Whether a content is all of the buffer that grows.
    fn is_growing(&self, content: &Content) -> bool
        ensures { OnTrue result (content.now ≡ Content.Part (length self.now.settled.items) (length self.now.growing.items)) }
    {
        match content {
            Content::Whole(_bytes) => false,
            Content::Part { buffer, len } => {
                *buffer == self.settled.len() && *len == self.growing.len()
            }
        }
    }

    /// Adds a piece to the buffer that grows. After an error it is as before.
    fn grow(&mut self, piece: &[u8]) -> Result<(), OutOfMemory>
        ensures ok { OnOk result (self.new.growing.items ≡ self.old.growing.items ++ piece.now) }
        ensures err { OnErr result (self.new.growing.items ≡ self.old.growing.items) }
        ensures settled { self.new.settled ≡ self.old.settled }
    {
        self.growing.extend_from_slice(piece)?;
        Ok(())
    }

    /// Lets another buffer grow. After an error all is as before.
    fn start(&mut self, bytes: Vec<u8>) -> Result<(), OutOfMemory>
        ensures ok { OnOk result (buffers_of self.new ≡ buffers_of self.old ++ bytes.items ∷ []) }
        ensures last { OnOk result (self.new.growing.items ≡ bytes.items) }
        ensures err { OnErr result (buffers_of self.new ≡ buffers_of self.old) }
    {
        self.settled.reserve(1)?;
        let before = mem::replace(&mut self.growing, bytes);
        self.settled.push_reserved(before);
        Ok(())
    }

    /// The bytes of a content, and a piece after them.
    fn joined(&self, alloc: Global, content: &Content, piece: &[u8]) -> Result<Vec<u8>, OutOfMemory>
        ensures { IfOk result (λ bytes. bytes.items ≡ bytes_in (buffers_of self.now) content.now ++ piece.now) }
    {
        let mut bytes = Vec::from_slice(alloc, self.bytes(content))?;
        bytes.extend_from_slice(piece)?;
        Ok(bytes)
    }

    /// Makes the buffer that grows hold the bytes of a content, and a piece after them.
    fn extend(&mut self, alloc: Global, content: &Content, piece: &[u8]) -> Result<(), OutOfMemory>
        ensures kept { Keeps (buffers_of self.old) (buffers_of self.new) }
        ensures bytes { OnOk result (self.new.growing.items ≡ bytes_in (buffers_of self.old) content.now ++ piece.now) }
    {
        if self.is_growing(content) {
            return self.grow(piece);
        }
        let bytes = self.joined(alloc, content, piece)?;
        self.start(bytes)
    }

    /// A content with the bytes of another one, and a piece after them. All other contents stay as they are.
    pub fn add(
        &mut self,
        alloc: Global,
        content: &Content,
        piece: &[u8],
    ) -> Result<Content, OutOfMemory>
        ensures kept { Keeps (buffers_of self.old) (buffers_of self.new) }
        ensures bytes { IfOk result (λ made. bytes_in (buffers_of self.new) made ≡ bytes_in (buffers_of self.old) content.now ++ piece.now) }
        ensures within { IfOk result (λ made. IsTrue (is_within (buffers_of self.new) made)) }
    {
        self.extend(alloc, content, piece)?;
        Ok(Content::Part {
            buffer: self.settled.len(),
            len: self.growing.len(),
        })
    }
}
