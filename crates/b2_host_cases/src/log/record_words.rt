//! Records that are given as words.

use crate::log::words::stamp;
use b2_base::text_list::TextList;
use b2_log::line::{Digests, Record, StampedPaths};
use std::alloc::Global;
use std::mem::ManuallyDrop;
use transcript::case_fault::CaseFault;
use transcript::command::Word;
use transcript::words::{first, own_path, own_text, text};

/// What was read of a record after its text.
#[derive(Drop)]
struct Parts {
    alloc: Global,
    outs: StampedPaths,
    ins: StampedPaths,
    out_digests: TextList,
    in_digests: TextList,
    has_digests: bool,
}

impl Parts {
    fn new(alloc: Global) -> Parts {
        Parts {
            alloc,
            outs: StampedPaths::new(alloc),
            ins: StampedPaths::new(alloc),
            out_digests: TextList::new(alloc),
            in_digests: TextList::new(alloc),
            has_digests: false,
        }
    }

    fn push_out(&mut self, name: &str, time: &str) -> Result<(), CaseFault> {
        let stamp = stamp(time)?;
        self.outs.push((own_path(self.alloc, name)?, stamp))?;
        Ok(())
    }

    fn push_in(&mut self, name: &str, time: &str) -> Result<(), CaseFault> {
        let stamp = stamp(time)?;
        self.ins.push((own_path(self.alloc, name)?, stamp))?;
        Ok(())
    }

    fn push_digest(&mut self, list: &str, digest: &str) -> Result<(), CaseFault> {
        let digest = own_text(self.alloc, digest)?;
        self.has_digests = true;
        match list {
            "out" => self.out_digests.push(digest)?,
            "in" => self.in_digests.push(digest)?,
            _ => return Err(CaseFault::WrongWords),
        }
        Ok(())
    }

    /// Adds what three words tell.
    fn push(&mut self, words: &[Word]) -> Result<(), CaseFault> {
        let [kind, name, value] = words else {
            return Err(CaseFault::WrongWords);
        };
        let (name, value) = (name.as_str()?, value.as_str()?);
        match kind.as_str()? {
            "out" => self.push_out(name, value),
            "in" => self.push_in(name, value),
            "digest" => self.push_digest(name, value),
            _ => Err(CaseFault::WrongWords),
        }
    }

    fn push_all(&mut self, words: &[Word]) -> Result<(), CaseFault> {
        for part in words.chunks(3) {
            self.push(part)?;
        }
        Ok(())
    }

    fn digests(outs: TextList, ins: TextList, are_there: bool) -> Option<Digests> {
        if are_there {
            Some(Digests { outs, ins })
        } else {
            None
        }
    }
}

/// What these words tell. Where they are wrong, what was read before is let be and not taken apart.
fn parts_of(alloc: Global, words: &[Word]) -> Result<Parts, CaseFault> {
    let mut parts = ManuallyDrop::new(Parts::new(alloc));
    parts.push_all(words)?;
    Ok(ManuallyDrop::into_inner(parts))
}

/// The record of these words: its text, and `out`, `in` and `digest` with two words each.
pub fn record_of(alloc: Global, words: &[Word]) -> Result<Record, CaseFault> {
    let (given, rest) = first(words)?;
    let text = text(alloc, given)?;
    let parts = parts_of(alloc, rest)?;
    Ok(Record {
        text: ManuallyDrop::into_inner(text),
        outs: parts.outs,
        ins: parts.ins,
        digests: Parts::digests(parts.out_digests, parts.in_digests, parts.has_digests),
    })
}
