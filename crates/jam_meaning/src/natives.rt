//! Native rules, as evaluation calls them.
ghost use Rattle.std.specs.Prelude.{◌≡◌, Option, None, IfOk, IsErrOf};
ghost use Rattle.jam_meaning.specs.Settings.{Meaning};
ghost use Rattle.jam_meaning.specs.NativeCalls.{CallsAsMeant, ActsAsMeant, StaysKept, LooksAt, KeepsFrames, PutsPartly, DeclinesWhole, refused_of};

pub use crate::native_answer::{NativeError, NativeStep};
use b2_base::text_list::TextList;
use b2_host::files::Files;
use jam_scope::world::World;
use std::alloc::Global;

/// Native rules. Where their meaning is told, what evaluation gives is told by it.
pub trait Natives {
    /// What is kept between calls.
    ghost Kept: { Type 0 };

    /// What is kept.
    ghost kept: { Self → Kept };

    /// What the calls mean, where that is told. No call changes it.
    ghost meaning: { Self → Option (Meaning Kept) };

    /// Calls the native rule of a name with lists, at a line of the running file. Whatever is answered, it changes no file, and
    /// leaves frames and marks as they are. After out of memory a part of what it puts into the world may stand there.
    fn call<F: Files>(
        &mut self,
        alloc: Global,
        name: &str,
        args: &[TextList],
        line: u32,
        world: &mut World,
        files: &mut F,
    ) -> Result<NativeStep, NativeError>
        ensures told { CallsAsMeant (meaning self.old) (F.outside files.old).disk name.now args.now line world.old (kept self.old) result world.new (kept self.new) }
        ensures meaning { meaning self.new ≡ meaning self.old }
        ensures kept { StaysKept result (kept self.old) (kept self.new) }
        ensures frames { KeepsFrames world.old world.new }
        ensures part { PutsPartly result world.old.now world.new.now }
        ensures outside { LooksAt (F.outside files.old) (F.outside files.new) result };

    /// Tells of a call of a name that has actions, with its lists, and answers whether it was recorded. It calls no host, and refuses
    /// no pattern that reads as one.
    fn acted(
        &mut self,
        alloc: Global,
        name: &str,
        args: &[TextList],
        line: u32,
        world: &mut World,
    ) -> Result<bool, NativeError>
        ensures told { ActsAsMeant (meaning self.old) name.now args.now line world.old (kept self.old) result world.new (kept self.new) }
        ensures declines { IfOk result (λ recorded. DeclinesWhole recorded world.old (kept self.old) world.new (kept self.new)) }
        ensures meaning { meaning self.new ≡ meaning self.old }
        ensures kept { StaysKept result (kept self.old) (kept self.new) }
        ensures frames { KeepsFrames world.old world.new }
        ensures part { PutsPartly result world.old.now world.new.now }
        ensures no_host { ¬ IsErrOf result NativeError.Host }
        ensures no_refusal { refused_of result ≡ None };
}
