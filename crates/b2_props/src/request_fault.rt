//! Why a request is not read.
use b2_base::fault::OutOfMemory;
use b2_base::text::Text;
use std::alloc::AllocFailed;

/// Why a request is not read, each with the word. The first property of a word that is none, in the order of the words, is
/// answered before a conflict.
#[derive(Drop)]
pub enum RequestFault {
    /// A word names a feature that is not there.
    UnknownWord { word: Text },
    /// A word gives a feature a value that it does not have.
    UnknownValue { word: Text },
    /// A word gives a feature a second value in one set: it is given itself, or a composite brings it and no word gives one.
    Conflict { word: Text },
    OutOfMemory,
}

impl From<OutOfMemory> for RequestFault {
    ghost use Rattle.std.specs.Prelude.{◌≡◌};
    ghost use Rattle.b2_props.specs.declared.request_fault.RequestFault.TheVariants as faults;

    ghost from_gives = { λ _ fault. fault ≡ faults.OutOfMemory };

    fn from(_error: OutOfMemory) -> RequestFault {
        RequestFault::OutOfMemory
    }
}

impl<T: Drop> From<AllocFailed<T>> for RequestFault {
    ghost use Rattle.std.specs.Prelude.{◌≡◌};
    ghost use Rattle.b2_props.specs.declared.request_fault.RequestFault.TheVariants as faults;

    ghost from_gives = { λ _ fault. fault ≡ faults.OutOfMemory };

    fn from(_error: AllocFailed<T>) -> RequestFault {
        RequestFault::OutOfMemory
    }
}
