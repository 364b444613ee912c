//! The present values of names, and what the bindings of frames replaced.
ghost use Rattle.std.specs.Prelude.{◌≡◌};
ghost use Rattle.jam_journal.specs.Scopes.{is_special};

use crate::name::Name;
use crate::names::Names;
use crate::sized_list::SizedList;
use crate::table::Table;

pub mod closing;
pub mod growing;
pub mod looking;
pub mod opening;
pub mod unset;

/// The present value of a name in a module: that of its innermost binding in this module, else of the module's variable.
#[derive(Drop)]
pub struct Cell {
    /// The value.
    pub value: SizedList,
    /// How many marks there were when the cell was bound, or when what it replaced was noted.
    pub stamp: usize,
}

/// A frame that was opened, or a binding, with what it replaced.
#[derive(Drop)]
pub enum Scope {
    /// A frame.
    Opened {
        /// The present module before.
        owner: Name,
    },
    /// The frame of a call.
    Called {
        /// The present module before.
        owner: Name,
        /// The module that the call outside of it keeps.
        caller: Name,
    },
    /// A binding in the newest frame.
    Bound {
        /// The name, in the frame's module.
        name: Name,
        /// The cell before.
        before: Option<Cell>,
        /// For an argument list, the module of the innermost frame that bound it before.
        outer: Option<Name>,
    },
}

/// What stands now.
#[derive(Drop)]
pub struct Registers {
    /// The present values by module and name.
    pub cells: Table<Cell>,
    /// The module of the innermost frame that binds each argument list.
    pub innermost: Names<Name>,
    /// The present module.
    pub owner: Name,
    /// The module that the innermost call keeps.
    pub caller: Name,
}

/// Whether a name is that of an argument list. Takes no memory.
pub fn is_special(name: &str) -> bool
    ensures { result ≡ is_special name.now }
{
    match name.as_bytes() {
        [byte] => *byte == b'<' || *byte == b'>' || (b'0' < *byte && *byte < b':'),
        _ => false,
    }
}
