//! Calls that declare a part of the graph, as they are recorded.
use b2_base::text::Text;
use b2_base::text_list::TextList;

/// A rule that says of each of its targets what each of some other texts is to it.
#[derive(Clone, Copy)]
pub enum Pairing {
    /// `DEPENDS`
    Depends,
    /// `INCLUDES`
    Includes,
}

/// A rule that flags its targets.
#[derive(Clone, Copy)]
pub enum Flag {
    /// `ALWAYS`
    Always,
    /// `NOTFILE`
    NotFile,
    /// `NOCARE`
    NoCare,
}

/// A recorded call.
#[derive(Drop)]
pub enum Said {
    /// Each of the targets with each of the sources.
    Pairs {
        pairing: Pairing,
        targets: TextList,
        sources: TextList,
    },
    /// Each of the targets.
    Flags {
        flag: Flag,
        targets: TextList,
    },
    /// A call of a name that has actions, with the name and the module of these actions.
    Acts {
        name: Text,
        module: Text,
        targets: TextList,
        sources: TextList,
        line: u32,
    },
}
