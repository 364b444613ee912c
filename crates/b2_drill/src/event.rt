//! What happens in a session.
use b2_base::list::List;
use b2_base::path::Path;
use b2_base::text_list::TextList;

/// One thing that happens in a session.
pub enum Event {
    /// A file is written with these bytes, or deleted where there are none.
    Edit {
        path: Path,
        bytes: Option<List<u8>>,
    },
    /// An update that these words ask for.
    Update {
        words: TextList,
    },
    /// Such an update that is stopped: after so many calls each call of the host fails, and what fails to be written leaves so
    /// many bytes. Then the host is opened again.
    Stop {
        words: TextList,
        calls: u32,
        tear: u32,
    },
}

// By hand, so that dropping an event is one call of this proved function.
impl Drop for Event {
    fn drop(self) {
        match self {
            Event::Edit {
                path: _path,
                bytes: _bytes,
            } => {}
            Event::Update { words: _words } => {}
            Event::Stop {
                words: _words,
                calls: _,
                tear: _,
            } => {}
        }
    }
}

/// Events in order, seen as the list of them.
pub type EventList = List<Event>;
