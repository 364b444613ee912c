//! Laws of evaluation, each the contract of a function that does nothing.
ghost use Rattle.jam_source_laws.specs.Laws.{FileBySources, CallBySources, FileKeepsRoots, CallKeepsRoots, FilesShowSame};

/// A file and a call come to the same over other files that differ under the output roots alone, which are those at the end.
pub fn by_sources<Kept>()
    ensures file { FileBySources Kept }
    ensures call { CallBySources Kept }
{}

/// Files that agree outside the output roots show the same, where what is said of them is so.
pub fn files_show_same()
    ensures { FilesShowSame }
{}

/// Output roots that are frozen stay, also after a fault, and none is taken away. Each one is in normal form and not the folder itself.
pub fn roots_stay()
    ensures file { FileKeepsRoots }
    ensures call { CallKeepsRoots }
{}
