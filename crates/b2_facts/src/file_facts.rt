//! What is known of one file.
use b2_base::path::Path;
use b2_base::text::Text;
use b2_plan::plan::Plan;
use b2_plan::roots::is_in_roots;
use jam_scan::include::IncludeList;
use jam_scan::scan::is_scanned;

/// What was seen of a file.
#[derive(Clone, Copy, Debug)]
pub enum FileLook {
    /// It was not asked for.
    Unasked,
    /// No file stands.
    Gone,
    /// A file stands, with this time stamp.
    Stands(u64),
}

/// What is known of a file: by the plan, by a look, and by its bytes.
pub struct FileFacts {
    /// The step that makes it, if one does.
    pub maker: Option<u32>,
    /// Whether it lies under an output root.
    pub rooted: bool,
    /// Whether it is scanned for includes.
    pub scanned: bool,
    /// What was seen of it.
    pub seen: FileLook,
    /// What it includes, where it was scanned or the log tells.
    pub includes: Option<IncludeList>,
    /// Its digest, 64 lower-case hexadecimal digits, where it was taken or the log tells.
    pub digest: Option<Text>,
}

/// By hand, so that dropping one is one call.
impl Drop for FileFacts {
    fn drop(self) {
        let FileFacts {
            maker: _,
            rooted: _,
            scanned: _,
            seen: _,
            includes,
            digest,
        } = self;
        drop(includes);
        drop(digest);
    }
}

impl FileFacts {
    ghost use Rattle.b2_facts.specs.Facts.{IsBlank, IsPlanned};

    /// What the plan tells of the file at a path. Takes no memory.
    pub(crate) fn of_plan(plan: &Plan, path: &Path) -> FileFacts
        ensures blank { IsBlank result }
        ensures planned { IsPlanned plan.now.steps plan.now.roots path.now result }
    {
        FileFacts {
            maker: plan.maker(path),
            rooted: is_in_roots(plan.roots.as_slice(), path),
            scanned: is_scanned(path),
            seen: FileLook::Unasked,
            includes: None,
            digest: None,
        }
    }
}
