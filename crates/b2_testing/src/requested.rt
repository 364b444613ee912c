//! The tests that a request asks for.
ghost use Rattle.std.specs.Prelude.{◌≡◌, ◌-◌, ◌++◌, ℕ, List, true, codes, length, slice_set, IfOk, OnOk};
ghost use Rattle.std.specs.List.{list_any};
ghost use Rattle.std.specs.Option.{option_copied};
ghost use Rattle.std.specs.Str.{bytes_eq};
ghost use Rattle.b2_base.specs.Bytes.{HasNoZero};
ghost use Rattle.b2_plan.specs.Plans.{maker_of};
ghost use Rattle.b2_props.specs.Elements.{dir_text};
ghost use Rattle.b2_props.specs.Sets.{IsSet};
ghost use Rattle.b2_virtual.specs.Paths.{output_path, located};
ghost use Rattle.b2_making.specs.Steps.{location_of};
ghost use Rattle.b2_declared.specs.Numbered.{IsNumbered};
ghost use Rattle.b2_declared.specs.declared.whole.Declared.{Declared as Found};
ghost use Rattle.b2_references.specs.Names.{features};
ghost use Rattle.b2_generate.specs.Answers.{HaveSets};
ghost use Rattle.b2_request_plan.specs.TableRows.{row_of_line, rows_of};
ghost use Rattle.b2_testing.specs.Adding.{added, with_tests};
ghost use Rattle.b2_testing.specs.Requested.{AreAskedFor, marker_path, test_at};
ghost use Rattle.b2_testing.specs.Asking.{AreMarkers, is_marked, has_mark, test_list, test_by, tests_by};

use crate::adding::has_rule;
use b2_base::fault::OutOfMemory;
use b2_base::path::{Path, folder, joined_path, path_from};
use b2_base::text::Text;
use b2_declared::place::TestCall;
use b2_declared::whole::Declared;
use b2_features::registry::Registry;
use b2_paths::path_table::PathTable;
use b2_plan::plan::Plan;
use b2_props::elements::dir_of;
use b2_props::props::Props;
use b2_references::index::Index;
use b2_request_plan::planned::{Built, Planned};
use b2_virtual::paths::{named_tail, output_path};
use std::alloc::Global;

// ---- markers

/// How many main targets a test becomes; takes no memory.
fn size_of(test: &TestCall) -> usize
    ensures { result ≡ length (added test.now) }
{
    if has_rule(test, "compile") {
        return 2;
    }
    if has_rule(test, "compile-fail") {
        return 1;
    }
    2
}

/// Marks the place before another one, where it has a mark; takes no memory.
fn mark_before(marks: &mut Vec<bool>, end: usize)
    ensures { marks.new.items ≡ slice_set marks.old.items (end - 1) true }
{
    let place = end.saturating_sub(1);
    if place < marks.len() {
        marks[place] = true;
    }
}

/// For each main target whether it is the marker of a test. The main targets of the tests stand behind all others, so they are
/// counted from the last one down.
fn markers_of(alloc: Global, declared: &Declared) -> Result<Vec<bool>, OutOfMemory>
    ensures { IfOk result (λ marks. (found : Found) → declared.now ≡ with_tests found → AreMarkers found marks.items) }
{
    let tests = declared.tests.as_slice();
    let mut end = declared.targets.as_slice().len();
    let mut marks = vec![in alloc; false; end]?;
    let mut left = tests.len();
    while left > 0 {
        left -= 1;
        mark_before(&mut marks, end);
        end = end.saturating_sub(size_of(&tests[left]));
    }
    Ok(marks)
}

/// Whether a place has a mark; takes no memory.
fn is_marked(marks: &[bool], place: usize) -> bool
    ensures { result ≡ is_marked marks.now place }
{
    match marks.get(place) {
        None => false,
        Some(flag) => *flag,
    }
}

// ---- the path of a marker

/// The value of the last `<location>` of a set; takes no memory.
fn location_of(set: &Props) -> Option<&Text>
    ensures { option_copied result ≡ location_of set.now }
{
    let mut found = None;
    for pair in set.pairs() {
        if pair.0.as_str() == "location" {
            found = Some(&pair.1);
        }
    }
    found
}

/// The path of a file of this name at a location, which is relative to the folder.
fn path_at(alloc: Global, location: &str, name: &str) -> Result<Path, OutOfMemory>
    requires location { HasNoZero location.now }
    requires name { HasNoZero name.now }
    ensures { IfOk result (λ path. path ≡ located (codes ".") location.now name.now) }
{
    let here = folder(alloc)?;
    let place = path_from(alloc, &here, location)?;
    joined_path(alloc, place.as_str(), name)
}

/// The path of an output with this tail in `bin`.
fn path_in_bin(
    alloc: Global,
    registry: &Registry,
    set: &Props,
    tail: &Path,
) -> Result<Path, OutOfMemory>
    requires { IsSet registry.now set.now }
    ensures { IfOk result (λ path. path ≡ output_path (dir_text registry.now set.now) tail.now) }
{
    let elements = dir_of(alloc, registry, set)?;
    output_path(alloc, elements.as_str(), tail)
}

/// Where the marker of a row lies.
fn marker_path(alloc: Global, index: &Index<'_>, row: &Built) -> Result<Path, OutOfMemory>
    requires { IsSet (features index.now) row.now.set }
    ensures { IfOk result (λ path. path ≡ marker_path index.now (row_of_line row.now)) }
{
    let dir = index.dir_of(row.name.project())?;
    let tail = named_tail(alloc, &dir, row.name.name().as_str())?;
    match location_of(&row.set) {
        None => path_in_bin(alloc, &index.declared().registry, &row.set, &tail),
        Some(location) => path_at(alloc, location.as_str(), tail.file_name()),
    }
}

// ---- the tests

/// The wanted files, as they are looked up.
fn table_of(alloc: Global, paths: &[Path]) -> Result<PathTable, OutOfMemory>
    ensures { IfOk result (λ table. (path : List ℕ) → list_any (bytes_eq path) table ≡ list_any (bytes_eq path) paths.now) }
{
    let mut table = PathTable::new(alloc);
    for path in paths {
        table.number_of(path)?;
    }
    Ok(table)
}

/// By what the tests of a request are found.
struct Asking<'a> {
    alloc: Global,
    index: &'a Index<'a>,
    plan: &'a Plan,
    /// For each main target whether it is a marker.
    markers: Vec<bool>,
    /// The wanted files.
    wanted: PathTable,
}

/// By hand, so that dropping one is one call.
impl Drop for Asking<'_> {
    fn drop(self) {
        let Asking {
            alloc: _,
            index: _,
            plan: _,
            markers,
            wanted,
        } = self;
        drop(markers);
        drop(wanted);
    }
}

impl Asking<'_> {
    /// Whether the main target of a row is a marker; takes no memory.
    fn is_marker(&self, row: &Built) -> bool
        ensures { result ≡ has_mark self.now.index.now self.now.markers.items (row_of_line row.now) }
    {
        let numbers = self.index.numbers(row.name.project(), row.name.name());
        match numbers.get(row.alternative.saturating_sub(1)) {
            None => false,
            Some(number) => is_marked(self.markers.as_slice(), *number),
        }
    }

    /// Whether a file is wanted; takes no memory.
    fn is_wanted(&self, path: &Path) -> bool
        ensures { result ≡ list_any (bytes_eq path.now) self.now.wanted }
    {
        self.wanted.find(path).is_some()
    }

    /// The test of a marker's row, whose marker lies at this path; there is none where the path is not wanted or no step makes it.
    fn test_at(&self, row: &Built, path: &Path) -> Result<Option<(Text, u32)>, OutOfMemory>
        ensures { IfOk result (λ test. test_list test ≡ test_at self.now.index.now (row_of_line row.now) (list_any (bytes_eq path.now) self.now.wanted) (maker_of self.now.plan.now.steps path.now)) }
    {
        if !self.is_wanted(path) {
            return Ok(None);
        }
        match self.plan.maker(path) {
            None => Ok(None),
            Some(number) => {
                let target = self.index.target_text(row.name.project(), row.name.name())?;
                Ok(Some((target, number)))
            }
        }
    }

    /// The test of a row, where it is a marker's and is asked for.
    fn test_of(&self, row: &Built) -> Result<Option<(Text, u32)>, OutOfMemory>
        requires { IsSet (features self.now.index.now) row.now.set }
        ensures { IfOk result (λ test. test_list test ≡ test_by self.now.index.now self.now.markers.items self.now.plan.now.steps self.now.wanted (row_of_line row.now)) }
    {
        if !self.is_marker(row) {
            return Ok(None);
        }
        let path = marker_path(self.alloc, self.index, row)?;
        self.test_at(row, &path)
    }

    /// Adds the test of a row, where it is a marker's and is asked for.
    fn add_test(&self, tests: &mut Vec<(Text, u32)>, row: &Built) -> Result<(), OutOfMemory>
        requires { IsSet (features self.now.index.now) row.now.set }
        ensures { OnOk result (tests.new.items ≡ tests.old.items ++ test_by self.now.index.now self.now.markers.items self.now.plan.now.steps self.now.wanted (row_of_line row.now)) }
    {
        match self.test_of(row)? {
            None => Ok(()),
            Some(test) => {
                tests.push(test)?;
                Ok(())
            }
        }
    }

    /// The tests of some rows, in order.
    fn tests(&self, rows: &[Built]) -> Result<Vec<(Text, u32)>, OutOfMemory>
        requires { HaveSets self.now.index.now (rows_of rows.now) }
        ensures { IfOk result (λ tests. tests.items ≡ tests_by self.now.index.now self.now.markers.items self.now.plan.now.steps self.now.wanted (rows_of rows.now)) }
    {
        let mut tests = Vec::new(self.alloc);
        for row in rows {
            self.add_test(&mut tests, row)?;
        }
        Ok(tests)
    }
}

/// The tests that a request asks for, over what is declared with its look-ups.
fn over_index(
    alloc: Global,
    index: &Index<'_>,
    planned: &Planned,
) -> Result<Vec<(Text, u32)>, OutOfMemory>
    requires { HaveSets index.now (rows_of planned.now.table) }
    ensures { IfOk result (λ tests. AreAskedFor index.now planned.now tests.items) }
{
    let markers = markers_of(alloc, index.declared())?;
    let wanted = table_of(alloc, planned.plan.wanted.as_slice())?;
    let asking = Asking {
        alloc,
        index,
        plan: &planned.plan,
        markers,
        wanted,
    };
    asking.tests(planned.table.as_slice())
}

/// The tests that a request asks for, each as its marker's main target and the number of the step that makes the marker, in the
/// order of the plan's table. A test is asked for by each line of the table that is its marker's, where the path of the marker is
/// wanted. `declared` is what the request was planned for: what a load found, with the main targets of its tests.
pub fn requested(
    alloc: Global,
    declared: &Declared,
    planned: &Planned,
) -> Result<Vec<(Text, u32)>, OutOfMemory>
    requires numbered { IsNumbered declared.now }
    requires sets { HaveSets declared.now (rows_of planned.now.table) }
    ensures { IfOk result (λ tests. AreAskedFor declared.now planned.now tests.items) }
{
    if declared.tests.as_slice().is_empty() {
        return Ok(Vec::new(alloc));
    }
    let index = Index::new(alloc, declared)?;
    over_index(alloc, &index, planned)
}
