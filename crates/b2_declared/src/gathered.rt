//! The projects, the main targets and the tests of a load, filled call by call.
ghost use Rattle.std.specs.Prelude.{◌≡◌, ◌<◌, ◌++◌, Ok, All, length, map, IfOk, IfErr, OnOk};
ghost use Rattle.b2_declared.specs.Outcomes.{IsFaultOf};
ghost use Rattle.b2_declared.specs.Gathering.{nothing_gathered, bare, attributed, target_with, one_target_more, test_with, one_test_more, rules_in, with_place, with_own_id, with_attributes, with_target, with_test, with_explicit, with_build, with_use, gathered, gathered_of, gathered_by};
ghost use Rattle.b2_declared.specs.Views.{brought};

use crate::directories::directory_in;
use crate::fault::DeclaringFault;
use crate::ids::Ids;
use crate::lists::{Lists, read_lists};
use crate::numbers::{numbered, plain_all};
use crate::place::{IndirectRule, Place, Target, TestCall};
use crate::visit::{Call, Visit, visit_of};
use b2_base::fault::OutOfMemory;
use b2_base::list::List;
use b2_base::path::Path;
use b2_base::path_list::PathList;
use b2_base::text::Text;
use b2_base::text_list::{TextList, copy_texts, push_copies};
use b2_declaring_calls::declaration::{Attributes, Declaration, MainTarget, Test};
use b2_features::registry::Registry;
use b2_props::pair_list::PairList;
use b2_props::requirement::Requirement;
use std::alloc::Global;

/// The projects, the main targets, the tests, the ids and the rules of indirect requirements so far.
#[derive(Drop)]
pub(crate) struct DeclaredSoFar {
    alloc: Global,
    pub(crate) places: Vec<Place>,
    pub(crate) targets: List<Target>,
    pub(crate) tests: List<TestCall>,
    pub(crate) ids: Ids,
    pub(crate) indirect: List<IndirectRule>,
}

/// A project before its calls.
fn bare(alloc: Global, visit: &Visit) -> Result<Place, OutOfMemory>
    ensures { IfOk result (λ made. made ≡ bare visit.now) }
{
    let dir = visit.dir.copy()?;
    let file = visit.file.copy()?;
    Ok(Place {
        dir,
        file,
        module: visit.module.copy()?,
        parent: visit.parent,
        requirements: List::new(alloc),
        usage: List::new(alloc),
        defaults: PairList::new(alloc),
        builds: PathList::new(alloc),
        explicit: TextList::new(alloc),
    })
}

fn bare_all(alloc: Global, visits: &[Visit]) -> Result<Vec<Place>, OutOfMemory>
    ensures { IfOk result (λ made. made.items ≡ map bare visits.now) }
{
    let mut made = Vec::new(alloc);
    for visit in visits {
        made.push(bare(alloc, visit)?)?;
    }
    Ok(made)
}

/// Gives a project what its lists say; takes no memory.
fn set_lists(
    place: &mut Place,
    requirements: List<Requirement>,
    usage: List<Requirement>,
    defaults: PairList,
)
    ensures { place.new ≡ record place.old { requirements = requirements; usage = usage; defaults = defaults } }
{
    place.requirements = requirements;
    place.usage = usage;
    place.defaults = defaults;
}

/// A main target of a call.
fn target_of(
    alloc: Global,
    call: &Call,
    main: &MainTarget,
    requirements: List<Requirement>,
    usage: List<Requirement>,
    defaults: PairList,
) -> Result<Target, OutOfMemory>
    ensures { IfOk result (λ made. made ≡ target_with call.now main.now requirements usage defaults) }
{
    let name = main.name.copy()?;
    let sources = copy_texts(alloc, main.sources.as_slice())?;
    Ok(Target {
        project: call.project,
        name,
        kind: main.kind,
        sources,
        rule: main.rule.copy()?,
        requirements,
        usage,
        defaults,
        line: call.line,
    })
}

/// A test of a call.
fn test_call_of(
    alloc: Global,
    call: &Call,
    test: &Test,
    requirements: List<Requirement>,
) -> Result<TestCall, OutOfMemory>
    ensures { IfOk result (λ made. made ≡ test_with call.now test.now requirements) }
{
    let rule = call.rule.copy()?;
    let name = test.name.copy()?;
    Ok(TestCall {
        project: call.project,
        rule,
        name,
        sources: copy_texts(alloc, test.sources.as_slice())?,
        requirements,
        line: call.line,
    })
}

impl DeclaredSoFar {
    fn new(alloc: Global, visits: &[Visit]) -> Result<DeclaredSoFar, OutOfMemory>
        ensures { IfOk result (λ made. brought made ≡ nothing_gathered visits.now) }
    {
        Ok(DeclaredSoFar {
            alloc,
            places: bare_all(alloc, visits)?,
            targets: List::new(alloc),
            tests: List::new(alloc),
            ids: Ids::new(alloc),
            indirect: List::new(alloc),
        })
    }

    fn attribute(&mut self, call: &Call, lists: Lists) -> Result<(), OutOfMemory>
        requires { call.now.project < length self.old.places.items }
        ensures places { OnOk result (self.new.places.items ≡ with_place self.old.places.items call.now.project (attributed (length self.old.indirect) lists)) }
        ensures rules { OnOk result (self.new.indirect ≡ self.old.indirect ++ rules_in call.now lists.requirements) }
        ensures others { (self.new.targets ≡ self.old.targets) × (self.new.tests ≡ self.old.tests) × (self.new.ids ≡ self.old.ids) }
        ensures projects { length self.new.places.items ≡ length self.old.places.items }
    {
        let requirements = numbered(self.alloc, call, lists.requirements, &mut self.indirect)?;
        let usage = plain_all(self.alloc, lists.usage)?;
        set_lists(
            &mut self.places[call.project],
            requirements,
            usage,
            lists.defaults,
        );
        Ok(())
    }

    fn add_own_id(&mut self, visit: &Visit, id: &Option<Text>) -> Result<(), OutOfMemory>
        ensures ok { OnOk result (self.new ≡ record self.old { ids = with_own_id self.old.ids id.now visit.now.dir }) }
        ensures projects { self.new.places ≡ self.old.places }
    {
        match id {
            None => Ok(()),
            Some(id) => self.ids.add(id, visit.dir.copy()?),
        }
    }

    fn add_attributes(
        &mut self,
        registry: &Registry,
        visit: &Visit,
        call: &Call,
        attributes: &Attributes,
    ) -> Result<(), DeclaringFault>
        requires { call.now.project < length self.old.places.items }
        ensures ok { OnOk result (with_attributes registry.now visit.now call.now attributes.now (brought self.old) ≡ Ok (brought self.new)) }
        ensures fault { IfErr result (IsFaultOf (with_attributes registry.now visit.now call.now attributes.now (brought self.old))) }
        ensures projects { length self.new.places.items ≡ length self.old.places.items }
    {
        let lists = read_lists(
            self.alloc,
            registry,
            visit,
            call,
            attributes.lists.as_slice(),
        )?;
        self.attribute(call, lists)?;
        self.add_own_id(visit, &attributes.id)?;
        Ok(())
    }

    #[tactic(auto, unfolding(crate::specs::Gathering::one_target_more))]
    fn push_target(
        &mut self,
        call: &Call,
        main: &MainTarget,
        lists: Lists,
    ) -> Result<(), OutOfMemory>
        ensures ok { OnOk result (brought self.new ≡ one_target_more call.now main.now lists (brought self.old)) }
        ensures projects { self.new.places ≡ self.old.places }
    {
        let requirements = numbered(self.alloc, call, lists.requirements, &mut self.indirect)?;
        let usage = plain_all(self.alloc, lists.usage)?;
        let target = target_of(self.alloc, call, main, requirements, usage, lists.defaults)?;
        self.targets.push(target)
    }

    fn add_target(
        &mut self,
        registry: &Registry,
        visit: &Visit,
        call: &Call,
        main: &MainTarget,
    ) -> Result<(), DeclaringFault>
        ensures ok { OnOk result (with_target registry.now visit.now call.now main.now (brought self.old) ≡ Ok (brought self.new)) }
        ensures fault { IfErr result (IsFaultOf (with_target registry.now visit.now call.now main.now (brought self.old))) }
        ensures projects { self.new.places ≡ self.old.places }
    {
        let lists = read_lists(self.alloc, registry, visit, call, main.lists.as_slice())?;
        self.push_target(call, main, lists)?;
        Ok(())
    }

    #[tactic(auto, unfolding(crate::specs::Gathering::one_test_more))]
    fn push_test(&mut self, call: &Call, test: &Test, lists: Lists) -> Result<(), OutOfMemory>
        ensures ok { OnOk result (brought self.new ≡ one_test_more call.now test.now lists (brought self.old)) }
        ensures projects { self.new.places ≡ self.old.places }
    {
        let requirements = numbered(self.alloc, call, lists.requirements, &mut self.indirect)?;
        let call = test_call_of(self.alloc, call, test, requirements)?;
        self.tests.push(call)
    }

    fn add_test(
        &mut self,
        registry: &Registry,
        visit: &Visit,
        call: &Call,
        test: &Test,
    ) -> Result<(), DeclaringFault>
        ensures ok { OnOk result (with_test registry.now visit.now call.now test.now (brought self.old) ≡ Ok (brought self.new)) }
        ensures fault { IfErr result (IsFaultOf (with_test registry.now visit.now call.now test.now (brought self.old))) }
        ensures projects { self.new.places ≡ self.old.places }
    {
        let lists = read_lists(self.alloc, registry, visit, call, test.lists.as_slice())?;
        self.push_test(call, test, lists)?;
        Ok(())
    }

    fn add_explicit(&mut self, call: &Call, names: &[Text]) -> Result<(), OutOfMemory>
        requires { call.now.project < length self.old.places.items }
        ensures ok { OnOk result (brought self.new ≡ with_explicit call.now names.now (brought self.old)) }
        ensures projects { length self.new.places.items ≡ length self.old.places.items }
    {
        let place = &mut self.places[call.project];
        push_copies(&mut place.explicit, names)
    }

    fn add_build(&mut self, visit: &Visit, call: &Call, dir: &Path) -> Result<(), OutOfMemory>
        requires { call.now.project < length self.old.places.items }
        ensures ok { OnOk result (brought self.new ≡ with_build visit.now call.now dir.now (brought self.old)) }
        ensures projects { length self.new.places.items ≡ length self.old.places.items }
    {
        let dir = directory_in(self.alloc, &visit.dir, dir)?;
        let place = &mut self.places[call.project];
        place.builds.push(dir)
    }

    fn add_use(&mut self, visit: &Visit, id: &Text, dir: &Path) -> Result<(), OutOfMemory>
        ensures ok { OnOk result (brought self.new ≡ with_use visit.now id.now dir.now (brought self.old)) }
        ensures projects { self.new.places ≡ self.old.places }
    {
        let dir = directory_in(self.alloc, &visit.dir, dir)?;
        self.ids.add(id, dir)
    }

    fn add(
        &mut self,
        registry: &Registry,
        visit: &Visit,
        call: &Call,
        declaration: &Declaration,
    ) -> Result<(), DeclaringFault>
        requires { call.now.project < length self.old.places.items }
        ensures ok { OnOk result (gathered registry.now visit.now call.now declaration.now (brought self.old) ≡ Ok (brought self.new)) }
        ensures fault { IfErr result (IsFaultOf (gathered registry.now visit.now call.now declaration.now (brought self.old))) }
        ensures projects { length self.new.places.items ≡ length self.old.places.items }
    {
        match declaration {
            Declaration::Project(attributes) => {
                self.add_attributes(registry, visit, call, attributes)
            }
            Declaration::Main(main) => self.add_target(registry, visit, call, main),
            Declaration::Test(test) => self.add_test(registry, visit, call, test),
            Declaration::Explicit(names) => Ok(self.add_explicit(call, names.as_slice())?),
            Declaration::BuildProject(dir) => Ok(self.add_build(visit, call, dir)?),
            Declaration::UseProject { id, dir } => Ok(self.add_use(visit, id, dir)?),
            Declaration::Using { .. }
            | Declaration::Feature { .. }
            | Declaration::Compose { .. }
            | Declaration::FileType { .. }
            | Declaration::Generator { .. }
            | Declaration::Import => Ok(()),
        }
    }

    fn gather(
        &mut self,
        registry: &Registry,
        visit: &Visit,
        call: &Call,
    ) -> Result<(), DeclaringFault>
        requires { call.now.project < length self.old.places.items }
        ensures ok { OnOk result (gathered_of registry.now visit.now call.now call.now.declaration (brought self.old) ≡ Ok (brought self.new)) }
        ensures fault { IfErr result (IsFaultOf (gathered_of registry.now visit.now call.now call.now.declaration (brought self.old))) }
        ensures projects { length self.new.places.items ≡ length self.old.places.items }
    {
        match &call.declaration {
            None => Ok(()),
            Some(declaration) => self.add(registry, visit, call, declaration),
        }
    }
}

/// What the calls of a load add to its projects, in order, up to the first whose property texts are refused.
pub(crate) fn gathered_by(
    alloc: Global,
    registry: &Registry,
    visits: &[Visit],
    calls: &[Call],
) -> Result<DeclaredSoFar, DeclaringFault>
    requires { All (λ call. call.project < length visits.now) calls.now }
    ensures ok { IfOk result (λ made. gathered_by registry.now visits.now calls.now ≡ Ok (brought made)) }
    ensures fault { IfErr result (IsFaultOf (gathered_by registry.now visits.now calls.now)) }
{
    let mut made = DeclaredSoFar::new(alloc, visits)?;
    for call in calls {
        made.gather(registry, visit_of(visits, call), call)?;
    }
    Ok(made)
}
