//! From words to a plan.
ghost use Rattle.std.specs.Prelude.{◌≡◌, [], Ok, Err, IfOk, IfErr, is_some, false};
ghost use Rattle.std.specs.Option.{IfSome};
ghost use Rattle.b2_host.specs.OutsideLaws.{Keeps};
ghost use Rattle.b2_plan.specs.Plans.{Apart};
ghost use Rattle.b2_declared.specs.Numbered.{IsNumbered};
ghost use Rattle.b2_declared.specs.declared.whole.Declared.{Declared as Found};
ghost use Rattle.b2_generate.specs.Answers.{HaveSets};
ghost use Rattle.b2_request_plan.specs.Plans.{seen};
ghost use Rattle.b2_testing.specs.Adding.{with_tests};
ghost use Rattle.b2_prepare.specs.Preparing.{IsPrepared, LinesTold, TestsTold, IsWhole, Counts};
ghost use Rattle.b2_prepare.specs.PlanningParts.{PlansRequest, Asks, IsReady, HandsOn, AsksEquipped, AsksLoaded, GoesOn};

use crate::again::{PlanningEnd, settled};
use crate::planning::plan_in;
use crate::refusal::{PlanStop, not_asked, not_loaded};
use b2_base::path_list::copy_paths;
use b2_base::text::Text;
use b2_base::text_list::TextList;
use b2_declared::whole::Declared;
use b2_host::files::Files;
use b2_own_text::lending_moment::LendingMoment;
use b2_own_text::own_text::OwnText;
use b2_project::load::{LoadFault, Loaded, load};
use b2_project::project::Project;
use b2_props::request::{Request, read_request};
use b2_request_plan::plan::PlanAnswer;
use b2_request_plan::planned::Planned;
use b2_testing::laws::tests_are_added_soundly;
use b2_testing::requested::requested;
use b2_testing::tests::add_tests;
use jam_effects::turns::Turns;
use jam_scope::world::World;
use std::alloc::Global;
use std::marker::Brand;
use std::mem::forget;

/// The turns that all files of a load share.
const LOAD_TURNS: u32 = 1_000_000;

/// The lines of ECHO, in order, and the plan with the table of main targets, or why there is none.
#[derive(Drop)]
pub struct Preparation {
    pub echoes: TextList,
    pub result: Result<Planned, PlanStop>,
    /// The tests that the plan asks for, in order: of each the main target of its marker, and the number of the step that makes the
    /// marker. None where there is no plan.
    pub tests: Vec<(Text, u32)>,
}

/// The plan of a request over a loaded project. The host is what `S` says.
fn plan_over<F: Files, S: LendingMoment>(
    alloc: Global,
    declared: &Declared,
    world: World,
    request: &Request,
    files: &mut F,
) -> Result<Planned, PlanStop>
    requires entry { F.outside files.old ≡ S.outside }
    requires numbered { IsNumbered declared.now }
    requires step { is_some world.now.step ≡ false }
    ensures { PlansRequest declared.now world request.now.sets request.now.targets (F.outside files.old) (F.outside files.new) result }
{
    let roots = copy_paths(alloc, world.roots());
    let own = OwnText::<F, S>::new(alloc, declared.places.as_slice(), world, files);
    let PlanAnswer { evaluator, result } = plan_in(alloc, declared, roots, request, own);
    let PlanningEnd { own, result } = settled(alloc, declared, request, evaluator, result);
    let _files = own.into_files();
    result
}

/// The plan of a request over a loaded project.
fn plan_request<F: Files>(
    alloc: Global,
    declared: &Declared,
    world: World,
    request: &Request,
    files: &mut F,
) -> Result<Planned, PlanStop>
    requires numbered { IsNumbered declared.now }
    requires step { is_some world.now.step ≡ false }
    ensures { PlansRequest declared.now world request.now.sets request.now.targets (F.outside files.old) (F.outside files.new) result }
{
    plan_over::<F, Brand>(alloc, declared, world, request, files)
}

/// What the words of a request come to, for what a load declared and the world that it left.
fn ask<F: Files>(
    alloc: Global,
    words: &[Text],
    declared: &Declared,
    world: World,
    files: &mut F,
) -> Result<Planned, PlanStop>
    requires numbered { IsNumbered declared.now }
    requires step { is_some world.now.step ≡ false }
    ensures { Asks words.now declared.now world (F.outside files.old) (F.outside files.new) result }
{
    match read_request(alloc, &declared.registry, words) {
        Ok(request) => plan_request(alloc, declared, world, &request, files),
        Err(fault) => Err(not_asked(fault)),
    }
}

/// What a request comes to, and the tests that its plan asks for.
#[derive(Drop)]
struct Asked {
    result: Result<Planned, PlanStop>,
    tests: Vec<(Text, u32)>,
}

/// There is no plan, and so no test is asked for.
fn without_tests(alloc: Global, stop: PlanStop) -> Asked
    ensures result { result.result ≡ Err stop }
    ensures tests { result.tests.items ≡ [] }
{
    Asked {
        result: Err(stop),
        tests: Vec::new(alloc),
    }
}

/// The tests that a plan asks for, beside it; out of memory, where there was none for them.
fn with_tests_of(alloc: Global, declared: &Declared, planned: Planned) -> Asked
    requires numbered { IsNumbered declared.now }
    requires sets { HaveSets declared.now (seen planned).rows }
    ensures { (found : Found) → declared.now ≡ with_tests found → HandsOn found (Ok planned) result.result result.tests.items }
{
    match requested(alloc, declared, &planned) {
        Ok(tests) => Asked {
            result: Ok(planned),
            tests,
        },
        Err(_) => {
            drop(planned);
            without_tests(alloc, PlanStop::OutOfMemory)
        }
    }
}

/// What a request over a project with its tests comes to, with the tests that are asked for.
fn with_requested(alloc: Global, declared: &Declared, asked: Result<Planned, PlanStop>) -> Asked
    requires numbered { IsNumbered declared.now }
    requires sets { IfOk asked (λ planned. HaveSets declared.now (seen planned).rows) }
    ensures { (found : Found) → declared.now ≡ with_tests found → HandsOn found asked result.result result.tests.items }
{
    match asked {
        Ok(planned) => with_tests_of(alloc, declared, planned),
        Err(stop) => without_tests(alloc, stop),
    }
}

/// A project is asked for what the words name. The main targets of its tests stand in it.
fn ask_equipped<F: Files>(alloc: Global, words: &[Text], project: Project, files: &mut F) -> Asked
    requires { IsReady project }
    ensures { (found : Found) → project.declared ≡ with_tests found → AsksEquipped words.now found project.world (F.outside files.old) (F.outside files.new) result.result result.tests.items }
{
    let Project {
        world,
        natives,
        declared,
    } = project;
    // What was recorded while the files ran is declared by now.
    drop(natives);
    let planned = ask(alloc, words, &declared, world, files);
    let asked = with_requested(alloc, &declared, planned);
    // Not taken apart, which would cost time. The program loads once as a rule, and a session keeps what each load left.
    forget(declared);
    asked
}

/// A project that was loaded gets the main targets of its tests, and is asked for what the words name.
fn ask_loaded<F: Files>(alloc: Global, words: &[Text], loaded: Project, files: &mut F) -> Asked
    requires { IsReady loaded }
    ensures { AsksLoaded words.now loaded.declared loaded.world (F.outside files.old) (F.outside files.new) result.result result.tests.items }
{
    tests_are_added_soundly();
    let mut project = loaded;
    match add_tests(alloc, &mut project) {
        Ok(()) => ask_equipped(alloc, words, project, files),
        Err(_) => {
            drop(project);
            without_tests(alloc, PlanStop::OutOfMemory)
        }
    }
}

/// What a load comes to, by the words.
fn go_on<F: Files>(
    alloc: Global,
    words: &[Text],
    loaded: Result<Project, LoadFault>,
    files: &mut F,
) -> Asked
    requires { IfOk loaded IsReady }
    ensures { GoesOn words.now loaded (F.outside files.old) (F.outside files.new) result.result result.tests.items }
{
    match loaded {
        Ok(project) => ask_loaded(alloc, words, project, files),
        Err(fault) => without_tests(alloc, not_loaded(fault)),
    }
}

/// Loads the projects that the words of a command name, by the target words among them and with 1,000,000 turns; adds the main
/// targets of their tests; reads the words as a request, by the features that were declared; and plans what they ask for. The words
/// are those that are no options, in order: words of properties, which name no directory, and target words. The first refusal is
/// the answer: that of the load, of the request, or of generation. Where a pattern is refused in generation though it reads as one,
/// the question of the project's own text that has it is asked again, and generation is carried out again with its fault; so the
/// refusal is the one to which generation comes with this input. A fault of the host comes only where one of its calls failed, and
/// no file is changed.
pub fn prepare<F: Files>(alloc: Global, words: &[Text], files: &mut F) -> Preparation
    ensures told { IfSome (F.outside files.old).disk (λ disk. IsPrepared disk words.now result.echoes result.result) }
    ensures lines { IfSome (F.outside files.old).disk (λ disk. LinesTold disk words.now result.echoes result.result) }
    ensures tests { IfSome (F.outside files.old).disk (λ disk. TestsTold disk words.now result.result result.tests.items) }
    ensures whole { IfErr result.result IsWhole }
    ensures apart { IfOk result.result (λ planned. Apart planned.plan.steps planned.plan.roots) }
    ensures disk { (F.outside files.new).disk ≡ (F.outside files.old).disk }
    ensures children { (F.outside files.new).children ≡ (F.outside files.old).children }
    ensures keeps { Keeps (F.outside files.old) (F.outside files.new) }
    ensures counts { Counts result.result (F.outside files.old) (F.outside files.new) }
{
    let mut turns = Turns::new(LOAD_TURNS);
    let Loaded { echoes, result } = load(alloc, files, words, &mut turns);
    let Asked { result, tests } = go_on(alloc, words, result, files);
    Preparation {
        echoes,
        result,
        tests,
    }
}
