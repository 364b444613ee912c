//! The rules of a graph and the native rules, as evaluation calls them.
ghost use Rattle.std.specs.Prelude.{◌≡◌, ◌++◌, ◌∷◌, [], IfOk, OnOk, OnErr};
ghost use Rattle.jam_graph.specs.Graphs.{nothing_kept, and_said, graph_call, other_call, call_of, graph_rule, act_at, act_said};
ghost use Rattle.jam_graph.specs.Calling.{kept_of, IsSaid, IsCalled};
ghost use Rattle.jam_scope.specs.Lines.{actions_place};

use crate::rule::{GraphRule, graph_rule, said_by, shape_of};
use crate::said::Said;
use b2_base::fault::OutOfMemory;
use b2_base::list::List;
use b2_base::shape::has_shape;
use b2_base::text::{Text, has_no_zero};
use b2_base::text_list::{TextList, copy_texts, list_at};
use b2_host::files::Files;
use jam_meaning::natives::{NativeError, NativeStep, Natives};
use jam_natives::native::is_declaring;
use jam_natives::natives::JamNatives;
use jam_scope::world::World;
use std::alloc::Global;

/// The native rules but the declaring ones, and the calls that declare a part of a graph, which are recorded.
#[derive(Drop)]
pub struct GraphNatives {
    jam: JamNatives,
    said: List<Said>,
}

/// A name as a text. No name that a file can call has a zero byte.
fn text_of(alloc: Global, name: &str) -> Result<Text, OutOfMemory>
    ensures { IfOk result (λ text. text ≡ name.now) }
{
    if has_no_zero(name) {
        Text::new(alloc, name)
    } else {
        Err(OutOfMemory)
    }
}

/// What a call of a name that has actions says, by its lists and its line; none where it has no target.
fn act_said(
    alloc: Global,
    name: &str,
    lists: &[TextList],
    line: u32,
    world: &World,
) -> Result<Option<Said>, OutOfMemory>
    ensures { IfOk result (λ said. said ≡ act_said (actions_place name.now world.now.now) lists.now line) }
{
    let Some(found) = world.find_actions(name) else {
        return Ok(None);
    };
    if list_at(lists, 0).is_empty() {
        return Ok(None);
    }
    let name = text_of(alloc, found.name)?;
    let module = text_of(alloc, found.module)?;
    let targets = copy_texts(alloc, list_at(lists, 0))?;
    let sources = copy_texts(alloc, list_at(lists, 1))?;
    Ok(Some(Said::Acts {
        name,
        module,
        targets,
        sources,
        line,
    }))
}

impl GraphNatives {
    /// Nothing is kept; takes no memory.
    pub fn new(alloc: Global) -> GraphNatives
        ensures { kept_of result ≡ nothing_kept }
    {
        GraphNatives {
            jam: JamNatives::new(alloc),
            said: List::new(alloc),
        }
    }

    /// The lines of ECHO, in order; takes no memory.
    pub fn echoes(&self) -> &[Text]
        ensures { result.now ≡ (kept_of self.now).jam.echoes }
    {
        self.jam.echoes()
    }

    /// What was recorded, in order; takes no memory.
    pub fn said(&self) -> &[Said]
        ensures { result.now ≡ (kept_of self.now).said }
    {
        self.said.as_slice()
    }

    fn record(&mut self, said: Said) -> Result<(), OutOfMemory>
        ensures ok { OnOk result (kept_of self.new ≡ and_said said (kept_of self.old)) }
        ensures err { OnErr result (kept_of self.new ≡ kept_of self.old) }
    {
        self.said.push(said)
    }

    /// Records a call of a rule of a graph.
    fn declare(
        &mut self,
        alloc: Global,
        rule: GraphRule,
        lists: &[TextList],
    ) -> Result<NativeStep, NativeError>
        ensures { IsSaid (graph_call rule lists.now) result (kept_of self.old) (kept_of self.new) }
    {
        if !has_shape(shape_of(rule), lists) {
            return Err(NativeError::Arity);
        }
        let said = said_by(alloc, rule, lists)?;
        self.record(said)?;
        Ok(NativeStep::Value(TextList::new(alloc)))
    }

    /// Calls the native rule of a name that is no rule of a graph. A declaring rule is unknown.
    fn call_other<F: Files>(
        &mut self,
        alloc: Global,
        name: &str,
        lists: &[TextList],
        line: u32,
        world: &mut World,
        files: &mut F,
    ) -> Result<NativeStep, NativeError>
        ensures { IsCalled (other_call name.now lists.now line) result world.old world.new (kept_of self.old) (kept_of self.new) (F.outside files.old) (F.outside files.new) }
    {
        if is_declaring(name) {
            return Ok(NativeStep::Unknown);
        }
        self.jam.call(alloc, name, lists, line, world, files)
    }

    fn call_rule<F: Files>(
        &mut self,
        alloc: Global,
        name: &str,
        lists: &[TextList],
        line: u32,
        world: &mut World,
        files: &mut F,
    ) -> Result<NativeStep, NativeError>
        ensures { IsCalled (call_of (graph_rule name.now) name.now lists.now line) result world.old world.new (kept_of self.old) (kept_of self.new) (F.outside files.old) (F.outside files.new) }
    {
        match graph_rule(name) {
            Some(rule) => self.declare(alloc, rule, lists),
            None => self.call_other(alloc, name, lists, line, world, files),
        }
    }

    /// Records a call of a name that has actions.
    fn act(
        &mut self,
        alloc: Global,
        name: &str,
        lists: &[TextList],
        line: u32,
        world: &World,
    ) -> Result<(), OutOfMemory>
        ensures ok { OnOk result (kept_of self.new ≡ act_at (actions_place name.now world.now.now) lists.now line (kept_of self.old)) }
        ensures err { OnErr result (kept_of self.new ≡ kept_of self.old) }
    {
        match act_said(alloc, name, lists, line, world)? {
            Some(said) => self.record(said),
            None => Ok(()),
        }
    }
}

impl Natives for GraphNatives {
    ghost use Rattle.std.specs.Prelude.{Some};
    ghost use Rattle.jam_graph.specs.Graphs.{GraphKept, graph_meaning};
    ghost use Rattle.jam_graph.specs.Calling.{kept_of};

    ghost Kept = { GraphKept };

    ghost kept = { kept_of };

    ghost meaning = { λ _. Some graph_meaning };

    fn call<F: Files>(
        &mut self,
        alloc: Global,
        name: &str,
        args: &[TextList],
        line: u32,
        world: &mut World,
        files: &mut F,
    ) -> Result<NativeStep, NativeError> {
        self.call_rule(alloc, name, args, line, world, files)
    }

    fn acted(
        &mut self,
        alloc: Global,
        name: &str,
        args: &[TextList],
        line: u32,
        world: &mut World,
    ) -> Result<bool, NativeError> {
        self.act(alloc, name, args, line, world)?;
        Ok(true)
    }
}
