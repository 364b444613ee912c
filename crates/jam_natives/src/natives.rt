//! The native and declaring rules as evaluation calls them.
ghost use Rattle.std.specs.Prelude.{◌≡◌, ◌++◌, ◌∷◌, [], OnOk, OnErr};
ghost use Rattle.jam_scope.specs.Changes.{changed};
ghost use Rattle.jam_natives.specs.Keeping.{Kept};
ghost use Rattle.jam_natives.specs.Seeing.{kept_of, IsCalled};
ghost use Rattle.jam_natives.specs.Rows.{row, row_if_shaped, call_of, declare, declare_or_not, echo, with_roots};
ghost use Rattle.jam_natives.specs.Rules.{native_of};
ghost use Rattle.jam_natives.specs.NativeAnswers.{IsAnsweredBy, IsDeclared};

use crate::decl::Decl;
use crate::declaring::{add_output_dirs, decl_of};
use crate::glob::{glob, project_glob};
use crate::importing::{export_call, import_call};
use crate::native::{Native, is_declaring, native_of, shape_of};
use crate::noting::note;
use crate::reading::read;
use crate::texts::line_of;
use b2_base::fault::OutOfMemory;
use b2_base::shape::has_shape;
use b2_base::text::Text;
use b2_base::text_list::{TextList, list_at};
use b2_host::fault::IoFault;
use b2_host::files::Files;
use jam_meaning::natives::{NativeError, NativeStep, Natives};
use jam_scope::world::World;
use std::alloc::Global;

/// The native rules, and what they keep: the calls of declaring rules, and the lines of ECHO. While the world has a mark that was
/// not yet used, nothing is kept.
#[derive(Drop)]
pub struct JamNatives {
    decls: Vec<Decl>,
    echoes: TextList,
}

/// The step of a rule without a value.
fn nothing(alloc: Global) -> NativeStep
    ensures { result ≡ NativeStep.Value [] }
{
    NativeStep::Value(TextList::new(alloc))
}

/// Calls GLOB with lists of its shape.
fn glob_call<F: Files>(
    alloc: Global,
    lists: &[TextList],
    world: &mut World,
    files: &mut F,
) -> Result<NativeStep, NativeError>
    ensures { (kept : Kept) → IsAnsweredBy (row Native.Glob lists.now) result world.old world.new kept kept (F.outside files.old) (F.outside files.new) }
{
    match glob(
        alloc,
        list_at(lists, 0),
        list_at(lists, 1),
        world.roots(),
        files,
    ) {
        Ok(found) => {
            world.freeze_roots();
            Ok(NativeStep::Value(found))
        }
        Err(IoFault::Failed) => Err(NativeError::Host),
        Err(IoFault::OutOfMemory) => Err(NativeError::OutOfMemory),
    }
}

/// Calls `glob` with lists of its shape.
fn project_glob_call<F: Files>(
    alloc: Global,
    lists: &[TextList],
    world: &mut World,
    files: &mut F,
) -> Result<NativeStep, NativeError>
    ensures { (kept : Kept) → IsAnsweredBy (row Native.ProjectGlob lists.now) result world.old world.new kept kept (F.outside files.old) (F.outside files.new) }
{
    let patterns = list_at(lists, 0);
    let excluded = list_at(lists, 1);
    match project_glob(
        alloc,
        world.place(),
        patterns,
        excluded,
        world.roots(),
        files,
    ) {
        Ok(found) => {
            world.freeze_roots();
            Ok(NativeStep::Value(found))
        }
        Err(IoFault::Failed) => Err(NativeError::Host),
        Err(IoFault::OutOfMemory) => Err(NativeError::OutOfMemory),
    }
}

impl JamNatives {
    /// Nothing is kept; takes no memory.
    pub fn new(alloc: Global) -> JamNatives
        ensures { kept_of result ≡ record { decls = []; echoes = [] } }
    {
        JamNatives {
            decls: Vec::new(alloc),
            echoes: TextList::new(alloc),
        }
    }

    /// The calls of declaring rules, in order; takes no memory.
    pub fn decls(&self) -> &[Decl]
        ensures { result.now ≡ (kept_of self.now).decls }
    {
        self.decls.as_slice()
    }

    /// The lines of ECHO, in order; takes no memory.
    pub fn echoes(&self) -> &[Text]
        ensures { result.now ≡ (kept_of self.now).echoes }
    {
        self.echoes.as_slice()
    }

    /// Keeps the texts as one line; whoever holds the natives prints it.
    fn echo(
        &mut self,
        alloc: Global,
        texts: &[Text],
        world: &World,
    ) -> Result<NativeStep, NativeError>
        ensures { IsDeclared result (echo texts.now) world.now world.now (kept_of self.old) (kept_of self.new) }
    {
        if !world.marked() {
            let line = line_of(alloc, texts)?;
            self.echoes.push(line)?;
        }
        Ok(nothing(alloc))
    }

    /// Keeps a call, and adds the output roots that it names. After an error all is as before.
    fn record(
        &mut self,
        alloc: Global,
        decl: Decl,
        name: &str,
        lists: &[TextList],
        world: &mut World,
    ) -> Result<(), OutOfMemory>
        ensures decls { OnOk result ((kept_of self.new).decls ≡ (kept_of self.old).decls ++ decl ∷ []) }
        ensures echoes { (kept_of self.new).echoes ≡ (kept_of self.old).echoes }
        ensures world { OnOk result (world.new ≡ changed (with_roots name.now lists.now) world.old) }
        ensures same_decls { OnErr result ((kept_of self.new).decls ≡ (kept_of self.old).decls) }
        ensures same { OnErr result (world.new ≡ world.old) }
    {
        self.decls.push(decl)?;
        match add_output_dirs(alloc, name, lists, world) {
            Ok(()) => Ok(()),
            Err(_) => {
                let _decl = self.decls.pop();
                Err(OutOfMemory)
            }
        }
    }

    /// Calls a declaring rule.
    fn declare(
        &mut self,
        alloc: Global,
        name: &str,
        lists: &[TextList],
        line: u32,
        world: &mut World,
    ) -> Result<NativeStep, NativeError>
        ensures { IsDeclared result (declare name.now lists.now line) world.old world.new (kept_of self.old) (kept_of self.new) }
    {
        if world.marked() {
            return Ok(nothing(alloc));
        }
        let decl = decl_of(alloc, name, lists, line, world)?;
        self.record(alloc, decl, name, lists, world)?;
        Ok(nothing(alloc))
    }

    /// Calls a native rule with lists of its shape.
    fn call_native<F: Files>(
        &mut self,
        alloc: Global,
        native: Native,
        lists: &[TextList],
        world: &mut World,
        files: &mut F,
    ) -> Result<NativeStep, NativeError>
        ensures { IsCalled (row native lists.now) result world.old world.new self.old self.new (F.outside files.old) (F.outside files.new) }
    {
        match native {
            Native::Echo => self.echo(alloc, list_at(lists, 0), world),
            Native::Reads(rule) => read(alloc, rule, lists, world),
            Native::Notes(rule) => note(alloc, rule, lists, world),
            Native::Import => import_call(alloc, lists, world),
            Native::Export => export_call(alloc, lists, world),
            Native::Glob => glob_call(alloc, lists, world, files),
            Native::ProjectGlob => project_glob_call(alloc, lists, world, files),
        }
    }

    /// Calls a native rule, where its lists have its shape.
    fn call_shaped<F: Files>(
        &mut self,
        alloc: Global,
        native: Native,
        lists: &[TextList],
        world: &mut World,
        files: &mut F,
    ) -> Result<NativeStep, NativeError>
        ensures { IsCalled (row_if_shaped native lists.now) result world.old world.new self.old self.new (F.outside files.old) (F.outside files.new) }
    {
        if !has_shape(shape_of(native), lists) {
            return Err(NativeError::Arity);
        }
        self.call_native(alloc, native, lists, world, files)
    }

    /// Calls a declaring rule, or none.
    fn call_other(
        &mut self,
        alloc: Global,
        name: &str,
        lists: &[TextList],
        line: u32,
        world: &mut World,
    ) -> Result<NativeStep, NativeError>
        ensures { IsDeclared result (declare_or_not name.now lists.now line) world.old world.new (kept_of self.old) (kept_of self.new) }
    {
        if !is_declaring(name) {
            return Ok(NativeStep::Unknown);
        }
        self.declare(alloc, name, lists, line, world)
    }

    /// Calls the rule of a name, if there is one.
    fn call_rule<F: Files>(
        &mut self,
        alloc: Global,
        name: &str,
        lists: &[TextList],
        line: u32,
        world: &mut World,
        files: &mut F,
    ) -> Result<NativeStep, NativeError>
        ensures { IsCalled (call_of (native_of name.now) name.now lists.now line) result world.old world.new self.old self.new (F.outside files.old) (F.outside files.new) }
    {
        match native_of(name) {
            None => self.call_other(alloc, name, lists, line, world),
            Some(native) => self.call_shaped(alloc, native, lists, world, files),
        }
    }
}

impl Natives for JamNatives {
    ghost use Rattle.std.specs.Prelude.{Some};
    ghost use Rattle.jam_natives.specs.Keeping.{Kept};
    ghost use Rattle.jam_natives.specs.Seeing.{kept_of};
    ghost use Rattle.jam_natives.specs.Rows.{jam_meaning};

    ghost Kept = { Kept };

    ghost kept = { kept_of };

    ghost meaning = { λ _. Some jam_meaning };

    fn call<F: Files>(
        &mut self,
        alloc: Global,
        name: &str,
        args: &[TextList],
        line: u32,
        world: &mut World,
        files: &mut F,
    ) -> Result<NativeStep, NativeError> {
        self.call_rule(alloc, name, args, line, world, files)
    }

    fn acted(
        &mut self,
        _alloc: Global,
        _name: &str,
        _args: &[TextList],
        _line: u32,
        _world: &mut World,
    ) -> Result<bool, NativeError> {
        Ok(false)
    }
}
