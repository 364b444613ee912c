//! The tables of features, types and generators, filled call by call.
ghost use Rattle.std.specs.Prelude.{◌≡◌, ◌<◌, ◌||◌, true, false, Ok, All, length, is_ok, IfOk, IfErr, OnOk};
ghost use Rattle.b2_declaring_calls.specs.Declarations.{is_refused};
ghost use Rattle.b2_gcc.specs.Tables.{file_types, generators};
ghost use Rattle.b2_gcc.specs.TableDeclarations.{with_types, with_generators};
ghost use Rattle.b2_declared.specs.Outcomes.{IsFaultOf};
ghost use Rattle.b2_declared.specs.Carrying.{is_gcc_refused, with_project, with_gcc, with_feature, with_parts, with_compose, with_type, with_row, with_generator, with_declaration, with_accepted, carried_out, fresh_tables, tables_of};
ghost use Rattle.b2_declared.specs.Views.{seen};

use crate::fault::{DeclaringFault, feature_refusal, refusal};
use crate::lists::{read_pair, read_pairs};
use crate::visit::{Call, Visit, visit_of};
use b2_base::fault::OutOfMemory;
use b2_base::text::Text;
use b2_base::text_list::copy_texts;
use b2_declaring_calls::declaration::Declaration;
use b2_declaring_calls::reading::is_refused;
use b2_features::registry::Registry;
use b2_gcc::features::declare_features;
use b2_gcc::types::{declare_generators, declare_types};
use b2_generators::generator::Generator;
use b2_generators::types::Types;
use b2_property_texts::clashes::has_two_values;
use b2_props::pair_list::PairList;
use std::alloc::Global;

/// The features, the types and generators so far, whether the gcc toolset is among them, and of each project whether it
/// had its `project` call.
#[derive(Drop)]
pub(crate) struct Tables {
    alloc: Global,
    pub(crate) registry: Registry,
    pub(crate) types: Types,
    has_gcc: bool,
    begun: Vec<bool>,
}

/// Registers the types and generators of the gcc toolset. False where one of them is refused; then, and after an error, a
/// first part of them may be there.
fn declare_gcc_types(alloc: Global, types: &mut Types) -> Result<bool, OutOfMemory>
    ensures registered { result ≡ Ok true → types.new ≡ with_generators (with_types types.old file_types) generators }
    ensures free { result ≡ Ok true → is_gcc_refused types.old ≡ false }
    ensures taken { result ≡ Ok false → is_gcc_refused types.old ≡ true }
{
    if !declare_types(alloc, types)? {
        return Ok(false);
    }
    declare_generators(alloc, types)
}

fn generator_of(
    alloc: Global,
    id: &Text,
    sources: &[Text],
    targets: &[Text],
    required: PairList,
) -> Result<Generator, OutOfMemory>
    ensures { IfOk result (λ made. made ≡ record { id = id.now; sources = sources.now; targets = targets.now; required = required }) }
{
    let id = id.copy()?;
    let sources = copy_texts(alloc, sources)?;
    Ok(Generator {
        id,
        sources,
        targets: copy_texts(alloc, targets)?,
        required,
    })
}

/// Whether a call is refused for its output roots, or for a name.
fn is_refused_call(
    alloc: Global,
    call: &Call,
    declaration: &Declaration,
) -> Result<bool, OutOfMemory>
    ensures { IfOk result (λ refused. refused ≡ (call.now.refused || is_refused declaration.now)) }
{
    if call.refused {
        return Ok(true);
    }
    is_refused(alloc, declaration)
}

impl Tables {
    fn new(alloc: Global, projects: usize) -> Result<Tables, OutOfMemory>
        ensures { IfOk result (λ made. seen made ≡ fresh_tables projects) }
    {
        Ok(Tables {
            alloc,
            registry: Registry::new(alloc),
            types: Types::new(alloc),
            has_gcc: false,
            begun: vec![in alloc; false; projects]?,
        })
    }

    #[tactic(auto, unfolding(crate::specs::Carrying::with_project))]
    fn begin_project(&mut self, visit: &Visit, call: &Call) -> Result<(), DeclaringFault>
        requires { call.now.project < length self.old.begun.items }
        ensures ok { OnOk result (with_project visit.now call.now (seen self.old) ≡ Ok (seen self.new)) }
        ensures fault { IfErr result (IsFaultOf (with_project visit.now call.now (seen self.old))) }
        ensures projects { length self.new.begun.items ≡ length self.old.begun.items }
    {
        if self.begun[call.project] {
            return Err(refusal(visit, call));
        }
        self.begun[call.project] = true;
        Ok(())
    }

    fn use_gcc(&mut self, visit: &Visit, call: &Call) -> Result<(), DeclaringFault>
        ensures ok { OnOk result (with_gcc visit.now call.now (seen self.old) ≡ Ok (seen self.new)) }
        ensures fault { IfErr result (IsFaultOf (with_gcc visit.now call.now (seen self.old))) }
        ensures projects { self.new.begun ≡ self.old.begun }
    {
        if self.has_gcc {
            return Ok(());
        }
        match declare_features(self.alloc, &mut self.registry) {
            Ok(()) => {}
            Err(fault) => return Err(feature_refusal(visit, call, fault)),
        }
        if !declare_gcc_types(self.alloc, &mut self.types)? {
            return Err(refusal(visit, call));
        }
        self.has_gcc = true;
        Ok(())
    }

    #[tactic(auto, unfolding(crate::specs::Carrying::with_feature))]
    fn declare_feature(
        &mut self,
        visit: &Visit,
        call: &Call,
        name: &Text,
        values: &[Text],
        attributes: &[Text],
    ) -> Result<(), DeclaringFault>
        ensures ok { OnOk result (with_feature visit.now call.now name.now values.now attributes.now (seen self.old) ≡ Ok (seen self.new)) }
        ensures fault { IfErr result (IsFaultOf (with_feature visit.now call.now name.now values.now attributes.now (seen self.old))) }
        ensures projects { self.new.begun ≡ self.old.begun }
    {
        match self.registry.feature(name.as_str(), values, attributes) {
            Ok(()) => Ok(()),
            Err(fault) => Err(feature_refusal(visit, call, fault)),
        }
    }

    #[tactic(auto, unfolding(crate::specs::Carrying::with_parts))]
    fn compose(
        &mut self,
        visit: &Visit,
        call: &Call,
        property: &(Text, Text),
        parts: &[(Text, Text)],
    ) -> Result<(), DeclaringFault>
        ensures ok { OnOk result (with_parts visit.now call.now property.now parts.now (seen self.old) ≡ Ok (seen self.new)) }
        ensures fault { IfErr result (IsFaultOf (with_parts visit.now call.now property.now parts.now (seen self.old))) }
        ensures projects { self.new.begun ≡ self.old.begun }
    {
        match self
            .registry
            .compose(property.0.as_str(), property.1.as_str(), parts)
        {
            Ok(()) => Ok(()),
            Err(fault) => Err(feature_refusal(visit, call, fault)),
        }
    }

    fn read_composed(
        &mut self,
        visit: &Visit,
        call: &Call,
        property: &Text,
        parts: &[Text],
    ) -> Result<(), DeclaringFault>
        ensures ok { OnOk result (with_compose visit.now call.now property.now parts.now (seen self.old) ≡ Ok (seen self.new)) }
        ensures fault { IfErr result (IsFaultOf (with_compose visit.now call.now property.now parts.now (seen self.old))) }
        ensures projects { self.new.begun ≡ self.old.begun }
    {
        let pair = read_pair(self.alloc, &self.registry, visit, call, property)?;
        let parts = read_pairs(self.alloc, &self.registry, visit, call, parts)?;
        self.compose(visit, call, &pair, parts.as_slice())
    }

    #[tactic(auto, unfolding(crate::specs::Carrying::with_type))]
    fn register_type(
        &mut self,
        visit: &Visit,
        call: &Call,
        name: &Text,
        suffixes: &[Text],
    ) -> Result<(), DeclaringFault>
        ensures ok { OnOk result (with_type visit.now call.now name.now suffixes.now (seen self.old) ≡ Ok (seen self.new)) }
        ensures fault { IfErr result (IsFaultOf (with_type visit.now call.now name.now suffixes.now (seen self.old))) }
        ensures projects { self.new.begun ≡ self.old.begun }
    {
        if !self.types.register_type(name.as_str(), suffixes)? {
            return Err(refusal(visit, call));
        }
        Ok(())
    }

    #[tactic(auto, unfolding(crate::specs::Carrying::with_row))]
    fn register(
        &mut self,
        visit: &Visit,
        call: &Call,
        generator: Generator,
    ) -> Result<(), DeclaringFault>
        ensures ok { OnOk result (with_row visit.now call.now generator (seen self.old) ≡ Ok (seen self.new)) }
        ensures fault { IfErr result (IsFaultOf (with_row visit.now call.now generator (seen self.old))) }
        ensures projects { self.new.begun ≡ self.old.begun }
    {
        if !self.types.register(generator)? {
            return Err(refusal(visit, call));
        }
        Ok(())
    }

    fn register_generator(
        &mut self,
        visit: &Visit,
        call: &Call,
        id: &Text,
        sources: &[Text],
        targets: &[Text],
        requirements: &[Text],
    ) -> Result<(), DeclaringFault>
        ensures ok { OnOk result (with_generator visit.now call.now id.now sources.now targets.now requirements.now (seen self.old) ≡ Ok (seen self.new)) }
        ensures fault { IfErr result (IsFaultOf (with_generator visit.now call.now id.now sources.now targets.now requirements.now (seen self.old))) }
        ensures projects { self.new.begun ≡ self.old.begun }
    {
        let required = read_pairs(self.alloc, &self.registry, visit, call, requirements)?;
        if has_two_values(self.alloc, &self.registry, required.as_slice())? {
            return Err(refusal(visit, call));
        }
        let generator = generator_of(self.alloc, id, sources, targets, required)?;
        self.register(visit, call, generator)
    }

    fn declare(
        &mut self,
        visit: &Visit,
        call: &Call,
        declaration: &Declaration,
    ) -> Result<(), DeclaringFault>
        requires { call.now.project < length self.old.begun.items }
        ensures ok { OnOk result (with_declaration visit.now call.now declaration.now (seen self.old) ≡ Ok (seen self.new)) }
        ensures fault { IfErr result (IsFaultOf (with_declaration visit.now call.now declaration.now (seen self.old))) }
        ensures projects { length self.new.begun.items ≡ length self.old.begun.items }
    {
        match declaration {
            Declaration::Project(_) => self.begin_project(visit, call),
            Declaration::Using { .. } => self.use_gcc(visit, call),
            Declaration::Feature {
                name,
                values,
                attributes,
            } => self.declare_feature(visit, call, name, values.as_slice(), attributes.as_slice()),
            Declaration::Compose { property, parts } => {
                self.read_composed(visit, call, property, parts.as_slice())
            }
            Declaration::FileType { name, suffixes } => {
                self.register_type(visit, call, name, suffixes.as_slice())
            }
            Declaration::Generator {
                id,
                sources,
                targets,
                requirements,
            } => self.register_generator(
                visit,
                call,
                id,
                sources.as_slice(),
                targets.as_slice(),
                requirements.as_slice(),
            ),
            Declaration::Main(_)
            | Declaration::Explicit(_)
            | Declaration::BuildProject(_)
            | Declaration::UseProject { .. }
            | Declaration::Import
            | Declaration::Test(_) => Ok(()),
        }
    }

    /// Carries out a declaration, unless it is refused.
    #[tactic(auto, unfolding(crate::specs::Carrying::with_accepted))]
    fn declare_accepted(
        &mut self,
        visit: &Visit,
        call: &Call,
        declaration: &Declaration,
    ) -> Result<(), DeclaringFault>
        requires { call.now.project < length self.old.begun.items }
        ensures ok { OnOk result (with_accepted visit.now call.now declaration.now (seen self.old) ≡ Ok (seen self.new)) }
        ensures fault { IfErr result (IsFaultOf (with_accepted visit.now call.now declaration.now (seen self.old))) }
        ensures projects { length self.new.begun.items ≡ length self.old.begun.items }
    {
        if is_refused_call(self.alloc, call, declaration)? {
            return Err(refusal(visit, call));
        }
        self.declare(visit, call, declaration)
    }

    fn carry_out(&mut self, visit: &Visit, call: &Call) -> Result<(), DeclaringFault>
        requires { call.now.project < length self.old.begun.items }
        ensures ok { OnOk result (carried_out visit.now call.now call.now.declaration (seen self.old) ≡ Ok (seen self.new)) }
        ensures fault { IfErr result (IsFaultOf (carried_out visit.now call.now call.now.declaration (seen self.old))) }
        ensures projects { length self.new.begun.items ≡ length self.old.begun.items }
    {
        match &call.declaration {
            None => Err(refusal(visit, call)),
            Some(declaration) => self.declare_accepted(visit, call, declaration),
        }
    }
}

/// The tables that the calls of a load make in order, up to the first that is refused.
pub(crate) fn tables_of(
    alloc: Global,
    visits: &[Visit],
    calls: &[Call],
) -> Result<Tables, DeclaringFault>
    requires { All (λ call. call.project < length visits.now) calls.now }
    ensures ok { IfOk result (λ made. tables_of visits.now calls.now ≡ Ok (seen made)) }
    ensures fault { IfErr result (IsFaultOf (tables_of visits.now calls.now)) }
{
    let mut tables = Tables::new(alloc, visits.len())?;
    for call in calls {
        tables.carry_out(visit_of(visits, call), call)?;
    }
    Ok(tables)
}

/// Whether the calls of a load can be carried out in order of recording, before the property texts of projects and main
/// targets are read. The fault is that of the first call that is refused: one that has not the shape of its rule, whose
/// output roots or whose main target's name is refused, a second `project` call of one project, a feature, a type or a
/// generator that is refused, or a property text of `feature.compose` or `generators.register-standard`, which is read in
/// the tables so far.
pub fn carry_out(alloc: Global, visits: &[Visit], calls: &[Call]) -> Result<(), DeclaringFault>
    requires { All (λ call. call.project < length visits.now) calls.now }
    ensures ok { OnOk result (is_ok (tables_of visits.now calls.now) ≡ true) }
    ensures fault { IfErr result (IsFaultOf (tables_of visits.now calls.now)) }
{
    let _tables = tables_of(alloc, visits, calls)?;
    Ok(())
}
