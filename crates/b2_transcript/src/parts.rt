//! What the parts of the transcript hold, and which of them is current.
use crate::part::Part;
use b2_base::fault::OutOfMemory;
use b2_cases::memory::session::InMemory;
use b2_cases::real::session::OnSystem;
use b2_cases::real::system::System;
use b2_host_cases::host::session::HostSession;
use b2_host_cases::log::session::LogSession;
use b2_host_cases::words::session::CommandLine;
use b2_making_cases::conversions::session::Conversions;
use b2_making_cases::declarations::calls::Declarations;
use b2_making_cases::outputs::session::Outputs;
use b2_making_cases::references::session::References;
use b2_project_cases::session::Loads;
use b2_props_cases::properties::Properties;
use b2_props_cases::refinement::Refinement;
use jam_cases::session::Language;
use jam_engine_cases::session::Graphs;
use jam_interp_cases::evaluation::session::Evaluation;
use jam_interp_cases::world::session::Scene;
use std::alloc::Global;
use std::mem::ManuallyDrop;
use transcript::answer::Answer;
use transcript::case_fault::CaseFault;
use transcript::command::Command;
use transcript::session::Session;
use transcript::words::only;

/// What the parts hold, and which of them carries out the commands. Nothing is dropped before the process ends, since a drop of it
/// would be proved.
#[derive(Drop)]
pub struct Parts<R: System> {
    at_hand: Part,
    host: ManuallyDrop<HostSession>,
    log: ManuallyDrop<LogSession>,
    language: ManuallyDrop<Language>,
    world: ManuallyDrop<Scene>,
    evaluation: ManuallyDrop<Evaluation>,
    properties: ManuallyDrop<Properties>,
    refinement: ManuallyDrop<Refinement>,
    references: ManuallyDrop<References>,
    outputs: ManuallyDrop<Outputs>,
    conversions: ManuallyDrop<Conversions>,
    loads: ManuallyDrop<Loads>,
    graph: ManuallyDrop<Graphs>,
    memory: ManuallyDrop<InMemory>,
    real: ManuallyDrop<OnSystem<R>>,
}

impl<R: System> Parts<R> {
    /// Each part as it is at first.
    pub fn new(rt: R) -> Result<Parts<R>, OutOfMemory> {
        let alloc = rt.alloc();
        Ok(Parts {
            at_hand: Part::Host,
            host: ManuallyDrop::new(HostSession::new(alloc)?),
            log: ManuallyDrop::new(LogSession::new(alloc)),
            language: ManuallyDrop::new(Language::new(alloc)),
            world: ManuallyDrop::new(Scene::new(alloc)?),
            evaluation: ManuallyDrop::new(Evaluation::new(alloc)?),
            properties: ManuallyDrop::new(Properties::new(alloc)),
            refinement: ManuallyDrop::new(Refinement::new(alloc)),
            references: ManuallyDrop::new(References::new(alloc)),
            outputs: ManuallyDrop::new(Outputs::new(alloc)),
            conversions: ManuallyDrop::new(Conversions::new(alloc)),
            loads: ManuallyDrop::new(Loads::new(alloc)?),
            graph: ManuallyDrop::new(Graphs::new(alloc)?),
            memory: ManuallyDrop::new(InMemory::new(alloc)?),
            real: ManuallyDrop::new(OnSystem::new(rt)),
        })
    }

    fn in_part(&mut self, alloc: Global, command: &Command) -> Result<Answer, CaseFault> {
        match self.at_hand {
            Part::Host => self.host.carry_out(alloc, command),
            Part::Log => self.log.carry_out(alloc, command),
            Part::Words => CommandLine.carry_out(alloc, command),
            Part::Language => self.language.carry_out(alloc, command),
            Part::World => self.world.carry_out(alloc, command),
            Part::Evaluation => self.evaluation.carry_out(alloc, command),
            Part::Properties => self.properties.carry_out(alloc, command),
            Part::Refinement => self.refinement.carry_out(alloc, command),
            Part::Declarations => Declarations.carry_out(alloc, command),
            Part::References => self.references.carry_out(alloc, command),
            Part::Outputs => self.outputs.carry_out(alloc, command),
            Part::Conversions => self.conversions.carry_out(alloc, command),
            Part::Loads => self.loads.carry_out(alloc, command),
            Part::Graph => self.graph.carry_out(alloc, command),
            Part::Memory => self.memory.carry_out(alloc, command),
            Part::Real => self.real.carry_out(alloc, command),
        }
    }
}

impl<R: System> Session for Parts<R> {
    fn carry_out(&mut self, alloc: Global, command: &Command) -> Result<Answer, CaseFault> {
        if command.name() == "part" {
            self.at_hand = Part::named(only(command.words())?)?;
            return Ok(Answer::new(alloc));
        }
        self.in_part(alloc, command)
    }
}
