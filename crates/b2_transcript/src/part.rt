//! The parts by their names.
use transcript::case_fault::CaseFault;

/// Which library carries out the commands.
#[derive(Clone, Copy)]
pub enum Part {
    Host,
    Log,
    Words,
    Language,
    World,
    Evaluation,
    Properties,
    Refinement,
    Declarations,
    References,
    Outputs,
    Conversions,
    Loads,
    Graph,
    Memory,
    Real,
}

impl Part {
    /// The part of this name.
    pub fn named(name: &str) -> Result<Part, CaseFault> {
        match name {
            "host" => Ok(Part::Host),
            "log" => Ok(Part::Log),
            "words" => Ok(Part::Words),
            "language" => Ok(Part::Language),
            "world" => Ok(Part::World),
            "evaluation" => Ok(Part::Evaluation),
            _ => Part::above_the_language(name),
        }
    }

    /// The part of this name that is above the language. The names are in two matches, since the proof of one costs the square of its
    /// arms.
    fn above_the_language(name: &str) -> Result<Part, CaseFault> {
        match name {
            "properties" => Ok(Part::Properties),
            "refinement" => Ok(Part::Refinement),
            "declarations" => Ok(Part::Declarations),
            "references" => Ok(Part::References),
            "outputs" => Ok(Part::Outputs),
            "conversions" => Ok(Part::Conversions),
            "loads" => Ok(Part::Loads),
            "graph" => Ok(Part::Graph),
            "memory" => Ok(Part::Memory),
            "real" => Ok(Part::Real),
            _ => Err(CaseFault::WrongWords),
        }
    }
}
