//! What the words ask for.
use crate::fault::CostFault;

/// How large the project is, and how often it is updated.
#[derive(Clone, Copy)]
pub struct Asked {
    pub steps: u32,
    pub inputs: u32,
    pub sources: u32,
    pub updates: u32,
    /// Whether each step reads what the step before it makes.
    pub chained: bool,
}

fn number(word: &str) -> Result<u32, CostFault> {
    Ok(word.parse::<u32>()?)
}

/// What the words ask for; the first is the program's own name.
pub fn asked_by(words: &[String]) -> Result<Asked, CostFault> {
    let (numbers, chained) = match words {
        [_name, numbers @ .., last] => if last.as_str() == "chain" {
            (numbers, true)
        } else {
            (&words[1..], false)
        },
        _ => return Err(CostFault::Words),
    };
    match numbers {
        [steps, inputs, sources, updates] => Ok(Asked {
            steps: number(steps.as_str())?,
            inputs: number(inputs.as_str())?,
            sources: number(sources.as_str())?,
            updates: number(updates.as_str())?,
            chained,
        }),
        _ => Err(CostFault::Words),
    }
}
