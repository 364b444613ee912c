//! The graph of recorded calls.
ghost use Rattle.std.specs.Prelude.{◌≡◌, ◌++◌, ◌∷◌, [], map, IfOk, OnOk};
ghost use Rattle.std.specs.List.{flat_map, filter_map};
ghost use Rattle.jam_natives.specs.Texts.{without_repeats};
ghost use Rattle.jam_graph.specs.Graphs.{pairs_of, pairs_in, is_pairing, flagged_in, is_flag, act_in, texts_in, everything, graph_of};

use crate::graph::{Act, Graph};
use crate::said::{Flag, Pairing, Said};
use b2_base::fault::OutOfMemory;
use b2_base::list::List;
use b2_base::path::Path;
use b2_base::text::Text;
use b2_base::text_list::{TextList, copy_texts, push_copies};
use jam_natives::texts::without_repeats;
use jam_scope::world::World;
use std::alloc::Global;

/// Pairs of texts, in order.
type Pairs = List<(Text, Text)>;

/// Adds a text with each of some others.
fn push_with(pairs: &mut Pairs, target: &Text, sources: &[Text]) -> Result<(), OutOfMemory>
    ensures { OnOk result (pairs.new ≡ pairs.old ++ map (λ source. (target.now, source)) sources.now) }
{
    for source in sources {
        let first = target.copy()?;
        let second = source.copy()?;
        pairs.push((first, second))?;
    }
    Ok(())
}

/// Adds each of some texts with each of others.
fn push_pairs(pairs: &mut Pairs, targets: &[Text], sources: &[Text]) -> Result<(), OutOfMemory>
    ensures { OnOk result (pairs.new ≡ pairs.old ++ pairs_of targets.now sources.now) }
{
    for target in targets {
        push_with(pairs, target, sources)?;
    }
    Ok(())
}

/// Whether two of these rules are one.
fn is_pairing(one: Pairing, other: Pairing) -> bool
    ensures { result ≡ is_pairing one other }
{
    match (one, other) {
        (Pairing::Depends, Pairing::Depends) => true,
        (Pairing::Includes, Pairing::Includes) => true,
        _ => false,
    }
}

fn is_flag(one: Flag, other: Flag) -> bool
    ensures { result ≡ is_flag one other }
{
    match (one, other) {
        (Flag::Always, Flag::Always) => true,
        (Flag::NotFile, Flag::NotFile) => true,
        (Flag::NoCare, Flag::NoCare) => true,
        _ => false,
    }
}

/// Adds the pairs of a call, if it is one of the rule.
fn push_said_pairs(pairs: &mut Pairs, pairing: Pairing, said: &Said) -> Result<(), OutOfMemory>
    ensures { OnOk result (pairs.new ≡ pairs.old ++ pairs_in pairing said.now) }
{
    match said {
        Said::Pairs {
            pairing: other,
            targets,
            sources,
        } if is_pairing(pairing, *other) => {
            push_pairs(pairs, targets.as_slice(), sources.as_slice())
        }
        _ => Ok(()),
    }
}

/// The pairs that the calls of a rule declare.
fn pairs_in(alloc: Global, pairing: Pairing, said: &[Said]) -> Result<Pairs, OutOfMemory>
    ensures { IfOk result (λ pairs. pairs ≡ flat_map (pairs_in pairing) said.now) }
{
    let mut pairs = List::new(alloc);
    for one in said {
        push_said_pairs(&mut pairs, pairing, one)?;
    }
    Ok(pairs)
}

/// Adds the texts that a call flags, if it is one of the rule.
fn push_flagged(texts: &mut TextList, flag: Flag, said: &Said) -> Result<(), OutOfMemory>
    ensures { OnOk result (texts.new ≡ texts.old ++ flagged_in flag said.now) }
{
    match said {
        Said::Flags {
            flag: other,
            targets,
        } if is_flag(flag, *other) => push_copies(texts, targets.as_slice()),
        _ => Ok(()),
    }
}

/// Some texts and those that the calls of a rule flag, each at its first place.
fn flagged(
    alloc: Global,
    first: TextList,
    flag: Flag,
    said: &[Said],
) -> Result<TextList, OutOfMemory>
    ensures { IfOk result (λ made. made ≡ without_repeats (first ++ flat_map (flagged_in flag) said.now)) }
{
    let mut texts = first;
    for one in said {
        push_flagged(&mut texts, flag, one)?;
    }
    without_repeats(alloc, texts.as_slice())
}

/// Adds the texts of a call.
fn push_texts(texts: &mut TextList, said: &Said) -> Result<(), OutOfMemory>
    ensures { OnOk result (texts.new ≡ texts.old ++ texts_in said.now) }
{
    match said {
        Said::Pairs {
            targets,
            sources,
            ..
        } => {
            push_copies(texts, targets.as_slice())?;
            push_copies(texts, sources.as_slice())
        }
        Said::Flags { targets, .. } => push_copies(texts, targets.as_slice()),
        Said::Acts {
            targets,
            sources,
            ..
        } => {
            push_copies(texts, targets.as_slice())?;
            push_copies(texts, sources.as_slice())
        }
    }
}

/// The list of the target that stands for a request without targets.
fn everything(alloc: Global) -> Result<TextList, OutOfMemory>
    ensures { IfOk result (λ texts. texts ≡ everything ∷ []) }
{
    let mut texts = TextList::new(alloc);
    texts.push(Text::new(alloc, "all")?)?;
    Ok(texts)
}

/// `all` and the texts of all calls, each at its first place.
fn targets_in(alloc: Global, said: &[Said]) -> Result<TextList, OutOfMemory>
    ensures { IfOk result (λ made. made ≡ without_repeats (everything ∷ flat_map texts_in said.now)) }
{
    let mut texts = everything(alloc)?;
    for one in said {
        push_texts(&mut texts, one)?;
    }
    without_repeats(alloc, texts.as_slice())
}

/// The act of a call, if it is one of a name that has actions.
fn act_in(alloc: Global, said: &Said) -> Result<Option<Act>, OutOfMemory>
    ensures { IfOk result (λ act. act ≡ act_in said.now) }
{
    match said {
        Said::Acts {
            name,
            module,
            targets,
            sources,
            line,
        } => {
            let name = name.copy()?;
            let module = module.copy()?;
            let targets = copy_texts(alloc, targets.as_slice())?;
            let sources = copy_texts(alloc, sources.as_slice())?;
            Ok(Some(Act {
                name,
                module,
                targets,
                sources,
                line: *line,
            }))
        }
        _ => Ok(None),
    }
}

fn push_act(alloc: Global, acts: &mut List<Act>, said: &Said) -> Result<(), OutOfMemory>
    ensures { OnOk result (acts.new ≡ acts.old ++ filter_map act_in (said.now ∷ [])) }
{
    match act_in(alloc, said)? {
        Some(act) => acts.push(act),
        None => Ok(()),
    }
}

/// The acts of all calls, in order.
fn acts_in(alloc: Global, said: &[Said]) -> Result<List<Act>, OutOfMemory>
    ensures { IfOk result (λ acts. acts ≡ filter_map act_in said.now) }
{
    let mut acts = List::new(alloc);
    for one in said {
        push_act(alloc, &mut acts, one)?;
    }
    Ok(acts)
}

/// The graph of what was recorded, with the world that stands then.
pub(crate) fn graph_of(
    alloc: Global,
    path: &Path,
    world: World,
    said: &[Said],
) -> Result<Graph, OutOfMemory>
    ensures { IfOk result (λ graph. graph ≡ graph_of path.now world said.now) }
{
    let path = path.copy()?;
    let targets = targets_in(alloc, said)?;
    let depends = pairs_in(alloc, Pairing::Depends, said)?;
    let includes = pairs_in(alloc, Pairing::Includes, said)?;
    let always = flagged(alloc, TextList::new(alloc), Flag::Always, said)?;
    let notfile = flagged(alloc, everything(alloc)?, Flag::NotFile, said)?;
    let nocare = flagged(alloc, TextList::new(alloc), Flag::NoCare, said)?;
    let acts = acts_in(alloc, said)?;
    Ok(Graph {
        path,
        world,
        targets,
        depends,
        includes,
        always,
        notfile,
        nocare,
        acts,
    })
}
