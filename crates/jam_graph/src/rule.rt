//! The rules of a graph, by their names.
ghost use Rattle.std.specs.Prelude.{◌≡◌, map, IfOk};
ghost use Rattle.jam_graph.specs.Graphs.{rule_in, graph_rule, shape_of, said_by};

use crate::said::{Flag, Pairing, Said};
use b2_base::fault::OutOfMemory;
use b2_base::shape::Count;
use b2_base::text_list::{TextList, copy_texts, list_at};
use std::alloc::Global;

/// A rule that declares a part of a graph.
#[derive(Clone, Copy)]
pub enum GraphRule {
    /// Each of its first texts with each of its second ones.
    Pairs(Pairing),
    /// Each of its texts.
    Flags(Flag),
}

/// These rules with their names.
static RULES: [(&str, GraphRule); 5] = [
    ("DEPENDS", GraphRule::Pairs(Pairing::Depends)),
    ("INCLUDES", GraphRule::Pairs(Pairing::Includes)),
    ("ALWAYS", GraphRule::Flags(Flag::Always)),
    ("NOTFILE", GraphRule::Flags(Flag::NotFile)),
    ("NOCARE", GraphRule::Flags(Flag::NoCare)),
];

/// The rule of the first row with this name.
fn rule_in(rows: &[(&str, GraphRule)], name: &str) -> Option<GraphRule>
    ensures { result ≡ rule_in (map (λ row. (row.0.now, row.1)) rows.now) name.now }
{
    match rows {
        [] => None,
        [first, more @ ..] => {
            if name == first.0 {
                Some(first.1)
            } else {
                rule_in(more, name)
            }
        }
    }
}

/// The rule of a name that declares a part of a graph; takes no memory.
#[tactic(auto, unfolding(crate::specs::Graphs::graph_rule))]
pub fn graph_rule(name: &str) -> Option<GraphRule>
    ensures { result ≡ graph_rule name.now }
{
    rule_in(&RULES, name)
}

/// How many texts its lists have; takes no memory.
pub fn shape_of(rule: GraphRule) -> &'static [Count]
    ensures { result.now ≡ shape_of rule }
{
    match rule {
        GraphRule::Pairs(_) => &[Count::AtLeastOne, Count::Any],
        GraphRule::Flags(_) => &[Count::AtLeastOne],
    }
}

fn pairs_said(alloc: Global, pairing: Pairing, lists: &[TextList]) -> Result<Said, OutOfMemory>
    ensures { IfOk result (λ said. said ≡ said_by (GraphRule.Pairs pairing) lists.now) }
{
    let targets = copy_texts(alloc, list_at(lists, 0))?;
    let sources = copy_texts(alloc, list_at(lists, 1))?;
    Ok(Said::Pairs {
        pairing,
        targets,
        sources,
    })
}

fn flags_said(alloc: Global, flag: Flag, lists: &[TextList]) -> Result<Said, OutOfMemory>
    ensures { IfOk result (λ said. said ≡ said_by (GraphRule.Flags flag) lists.now) }
{
    let targets = copy_texts(alloc, list_at(lists, 0))?;
    Ok(Said::Flags { flag, targets })
}

/// What a call of a rule says, by its lists.
pub fn said_by(alloc: Global, rule: GraphRule, lists: &[TextList]) -> Result<Said, OutOfMemory>
    ensures { IfOk result (λ said. said ≡ said_by rule lists.now) }
{
    match rule {
        GraphRule::Pairs(pairing) => pairs_said(alloc, pairing, lists),
        GraphRule::Flags(flag) => flags_said(alloc, flag, lists),
    }
}
