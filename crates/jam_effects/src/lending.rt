//! Lists that are looked at where they stand, and conditions on them. Nothing here takes memory for a list.
ghost use Rattle.std.specs.Prelude.{◌≡◌, Ok};
ghost use Rattle.std.specs.Option.{IfSome};
ghost use Rattle.jam_expand.specs.Expansions.{expansion};
ghost use Rattle.jam_grammar.specs.Trees.{arg_tree, args_tree, NoArgs, ArgAnd};
ghost use Rattle.jam_grammar.specs.Trees as trees;
ghost use Rattle.jam_journal.specs.Scopes.{look};
ghost use Rattle.jam_effects.specs.Lending.{IsLent, AreLent, IsTruthLent, IsSameLent, AreSameLent, IsWithinLent, AreWithinLent};

use b2_base::text::Text;
use jam_expand::word::Word;
use jam_grammar::tree::Arg;
use jam_scope::world::World;
use jam_values::conditions::{is_same, is_true, is_within};
use std::alloc::Global;

/// What a word stands for, where that stands already. Takes no memory.
pub fn lent<'a>(world: &'a World, word: &'a Word) -> Option<&'a [Text]>
    ensures { IfSome result (λ list. expansion (look world.now.now.scopes) word.now ≡ Ok list.now) }
{
    word.lent(world)
}

/// The only argument, where it is a word.
pub fn only_word(args: &[Arg]) -> Option<&Word>
    ensures { IfSome result (λ word. args_tree args.now ≡ ArgAnd (trees.Word word.now) NoArgs) }
{
    match args {
        [Arg::Word(word)] => Some(word),
        _ => None,
    }
}

/// The list of an argument, where it is a word whose list is lent.
fn lent_arg<'a>(world: &'a World, arg: &'a Arg) -> Option<&'a [Text]>
    ensures { IfSome result (λ list. IsLent world.now.now.scopes (arg_tree arg.now) list.now) }
{
    match arg {
        Arg::Word(word) => lent(world, word),
        Arg::Bracket(_) => None,
    }
}

/// The list of the only argument, where it is a word whose list is lent.
fn lent_args<'a>(world: &'a World, args: &'a [Arg]) -> Option<&'a [Text]>
    ensures { IfSome result (λ list. AreLent world.now.now.scopes (args_tree args.now) list.now) }
{
    match args {
        [arg] => lent_arg(world, arg),
        _ => None,
    }
}

/// Whether the list of an argument is true, where it is lent.
pub fn lent_true(world: &World, arg: &Arg) -> Option<bool>
    ensures { IfSome result (λ holds. IsTruthLent world.now.now.scopes (arg_tree arg.now) holds) }
{
    match lent_arg(world, arg) {
        Some(list) => Some(is_true(list)),
        None => None,
    }
}

/// Whether a list is that of an argument, where this is lent.
fn same_lent(first: &[Text], world: &World, right: &Arg) -> Option<bool>
    ensures { IfSome result (λ holds. IsSameLent world.now.now.scopes first.now (arg_tree right.now) holds) }
{
    match lent_arg(world, right) {
        Some(second) => Some(is_same(first, second)),
        None => None,
    }
}

/// Whether two arguments have the same list, where both are lent.
pub fn lent_same(world: &World, left: &Arg, right: &Arg) -> Option<bool>
    ensures { IfSome result (λ holds. AreSameLent world.now.now.scopes (arg_tree left.now) (arg_tree right.now) holds) }
{
    match lent_arg(world, left) {
        Some(first) => same_lent(first, world, right),
        None => None,
    }
}

/// Whether each text is in the list of the only argument, where this is lent.
fn within_lent(alloc: Global, texts: &[Text], world: &World, among: &[Arg]) -> Option<bool>
    ensures { IfSome result (λ holds. IsWithinLent world.now.now.scopes texts.now (args_tree among.now) holds) }
{
    match lent_args(world, among) {
        Some(others) => Some(is_within(alloc, texts, others)),
        None => None,
    }
}

/// Whether each text of an argument is in the list of the only other one, where both are lent.
pub fn lent_within(alloc: Global, world: &World, left: &Arg, among: &[Arg]) -> Option<bool>
    ensures { IfSome result (λ holds. AreWithinLent world.now.now.scopes (arg_tree left.now) (args_tree among.now) holds) }
{
    match lent_arg(world, left) {
        Some(texts) => within_lent(alloc, texts, world, among),
        None => None,
    }
}
