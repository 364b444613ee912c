//! Laws of chains, each the contract of a function that does nothing.
ghost use Rattle.b2_generators.specs.Laws.{SameTypeIsEmpty, EmptyIsChain, NoneIsNotOne, NoneIsNotTwo, OneIsNotTwo};

/// The chain from a type to itself is the empty one, and no other.
pub fn same_type()
    ensures empty { SameTypeIsEmpty }
    ensures chain { EmptyIsChain }
{}

/// That there is no chain, that there is one shortest chain alone, and that there are two exclude each other.
pub fn one_answer()
    ensures none_or_one { NoneIsNotOne }
    ensures none_or_two { NoneIsNotTwo }
    ensures one_or_two { OneIsNotTwo }
{}
