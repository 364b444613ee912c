//! What a rule and what actions do.
ghost use Rattle.std.specs.Prelude.{◌≡◌, map};
ghost use Rattle.jam_grammar.specs.Trees.{block_tree, params_of};

use b2_base::text::Text;
use jam_grammar::tree::{Block, Param};
use std::marker::Model;
use std::rc::Rc;

/// What a call of a rule does, seen as plain data.
pub struct RuleBody {
    params: Vec<Vec<Param>>,
    block: Rc<Block>,
    path: Text,
    line: u32,
}

/// By hand, so that dropping one is one call.
impl Drop for RuleBody {
    fn drop(self) {
        let RuleBody {
            params,
            block,
            path,
            line: _,
        } = self;
        drop(params);
        drop(block);
        drop(path);
    }
}

impl Model for RuleBody {
    ghost use Rattle.jam_grammar.specs.Trees.{block_tree, params_of};
    ghost use Rattle.jam_scope.specs.Rules.{Body};
    ghost use Rattle.jam_scope.specs.RuleCodes.{body_code};

    ghost Value = { Body };

    ghost coded = { body_code };

    ghost view = { λ b. record { params = params_of b.params; block = block_tree b.block.value; path = b.path; line = b.line } };
}

impl RuleBody {
    /// The body with these lists of parameters and these statements, which stands in a line of a file; the first line is 1. A
    /// rule without parentheses has no list, and takes any arguments. The statements are shared with the tree that defined it.
    /// Takes no memory.
    pub fn new(params: Vec<Vec<Param>>, block: Rc<Block>, path: Text, line: u32) -> RuleBody
        ensures { result ≡ record { params = params_of params; block = block_tree block.value; path = path; line = line } }
    {
        RuleBody {
            params,
            block,
            path,
            line,
        }
    }

    /// The lists of its parameters. Takes no memory.
    pub fn params(&self) -> &[Vec<Param>]
        ensures { map (λ list. list.items) result.now ≡ self.now.params }
    {
        self.params.as_slice()
    }

    /// Its statements. Takes no memory.
    pub fn block(&self) -> &Block
        ensures { block_tree result.now ≡ self.now.block }
    {
        &self.block
    }

    /// The file in which it stands. Takes no memory.
    pub fn path(&self) -> &Text
        ensures { result.now ≡ self.now.path }
    {
        &self.path
    }

    /// The line of its statement. Takes no memory.
    pub fn line(&self) -> u32
        ensures { result ≡ self.now.line }
    {
        self.line
    }
}

/// What actions are: the text between the braces, before its words are expanded, and their modifiers. Seen as plain data.
pub struct ActionBody {
    body: Text,
    together: bool,
    existing: bool,
    quietly: bool,
}

/// By hand, so that dropping one is one call.
impl Drop for ActionBody {
    fn drop(self) {
        let ActionBody {
            body,
            together: _,
            existing: _,
            quietly: _,
        } = self;
        drop(body);
    }
}

impl Model for ActionBody {
    ghost use Rattle.jam_scope.specs.Rules.{Actions};
    ghost use Rattle.jam_scope.specs.RuleCodes.{actions_code};

    ghost Value = { Actions };

    ghost coded = { actions_code };

    ghost view = { λ a. record { text = a.body; together = a.together; existing = a.existing; quietly = a.quietly } };
}

impl ActionBody {
    /// The actions with this text and these modifiers. Takes no memory.
    pub fn new(body: Text, together: bool, existing: bool, quietly: bool) -> ActionBody
        ensures { result ≡ record { text = body; together = together; existing = existing; quietly = quietly } }
    {
        ActionBody {
            body,
            together,
            existing,
            quietly,
        }
    }

    /// The text. Takes no memory.
    pub fn text(&self) -> &Text
        ensures { result.now ≡ self.now.text }
    {
        &self.body
    }

    /// Whether their calls for the same targets are one. Takes no memory.
    pub fn together(&self) -> bool
        ensures { result ≡ self.now.together }
    {
        self.together
    }

    /// Whether they leave out sources that do not stand and are not made. Takes no memory.
    pub fn existing(&self) -> bool
        ensures { result ≡ self.now.existing }
    {
        self.existing
    }

    /// Whether their steps are started without a line. Takes no memory.
    pub fn quietly(&self) -> bool
        ensures { result ≡ self.now.quietly }
    {
        self.quietly
    }
}
