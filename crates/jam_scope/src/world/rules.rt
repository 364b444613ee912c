//! Rules and actions.
use super::World;
use crate::body::{ActionBody, RuleBody};
use crate::rule::Rule;
use crate::rule_ref::RuleRef;
use b2_base::fault::OutOfMemory;

impl World {
    ghost use Rattle.std.specs.Prelude.{◌≡◌, IfOk, OnOk, OnErr, is_some};
    ghost use Rattle.std.specs.Option.{option_copied, option_map};
    ghost use Rattle.std.specs.FinMap as map;
    ghost use Rattle.jam_scope.specs.Rules.{rule_of};
    ghost use Rattle.jam_scope.specs.Changes.{changed, define_rule, define_actions, import_rule};

    /// The rule that stands at a place, none exactly where its module has no rule of that name. Takes no memory.
    fn rule(&self, at: &RuleRef<'_>) -> Option<&Rule>
        ensures { option_copied result ≡ map.get self.now.now.rules (at.now.module.now, at.now.name.now) }
    {
        self.rules.get(at.module, at.name)
    }

    /// The home and the body of a rule, none exactly where its module has no rule of that name. Takes no memory.
    pub fn rule_body(&self, at: &RuleRef<'_>) -> Option<(&str, &RuleBody)>
        ensures { option_map (λ rule. rule_of rule.0.now rule.1.now) result ≡ map.get self.now.now.rules (at.now.module.now, at.now.name.now) }
    {
        match self.rules.get(at.module, at.name) {
            Some(rule) => Some((rule.home(), rule.body())),
            None => None,
        }
    }

    /// The actions that stand at a place, none exactly where their module has no actions of that name. Takes no memory.
    pub fn action_body(&self, at: &RuleRef<'_>) -> Option<&ActionBody>
        ensures { option_copied result ≡ map.get self.now.now.actions (at.now.module.now, at.now.name.now) }
    {
        self.actions.get(at.module, at.name)
    }

    /// The present module has the rule from now on, and is its home. After an error the world is as before.
    pub fn define_rule(&mut self, name: &str, body: RuleBody) -> Result<(), OutOfMemory>
        ensures ok { OnOk result (self.new ≡ changed (define_rule name.now body.params body.block body.path body.line) self.old) }
        ensures err { OnErr result (self.new ≡ self.old) }
    {
        let rule = Rule::new(self.alloc, self.variables.module(), body)?;
        self.rules.insert(self.variables.module(), name, rule)?;
        Ok(())
    }

    /// The present module has the actions from now on. After an error the world is as before.
    pub fn define_actions(&mut self, name: &str, body: ActionBody) -> Result<(), OutOfMemory>
        ensures ok { OnOk result (self.new ≡ changed (define_actions name.now body) self.old) }
        ensures err { OnErr result (self.new ≡ self.old) }
    {
        self.actions.insert(self.variables.module(), name, body)?;
        Ok(())
    }

    /// A share of the rule that stands at a place, which stays as it is when the world changes; none exactly where its module has
    /// no rule of that name. Copies nothing of its body.
    pub fn rule_at(&self, at: &RuleRef<'_>) -> Result<Option<Rule>, OutOfMemory>
        ensures { IfOk result (λ found. found ≡ map.get self.now.now.rules (at.now.module.now, at.now.name.now)) }
    {
        match self.rule(at) {
            Some(rule) => Ok(Some(rule.share(self.alloc)?)),
            None => Ok(None),
        }
    }

    /// Puts a rule, with the body and home that it has now, into a module under a name. Answers false, and changes nothing,
    /// exactly where no rule stands there. After an error the world is as before.
    pub fn import_rule(
        &mut self,
        at: &RuleRef<'_>,
        module: &str,
        name: &str,
    ) -> Result<bool, OutOfMemory>
        ensures found { IfOk result (λ found. found ≡ is_some (map.get self.old.now.rules (at.now.module.now, at.now.name.now))) }
        ensures ok { OnOk result (self.new ≡ changed (import_rule (at.now.module.now, at.now.name.now) «module».now name.now) self.old) }
        ensures err { OnErr result (self.new ≡ self.old) }
    {
        let Some(rule) = self.rule_at(at)? else {
            return Ok(false);
        };
        self.rules.insert(module, name, rule)?;
        Ok(true)
    }
}
