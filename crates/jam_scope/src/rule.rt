//! A rule with its home.
use crate::body::RuleBody;
use b2_base::fault::OutOfMemory;
use jam_journal::name::Name;
use std::alloc::Global;
use std::marker::Model;
use std::rc::Rc;

/// A rule, and the module in which it was defined. Its body is shared by all modules that have it, and by those that run it.
pub struct Rule {
    home: Name,
    body: Rc<RuleBody>,
}

/// By hand, so that dropping one is one call.
impl Drop for Rule {
    fn drop(self) {
        let Rule { home, body } = self;
        drop(home);
        drop(body);
    }
}

impl Model for Rule {
    ghost use Rattle.jam_scope.specs.Rules.{Rule as Seen, rule_of};
    ghost use Rattle.jam_scope.specs.RuleCodes.{rule_code};

    ghost Value = { Seen };

    ghost coded = { rule_code };

    ghost view = { λ r. rule_of r.home r.body.value };
}

impl Rule {
    ghost use Rattle.std.specs.Prelude.{◌≡◌, IfOk};
    ghost use Rattle.jam_scope.specs.Rules.{rule_of};

    /// The rule of a body that is defined in a module.
    pub(crate) fn new(alloc: Global, home: &str, body: RuleBody) -> Result<Rule, OutOfMemory>
        ensures { IfOk result (λ made. made ≡ rule_of home.now body) }
    {
        let home = Name::new(alloc, home)?;
        let body = Rc::new(alloc, body)?;
        Ok(Rule { home, body })
    }

    /// The module in which it was defined. Takes no memory.
    pub fn home(&self) -> &str
        ensures { result.now ≡ self.now.home }
    {
        self.home.as_str()
    }

    /// What it does. Takes no memory.
    pub fn body(&self) -> &RuleBody
        ensures { rule_of self.now.home result.now ≡ self.now }
    {
        &self.body
    }

    /// The same rule, whose body is shared.
    pub(crate) fn share(&self, alloc: Global) -> Result<Rule, OutOfMemory>
        ensures { IfOk result (λ made. made ≡ self.now) }
    {
        let home = Name::new(alloc, self.home.as_str())?;
        let body = self.body.clone()?;
        Ok(Rule { home, body })
    }
}
