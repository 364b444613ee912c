//! The tree of a file.
use b2_base::text::Text;
use jam_expand::word::Word;
use std::rc::Rc;

/// A whole file.
#[derive(Drop)]
pub struct Tree {
    /// Its statements, in the order of the text.
    pub block: Block,
}

/// Statements in order.
#[cycle(statements)]
#[derive(Drop)]
pub struct Block {
    /// In the order of the text; none for empty braces.
    pub stmts: Vec<Stmt>,
}

/// A statement.
#[cycle(statements)]
#[derive(Drop)]
pub struct Stmt {
    /// The line of its first token; the first line is 1.
    pub line: u32,
    /// What it says.
    pub form: Form,
}

/// What a statement says.
#[cycle(statements)]
#[derive(Drop)]
pub enum Form {
    /// `{ .. }`: statements with a frame of their own.
    Braces(Block),
    /// `local names ;` or `local names = value ;`
    Local {
        /// A list whose elements are the names.
        names: Vec<Arg>,
        /// The list that each of them is given, if `=` stood there.
        value: Option<Vec<Arg>>,
    },
    /// `target = value ;`, or with one of the other signs.
    Assign {
        /// The names that are set.
        target: Arg,
        /// How they are set.
        sign: Sign,
        /// The list that the sign sets or adds.
        value: Vec<Arg>,
    },
    /// `target on targets = value ;`, or with one of the other signs.
    AssignOn {
        /// The names that are set.
        target: Arg,
        /// The targets on which they are set.
        on: Vec<Arg>,
        /// How they are set.
        sign: Sign,
        /// The list that the sign sets or adds.
        value: Vec<Arg>,
    },
    /// `include names ;`
    Include(Vec<Arg>),
    /// `return value ;`
    Return(Vec<Arg>),
    /// `if test { .. }`, and what follows on `else`.
    If {
        /// Which of the two is done.
        test: Expr,
        /// What is done where it holds.
        then: Block,
        /// What is done where it does not.
        other: Other,
    },
    /// `for name in items { .. }`, or with `local` before the name.
    For {
        /// Whether the variable is one of the loop alone.
        local: bool,
        /// The variable that each round sets.
        name: Text,
        /// Its values, one for each round.
        items: Vec<Arg>,
        /// What is done in each round.
        block: Block,
    },
    /// `while test { .. }`
    While {
        /// Evaluated before each round.
        test: Expr,
        /// What is done as long as it holds.
        block: Block,
    },
    /// `switch value { case pattern : .. }`
    Switch {
        /// The list of which the first element, or else the empty text, is held against the patterns.
        value: Vec<Arg>,
        /// In the order of the text: the first that matches is taken.
        cases: Vec<Case>,
    },
    /// `module name { .. }`
    Module {
        /// The list of which the first element names the module; the empty list stands for the global one.
        name: Vec<Arg>,
        /// What is done in it.
        block: Block,
    },
    /// `rule name { .. }`, or with parameters in parentheses before the braces.
    Rule {
        /// As it is written: nothing in it is expanded.
        name: Text,
        /// The lists of its parameters: none without parentheses, and one that is empty for empty parentheses.
        params: Vec<Vec<Param>>,
        /// What a call does.
        block: Rc<Block>,
    },
    /// `actions name {body}`, with modifiers before the name or not.
    Actions {
        /// As it is written: nothing in it is expanded.
        name: Text,
        /// Whether `together` stands among the modifiers.
        together: bool,
        /// Whether `existing` does.
        existing: bool,
        /// Whether `quietly` does.
        quietly: bool,
        /// The text between the braces, as it stands.
        body: Text,
    },
    /// `on target stmt`
    On {
        /// An argument, of whose value the first element is the target.
        target: Arg,
        /// What is done with the target's own values as bindings.
        stmt: Box<Stmt>,
    },
    /// `head lists ;`
    Call {
        /// The rule.
        head: Arg,
        /// Its arguments, one to nine lists.
        lists: Vec<Vec<Arg>>,
    },
}

/// How a variable is set.
#[derive(Clone, Copy)]
pub enum Sign {
    /// `=` sets it.
    Set,
    /// `+=` adds to it.
    Add,
    /// `?=` sets it where it is empty.
    Fill,
}

/// What follows on an `if`.
#[cycle(statements)]
#[derive(Drop)]
pub enum Other {
    /// No `else`.
    Nothing,
    /// `else { .. }`
    Braces(Block),
    /// `else if ..`: a statement whose form is `If`.
    If(Box<Stmt>),
}

/// A case of a `switch`.
#[cycle(statements)]
#[derive(Drop)]
pub struct Case {
    /// The pattern that the value has to match.
    pub pattern: Text,
    /// What is done then.
    pub block: Block,
}

/// A parameter of a rule. The name `*` without a mark stands alone in the last list, and takes all further arguments.
#[derive(Drop)]
pub struct Param {
    /// The name that is bound to what the parameter takes.
    pub name: Text,
    /// `?`, `*` or `+`, if one of these stood after it.
    pub mark: Option<char>,
}

/// An argument.
#[cycle(arguments)]
#[derive(Drop)]
pub enum Arg {
    /// A word, which is read once here and expanded often.
    Word(Word),
    /// `[ .. ]`: the value of a call.
    Bracket(Box<Inner>),
}

/// What stands in brackets.
#[cycle(arguments)]
#[derive(Drop)]
pub enum Inner {
    /// `head lists`
    Call {
        /// The rule.
        head: Arg,
        /// Its arguments, one to nine lists.
        lists: Vec<Vec<Arg>>,
    },
    /// `on target inner`
    On {
        /// An argument, of whose value the first element is the target.
        target: Arg,
        /// What is called with the target's own values as bindings.
        inner: Box<Inner>,
    },
    /// `on target return value`
    OnReturn {
        /// An argument, of whose value the first element is the target.
        target: Arg,
        /// What is evaluated with the target's own values as bindings.
        value: Vec<Arg>,
    },
}

/// A condition.
#[derive(Drop)]
pub enum Expr {
    /// Two or more, with `||` between them; none is itself an `Or`.
    Or(Vec<Expr>),
    /// Two or more, with `&&` between them; none is itself an `Or` or an `And`.
    And(Vec<Expr>),
    /// `! expr`, of one that is neither an `Or` nor an `And`.
    Not(Box<Expr>),
    /// `( expr )`
    Group(Box<Expr>),
    /// An argument alone.
    Bare(Arg),
    /// `left = right`
    Equal(Arg, Arg),
    /// `left != right`
    Differ(Arg, Arg),
    /// `left in list`
    Within(Arg, Vec<Arg>),
}
