//! The build text of the rules that run tests.
ghost use Rattle.std.specs.Prelude.{◌≡◌};
ghost use Rattle.b2_testing_text.specs.Texts.{testing_text};

/// The text.
static TEXT: &str = r#"module gcc { rule command { return $(COMMAND) ; } }
module testing
{
    rule compile-fail ( t + : s + : p * )
    {
        gcc.compile.c++ $(t) : $(s) : $(p) ;
        COMMAND on $(t) = [ gcc.command ] ;
    }
    actions pass { echo passed > "$(<)" }
    actions compile-fail { if $(COMMAND) $(OPTIONS) -D$(DEFINES) -I"$(DIRS)" -fsyntax-only "$(>)" ; then exit 1 ; else echo passed > "$(<)" ; fi }
    actions run { "./$(>)" > /dev/null 2>&1 && echo passed > "$(<)" }
    actions run-fail { if "./$(>)" > /dev/null 2>&1 ; then exit 1 ; else echo passed > "$(<)" ; fi }
}
"#;

/// The rules and actions that make the marker of a test, and the command of the compiler.
#[tactic(auto, unfolding(crate::specs::Texts::testing_text))]
pub fn testing_text() -> &'static [u8]
    ensures { result.now ≡ testing_text }
{
    TEXT.as_bytes()
}
