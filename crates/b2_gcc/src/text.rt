//! The build text of the gcc toolset.
ghost use Rattle.std.specs.Prelude.{◌≡◌, IfOk};
ghost use Rattle.std.specs.Option.{option_copied};
ghost use Rattle.b2_gcc.specs.BuildText.{command_in, gcc_text};

use b2_base::fault::OutOfMemory;
use b2_base::text::Text;
use b2_base::token::TokenKind;
use jam_spelling::lexeme::Lexeme;
use jam_spelling::spelled;
use std::alloc::Global;

/// What stands before the command.
static BEFORE: &str = "module gcc\n{\n    COMMAND = ";

/// What stands after the command.
static AFTER: &str = r#" ;
    rule flags ( p * )
    {
        local f ;
        if <optimization>off in $(p) { f += -O0 ; }
        if <optimization>speed in $(p) { f += -O3 ; }
        if <optimization>space in $(p) { f += -Os ; }
        if <inlining>off in $(p) { f += -fno-inline ; }
        if <debug-symbols>on in $(p) { f += -g ; }
        if <link>shared in $(p) { f += -fPIC ; }
        if <threading>multi in $(p) { f += -pthread ; }
        if <warnings>all in $(p) { f += -Wall ; }
        if <warnings>off in $(p) { f += -w ; }
        return $(f) ;
    }
    rule compile ( t + : p * : own * )
    {
        OPTIONS on $(t) = [ flags $(p) ] $(own) ;
        DEFINES on $(t) = [ feature.get-values <define> : $(p) ] ;
        DIRS on $(t) = [ feature.get-values <include> : $(p) ] ;
    }
    rule compile.c++ ( t + : s + : p * )
    {
        compile $(t) : $(p) : [ feature.get-values <cxxflags> : $(p) ] ;
    }
    rule compile.c ( t + : s + : p * )
    {
        compile $(t) : $(p) : [ feature.get-values <cflags> : $(p) ] ;
    }
    rule link ( t + : s * : p * )
    {
        OPTIONS on $(t) = [ feature.get-values <linkflags> : $(p) ] ;
        if <threading>multi in $(p) { OPTIONS on $(t) += -pthread ; }
        if <runtime-link>static in $(p) { OPTIONS on $(t) += -static ; }
    }
    rule link.dll ( t + : s * : p * )
    {
        OPTIONS on $(t) = [ feature.get-values <linkflags> : $(p) ] ;
        if <threading>multi in $(p) { OPTIONS on $(t) += -pthread ; }
    }
    actions compile.c++ { $(COMMAND) $(OPTIONS) -D$(DEFINES) -I"$(DIRS)" -c -o "$(<)" "$(>)" }
    actions compile.c { $(COMMAND) -x c $(OPTIONS) -D$(DEFINES) -I"$(DIRS)" -c -o "$(<)" "$(>)" }
    actions link { $(COMMAND) -o "$(<)" "$(>)" $(OPTIONS) }
    actions link.dll { $(COMMAND) -shared -o "$(<)" "$(>)" $(OPTIONS) }
    actions archive { rm -f "$(<)" && ar rcD "$(<)" "$(>)" }
}
"#;

/// The command, or that of a toolset which names none.
fn command_text(alloc: Global, command: Option<&Text>) -> Result<Text, OutOfMemory>
    ensures { IfOk result (λ text. text ≡ command_in (option_copied command.entry)) }
{
    match command {
        Some(command) => command.copy(),
        None => Text::new(alloc, "g++"),
    }
}

/// The build text with a command, which is one word: where it would be read as something else, it stands in quotes.
/// Without one the command is `g++`.
pub fn gcc_text(alloc: Global, command: Option<&Text>) -> Result<Vec<u8>, OutOfMemory>
    ensures { IfOk result (λ bytes. bytes.items ≡ gcc_text (command_in (option_copied command.entry))) }
{
    let word = [Lexeme {
        kind: TokenKind::Word,
        text: command_text(alloc, command)?,
    }];
    let word = spelled(alloc, word.as_slice())?;
    let mut bytes = Vec::from_slice(alloc, BEFORE.as_bytes())?;
    bytes.extend_from_slice(word.as_slice())?;
    bytes.extend_from_slice(AFTER.as_bytes())?;
    Ok(bytes)
}
