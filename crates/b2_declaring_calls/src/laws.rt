//! Laws of declarations.
ghost use Rattle.std.specs.Prelude.{◌≡◌, ◌++◌, [], ℕ, true, false, List, codes, replicate, IfSome};
ghost use Rattle.b2_base.specs.Normal.{IsUnder};
ghost use Rattle.b2_base.specs.Segments.{is_rooted, normal_of};
ghost use Rattle.b2_declaring_calls.specs.declared.declaration.Attributes.{Attributes};
ghost use Rattle.b2_declaring_calls.specs.declared.declaration.MainTarget.{MainTarget};
ghost use Rattle.b2_declaring_calls.specs.declared.declaration.Declaration.TheVariants.{Main, Project, UseProject};
ghost use Rattle.b2_declaring_calls.specs.Lists.{Texts};
ghost use Rattle.b2_declaring_calls.specs.Declarations.{shape_of, is_refused};
ghost use Rattle.b2_declaring_calls.specs.Laws.{Declares, kind_name};

/// Trailing empty lists change nothing, however many they are.
pub fn trailing_lists_change_nothing()
    ensures { (name : List ℕ) (lists : List Texts) (count : ℕ) → shape_of name (lists ++ replicate count []) ≡ shape_of name lists }
{}

/// A main target is declared by the rule that is named after its kind, and by no other.
pub fn targets_have_their_rules()
    ensures { (name : List ℕ) (lists : List Texts) (t : MainTarget) → Declares name lists (Main t) → name ≡ kind_name t.kind }
{}

/// The name of a main target that is not refused lies below its project's directory: it is relative, and nothing in it
/// leads upwards.
pub fn names_stay_below()
    ensures { (t : MainTarget) → is_refused (Main t) ≡ false → IsUnder (normal_of t.name) (codes ".") }
{}

/// An id is told from a directory by its first sign: whatever declares or uses one has it with its slash.
pub fn ids_begin_with_a_slash()
    ensures given { (name : List ℕ) (lists : List Texts) (a : Attributes) → Declares name lists (Project a) → IfSome a.id (λ id. is_rooted id ≡ true) }
    ensures used { (name : List ℕ) (lists : List Texts) (id dir : List ℕ) → Declares name lists (UseProject id dir) → is_rooted id ≡ true }
{}
