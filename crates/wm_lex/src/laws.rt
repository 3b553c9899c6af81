// What the definition of the tokens means, in the words of the profile: facts about definitions alone, by which a reader can
// check them.
ghost use Rattle.std.specs.Prelude.{ℕ, List, ◌↔◌, IsTrue};
ghost use Rattle.wm_lex.specs.declared.definitions.Macro.{Macro};
ghost use Rattle.wm_lex.specs.declared.lexeme.Lexeme.{Lexeme};
ghost use Rattle.wm_lex.specs.Faults.{IsLeast, faults_of};
ghost use Rattle.wm_lex.specs.Lines.{tokens_of};
ghost use Rattle.wm_lex.specs.Reaching.{IsLoop};
ghost use Rattle.wm_lex.specs.Replacing.{loops};

/// It does nothing: its contract is a list of laws on the definition. The fault of texts is the least of all their faults, by
/// file, line and column, and at one place in the order of `LexFault`; tokens come where there is none. A lexeme loops exactly
/// where it is a macro that reaches itself, or reaches one that does, through the lists in force.
pub fn lex_laws()
    ensures least { (texts : List (List ℕ)) → IsLeast (faults_of texts) (tokens_of texts) }
    ensures loops { (macros : List Macro) (lexeme : Lexeme) → IsTrue (loops macros lexeme) ↔ IsLoop macros lexeme }
{}
