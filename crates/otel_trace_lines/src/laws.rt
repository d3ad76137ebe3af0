//! Laws of texts and their lines: each function does nothing, and its contract is the law.

ghost use Rattle.std.specs.Prelude.{◌≡◌, ◌++◌, List, ℕ, Some};
ghost use Rattle.std.specs.Io.{IsEmptyOrEndsWith};
ghost use Rattle.std.specs.Str.Lines.{lines as lines_of};
ghost use Rattle.otel_trace_lines.specs.Commands.{PlainCommand};
ghost use Rattle.otel_trace_lines.specs.Lines.{GoesOn, TextSpells};
ghost use Rattle.otel_trace_lines.specs.declared.dialect.Dialect.{Dialect};

/// A text that is cut after a line feed has the lines of its two parts.
pub fn lines_join()
    ensures { (first second : List ℕ) → IsEmptyOrEndsWith first 10
        → lines_of (first ++ second) ≡ lines_of first ++ lines_of second }
{}

/// A text that is cut after a line feed spells what its two parts spell, with its lines counted through. After a bad
/// line it may go on as it will.
pub fn texts_join()
    ensures joined { (dialect : Dialect) (first second : List ℕ) → IsEmptyOrEndsWith first 10
        → GoesOn dialect first second }
    ensures bad { (dialect : Dialect) (first second : List ℕ) (commands : List PlainCommand) (line : ℕ)
        → IsEmptyOrEndsWith first 10 → TextSpells dialect first commands (Some line)
        → TextSpells dialect (first ++ second) commands (Some line) }
{}
