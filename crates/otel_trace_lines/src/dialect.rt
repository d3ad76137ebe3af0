//! The two grammars of lines. The plain one is fixed for whoever compares texts; the extended one has all of it, and
//! comments, some commands, the kinds of spans and the attributes of events more.

ghost use Rattle.std.specs.Prelude.{◌≡◌, IsTrue, ◌↔◌};
ghost use Rattle.otel_trace_lines.specs.Dialects.{HasWord, IsOfExtended, without_comment};

/// By which grammar lines are read.
#[derive(Clone, Copy, Debug, PartialEq, Eq)]
pub enum Dialect {
    Plain,
    /// With comments, lines that begin with `#`, and with the commands `int`, `bool`, `float`, `link`, `exception` and
    /// `forget`. A start may end in the kind of its span, and an event in an attribute.
    Extended,
}

impl Dialect {
    /// Whether it has the commands of a word, if any grammar has.
    pub(crate) fn has_word(self, word: &str) -> bool
        ensures { IsTrue result ↔ HasWord self word.now }
    {
        match self {
            Dialect::Plain => !is_of_extended(word),
            Dialect::Extended => true,
        }
    }

    /// What is read of a line: nothing of a comment.
    pub(crate) fn without_comment(self, line: &[u8]) -> &[u8]
        ensures { result.now ≡ without_comment self line.now }
    {
        match self {
            Dialect::Plain => line,
            Dialect::Extended => match line {
                [b'#', ..] => &[],
                _ => line,
            },
        }
    }
}

/// Whether only the extended grammar has the commands of a word.
fn is_of_extended(word: &str) -> bool
    ensures { IsTrue result ↔ IsOfExtended word.now }
{
    matches!(
        word,
        "int" | "bool" | "float" | "link" | "exception" | "forget"
    )
}
