//! Words that the grammar asks for.

ghost use Rattle.std.specs.Prelude.{◌≡◌};
ghost use Rattle.std.specs.Str.{chars};
ghost use Rattle.jsx_base.specs.Token.{same};
ghost use Rattle.jsx_token.specs.WordTexts.{word_text};

use crate::characters::is_same;

/// A word that begins an item or a statement, or stands in one or in an expression.
#[derive(Clone, Copy, Debug, PartialEq, Eq)]
pub enum Word {
    /// No reserved word.
    As,
    /// No reserved word.
    Async,
    Break,
    Case,
    Catch,
    Class,
    Const,
    Continue,
    Debugger,
    Default,
    Do,
    Else,
    Export,
    Extends,
    Finally,
    For,
    /// No reserved word.
    From,
    Function,
    /// No reserved word.
    Get,
    If,
    Import,
    In,
    Let,
    Meta,
    /// No reserved word.
    Of,
    Return,
    /// No reserved word.
    Set,
    Static,
    Super,
    Switch,
    Target,
    Throw,
    Try,
    Var,
    While,
}

impl Word {
    /// Its letters.
    #[inline(always)]
    fn text(self) -> &'static str
        ensures { result.now ≡ word_text self }
    {
        match self {
            Word::As => "as",
            Word::Async => "async",
            Word::Break => "break",
            Word::Case => "case",
            Word::Catch => "catch",
            Word::Class => "class",
            Word::Const => "const",
            Word::Continue => "continue",
            Word::Debugger => "debugger",
            Word::Default => "default",
            Word::Do => "do",
            Word::Else => "else",
            Word::Export => "export",
            Word::Extends => "extends",
            Word::Finally => "finally",
            Word::For => "for",
            Word::From => "from",
            Word::Function => "function",
            Word::Get => "get",
            Word::If => "if",
            Word::Import => "import",
            Word::In => "in",
            Word::Let => "let",
            Word::Meta => "meta",
            Word::Of => "of",
            Word::Return => "return",
            Word::Set => "set",
            Word::Static => "static",
            Word::Super => "super",
            Word::Switch => "switch",
            Word::Target => "target",
            Word::Throw => "throw",
            Word::Try => "try",
            Word::Var => "var",
            Word::While => "while",
        }
    }

    /// Whether a name is this word.
    #[inline(always)]
    pub fn is(self, name: &str) -> bool
        ensures { result ≡ same (chars name.now) (word_text self) }
    {
        is_same(name, self.text())
    }
}
