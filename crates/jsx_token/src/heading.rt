//! What a statement begins with that begins as no expression does (ECMA-262 sections 14, 15.2 and 15.7).

ghost use Rattle.std.specs.Prelude.{◌≡◌, IsTrue, MatchOption};
ghost use Rattle.std.specs.Str.{chars};
ghost use Rattle.jsx_lex.specs.Kinds.{is_punctuator, spelling};
ghost use Rattle.jsx_token.specs.Headings.{NoneIsIt, first_bytes, first_word, is_heading, is_lexical, words};

use jsx_lex::{Token, TokenKind};
use jsx_tree::DeclareWord;

/// What a statement begins with that begins as no expression does.
#[derive(Clone, Copy)]
pub enum Heading {
    /// `;`
    Empty,
    /// `{ a; }`
    Block,
    /// `var a = 1;`
    Var(DeclareWord),
    /// `if (a) b; else c;`
    If,
    /// `do a; while (b);`
    Do,
    /// `while (a) b;`
    While,
    /// `for (a; b; c) d;`, `for (a in b) c;`, `for (a of b) c;`
    For,
    /// `switch (a) { case b: c; }`
    Switch,
    /// `continue;`
    Continue,
    /// `break;`
    Break,
    /// `return a;`
    Return,
    /// `throw a;`
    Throw,
    /// `try {} catch (a) {} finally {}`
    Try,
    /// `debugger;`
    Debugger,
    /// `function f(a) { b; }`
    Function,
    /// `class A extends B { c() {} }`
    Class,
}

impl Heading {
    /// Whether it begins a declaration that stands in lists alone, a lexical one, a function or a class: no body of `if`, of
    /// a loop or of a label.
    pub fn is_lexical(self) -> bool
        ensures { result ≡ is_lexical self }
    {
        match self {
            Heading::Var(DeclareWord::Let) => true,
            Heading::Var(DeclareWord::Const) => true,
            Heading::Function => true,
            Heading::Class => true,
            Heading::Var(DeclareWord::Var) => false,
            Heading::Empty => false,
            Heading::Block => false,
            Heading::If => false,
            Heading::Do => false,
            Heading::While => false,
            Heading::For => false,
            Heading::Switch => false,
            Heading::Continue => false,
            Heading::Break => false,
            Heading::Return => false,
            Heading::Throw => false,
            Heading::Try => false,
            Heading::Debugger => false,
        }
    }
}

/// What a word begins.
fn word(raw: &str) -> Option<Heading>
    ensures { result ≡ first_word words (chars raw.now) }
{
    reserved(raw)
}

/// The same, byte by byte.
fn reserved(raw: &str) -> Option<Heading>
    ensures { result ≡ first_bytes words raw.now }
{
    match raw {
        "var" => Some(Heading::Var(DeclareWord::Var)),
        "let" => Some(Heading::Var(DeclareWord::Let)),
        "const" => Some(Heading::Var(DeclareWord::Const)),
        "if" => Some(Heading::If),
        "do" => Some(Heading::Do),
        "while" => Some(Heading::While),
        "for" => Some(Heading::For),
        "switch" => Some(Heading::Switch),
        "continue" => Some(Heading::Continue),
        "break" => Some(Heading::Break),
        "throw" => Some(Heading::Throw),
        "try" => Some(Heading::Try),
        "debugger" => Some(Heading::Debugger),
        "return" => Some(Heading::Return),
        "function" => Some(Heading::Function),
        "class" => Some(Heading::Class),
        _ => None,
    }
}

/// What a token, where it comes next, begins.
#[inline(always)]
pub fn heading_of(token: &Token) -> Option<Heading>
    requires { IsTrue (is_punctuator token.now.kind) → chars token.now.raw.now ≡ spelling token.now.kind }
    ensures { MatchOption result (NoneIsIt token.now) (λ h. IsTrue (is_heading token.now h)) }
{
    match token.kind {
        TokenKind::Semicolon => Some(Heading::Empty),
        TokenKind::LeftBrace => Some(Heading::Block),
        TokenKind::IdentifierName => word(token.raw),
        _ => None,
    }
}
