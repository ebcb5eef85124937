//! Modes, kinds of token, and tokens.

ghost use Rattle.std.specs.Prelude.{◌≡◌};
ghost use Rattle.jsx_base.specs.Token.{skips};
ghost use Rattle.jsx_lex.specs.Kinds.{mode_of};

/// What is read.
#[derive(Clone, Copy, Debug, PartialEq, Eq)]
pub enum Mode {
    /// Code where an expression may begin: `/` begins a regular expression, `<` an element.
    Operand,
    /// Code elsewhere: `/` divides, `<` compares.
    Operator,
    /// A template behind the `}` of a substitution.
    Piece,
    /// A JSX tag.
    Tag,
    /// What stands between JSX tags.
    Children,
}

impl Mode {
    /// Whether blanks, line ends and comments are skipped before the token.
    #[inline]
    pub(crate) fn skips(self) -> bool
        ensures { result ≡ skips (mode_of self) }
    {
        match self {
            Mode::Operand | Mode::Operator | Mode::Tag => true,
            Mode::Piece | Mode::Children => false,
        }
    }
}

/// A kind of token, one for each punctuator.
#[derive(Clone, Copy, Debug, PartialEq, Eq)]
pub enum TokenKind {
    /// A name, reserved or not.
    IdentifierName,
    NumericLiteral,
    BigIntLiteral,
    StringLiteral,
    RegExpLiteral,
    /// A template without substitutions.
    NoSubstitution,
    /// From a backquote to the first `${`.
    TemplateHead,
    /// From the `}` of a substitution to the next `${`.
    TemplateMiddle,
    /// From the `}` of the last substitution to the backquote.
    TemplateTail,
    /// A name in a tag, which may have dashes.
    JsxName,
    /// A string in a tag, which has no escapes.
    JsxString,
    /// What stands between tags, up to a brace or an angle bracket.
    JsxText,
    /// `{`
    LeftBrace,
    /// `}`
    RightBrace,
    /// `(`
    LeftParen,
    /// `)`
    RightParen,
    /// `[`
    LeftBracket,
    /// `]`
    RightBracket,
    /// `;`
    Semicolon,
    /// `,`
    Comma,
    /// `<`
    Less,
    /// `>`
    Greater,
    /// `<=`
    LessEqual,
    /// `>=`
    GreaterEqual,
    /// `==`
    EqualEqual,
    /// `!=`
    NotEqual,
    /// `===`
    EqualEqualEqual,
    /// `!==`
    NotEqualEqual,
    /// `+`
    Plus,
    /// `-`
    Minus,
    /// `*`
    Star,
    /// `/`
    Slash,
    /// `%`
    Percent,
    /// `**`
    StarStar,
    /// `++`
    PlusPlus,
    /// `--`
    MinusMinus,
    /// `<<`
    LessLess,
    /// `>>`
    GreaterGreater,
    /// `>>>`
    GreaterGreaterGreater,
    /// `&`
    And,
    /// `|`
    Or,
    /// `^`
    Caret,
    /// `!`
    Not,
    /// `~`
    Tilde,
    /// `&&`
    AndAnd,
    /// `||`
    OrOr,
    /// `??`
    QuestionQuestion,
    /// `?`
    Question,
    /// `?.`
    QuestionDot,
    /// `:`
    Colon,
    /// `=`
    Equal,
    /// `+=`
    PlusEqual,
    /// `-=`
    MinusEqual,
    /// `*=`
    StarEqual,
    /// `/=`
    SlashEqual,
    /// `%=`
    PercentEqual,
    /// `**=`
    StarStarEqual,
    /// `<<=`
    LessLessEqual,
    /// `>>=`
    GreaterGreaterEqual,
    /// `>>>=`
    GreaterGreaterGreaterEqual,
    /// `&=`
    AndEqual,
    /// `|=`
    OrEqual,
    /// `^=`
    CaretEqual,
    /// `&&=`
    AndAndEqual,
    /// `||=`
    OrOrEqual,
    /// `??=`
    QuestionQuestionEqual,
    /// `=>`
    Arrow,
    /// `.`
    Dot,
    /// `...`
    Ellipsis,
    /// The end of the text.
    End,
}

/// A token of a text.
#[derive(Clone, Copy, Debug)]
pub struct Token<'s> {
    pub kind: TokenKind,
    /// Its characters, as they stand in the text.
    pub raw: &'s str,
    /// Where it begins, in bytes from the text's begin.
    pub at: usize,
    /// Whether a line ends in the gap before it.
    pub new_line: bool,
}
