//! The tokens that the grammar so far asks for, one at a time from the front of the text.

ghost use Rattle.std.specs.Prelude.{◌≡◌, ◌+◌, ◌<◌, ◌≤◌, ◌^◌, ◌&&◌, ◌||◌, IsTrue, IsFalse, IfSome, IfNone, MatchOption, Some, false, true, length, not, nat_le, [], codes};
ghost use Rattle.std.specs.Str.{chars};
ghost use Rattle.jsx_base.specs.Token.{Text, IdentifierName, NoSubstitution, TemplateHead, Operator, breaks, same, is_kind};
ghost use Rattle.jsx_tree.specs.Signs.{AfterExpr, Semicolon};
ghost use Rattle.jsx_tree.specs.Reading.{Lost, forth, go_if, ended_at};
ghost use Rattle.jsx_tree.specs.Form.{is_leaf};
ghost use Rattle.jsx_token.specs.Marks.{grows_by_mark, is_quoted};
ghost use Rattle.jsx_token.specs.Stage.{has_kind};
ghost use Rattle.jsx_lex.specs.Kinds.{is_punctuator, mode_of as mode_read, kind_of, spelling};
ghost use Rattle.jsx_token.specs.declared.lexer.Fixed.TheVariants as fixed;
ghost use Rattle.jsx_token.specs.Here.{Here, place_of, ending_of, left, sign_of, leaf_kind, leaf_sign, piece_kind, piece_sign};
ghost use Rattle.jsx_token.specs.Growths.{NoOpening, callee, growth_kind, is_level, is_blocked, level_of_kind, mark, opening_kind, opening_sign, reaches, OnLine, settled};
ghost use Rattle.jsx_tree.specs.Walk.{is_found};
ghost use Rattle.jsx_token.specs.CaseEnds.{ends_case};
ghost use Rattle.jsx_token.specs.Headings.{NoHeading, heading_sign};
ghost use Rattle.jsx_token.specs.Seen.{IsNext, IsSeen, NoNext, here_of, is_it, next_token};
ghost use Rattle.jsx_token.specs.Places.{FailsNear, Takes, begin_of, end_of, next_of};
ghost use Rattle.jsx_token.specs.Spelled.{IsMarkOf, fixed_mode, fixed_kind, fixed_text, leaf_mode};

use crate::characters::{bytes, is_arrow};
use crate::gap::breaks;
use crate::growth::{Growth, growth_of};
use crate::heading::{Heading, heading_of};
use crate::opening::{Opening, opening_of};
use crate::seen::{Seen, serves};
use crate::semicolon::lacks;
use crate::word::Word;
use jsx_base::BytePos;
use jsx_lex::{Lexer as Tokens, Mode, Token, TokenKind};
use std::marker::Model;

/// What a missing semicolon would stand behind.
#[derive(Clone, Copy, Debug, PartialEq, Eq)]
pub enum Ending {
    Expr,
    /// A name or pattern that is declared.
    Binding,
    /// A word that a line end always ends, as `break`, with what it names.
    Word,
    /// A list of exports: `export { a }`.
    List,
    /// The key of a field: `class A { a }`.
    Key,
    /// The `)` of a `do`.
    Do,
    /// The block of an arrow function.
    Block,
}

/// A token with one spelling.
#[derive(Clone, Copy, Debug, PartialEq, Eq)]
pub enum Fixed {
    Word(Word),
    Equals,
    Semicolon,
    Open,
    Close,
    /// `[`
    OpenBracket,
    /// `]`
    CloseBracket,
    /// `{`
    OpenBrace,
    /// `}`
    CloseBrace,
    Comma,
    Colon,
    Dot,
    /// `...`
    Dots,
    /// `?.`
    QuestionDot,
    /// `*`
    Star,
    /// `=>`
    Arrow,
    /// `<` where an expression may begin.
    Less,
    /// `/` in a tag.
    TagSlash,
    /// `>` in a tag.
    TagGreater,
}

/// A token with a text of its own.
#[derive(Clone, Copy, Debug, PartialEq, Eq)]
pub enum Leaf {
    /// A name, reserved or not.
    Name,
    Num,
    BigInt,
    Str,
    RegExp,
    /// A template without substitutions.
    NoSubstitution,
    /// A template up to its first `${`.
    TemplateHead,
    JsxName,
}

/// A piece of a template behind a `}`. It begins there: no blank is skipped before it.
#[derive(Clone, Copy, Debug, PartialEq, Eq)]
pub enum Piece {
    /// Up to the next `${`.
    Middle,
    /// Up to the backquote.
    Tail,
}

impl Fixed {
    /// The mode in which it is read.
    #[inline(always)]
    fn mode(self) -> Mode
        ensures { mode_read result ≡ fixed_mode self }
    {
        match self {
            Fixed::Less => Mode::Operand,
            Fixed::TagSlash | Fixed::TagGreater => Mode::Tag,
            _ => Mode::Operator,
        }
    }

    /// The punctuator that it is, if it isn't a word.
    #[inline(always)]
    fn mark(self) -> Option<TokenKind>
        ensures { MatchOption result (fixed_kind self ≡ IdentifierName) (λ k. IsMarkOf k self) }
    {
        Some(match self {
            Fixed::Word(_) => return None,
            Fixed::Equals => TokenKind::Equal,
            Fixed::Semicolon => TokenKind::Semicolon,
            Fixed::Open => TokenKind::LeftParen,
            Fixed::Close => TokenKind::RightParen,
            Fixed::OpenBracket => TokenKind::LeftBracket,
            Fixed::CloseBracket => TokenKind::RightBracket,
            Fixed::OpenBrace => TokenKind::LeftBrace,
            Fixed::CloseBrace => TokenKind::RightBrace,
            Fixed::Comma => TokenKind::Comma,
            Fixed::Colon => TokenKind::Colon,
            Fixed::Dot => TokenKind::Dot,
            Fixed::Dots => TokenKind::Ellipsis,
            Fixed::QuestionDot => TokenKind::QuestionDot,
            Fixed::Star => TokenKind::Star,
            Fixed::Arrow => TokenKind::Arrow,
            Fixed::Less => TokenKind::Less,
            Fixed::TagSlash => TokenKind::Slash,
            Fixed::TagGreater => TokenKind::Greater,
        })
    }

    /// Whether the token is this one.
    #[inline(always)]
    fn is(self, token: &Token) -> bool
        requires { IsTrue (is_punctuator token.now.kind) → chars token.now.raw.now ≡ spelling token.now.kind }
        ensures { result ≡ is_it token.now (fixed_kind self) (fixed_text self) }
    {
        if let Fixed::Word(word) = self {
            return token.kind == TokenKind::IdentifierName && word.is(token.raw);
        }
        let Some(mark) = self.mark() else {
            return false;
        };
        token.kind == mark
    }
}

impl Leaf {
    /// The mode in which it is read.
    #[inline(always)]
    fn mode(self) -> Mode
        ensures { mode_read result ≡ leaf_mode self }
    {
        match self {
            Leaf::JsxName => Mode::Tag,
            Leaf::RegExp => Mode::Operand,
            Leaf::Name
            | Leaf::Num
            | Leaf::BigInt
            | Leaf::Str
            | Leaf::NoSubstitution
            | Leaf::TemplateHead => Mode::Operator,
        }
    }

    /// Whether the token is of this kind.
    #[inline(always)]
    fn is(self, token: &Token) -> bool
        ensures { result ≡ is_kind (kind_of token.now.kind) (leaf_kind self) }
    {
        let kind = match self {
            Leaf::Name => TokenKind::IdentifierName,
            Leaf::Num => TokenKind::NumericLiteral,
            Leaf::BigInt => TokenKind::BigIntLiteral,
            Leaf::Str => TokenKind::StringLiteral,
            Leaf::RegExp => TokenKind::RegExpLiteral,
            Leaf::NoSubstitution => TokenKind::NoSubstitution,
            Leaf::TemplateHead => TokenKind::TemplateHead,
            Leaf::JsxName => TokenKind::JsxName,
        };
        token.kind == kind
    }
}

impl Piece {
    /// Whether the token is of this kind.
    #[inline(always)]
    fn is(self, token: &Token) -> bool
        ensures { result ≡ is_kind (kind_of token.now.kind) (piece_kind self) }
    {
        let kind = match self {
            Piece::Middle => TokenKind::TemplateMiddle,
            Piece::Tail => TokenKind::TemplateTail,
        };
        token.kind == kind
    }
}

/// Whether a template begins with the token.
#[inline(always)]
fn begins_template(token: &Token) -> bool
    ensures { result ≡ (is_kind (kind_of token.now.kind) NoSubstitution || is_kind (kind_of token.now.kind) TemplateHead) }
{
    token.kind == TokenKind::NoSubstitution || token.kind == TokenKind::TemplateHead
}

/// Stands before the rest of a text, and keeps the token that was looked at.
#[derive(Drop)]
pub struct Lexer<'s> {
    /// The text of the token that was taken last, empty at first.
    last: &'s str,
    /// What a missing semicolon would stand behind.
    ending: Ending,
    /// Behind that token.
    here: Tokens<'s>,
    /// The token that comes next, once it was looked at.
    seen: Option<Seen<'s>>,
    /// The place of the whole text's end.
    end: u32,
    ghost is_first: { here.is_first ≡ same (chars last.now) [] },
    ghost is_unsettled: { here.is_on_new_line ≡ false },
    ghost is_seen: { IsSeen (here_of last.now ending here end) seen },
}

impl<'s> Model for Lexer<'s> {
    ghost use Rattle.jsx_token.specs.Here.{Here};
    ghost use Rattle.jsx_token.specs.Seen.{here_of};

    ghost Value = { Here };

    ghost view = { λ l. here_of l.last.now l.ending l.here l.end };
}

impl<'s> Lexer<'s> {
    /// Stands before the whole text, whose first byte has the place `start`.
    pub fn new(text: &'s str, start: BytePos) -> Lexer<'s>
        requires { start.0 + length text.now < 2 ^ 32 }
        ensures last { result.last ≡ [] }
        ensures rest { result.rest ≡ chars text.now }
        ensures ending { result.ending ≡ AfterExpr }
        ensures end { result.end ≡ start.0 + length text.now }
    {
        Lexer {
            last: "",
            ending: Ending::Expr,
            here: Tokens::new(text),
            seen: None,
            end: start.0 + text.len() as u32,
        }
    }

    /// Another one that stands where this one does, to look further ahead.
    pub fn fork(&self) -> Lexer<'s>
        ensures { result ≡ self.now }
    {
        Lexer {
            last: self.last,
            ending: self.ending,
            here: self.here,
            seen: self.seen,
            end: self.end,
        }
    }

    /// Reads the token that comes next in a mode, and keeps it.
    #[inline(always)]
    fn read(&mut self, mode: Mode) -> Option<Seen<'s>>
        ensures stays { self.new ≡ self.old }
        ensures found { MatchOption result (NoNext (mode_read mode) self.old) (λ s. IsNext (mode_read mode) self.old s.token s.behind) }
    {
        let mut behind = self.here;
        let Some(token) = behind.next(mode) else {
            return None;
        };
        let seen = Seen {
            mode,
            token,
            behind,
        };
        self.seen = Some(seen);
        Some(seen)
    }

    /// Looks at the token that comes next in a mode.
    #[inline(always)]
    fn look(&mut self, mode: Mode) -> Option<Seen<'s>>
        ensures stays { self.new ≡ self.old }
        ensures found { MatchOption result (NoNext (mode_read mode) self.old) (λ s. IsNext (mode_read mode) self.old s.token s.behind) }
    {
        if let Some(seen) = self.seen {
            if serves(&seen, mode) {
                return Some(seen);
            }
        }
        self.read(mode)
    }

    /// Goes behind a token that was looked at.
    #[inline(always)]
    fn step(&mut self, seen: &Seen<'s>)
        requires read { seen.now.behind.is_first ≡ false }
        requires unsettled { seen.now.behind.is_on_new_line ≡ false }
        requires full { same (chars seen.now.token.raw.now) [] ≡ false }
        ensures { self.new ≡ here_of seen.now.token.raw.now Ending.Expr seen.now.behind self.old.end }
    {
        self.last = seen.token.raw;
        self.ending = Ending::Expr;
        self.here = seen.behind;
        self.seen = None;
    }

    /// Says what a missing semicolon would stand behind.
    pub fn ends(&mut self, ending: Ending)
        ensures { self.new ≡ record self.old { ending = ending_of ending } }
    {
        self.ending = ending;
    }

    /// Whether nothing but blanks, line ends and whole comments is left.
    pub fn is_at_end(&mut self) -> bool
        ensures ends { result ≡ ended_at (place_of self.old) }
        ensures stays { self.new ≡ self.old }
    {
        match self.look(Mode::Operator) {
            Some(seen) => seen.token.kind == TokenKind::End,
            None => false,
        }
    }

    /// Whether the next token is `=>`.
    pub fn is_before_arrow(&mut self) -> bool
        ensures ahead { result ≡ same (next_token Operator self.old).raw (codes "=>") }
        ensures stays { self.new ≡ self.old }
    {
        let Some(seen) = self.look(Mode::Operator) else {
            return false;
        };
        is_arrow(seen.token.raw)
    }

    /// Whether the block of an arrow function stands before this place: nothing goes on with it but a comma.
    #[inline]
    pub fn is_behind_block(&self) -> bool
        ensures { result ≡ is_blocked (place_of self.now) }
    {
        matches!(self.ending, Ending::Block)
    }

    /// Whether a template comes next.
    pub fn is_before_template(&mut self) -> bool
        ensures ahead { result ≡ is_quoted (next_token Operator self.old) }
        ensures stays { self.new ≡ self.old }
    {
        let Some(seen) = self.look(Mode::Operator) else {
            return false;
        };
        begins_template(&seen.token)
    }

    /// Whether the next token is this one.
    pub fn is_before(&mut self, fixed: Fixed) -> bool
        ensures ahead { result ≡ is_found (forth (sign_of fixed) (place_of self.old)) }
        ensures stays { self.new ≡ self.old }
    {
        let Some(seen) = self.look(fixed.mode()) else {
            return false;
        };
        fixed.is(&seen.token)
    }

    /// Whether the next token ends the statements of a case: `case`, `default`, or `}`.
    pub fn ends_case(&mut self) -> bool
        ensures ahead { result ≡ ends_case (place_of self.old) }
        ensures stays { self.new ≡ self.old }
    {
        self.is_before(Fixed::CloseBrace)
            || self.is_before(Fixed::Word(Word::Case))
            || self.is_before(Fixed::Word(Word::Default))
    }

    /// Takes the next token if it is this one.
    #[inline]
    pub fn take(&mut self, fixed: Fixed) -> bool
        ensures taken { IsTrue result → place_of self.new ≡ forth (sign_of fixed) (place_of self.old) }
        ensures takes { IsTrue result → Takes (sign_of fixed) self.old self.new }
        ensures begins { IsTrue result → begin_of self.new ≡ next_of self.old }
        ensures shorter { IsTrue result → left self.new < left self.old }
        ensures missing { IsFalse result → forth (sign_of fixed) (place_of self.old) ≡ Lost }
        ensures stays { IsFalse result → self.new ≡ self.old }
    {
        let Some(seen) = self.look(fixed.mode()) else {
            return false;
        };
        if !fixed.is(&seen.token) {
            return false;
        }
        self.step(&seen);
        true
    }

    /// Whether a semicolon may be missing, where none comes next.
    fn may_lack(&mut self) -> bool
        requires { forth (sign_of fixed.Semicolon) (place_of self.old) ≡ Lost }
        ensures lacks { forth Semicolon (place_of self.old) ≡ go_if result (place_of self.old) }
        ensures stays { self.new ≡ self.old }
    {
        let Some(seen) = self.look(Mode::Operator) else {
            return lacks(self.ending, self.last, "", breaks(self.here.rest()));
        };
        match seen.token.kind {
            TokenKind::End => true,
            _ => lacks(self.ending, self.last, seen.token.raw, seen.token.new_line),
        }
    }

    /// Takes a semicolon, or nothing where it may be missing (ECMA-262 section 12.10).
    pub fn semicolon(&mut self) -> bool
        ensures taken { IsTrue result → place_of self.new ≡ forth Semicolon (place_of self.old) }
        ensures takes { IsTrue result → Takes Semicolon self.old self.new }
        ensures within { IsTrue result → left self.new ≤ left self.old }
        ensures missing { IsFalse result → forth Semicolon (place_of self.old) ≡ Lost }
        ensures stays { IsFalse result → self.new ≡ self.old }
    {
        if self.take(Fixed::Semicolon) {
            return true;
        }
        self.may_lack()
    }

    /// Whether no line ends before the next token.
    pub fn is_on_line(&self) -> bool
        ensures { result ≡ not (breaks self.now.rest) }
    {
        !breaks(self.here.rest())
    }

    /// Takes the next token if it is of this kind, and gives its text.
    #[inline]
    pub fn leaf(&mut self, leaf: Leaf) -> Option<&'s str>
        ensures taken { IfSome result (λ raw. place_of self.new ≡ forth (leaf_sign leaf (chars raw.now)) (place_of self.old)) }
        ensures takes { IfSome result (λ raw. Takes (leaf_sign leaf (chars raw.now)) self.old self.new) }
        ensures begins { IfSome result (λ raw. begin_of self.new ≡ next_of self.old) }
        ensures shorter { IfSome result (λ raw. left self.new < left self.old) }
        ensures whole { IfSome result (λ raw. IsTrue (is_leaf (leaf_kind leaf) (chars raw.now))) }
        ensures missing { IfNone result ((t : Text) → forth (leaf_sign leaf t) (place_of self.old) ≡ Lost) }
        ensures stays { IfNone result (self.new ≡ self.old) }
    {
        let Some(seen) = self.look(leaf.mode()) else {
            return None;
        };
        if !leaf.is(&seen.token) {
            return None;
        }
        self.step(&seen);
        Some(seen.token.raw)
    }

    /// Takes this piece of a template if it stands directly behind the token that was taken last, and gives its text.
    pub fn piece(&mut self, piece: Piece) -> Option<&'s str>
        ensures taken { IfSome result (λ raw. place_of self.new ≡ forth (piece_sign piece (chars raw.now)) (place_of self.old)) }
        ensures takes { IfSome result (λ raw. Takes (piece_sign piece (chars raw.now)) self.old self.new) }
        ensures begins { IfSome result (λ raw. begin_of self.new ≡ end_of self.old) }
        ensures shorter { IfSome result (λ raw. left self.new < left self.old) }
        ensures whole { IfSome result (λ raw. IsTrue (is_leaf (piece_kind piece) (chars raw.now))) }
        ensures missing { IfNone result ((t : Text) → forth (piece_sign piece t) (place_of self.old) ≡ Lost) }
        ensures stays { IfNone result (self.new ≡ self.old) }
    {
        let Some(seen) = self.look(Mode::Piece) else {
            return None;
        };
        if !piece.is(&seen.token) {
            return None;
        }
        self.step(&seen);
        Some(seen.token.raw)
    }

    /// Takes the next token if it is a sign that goes on with an expression of this level or more.
    pub fn growth(&mut self, level: u8) -> Option<Growth>
        requires { IsTrue (is_level level) }
        ensures taken { IfSome result (λ g. place_of self.new ≡ forth (mark (growth_kind g)) (place_of self.old)) }
        ensures takes { IfSome result (λ g. Takes (mark (growth_kind g)) self.old self.new) }
        ensures on_line { IfSome result (λ g. OnLine (growth_kind g) (place_of self.old)) }
        ensures ended { IfSome result (λ _. IsTrue (settled (place_of self.new))) }
        ensures reaches { IfSome result (λ g. IsTrue (nat_le level (level_of_kind (growth_kind g)))) }
        ensures shorter { IfSome result (λ g. left self.new < left self.old) }
        ensures missing { IfNone result (grows_by_mark level (breaks self.old.rest) (next_token Operator self.old) ≡ false) }
        ensures stays { IfNone result (self.new ≡ self.old) }
    {
        let Some(seen) = self.look(Mode::Operator) else {
            return None;
        };
        let Some(growth) = growth_of(&seen.token) else {
            return None;
        };
        if growth.level() < level {
            return None;
        }
        if growth.is_late(seen.token.new_line) {
            return None;
        }
        self.step(&seen);
        Some(growth)
    }

    /// Takes the next token if it is a sign that goes on with what `new` stands before.
    pub fn member_growth(&mut self) -> Option<Growth>
        ensures taken { IfSome result (λ g. place_of self.new ≡ forth (mark (growth_kind g)) (place_of self.old)) }
        ensures takes { IfSome result (λ g. Takes (mark (growth_kind g)) self.old self.new) }
        ensures on_line { IfSome result (λ g. OnLine (growth_kind g) (place_of self.old)) }
        ensures ended { IfSome result (λ _. IsTrue (settled (place_of self.new))) }
        ensures reaches { IfSome result (λ g. IsTrue (reaches callee (growth_kind g))) }
        ensures shorter { IfSome result (λ g. left self.new < left self.old) }
        ensures missing { IfNone result (grows_by_mark 100 (breaks self.old.rest) (next_token Operator self.old) ≡ false) }
        ensures stays { IfNone result (self.new ≡ self.old) }
    {
        let Some(seen) = self.look(Mode::Operator) else {
            return None;
        };
        let Some(growth) = growth_of(&seen.token) else {
            return None;
        };
        if !growth.is_member() {
            return None;
        }
        self.step(&seen);
        Some(growth)
    }

    /// Takes the next token if an expression begins with it that begins as no name, literal or element does.
    pub fn opening(&mut self) -> Option<Opening>
        ensures taken { IfSome result (λ g. place_of self.new ≡ forth (opening_sign (opening_kind g)) (place_of self.old)) }
        ensures takes { IfSome result (λ g. Takes (opening_sign (opening_kind g)) self.old self.new) }
        ensures begins { IfSome result (λ g. begin_of self.new ≡ next_of self.old) }
        ensures shorter { IfSome result (λ g. left self.new < left self.old) }
        ensures staged { IfSome result (λ g. IsTrue (has_kind (opening_kind g))) }
        ensures missing { IfNone result (NoOpening (place_of self.old)) }
        ensures stays { IfNone result (self.new ≡ self.old) }
    {
        let Some(seen) = self.look(Mode::Operator) else {
            return None;
        };
        let Some(opening) = opening_of(&seen.token) else {
            return None;
        };
        self.step(&seen);
        Some(opening)
    }

    /// Takes the next token if a statement begins with it that begins as no expression does.
    pub fn heading(&mut self) -> Option<Heading>
        ensures taken { IfSome result (λ h. place_of self.new ≡ forth (heading_sign h) (place_of self.old)) }
        ensures takes { IfSome result (λ h. Takes (heading_sign h) self.old self.new) }
        ensures begins { IfSome result (λ h. begin_of self.new ≡ next_of self.old) }
        ensures shorter { IfSome result (λ h. left self.new < left self.old) }
        ensures missing { IfNone result (NoHeading (place_of self.old)) }
        ensures stays { IfNone result (self.new ≡ self.old) }
    {
        let Some(seen) = self.look(Mode::Operator) else {
            return None;
        };
        let Some(heading) = heading_of(&seen.token) else {
            return None;
        };
        self.step(&seen);
        Some(heading)
    }

    /// The place behind the token that was taken last, in bytes.
    pub fn place(&self) -> BytePos
        ensures { result.0 ≡ end_of self.now }
    {
        let place = (self.end as usize).saturating_sub(bytes(self.here.rest()));
        BytePos(place as u32)
    }

    /// The place of the token that was taken last, in bytes.
    pub fn last_place(&self) -> BytePos
        ensures { result.0 ≡ begin_of self.now }
    {
        let place = (self.end as usize)
            .saturating_sub(bytes(self.here.rest()))
            .saturating_sub(bytes(self.last));
        BytePos(place as u32)
    }

    /// The place at which a text is given up that no tree reads: where the token begins that comes next, if it was looked at, or else the one that
    /// was taken last.
    pub fn failing_place(&self) -> BytePos
        ensures { FailsNear self.now result.0 }
    {
        let Some(seen) = self.seen else {
            return self.last_place();
        };
        if !seen.is_behind_gap() {
            return self.last_place();
        }
        let place = (self.end as usize)
            .saturating_sub(bytes(seen.behind.rest()))
            .saturating_sub(bytes(seen.token.raw));
        BytePos(place as u32)
    }
}

#[cfg(test)]
mod tests;
