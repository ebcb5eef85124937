//! The lexer.

ghost use Rattle.jsx_lex.specs.Places.{EndsWith};

use crate::characters::{before, offset};
use crate::front::token;
use crate::gap::skip;
use crate::token::{Mode, Token};

/// Stands at a place of a text. A copy goes its own way from there.
#[derive(Clone, Copy)]
pub struct Lexer<'s> {
    text: &'s str,
    /// What is left of the text.
    rest: &'s str,
    /// Whether nothing was read before.
    is_first: bool,
    /// Whether a line ended in the gap that was settled.
    is_on_new_line: bool,
    ghost within: { EndsWith text.now rest.now },
}

/// What a lexer reads its next token from.
#[derive(Clone, Copy)]
struct Here<'s> {
    rest: &'s str,
    /// Whether only blanks and comments stand before it on its line.
    is_fresh: bool,
    has_new_line: bool,
}

impl<'s> Lexer<'s> {
    ghost use Rattle.std.specs.Prelude.{◌≡◌, ◌+◌, ◌↔◌, IfNone, IfSome, MatchOption, IsTrue, IsFalse, drop, length, true, false};
    ghost use Rattle.std.specs.Str.{chars, IsCharBoundary};
    ghost use Rattle.jsx_base.specs.Token.{Blank, Mode as Reads, is_cut, skip, skips};
    ghost use Rattle.jsx_lex.specs.declared.token.TokenKind.TheVariants as kind;
    ghost use Rattle.jsx_lex.specs.Kinds.{mode_of, kind_of, is_punctuator, spelling};
    ghost use Rattle.jsx_lex.specs.Places.{StandsAt};
    ghost use Rattle.jsx_lex.specs.Here.{IsHere};
    ghost use Rattle.jsx_lex.specs.Stand.{rest_of, offset_of, ahead, is_at_end, has_new_line, IsNothing, IsBehindGap};

    /// Stands at the first byte of the text.
    pub fn new(text: &'s str) -> Lexer<'s>
        ensures text { result.text.now ≡ text.now }
        ensures rest { result.rest.now ≡ text.now }
        ensures first { result.is_first ≡ true }
        ensures unsettled { result.is_on_new_line ≡ false }
    {
        Lexer {
            text,
            rest: text,
            is_first: true,
            is_on_new_line: false,
        }
    }

    /// The place, in bytes from the text's begin.
    pub fn at(&self) -> usize
        ensures place { result ≡ offset_of self.now }
        ensures boundary { IsCharBoundary self.now.text.now result }
        ensures rest { drop result self.now.text.now ≡ self.now.rest.now }
    {
        offset(self.text, self.rest)
    }

    /// What is left of the text.
    pub fn rest(&self) -> &'s str
        ensures { result.now ≡ self.now.rest.now }
    {
        self.rest
    }

    /// Goes over the gap before the next token, if it isn't cut, and keeps whether a line ends in it: the tokens of the
    /// modes that skip stay as they are, and each costs no more than its own length. `Piece` and `Children`, which don't
    /// skip, then read from behind the gap.
    pub fn settle(&mut self)
        ensures skipped { IsFalse (is_cut Blank (rest_of self.old)) → rest_of self.new ≡ skip (rest_of self.old) }
        ensures cut { IsTrue (is_cut Blank (rest_of self.old)) → self.new ≡ self.old }
        ensures same_token { (m : Reads) → IsTrue (skips m) → ahead m self.new ≡ ahead m self.old }
        ensures same_line { (m : Reads) → has_new_line m self.new ≡ has_new_line m self.old }
        ensures same_end { (m : Reads) → IsTrue (skips m) → is_at_end m self.new ≡ is_at_end m self.old }
        ensures text { self.new.text.now ≡ self.old.text.now }
    {
        let Some(gap) = skip(self.rest) else {
            return;
        };
        self.rest = gap.rest;
        self.is_on_new_line = self.is_on_new_line || gap.has_new_line;
    }

    /// What stands behind the gap that the mode skips. None where a comment in it isn't closed.
    #[inline]
    fn here(&self, mode: Mode) -> Option<Here<'s>>
        ensures here { MatchOption result (IsNothing (mode_of mode) self.now) (λ h. IsHere (mode_of mode) self.now h) }
        ensures ends { IfSome result (λ h. EndsWith self.now.text.now h.rest.now) }
    {
        if !mode.skips() {
            return Some(Here {
                rest: self.rest,
                is_fresh: false,
                has_new_line: false,
            });
        }
        let Some(gap) = skip(self.rest) else {
            return None;
        };
        let has_new_line = self.is_on_new_line || gap.has_new_line;
        Some(Here {
            rest: gap.rest,
            is_fresh: self.is_first || has_new_line,
            has_new_line,
        })
    }

    /// The next token, behind which the lexer then stands. None exactly where no token of the mode begins, and then the
    /// lexer stays where it is. Costs the lengths of the gap and of the token.
    pub fn next(&mut self, mode: Mode) -> Option<Token<'s>>
        ensures nothing { IfNone result (IsNothing (mode_of mode) self.old) }
        ensures stays { IfNone result (self.new ≡ self.old) }
        ensures kind { IfSome result (λ t. kind_of t.kind ≡ (ahead (mode_of mode) self.old).kind) }
        ensures end { IfSome result (λ t. (t.kind ≡ kind.End) ↔ IsTrue (is_at_end (mode_of mode) self.old)) }
        ensures raw { IfSome result (λ t. chars t.raw.now ≡ (ahead (mode_of mode) self.old).raw) }
        ensures spelling { IfSome result (λ t. IsTrue (is_punctuator t.kind) → chars t.raw.now ≡ spelling t.kind) }
        ensures rest { IfSome result (λ t. rest_of self.new ≡ (ahead (mode_of mode) self.old).rest) }
        ensures new_line { IfSome result (λ t. t.new_line ≡ has_new_line (mode_of mode) self.old) }
        ensures gap { IfSome result (λ t. IsBehindGap (mode_of mode) self.old t.at) }
        ensures at { IfSome result (λ t. StandsAt self.old.text.now t.raw.now t.at) }
        ensures behind { IfSome result (λ t. offset_of self.new ≡ t.at + length t.raw.now) }
        ensures read { IfSome result (λ t. self.new.is_first ≡ false) }
        ensures unsettled { IfSome result (λ t. self.new.is_on_new_line ≡ false) }
        ensures text { self.new.text.now ≡ self.old.text.now }
    {
        let Some(here) = self.here(mode) else {
            return None;
        };
        let Some(found) = token(mode, here.is_fresh, here.rest) else {
            return None;
        };
        let token = Token {
            kind: found.kind,
            raw: before(here.rest, found.rest),
            at: offset(self.text, here.rest),
            new_line: here.has_new_line,
        };
        self.rest = found.rest;
        self.is_first = false;
        self.is_on_new_line = false;
        Some(token)
    }
}
