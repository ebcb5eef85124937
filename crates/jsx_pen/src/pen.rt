//! The text under construction.

ghost use Rattle.std.specs.Prelude.{◌≡◌, ◌&&◌, IfOk, codes, false, OnOk, IsTrue, map, nat_eq, string_bytes, true};
ghost use Rattle.std.specs.Str.{chars};
ghost use Rattle.jsx_base.specs.Token.{first_is};
ghost use Rattle.jsx_tree.specs.View.{text_of};
ghost use Rattle.jsx_pen.specs.declared.pen.Gap.TheVariants as gap;
ghost use Rattle.jsx_pen.specs.Pen.{begin, blank, indented, ink, inked, is_due, is_opened, is_word, lined, outdented, padded, parted, piece, placed, portion_of, raw, turned, unindented};
ghost use Rattle.jsx_pen.specs.Ascii.{is_ascii};
ghost use Rattle.jsx_pen.specs.Steps.{stepped};

use crate::step::Step;
use jsx_base::BytePos;
use jsx_tree::Text;
use std::alloc::{AllocError, Global};
use std::marker::Model;
use std::mem;

/// About how long a stretch of text will be.
const STRETCH: usize = 128;

/// What is open before the next token.
#[derive(Clone, Copy)]
pub enum Gap {
    Settled,
    /// The lines of a pair of braces have begun, and nothing stands in them yet.
    Opened,
    /// A blank is due, if not another one follows.
    Padded,
    /// A `+` or `-` was written, which the next token mustn't join.
    Plus,
    Minus,
}

/// A text, and where the calls stand in the source whose first token comes behind it.
#[derive(Drop)]
pub struct Stretch {
    pub text: String,
    pub calls: Vec<BytePos>,
}

/// The text of a program's code under construction.
#[derive(Drop)]
pub struct Pen {
    alloc: Global,
    /// The text up to the last token that is the first of a call.
    done: Vec<Stretch>,
    /// The text from there on.
    text: String,
    depth: usize,
    gap: Gap,
    /// Where the calls stand in the source that begin with the next token.
    due: Vec<BytePos>,
}

/// A text, in stretches that end where a call begins, and what comes behind the last of these.
#[derive(Drop)]
pub struct Draft {
    pub stretches: Vec<Stretch>,
    pub rest: String,
}

impl Model for Pen {
    ghost use Rattle.std.specs.Prelude.{map, string_bytes};
    ghost use Rattle.std.specs.Str.{chars};
    ghost use Rattle.jsx_pen.specs.Pen.{State, at, portion_of};

    ghost Value = { State };

    ghost view = { λ p. at (map portion_of p.done.items) (chars (string_bytes p.text)) p.depth p.gap (map (λ b. b.0) p.due.items) };
}

impl Pen {
    /// A pen that has written nothing.
    ///
    /// # Errors
    ///
    /// `AllocError` for want of memory.
    #[tactic(auto, using(crate::proofs::Characters::fresh))]
    pub fn new(alloc: Global) -> Result<Self, AllocError>
        ensures { IfOk result (λ pen. pen ≡ begin) }
    {
        Ok(Pen {
            alloc,
            done: Vec::new(alloc),
            text: String::with_capacity(alloc, STRETCH)?,
            depth: 0,
            gap: Gap::Settled,
            due: Vec::new(alloc),
        })
    }

    /// What was written.
    pub fn finish(self) -> Draft
        ensures stretches { map portion_of result.stretches.items ≡ self.done }
        ensures rest { chars (string_bytes result.rest) ≡ self.written }
    {
        Draft {
            stretches: self.done,
            rest: self.text,
        }
    }

    /// Here begins a call.
    ///
    /// # Errors
    ///
    /// `AllocError` for want of memory.
    #[tactic(auto, using(crate::proofs::Writing::calling))]
    pub fn call(&mut self, at: BytePos) -> Result<(), AllocError>
        ensures { OnOk result (self.new ≡ placed self.old at.0) }
    {
        self.due.push(at)?;
        Ok(())
    }

    /// A text that needs no blank before it.
    ///
    /// # Errors
    ///
    /// `AllocError` for want of memory.
    #[tactic(auto, using(crate::proofs::Writing::inking))]
    pub fn put(&mut self, piece: &str) -> Result<(), AllocError>
        ensures { OnOk result (self.new ≡ raw self.old (chars piece.now)) }
    {
        self.gap = Gap::Settled;
        self.due.clear();
        self.text.push_str(piece)
    }

    /// A token.
    ///
    /// # Errors
    ///
    /// `AllocError` for want of memory.
    #[tactic(auto, using(crate::proofs::Writing::wording))]
    pub fn token(&mut self, piece: &str) -> Result<(), AllocError>
        ensures { OnOk result (self.new ≡ inked self.old (chars piece.now)) }
    {
        if self.is_first(piece) {
            self.first_token(piece)
        } else {
            self.plain_token(piece)
        }
    }

    /// Whether a call begins with this token.
    fn is_first(&self, piece: &str) -> bool
        ensures { result ≡ (is_word (chars piece.now) && is_due self.now.due) }
    {
        !self.due.is_empty() && is_word(piece)
    }

    /// A token that is the first of a call.
    #[tactic(auto, using(crate::proofs::Writing::wording))]
    fn first_token(&mut self, piece: &str) -> Result<(), AllocError>
        ensures { OnOk result (self.new ≡ ink true self.old (chars piece.now)) }
    {
        self.text.push_str(blank(self.gap, piece))?;
        let mut rest = String::with_capacity(self.alloc, STRETCH)?;
        rest.push_str(piece)?;
        let text = mem::replace(&mut self.text, rest);
        let calls = mem::replace(&mut self.due, Vec::new(self.alloc));
        self.done.push(Stretch { text, calls })?;
        self.gap = Gap::Settled;
        Ok(())
    }

    /// A token with no mark.
    #[tactic(auto, using(crate::proofs::Writing::wording))]
    fn plain_token(&mut self, piece: &str) -> Result<(), AllocError>
        ensures { OnOk result (self.new ≡ ink false self.old (chars piece.now)) }
    {
        match self.gap {
            Gap::Settled => self.put(piece),
            Gap::Opened | Gap::Padded | Gap::Plus | Gap::Minus => self.parted_token(piece),
        }
    }

    /// A token before which a blank may be due.
    #[tactic(auto, using(crate::proofs::Writing::wording))]
    fn parted_token(&mut self, piece: &str) -> Result<(), AllocError>
        ensures { OnOk result (self.new ≡ ink false self.old (chars piece.now)) }
    {
        let blank = blank(self.gap, piece);
        self.put(blank)?;
        self.put(piece)
    }

    /// Tokens that the printer writes itself, with what stands between them.
    #[tactic(auto, using(crate::proofs::Characters::chars_ascii))]
    fn sign(&mut self, sign: &str) -> Result<(), AllocError>
        requires { IsTrue (is_ascii sign.now) }
        ensures { OnOk result (self.new ≡ inked self.old sign.now) }
    {
        self.token(sign)
    }

    /// The same where a blank comes first.
    #[tactic(auto, using(crate::proofs::Characters::chars_ascii))]
    fn raw(&mut self, sign: &str) -> Result<(), AllocError>
        requires { IsTrue (is_ascii sign.now) }
        ensures { OnOk result (self.new ≡ raw self.old sign.now) }
    {
        self.put(sign)
    }

    /// A word that stands in the tree.
    ///
    /// # Errors
    ///
    /// `AllocError` for want of memory.
    pub fn word(&mut self, text: &Text<'_>) -> Result<(), AllocError>
        ensures { OnOk result (self.new ≡ inked self.old (text_of text.now)) }
    {
        self.token(piece(text))
    }

    /// A piece of a template behind the first one.
    ///
    /// # Errors
    ///
    /// `AllocError` for want of memory.
    #[tactic(auto, using(crate::proofs::Writing::wording))]
    pub fn piece(&mut self, text: &Text<'_>) -> Result<(), AllocError>
        ensures { OnOk result (self.new ≡ piece self.old (text_of text.now)) }
    {
        self.plain_token(piece(text))
    }

    /// A blank inside of braces.
    #[tactic(auto, using(crate::proofs::Writing::inking))]
    fn pad(&mut self)
        ensures { self.new ≡ padded self.old }
    {
        self.gap = turned(self.gap);
        self.due.clear();
    }

    /// A `+` or `-` before an operand.
    #[tactic(auto, using(crate::proofs::Writing::parting))]
    fn plus(&mut self) -> Result<(), AllocError>
        ensures { OnOk result (self.new ≡ parted (inked self.old (codes "+"))) }
    {
        self.sign("+")?;
        self.gap = Gap::Plus;
        Ok(())
    }

    #[tactic(auto, using(crate::proofs::Writing::parting))]
    fn minus(&mut self) -> Result<(), AllocError>
        ensures { OnOk result (self.new ≡ parted (inked self.old (codes "-"))) }
    {
        self.sign("-")?;
        self.gap = Gap::Minus;
        Ok(())
    }

    /// The begin of a line.
    #[tactic(auto, using(crate::proofs::Writing::lining))]
    fn line(&mut self) -> Result<(), AllocError>
        ensures { OnOk result (self.new ≡ lined self.old) }
    {
        match self.depth {
            0 => self.raw("\n"),
            1 => self.raw("\n    "),
            2 => self.raw("\n        "),
            3 => self.raw("\n            "),
            4 => self.raw("\n                "),
            5 => self.raw("\n                    "),
            6 => self.raw("\n                        "),
            _ => self.deep_line(),
        }
    }

    /// The begin of a line, level by level.
    #[tactic(auto, using(crate::proofs::Writing::lining))]
    fn deep_line(&mut self) -> Result<(), AllocError>
        ensures { OnOk result (self.new ≡ lined self.old) }
    {
        let depth = self.depth;
        self.raw("\n")?;
        for _level in 0..depth {
            self.raw("    ")?;
        }
        Ok(())
    }

    /// Four blanks more, from the next line on.
    #[tactic(auto, using(crate::proofs::Writing::inking))]
    fn indent(&mut self) -> Result<(), AllocError>
        ensures { OnOk result (self.new ≡ indented self.old) }
    {
        let Some(depth) = self.depth.checked_add(1) else {
            return Err(AllocError);
        };
        self.depth = depth;
        self.gap = Gap::Opened;
        self.due.clear();
        Ok(())
    }

    /// Four blanks fewer.
    #[tactic(auto, using(crate::proofs::Writing::inking))]
    fn unindent(&mut self)
        ensures { self.new ≡ unindented self.old }
    {
        self.depth = self.depth.saturating_sub(1);
        self.gap = Gap::Settled;
        self.due.clear();
    }

    /// What changes the state alone, or writes what it is always written as.
    ///
    /// # Errors
    ///
    /// `AllocError` for want of memory.
    #[tactic(auto, using(crate::proofs::Writing::inking))]
    pub fn step(&mut self, step: Step) -> Result<(), AllocError>
        ensures { OnOk result (self.new ≡ stepped step self.old) }
    {
        match step {
            Step::Pad => {
                self.pad();
                Ok(())
            }
            Step::Line => self.line(),
            Step::Indent => self.indent(),
            Step::Outdent => self.outdent(),
            Step::Unindent => {
                self.unindent();
                Ok(())
            }
            Step::Plus => self.plus(),
            Step::Minus => self.minus(),
        }
    }

    fn is_opened(&self) -> bool
        ensures { result ≡ is_opened self.now.gap }
    {
        match self.gap {
            Gap::Opened => true,
            Gap::Settled | Gap::Padded | Gap::Plus | Gap::Minus => false,
        }
    }

    /// The end of the lines of a pair of braces.
    #[tactic(auto, using(crate::proofs::Writing::outdenting))]
    fn outdent(&mut self) -> Result<(), AllocError>
        ensures { OnOk result (self.new ≡ outdented self.old) }
    {
        if self.is_opened() {
            self.unindent();
            Ok(())
        } else {
            self.unindent();
            self.line()
        }
    }
}

/// The blank before a token.
#[tactic(auto, using(crate::proofs::Characters::ascii))]
fn blank(gap: Gap, piece: &str) -> &'static str
    ensures { chars result.now ≡ blank gap (chars piece.now) }
{
    match gap {
        Gap::Settled | Gap::Opened => "",
        Gap::Padded => " ",
        Gap::Plus => plus_blank(piece),
        Gap::Minus => minus_blank(piece),
    }
}

#[tactic(auto, using(crate::proofs::Characters::ascii))]
fn plus_blank(piece: &str) -> &'static str
    ensures { chars result.now ≡ blank gap.Plus (chars piece.now) }
{
    if begins_with_plus(piece) { " " } else { "" }
}

#[tactic(auto, using(crate::proofs::Characters::ascii))]
fn minus_blank(piece: &str) -> &'static str
    ensures { chars result.now ≡ blank gap.Minus (chars piece.now) }
{
    if begins_with_minus(piece) { " " } else { "" }
}

fn turned(gap: Gap) -> Gap
    ensures { result ≡ turned gap }
{
    match gap {
        Gap::Padded => Gap::Settled,
        Gap::Settled | Gap::Opened | Gap::Plus | Gap::Minus => Gap::Padded,
    }
}

/// The characters of a text.
fn piece<'a>(text: &'a Text<'_>) -> &'a str
    ensures { chars result.now ≡ text_of text.now }
{
    match text {
        Text::Read(piece, _) => piece,
        Text::Made(piece, _) => piece.as_str(),
    }
}

fn is_word(piece: &str) -> bool
    ensures { result ≡ is_word (chars piece.now) }
{
    !matches!(piece.chars().next(), Some(';'))
}

fn begins_with_plus(piece: &str) -> bool
    ensures { result ≡ first_is (nat_eq 43) (chars piece.now) }
{
    matches!(piece.chars().next(), Some('+'))
}

fn begins_with_minus(piece: &str) -> bool
    ensures { result ≡ first_is (nat_eq 45) (chars piece.now) }
{
    matches!(piece.chars().next(), Some('-'))
}
