//! Patterns (ECMA-262 sections 13.15.5 and 14.3.3).

ghost use Rattle.std.specs.Prelude.{◌≡◌, IsTrue, OnOk, codes, map};
ghost use Rattle.jsx_pen.specs.Pen.{end_text, ends_void, inked, is_void, raw, rows, signs};
ghost use Rattle.jsx_plan.specs.Plan.{behind, job_of, outcome, pen_of, role_of, with_tree};
ghost use Rattle.jsx_pen.specs.Ascii.{is_ascii};
ghost use Rattle.jsx_tree.specs.Grammar.{vars};
ghost use Rattle.jsx_tree.specs.Kinds.{ArrayPat, Binds, Declarator, ForBinding, ForDeclaration, ObjectPat, ParenTarget, PropertyPat, RestPat, RestProperty, WithInit, function, list, node, none, part, statement};
ghost use Rattle.jsx_tree.specs.View.{forest_at, inside, name_of, optional_of, shorthand_of, word_of};
ghost use Rattle.jsx_plan.specs.Noted.{noted_expr, noted_key, noted_pattern};

use crate::holes::is_hole;
use crate::node::Role;
use crate::printer::Printer;
use jsx_pen::Step;
use jsx_tree::{DeclareWord, Expr, Ident, Key, Pat};
use std::alloc::AllocError;

impl<'a, 's> Printer<'a, 's> {
    /// A pattern, and what it is made of.
    #[tactic(auto, using(crate::proofs::Planning::opening))]
    pub fn open_pat(&mut self, pat: &'a Box<Pat<'s>>, role: Role) -> Result<(), AllocError>
        ensures { OnOk result (outcome (job_of self.new) ≡ with_tree (job_of self.old) (noted_pattern pat.now.value (role_of role))) }
    {
        match &**pat {
            Pat::Ident(_, name) => self.word(&name.text),
            Pat::Array(_, items) => self.array_pat(items, role),
            Pat::Object(_, props) => self.object_pat(props, role),
            Pat::Target(expr) => self.expr(expr),
            Pat::Paren(_, inner) => self.paren_pat(inner, role),
            Pat::Binding(_, target, value) => self.binding(target, value, role),
            Pat::WithInit(_, target, value) => self.with_init(target, value, role),
            Pat::Rest(_, target) => self.rest(target, role),
            Pat::Hole => Ok(()),
            Pat::Pair(_, key, value) => self.pair_pat(key, value, role),
            Pat::Shorthand(_, name, value) => self.shorthand_pat(name, value, role),
            Pat::RestProperty(_, name) => self.rest_property(name, role),
            Pat::Declaration(_, word, declarators) => self.declaration(*word, declarators),
            Pat::Head(_, word, target) => self.head(*word, target),
        }
    }

    #[tactic(auto, using(crate::proofs::Planning::arrays))]
    fn array_pat(&mut self, items: &'a [Box<Pat<'s>>], role: Role) -> Result<(), AllocError>
        ensures { OnOk result (outcome (job_of self.new) ≡ with_tree (job_of self.old) (node (function (ArrayPat (role_of role))) (part (list (forest_at (role_of role) (map (inside noted_pattern) items.now))) none))) }
    {
        self.sign(array_pat_end(items, role))?;
        self.pats(items, role)?;
        self.sign("[")
    }

    #[tactic(auto, using(crate::proofs::Planning::planning))]
    fn object_pat(&mut self, props: &'a [Box<Pat<'s>>], role: Role) -> Result<(), AllocError>
        ensures { OnOk result (outcome (job_of self.new) ≡ with_tree (job_of self.old) (node (function (ObjectPat (role_of role))) (part (list (forest_at (role_of role) (map (inside noted_pattern) props.now))) none))) }
    {
        self.sign("}")?;
        self.step(Step::Pad)?;
        self.pats(props, role)?;
        self.step(Step::Pad)?;
        self.sign("{")
    }

    #[tactic(auto, using(crate::proofs::Planning::planning))]
    fn paren_pat(&mut self, inner: &'a Box<Pat<'s>>, role: Role) -> Result<(), AllocError>
        ensures { OnOk result (outcome (job_of self.new) ≡ with_tree (job_of self.old) (node (function ParenTarget) (part (noted_pattern inner.now.value (role_of role)) none))) }
    {
        self.sign(")")?;
        self.pat(inner, role)?;
        self.sign("(")
    }

    #[tactic(auto, using(crate::proofs::Planning::planning))]
    fn binding(
        &mut self,
        target: &'a Box<Pat<'s>>,
        value: &'a Option<Box<Expr<'s>>>,
        role: Role,
    ) -> Result<(), AllocError>
        ensures { OnOk result (outcome (job_of self.new) ≡ with_tree (job_of self.old) (node (statement Declarator) (part (noted_pattern target.now.value (role_of role)) (part (optional_of noted_expr value.now) none)))) }
    {
        self.led_expr(" = ", value)?;
        self.pat(target, role)
    }

    #[tactic(auto, using(crate::proofs::Planning::planning))]
    fn with_init(
        &mut self,
        target: &'a Box<Pat<'s>>,
        value: &'a Box<Expr<'s>>,
        role: Role,
    ) -> Result<(), AllocError>
        ensures { OnOk result (outcome (job_of self.new) ≡ with_tree (job_of self.old) (node (function (WithInit (role_of role))) (part (noted_pattern target.now.value (role_of role)) (part (noted_expr value.now.value) none)))) }
    {
        self.expr(value)?;
        self.raw(" = ")?;
        self.pat(target, role)
    }

    #[tactic(auto, using(crate::proofs::Planning::planning))]
    fn rest(&mut self, target: &'a Box<Pat<'s>>, role: Role) -> Result<(), AllocError>
        ensures { OnOk result (outcome (job_of self.new) ≡ with_tree (job_of self.old) (node (function (RestPat (role_of role))) (part (noted_pattern target.now.value (role_of role)) none))) }
    {
        self.pat(target, role)?;
        self.sign("...")
    }

    #[tactic(auto, using(crate::proofs::Planning::planning))]
    fn pair_pat(
        &mut self,
        key: &'a Key<'s>,
        value: &'a Box<Pat<'s>>,
        role: Role,
    ) -> Result<(), AllocError>
        ensures { OnOk result (outcome (job_of self.new) ≡ with_tree (job_of self.old) (node (function (PropertyPat (role_of role))) (part (noted_key key.now) (part (noted_pattern value.now.value (role_of role)) none)))) }
    {
        self.pat(value, role)?;
        self.sign(": ")?;
        self.key(key)
    }

    #[tactic(auto, using(crate::proofs::Planning::planning))]
    fn shorthand_pat(
        &mut self,
        name: &'a Ident<'s>,
        value: &'a Option<Box<Expr<'s>>>,
        role: Role,
    ) -> Result<(), AllocError>
        ensures { OnOk result (outcome (job_of self.new) ≡ with_tree (job_of self.old) (shorthand_of noted_expr (role_of role) (name_of name.now) value.now)) }
    {
        self.led_expr(" = ", value)?;
        self.word(&name.text)
    }

    #[tactic(auto, using(crate::proofs::Planning::planning))]
    fn rest_property(&mut self, name: &'a Ident<'s>, role: Role) -> Result<(), AllocError>
        ensures { OnOk result (outcome (job_of self.new) ≡ with_tree (job_of self.old) (node (function (RestProperty (role_of role))) (part (name_of name.now) none))) }
    {
        self.word(&name.text)?;
        self.sign("...")
    }

    /// `var a = 1, b` as what a `for` begins with.
    #[tactic(auto, using(crate::proofs::Planning::planning))]
    fn declaration(
        &mut self,
        word: DeclareWord,
        declarators: &'a [Box<Pat<'s>>],
    ) -> Result<(), AllocError>
        ensures { OnOk result (outcome (job_of self.new) ≡ with_tree (job_of self.old) (node (statement (ForDeclaration (word_of word))) (part (list (forest_at Binds (map (inside noted_pattern) declarators.now))) none))) }
    {
        self.pats(declarators, Role::Binds)?;
        self.declare_word(word)
    }

    /// `var a` as the head of a loop.
    #[tactic(auto, using(crate::proofs::Planning::planning))]
    fn head(&mut self, word: DeclareWord, target: &'a Box<Pat<'s>>) -> Result<(), AllocError>
        ensures { OnOk result (outcome (job_of self.new) ≡ with_tree (job_of self.old) (node (statement (ForBinding (word_of word))) (part (noted_pattern target.now.value Binds) none))) }
    {
        self.pat(target, Role::Binds)?;
        self.declare_word(word)
    }

    /// The word of a declaration, and the blank behind it.
    #[tactic(auto, using(crate::proofs::Planning::planning))]
    pub fn declare_word(&mut self, word: DeclareWord) -> Result<(), AllocError>
        ensures { OnOk result (outcome (job_of self.new) ≡ behind (job_of self.old) (raw (inked (pen_of (job_of self.old)) (vars (word_of word))) (codes " "))) }
    {
        match word {
            DeclareWord::Var => self.sign("var "),
            DeclareWord::Let => self.sign("let "),
            DeclareWord::Const => self.sign("const "),
        }
    }
}

/// The end of an array: with a comma behind a last hole.
#[tactic(auto, using(crate::proofs::Planning::ending))]
fn array_pat_end(items: &[Box<Pat<'_>>], role: Role) -> &'static str
    ensures spelled { result.now ≡ end_text (rows (forest_at (role_of role) (map (inside noted_pattern) items.now))) }
    ensures ascii { IsTrue (is_ascii result.now) }
{
    if ends_in_gap(items, role) { ",]" } else { "]" }
}

/// Whether the last of these is a hole.
fn ends_in_gap(items: &[Box<Pat<'_>>], role: Role) -> bool
    ensures { result ≡ ends_void (rows (forest_at (role_of role) (map (inside noted_pattern) items.now))) }
{
    match items.last() {
        Some(item) => is_gap(item, role),
        None => false,
    }
}

#[tactic(auto, using(crate::proofs::Noted::voids))]
fn is_gap(pat: &Box<Pat<'_>>, role: Role) -> bool
    ensures { result ≡ is_void (signs (noted_pattern pat.now.value (role_of role))) }
{
    match &**pat {
        Pat::Hole => true,
        Pat::Target(expr) => is_hole(expr),
        Pat::Ident(_, _) | Pat::Array(_, _) | Pat::Object(_, _) | Pat::Paren(_, _) => false,
        Pat::Binding(_, _, _) | Pat::WithInit(_, _, _) | Pat::Rest(_, _) | Pat::Pair(_, _, _) =>
            false,
        Pat::Shorthand(_, _, _) | Pat::RestProperty(_, _) => false,
        Pat::Declaration(_, _, _) | Pat::Head(_, _, _) => false,
    }
}
