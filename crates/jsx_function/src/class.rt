//! Classes and their members (ECMA-262 section 15.7).

ghost use Rattle.std.specs.Prelude.{◌≡◌, ◌<◌, ◌≤◌, IfOk, OnOk, IsTrue, map, suc, true};
ghost use Rattle.jsx_tree.specs.Kinds.{ClassExpr, function, list, none, part};
ghost use Rattle.jsx_tree.specs.Nonterminals as grammar;
ghost use Rattle.jsx_tree.specs.Grammar.{Part};
ghost use Rattle.jsx_tree.specs.StaticRules.{list_rule, members_rule};
ghost use Rattle.jsx_tree.specs.Spans.{no_tales, tale};
ghost use Rattle.jsx_tree.specs.Told.{told_expr, told_list, told_name, told_optional, told_prop};
ghost use Rattle.jsx_tree.specs.View.{forest, inside, optional_name, optional_of, view_expr, view_member};
ghost use Rattle.jsx_tree.specs.Walk.{one};
ghost use Rattle.jsx_tree.specs.Answers.{Barred, NoRow, Only, OnlyRow};
ghost use Rattle.jsx_tree.specs.Faults.{inner};
ghost use Rattle.jsx_make.specs.Members.{view_class_member};
ghost use Rattle.jsx_make.specs.NodeSpans.{expr_at};
ghost use Rattle.jsx_operand.specs.Around.{around_of};
ghost use Rattle.jsx_operand.specs.Answers.{Refused};
ghost use Rattle.jsx_operand.specs.Bodies.{ReadsBodies};
ghost use Rattle.jsx_operand.specs.Openings.{NoParts, OnlyParts};
ghost use Rattle.jsx_operand.specs.SoFar.{so_far};
ghost use Rattle.jsx_operand.specs.Spans.{IsPlaced, IsPlacedBehind, IsPlacedFront, IsPlacedRow, Spans};
ghost use Rattle.jsx_token.specs.Growths.{opening_sign, settled};
ghost use Rattle.jsx_token.specs.Here.{left, place_of};
ghost use Rattle.jsx_token.specs.Places.{begin_of, end_of};
ghost use Rattle.jsx_function.specs.Classes.{IsClassName, IsHeritage, NoClass, NoNamedClass, OnlyClass, OnlyNamedClass, class_name, class_parts, class_symbols, heritage, keep_members, members_row, members_symbols, named_class_parts, named_class_symbols, told_class, told_named_class};
ghost use Rattle.jsx_function.specs.Methods.{IsPlacedElement, NoElement, OnlyElement, begun_at, holder_at, is_classed, owner_at};
ghost use Rattle.jsx_function.specs.Within.{ReadsWithin};

use crate::function::boxed_name;
use crate::grammar::{MEMBER, Within};
use crate::method::{Home, PlacedKey, take_prefix};
use jsx_base::BytePos;
use jsx_make::make;
use jsx_operand::depth::within_leaf;
use jsx_operand::member::are_members;
use jsx_operand::parser::{bound_name, expect, give_up, span_to};
use jsx_operand::{Body, Context, Cover, ParseError};
use jsx_token::{Fixed, Lexer, Word};
use jsx_tree::{Expr, Ident, Prop};

/// What stands behind the name of a class: what it extends, if something, and its members.
#[derive(Drop)]
pub struct ClassCode<'s> {
    pub heritage: Option<Box<Expr<'s>>>,
    pub members: Vec<Box<Prop<'s>>>,
}

/// The same with a name before it, or none.
#[derive(Drop)]
pub struct NamedClass<'s> {
    pub name: Option<Ident<'s>>,
    pub code: ClassCode<'s>,
}

/// Where a member begins: at its `static`, or else at its first token.
fn begin(start: Option<BytePos>, first: BytePos) -> BytePos
    ensures { result ≡ begun_at start first }
{
    match start {
        Some(place) => place,
        None => first,
    }
}

/// The name of a class that may have none.
fn class_name<'s>(context: Context, lexer: &mut Lexer<'s>) -> Result<Option<Ident<'s>>, ParseError>
    ensures read { IfOk result (λ n. IsClassName (around_of context.entry.around) (place_of lexer.old) (optional_name n) (place_of lexer.new)) }
    ensures placed { IfOk result (λ n. IsPlacedFront class_name (told_name n) (optional_name n) lexer.old lexer.new) }
    ensures within { OnOk result (left lexer.new ≤ left lexer.old) }
    ensures refused { Refused context.entry.levels result (NoNamedClass (around_of context.entry.around) (place_of lexer.old)) }
{
    if lexer.is_before(Fixed::OpenBrace) {
        return Ok(None);
    }
    if lexer.is_before(Fixed::Word(Word::Extends)) {
        return Ok(None);
    }
    let name = bound_name(context.of_class(), lexer)?;
    Ok(Some(name))
}

impl<
    F: for<'c, 's> Fn(Context<'c>, &mut Lexer<'s>, u8, B) -> Result<Cover<'s>, ParseError>,
    B: Copy + for<'c, 's> Fn(Context<'c>, &mut Lexer<'s>) -> Result<Body<'s>, ParseError>,
> Within<F, B> {
    /// A member of a class behind its `static`, which begins at a place, or where there is none.
    fn class_element<'s>(
        &self,
        context: Context,
        lexer: &mut Lexer<'s>,
        start: Option<BytePos>,
        home: Home,
    ) -> Result<Box<Prop<'s>>, ParseError>
        requires nests { ReadsWithin (suc (left lexer.old)) (F.pre self.now.inner) (F.post self.now.inner) self.now.body }
        requires bodies { ReadsBodies (left lexer.old) (B.pre self.now.body) (B.post self.now.body) }
        requires classed { is_classed home ≡ true }
        ensures read { IfOk result (λ m. OnlyElement (holder_at home) (around_of context.entry.around) (view_member m.value (owner_at home)) (place_of lexer.old) (place_of lexer.new)) }
        ensures placed { IfOk result (λ m. IsPlacedElement (holder_at home) start lexer.old (told_prop m.value) (view_member m.value (owner_at home)) lexer.new) }
        ensures shorter { OnOk result (left lexer.new < left lexer.old) }
        ensures refused { Refused context.entry.levels result (λ e. NoElement (holder_at home) (around_of context.entry.around) (place_of lexer.old) (inner e)) }
    {
        if take_prefix(lexer, Word::Get) {
            let lo = begin(start, lexer.last_place());
            return Ok(self.getter_member(context, lexer, lo, home)?);
        }
        if take_prefix(lexer, Word::Set) {
            let lo = begin(start, lexer.last_place());
            return Ok(self.setter_member(context, lexer, lo, home)?);
        }
        let PlacedKey { key, place, levels } = self.key(context, lexer)?;
        Ok(self.class_keyed(
            Context { levels, ..context },
            lexer,
            begin(start, place),
            home,
            key,
        )?)
    }

    /// A member of a class: a method, a getter, a setter or a field, each `static` or not (ECMA-262 section 15.7).
    pub(crate) fn class_member<'s>(
        &self,
        context: Context,
        lexer: &mut Lexer<'s>,
    ) -> Result<Box<Prop<'s>>, ParseError>
        requires nests { ReadsWithin (suc (left lexer.old)) (F.pre self.now.inner) (F.post self.now.inner) self.now.body }
        requires bodies { ReadsBodies (left lexer.old) (B.pre self.now.body) (B.post self.now.body) }
        ensures read { IfOk result (λ m. Only so_far (around_of context.entry.around) (Part grammar.ClassMember) (place_of lexer.old) (one (view_class_member m.value)) (place_of lexer.new)) }
        ensures placed { IfOk result (λ m. IsPlaced (told_prop m.value) (view_class_member m.value) lexer.old lexer.new) }
        ensures shorter { OnOk result (left lexer.new < left lexer.old) }
        ensures refused { Refused context.entry.levels result (Barred so_far (around_of context.entry.around) (Part grammar.ClassMember) (place_of lexer.old)) }
    {
        if take_prefix(lexer, Word::Static) {
            let start = Some(lexer.last_place());
            within_leaf(context, lexer)?;
            return Ok(self.class_element(context, lexer, start, Home::Static)?);
        }
        Ok(self.class_element(context, lexer, None, Home::Instance)?)
    }

    /// The members of a class behind the `{`, with the `}`.
    pub(crate) fn class_members<'s>(
        &self,
        context: Context,
        lexer: &mut Lexer<'s>,
    ) -> Result<Vec<Box<Prop<'s>>>, ParseError>
        requires nests { ReadsWithin (suc (left lexer.old)) (F.pre self.now.inner) (F.post self.now.inner) self.now.body }
        requires bodies { ReadsBodies (left lexer.old) (B.pre self.now.body) (B.post self.now.body) }
        ensures read { IfOk result (λ v. OnlyRow so_far (around_of context.entry.around) members_row (place_of lexer.old) (part (list (forest (map (inside view_class_member) v.items))) none) (place_of lexer.new)) }
        ensures placed { IfOk result (λ v. IsPlacedRow members_symbols (tale (told_list (map (inside told_prop) v.items)) no_tales) (part (list (forest (map (inside view_class_member) v.items))) none) lexer.old lexer.new) }
        ensures shorter { OnOk result (left lexer.new < left lexer.old) }
        ensures ended { OnOk result (IsTrue (settled (place_of lexer.new))) }
        ensures refused { Refused context.entry.levels result (NoRow so_far (around_of context.entry.around) members_row (place_of lexer.old)) }
    {
        let mut all = Vec::new(context.alloc);
        'members: while !lexer.take(Fixed::CloseBrace) {
            let member = self.class_member(context, lexer)?;
            all.push(member)?;
        }
        Ok(all)
    }

    /// What a class extends, if something: ` extends a`.
    fn heritage<'s>(
        &self,
        context: Context,
        lexer: &mut Lexer<'s>,
    ) -> Result<Option<Box<Expr<'s>>>, ParseError>
        requires nests { ReadsWithin (suc (left lexer.old)) (F.pre self.now.inner) (F.post self.now.inner) self.now.body }
        requires bodies { ReadsBodies (left lexer.old) (B.pre self.now.body) (B.post self.now.body) }
        ensures read { IfOk result (λ h. IsHeritage (around_of context.entry.around) (place_of lexer.old) (optional_of view_expr h) (place_of lexer.new)) }
        ensures plain { IfOk result (λ h. list_rule members_rule (optional_of view_expr h) ≡ true) }
        ensures placed { IfOk result (λ h. IsPlacedFront heritage (told_optional told_expr h) (optional_of view_expr h) lexer.old lexer.new) }
        ensures within { OnOk result (left lexer.new ≤ left lexer.old) }
        ensures refused { Refused context.entry.levels result (NoClass (around_of context.entry.around) (place_of lexer.old)) }
    {
        if !lexer.take(Fixed::Word(Word::Extends)) {
            return Ok(None);
        }
        let extended = self.inner(context.of_class(), lexer, MEMBER)?;
        Ok(Some(extended))
    }

    /// What stands behind the name of a class: ` extends A { b() {} }` (ECMA-262 section 15.7). Its members have the names that they may have, and one constructor stands among them at most.
    pub fn class_code<'s>(
        &self,
        context: Context,
        lexer: &mut Lexer<'s>,
    ) -> Result<ClassCode<'s>, ParseError>
        requires nests { ReadsWithin (suc (left lexer.old)) (F.pre self.now.inner) (F.post self.now.inner) self.now.body }
        requires bodies { ReadsBodies (left lexer.old) (B.pre self.now.body) (B.post self.now.body) }
        ensures read { IfOk result (λ c. OnlyClass (around_of context.entry.around) (place_of lexer.old) (class_parts c) (place_of lexer.new)) }
        ensures kept { IfOk result (λ c. keep_members (class_parts c)) }
        ensures placed { IfOk result (λ c. IsPlacedRow class_symbols (told_class c) (class_parts c) lexer.old lexer.new) }
        ensures shorter { OnOk result (left lexer.new < left lexer.old) }
        ensures ended { OnOk result (IsTrue (settled (place_of lexer.new))) }
        ensures refused { Refused context.entry.levels result (NoClass (around_of context.entry.around) (place_of lexer.old)) }
    {
        let heritage = self.heritage(context, lexer)?;
        expect(context, lexer, Fixed::OpenBrace)?;
        let members = self.class_members(context.of_members(heritage.is_some()), lexer)?;
        if !are_members(&members) {
            return Err(give_up(lexer));
        }
        Ok(ClassCode { heritage, members })
    }

    /// The same with a name before it, or none.
    pub(crate) fn named_class<'s>(
        &self,
        context: Context,
        lexer: &mut Lexer<'s>,
    ) -> Result<NamedClass<'s>, ParseError>
        requires nests { ReadsWithin (suc (left lexer.old)) (F.pre self.now.inner) (F.post self.now.inner) self.now.body }
        requires bodies { ReadsBodies (left lexer.old) (B.pre self.now.body) (B.post self.now.body) }
        ensures read { IfOk result (λ c. OnlyNamedClass (around_of context.entry.around) (place_of lexer.old) (named_class_parts c) (place_of lexer.new)) }
        ensures kept { IfOk result (λ c. keep_members (named_class_parts c)) }
        ensures placed { IfOk result (λ c. IsPlacedRow named_class_symbols (told_named_class c) (named_class_parts c) lexer.old lexer.new) }
        ensures shorter { OnOk result (left lexer.new < left lexer.old) }
        ensures ended { OnOk result (IsTrue (settled (place_of lexer.new))) }
        ensures refused { Refused context.entry.levels result (NoNamedClass (around_of context.entry.around) (place_of lexer.old)) }
    {
        let name = class_name(context, lexer)?;
        let code = self.class_code(context, lexer)?;
        Ok(NamedClass { name, code })
    }

    /// A class behind its word: `class A extends B { c() {} }` (ECMA-262 section 15.7). It is kept out of the frame of what opens an
    /// expression.
    #[inline(never)]
    pub fn class_expression<'s>(
        &self,
        context: Context,
        lexer: &mut Lexer<'s>,
    ) -> Result<Box<Expr<'s>>, ParseError>
        requires nests { ReadsWithin (suc (left lexer.old)) (F.pre self.now.inner) (F.post self.now.inner) self.now.body }
        requires bodies { ReadsBodies (left lexer.old) (B.pre self.now.body) (B.post self.now.body) }
        ensures read { IfOk result (λ e. OnlyParts (around_of context.entry.around) (function ClassExpr) (view_expr e.value) (place_of lexer.old) (place_of lexer.new)) }
        ensures span { IfOk result (λ e. Spans (expr_at e.value) (begin_of lexer.old) (end_of lexer.new)) }
        ensures placed { IfOk result (λ e. IsPlacedBehind (opening_sign (function ClassExpr)) lexer.old (told_expr e.value) (view_expr e.value) lexer.new) }
        ensures shorter { OnOk result (left lexer.new < left lexer.old) }
        ensures ended { OnOk result (IsTrue (settled (place_of lexer.new))) }
        ensures refused { Refused context.entry.levels result (NoParts (around_of context.entry.around) (function ClassExpr) (place_of lexer.old)) }
    {
        let lo = lexer.last_place();
        let read = self.named_class(context, lexer)?;
        let span = span_to(lo, lexer);
        let name = boxed_name(context.alloc, read.name)?;
        let ClassCode { heritage, members } = read.code;
        Ok(make::class_expression(context.alloc, span, name, heritage, members)?)
    }
}
