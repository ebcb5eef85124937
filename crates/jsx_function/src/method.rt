//! Methods, getters and setters, of objects and of classes, and fields (ECMA-262 sections 15.4 and 15.7).

ghost use Rattle.std.specs.Prelude.{◌≡◌, ◌<◌, ◌≤◌, IfOk, OnOk, IsFalse, IsTrue, suc, true};
ghost use Rattle.jsx_tree.specs.Kinds.{ComputedKey, function, none, part};
ghost use Rattle.jsx_tree.specs.Nonterminals as grammar;
ghost use Rattle.jsx_tree.specs.Grammar.{Part};
ghost use Rattle.jsx_tree.specs.StaticRules.{first_is_constructor, has_plain_params, is_word};
ghost use Rattle.jsx_tree.specs.Spans.{no_tales, tale};
ghost use Rattle.jsx_tree.specs.Told.{told_expr, told_key, told_optional, told_pat, told_prop};
ghost use Rattle.jsx_tree.specs.View.{holder_of, optional_of, view_expr, view_key, view_member, view_pat};
ghost use Rattle.jsx_tree.specs.Walk.{one, tail};
ghost use Rattle.jsx_tree.specs.Answers.{Barred, Built, NoRow, Only, OnlyRow};
ghost use Rattle.jsx_tree.specs.Faults.{inner};
ghost use Rattle.jsx_operand.specs.Around.{around_of, in_field, in_method};
ghost use Rattle.jsx_operand.specs.Answers.{Refused};
ghost use Rattle.jsx_operand.specs.Bodies.{ReadsBodies, told_of, view_body};
ghost use Rattle.jsx_operand.specs.SoFar.{so_far};
ghost use Rattle.jsx_operand.specs.Spans.{IsPlaced, IsPlacedBehind, IsPlacedRow};
ghost use Rattle.jsx_token.specs.Here.{left, place_of, sign_of};
ghost use Rattle.jsx_token.specs.Marks.{row_so_far};
ghost use Rattle.jsx_token.specs.declared.lexer.Fixed.TheVariants as fixed;
ghost use Rattle.jsx_token.specs.Places.{Takes, begin_of, next_of};
ghost use Rattle.jsx_function.specs.Functions.{NoOwnCode, code_symbols, own_row, parts_of, told_parts};
ghost use Rattle.jsx_function.specs.Methods.{BeginsKey, IsPlacedFrom, IsPlacedMember, IsPrefix, NoKey, NoPrefix, NoSetter, NoneFromKey, NoneKeyed, OnlyFromKey, OnlyKeyed, OnlySetterParam, field_row, field_symbols, getter_row, getter_symbols, getter_words, holder_at, holder_words, is_classed, is_field, is_getter, is_method, is_setter, keyed_in_class, owner_at, setter_parts, setter_row, setter_symbols, setter_words, suits_setter, told_setter};
ghost use Rattle.jsx_function.specs.Within.{ReadsWithin};

use crate::function::{FunctionCode, Parameter, suits};
use crate::grammar::Within;
use jsx_base::BytePos;
use jsx_make::make;
use jsx_operand::depth::{within, within_leaf};
use jsx_operand::member::is_constructor_key;
use jsx_operand::operand::{ASSIGNMENT, literal_key};
use jsx_operand::parser::{expect, give_up, semicolon, span_to};
use jsx_operand::pattern::is_compound;
use jsx_operand::{Body, Context, Cover, Labels, ParseError};
use jsx_token::{Ending, Fixed, Leaf, Lexer, Word};
use jsx_tree::{Expr, Key, Pat, Placement, Prop, Text};

/// Whose member it is: an object's, that of what a class makes, or the class's own.
#[derive(Clone, Copy)]
pub enum Home {
    Object,
    Instance,
    Static,
}

impl Home {
    /// The same as the tree has it.
    fn placement(self) -> Placement
        ensures { holder_of (owner_at self) result ≡ holder_at self }
    {
        match self {
            Home::Object => Placement::Instance,
            Home::Instance => Placement::Instance,
            Home::Static => Placement::Static,
        }
    }

    /// Whether a method with this key is the constructor of a class.
    fn constructs(self, key: &Key) -> bool
        ensures { result ≡ first_is_constructor (holder_at self) (part (view_key key.now) none) }
    {
        match self {
            Home::Object => false,
            Home::Instance => is_constructor_key(key),
            Home::Static => false,
        }
    }
}

/// A key, where it begins, and how deep what stands in its member may be.
#[derive(Drop)]
pub(crate) struct PlacedKey<'s> {
    pub(crate) key: Key<'s>,
    pub(crate) place: BytePos,
    pub(crate) levels: u32,
}

/// What stands behind the key of a setter.
#[derive(Drop)]
pub(crate) struct SetterCode<'s> {
    pub(crate) param: Box<Pat<'s>>,
    pub(crate) body: Body<'s>,
}

/// Whether a key comes next.
fn is_before_key(lexer: &Lexer) -> bool
    ensures there { IsTrue result → BeginsKey (place_of lexer.now) }
    ensures none { IsFalse result → NoKey (place_of lexer.now) }
{
    let mut ahead = lexer.fork();
    if ahead.is_before(Fixed::OpenBracket) {
        return true;
    }
    if let Some(_raw) = ahead.leaf(Leaf::Name) {
        return true;
    }
    if let Some(_raw) = ahead.leaf(Leaf::Str) {
        return true;
    }
    if let Some(_raw) = ahead.leaf(Leaf::Num) {
        return true;
    }
    if let Some(_raw) = ahead.leaf(Leaf::BigInt) {
        return true;
    }
    false
}

/// Takes a word that stands before a key: `get` of `get a() {}`, and not of `get() {}`.
pub fn take_prefix(lexer: &mut Lexer, word: Word) -> bool
    ensures taken { IsTrue result → IsPrefix (sign_of (fixed.Word word)) (place_of lexer.old) (place_of lexer.new) }
    ensures takes { IsTrue result → Takes (sign_of (fixed.Word word)) lexer.old lexer.new }
    ensures begins { IsTrue result → begin_of lexer.new ≡ next_of lexer.old }
    ensures shorter { IsTrue result → left lexer.new < left lexer.old }
    ensures missing { IsFalse result → NoPrefix (sign_of (fixed.Word word)) (place_of lexer.old) }
    ensures stays { IsFalse result → lexer.new ≡ lexer.old }
{
    let mut ahead = lexer.fork();
    if !ahead.take(Fixed::Word(word)) {
        return false;
    }
    if !is_before_key(&ahead) {
        return false;
    }
    *lexer = ahead;
    true
}

impl<
    F: for<'c, 's> Fn(Context<'c>, &mut Lexer<'s>, u8, B) -> Result<Cover<'s>, ParseError>,
    B: Copy + for<'c, 's> Fn(Context<'c>, &mut Lexer<'s>) -> Result<Body<'s>, ParseError>,
> Within<F, B> {
    /// A key that is computed, behind its `[`: `[a]` (ECMA-262 section 13.2.5).
    pub fn computed_key<'s>(
        &self,
        context: Context,
        lexer: &mut Lexer<'s>,
    ) -> Result<Key<'s>, ParseError>
        requires nests { ReadsWithin (suc (left lexer.old)) (F.pre self.now.inner) (F.post self.now.inner) self.now.body }
        requires bodies { ReadsBodies (left lexer.old) (B.pre self.now.body) (B.post self.now.body) }
        ensures read { IfOk result (λ k. Built so_far (around_of context.entry.around) (tail (row_so_far (function ComputedKey))) (function ComputedKey) (λ ts. ts) (view_key k) (place_of lexer.old) (place_of lexer.new)) }
        ensures placed { IfOk result (λ k. IsPlacedBehind (sign_of fixed.OpenBracket) lexer.old (told_key k) (view_key k) lexer.new) }
        ensures shorter { OnOk result (left lexer.new < left lexer.old) }
        ensures refused { Refused context.entry.levels result (NoRow so_far (around_of context.entry.around) (tail (row_so_far (function ComputedKey))) (place_of lexer.old)) }
    {
        let lo = lexer.last_place();
        let inner = self.inner(context, lexer, ASSIGNMENT)?;
        expect(context, lexer, Fixed::CloseBracket)?;
        Ok(make::computed_key(span_to(lo, lexer), inner))
    }

    /// The key of a member, which counts from its first token on: a name, a string, a number, or an expression in brackets.
    pub(crate) fn key<'s>(
        &self,
        context: Context,
        lexer: &mut Lexer<'s>,
    ) -> Result<PlacedKey<'s>, ParseError>
        requires nests { ReadsWithin (suc (left lexer.old)) (F.pre self.now.inner) (F.post self.now.inner) self.now.body }
        requires bodies { ReadsBodies (left lexer.old) (B.pre self.now.body) (B.post self.now.body) }
        ensures read { IfOk result (λ k. Only so_far (around_of context.entry.around) (Part grammar.Key) (place_of lexer.old) (one (view_key k.key)) (place_of lexer.new)) }
        ensures place { IfOk result (λ k. k.place.0 ≡ next_of lexer.old) }
        ensures levels { IfOk result (λ k. suc k.levels ≡ context.entry.levels) }
        ensures placed { IfOk result (λ k. IsPlaced (told_key k.key) (view_key k.key) lexer.old lexer.new) }
        ensures shorter { OnOk result (left lexer.new < left lexer.old) }
        ensures refused { Refused context.entry.levels result (λ e. Barred so_far (around_of context.entry.around) (Part grammar.Key) (place_of lexer.old) (inner e)) }
    {
        if lexer.take(Fixed::OpenBracket) {
            let place = lexer.last_place();
            let levels = within(context, lexer)?;
            let key = self.computed_key(Context { levels, ..context }, lexer)?;
            return Ok(PlacedKey { key, place, levels });
        }
        if let Some(raw) = lexer.leaf(Leaf::Name) {
            let place = lexer.last_place();
            let levels = within_leaf(context, lexer)?;
            let key = make::name_key(Text::Read(raw, place));
            return Ok(PlacedKey { key, place, levels });
        }
        let key = literal_key(context, lexer)?;
        let place = lexer.last_place();
        let levels = within_leaf(context, lexer)?;
        Ok(PlacedKey { key, place, levels })
    }

    /// What stands behind the key of a method, in what a method does, which may be the constructor of its class.
    fn method_code<'s>(
        &self,
        context: Context,
        lexer: &mut Lexer<'s>,
        is_constructor: bool,
    ) -> Result<FunctionCode<'s>, ParseError>
        requires nests { ReadsWithin (suc (left lexer.old)) (F.pre self.now.inner) (F.post self.now.inner) self.now.body }
        requires bodies { ReadsBodies (left lexer.old) (B.pre self.now.body) (B.post self.now.body) }
        ensures read { IfOk result (λ f. OnlyRow so_far (in_method is_constructor (around_of context.entry.around)) own_row (place_of lexer.old) (parts_of f) (place_of lexer.new)) }
        ensures plain { IfOk result (λ f. has_plain_params (parts_of f) ≡ true) }
        ensures placed { IfOk result (λ f. IsPlacedRow code_symbols (told_parts f) (parts_of f) lexer.old lexer.new) }
        ensures shorter { OnOk result (left lexer.new < left lexer.old) }
        ensures refused { Refused context.entry.levels result (NoOwnCode (in_method is_constructor (around_of context.entry.around)) (place_of lexer.old)) }
    {
        let labels = Labels::None;
        let code = self.own_code(context.of_method(&labels, is_constructor), lexer)?;
        Ok(code)
    }

    /// What stands behind the key of a getter, in what that does: `() { a }`.
    fn own_getter<'s>(
        &self,
        context: Context,
        lexer: &mut Lexer<'s>,
    ) -> Result<Body<'s>, ParseError>
        requires nests { ReadsWithin (suc (left lexer.old)) (F.pre self.now.inner) (F.post self.now.inner) self.now.body }
        requires bodies { ReadsBodies (left lexer.old) (B.pre self.now.body) (B.post self.now.body) }
        ensures read { IfOk result (λ b. OnlyRow so_far (around_of context.entry.around) getter_row (place_of lexer.old) (part (view_body b) none) (place_of lexer.new)) }
        ensures placed { IfOk result (λ b. IsPlacedRow getter_symbols (tale (told_of b) no_tales) (part (view_body b) none) lexer.old lexer.new) }
        ensures shorter { OnOk result (left lexer.new < left lexer.old) }
        ensures refused { Refused context.entry.levels result (NoRow so_far (around_of context.entry.around) getter_row (place_of lexer.old)) }
    {
        expect(context, lexer, Fixed::Open)?;
        expect(context, lexer, Fixed::Close)?;
        expect(context, lexer, Fixed::OpenBrace)?;
        Ok(self.body(context, lexer)?)
    }

    /// The same, whatever the getter stands in.
    fn getter_code<'s>(
        &self,
        context: Context,
        lexer: &mut Lexer<'s>,
        is_constructor: bool,
    ) -> Result<Body<'s>, ParseError>
        requires nests { ReadsWithin (suc (left lexer.old)) (F.pre self.now.inner) (F.post self.now.inner) self.now.body }
        requires bodies { ReadsBodies (left lexer.old) (B.pre self.now.body) (B.post self.now.body) }
        ensures read { IfOk result (λ b. OnlyRow so_far (in_method is_constructor (around_of context.entry.around)) getter_row (place_of lexer.old) (part (view_body b) none) (place_of lexer.new)) }
        ensures placed { IfOk result (λ b. IsPlacedRow getter_symbols (tale (told_of b) no_tales) (part (view_body b) none) lexer.old lexer.new) }
        ensures shorter { OnOk result (left lexer.new < left lexer.old) }
        ensures refused { Refused context.entry.levels result (NoRow so_far (in_method is_constructor (around_of context.entry.around)) getter_row (place_of lexer.old)) }
    {
        let labels = Labels::None;
        let body = self.own_getter(context.of_method(&labels, is_constructor), lexer)?;
        Ok(body)
    }

    /// The parameter of a setter: a pattern, or one with a default: `a`, `[a] = b`.
    fn setter_parameter<'s>(
        &self,
        context: Context,
        lexer: &mut Lexer<'s>,
    ) -> Result<Parameter<'s>, ParseError>
        requires nests { ReadsWithin (suc (left lexer.old)) (F.pre self.now.inner) (F.post self.now.inner) self.now.body }
        requires bodies { ReadsBodies (left lexer.old) (B.pre self.now.body) (B.post self.now.body) }
        ensures read { IfOk result (λ p. OnlySetterParam (around_of context.entry.around) (place_of lexer.old) (view_pat p.pattern.value) (place_of lexer.new)) }
        ensures simple { IfOk result (λ p. p.is_simple ≡ is_word (view_pat p.pattern.value)) }
        ensures placed { IfOk result (λ p. IsPlaced (told_pat p.pattern.value) (view_pat p.pattern.value) lexer.old lexer.new) }
        ensures shorter { OnOk result (left lexer.new < left lexer.old) }
        ensures refused { Refused context.entry.levels result (Barred so_far (around_of context.entry.around) (Part grammar.SetterParam) (place_of lexer.old)) }
    {
        let pattern = self.element(context, lexer)?;
        let is_simple = !is_compound(&pattern);
        Ok(Parameter { pattern, is_simple })
    }

    /// What stands behind the key of a setter, in what that does: `(a) { b }`.
    fn own_setter<'s>(
        &self,
        context: Context,
        lexer: &mut Lexer<'s>,
    ) -> Result<SetterCode<'s>, ParseError>
        requires nests { ReadsWithin (suc (left lexer.old)) (F.pre self.now.inner) (F.post self.now.inner) self.now.body }
        requires bodies { ReadsBodies (left lexer.old) (B.pre self.now.body) (B.post self.now.body) }
        ensures read { IfOk result (λ s. OnlyRow so_far (around_of context.entry.around) setter_row (place_of lexer.old) (setter_parts s) (place_of lexer.new)) }
        ensures suits { IfOk result (λ s. suits_setter (setter_parts s) ≡ true) }
        ensures placed { IfOk result (λ s. IsPlacedRow setter_symbols (told_setter s) (setter_parts s) lexer.old lexer.new) }
        ensures shorter { OnOk result (left lexer.new < left lexer.old) }
        ensures refused { Refused context.entry.levels result (NoSetter (around_of context.entry.around) (place_of lexer.old)) }
    {
        expect(context, lexer, Fixed::Open)?;
        let Parameter {
            pattern: param,
            is_simple,
        } = self.setter_parameter(context, lexer)?;
        expect(context, lexer, Fixed::Close)?;
        expect(context, lexer, Fixed::OpenBrace)?;
        let body = self.body(context, lexer)?;
        if !suits(is_simple, &body) {
            return Err(give_up(lexer));
        }
        Ok(SetterCode { param, body })
    }

    /// The same, whatever the setter stands in.
    fn setter_code<'s>(
        &self,
        context: Context,
        lexer: &mut Lexer<'s>,
        is_constructor: bool,
    ) -> Result<SetterCode<'s>, ParseError>
        requires nests { ReadsWithin (suc (left lexer.old)) (F.pre self.now.inner) (F.post self.now.inner) self.now.body }
        requires bodies { ReadsBodies (left lexer.old) (B.pre self.now.body) (B.post self.now.body) }
        ensures read { IfOk result (λ s. OnlyRow so_far (in_method is_constructor (around_of context.entry.around)) setter_row (place_of lexer.old) (setter_parts s) (place_of lexer.new)) }
        ensures suits { IfOk result (λ s. suits_setter (setter_parts s) ≡ true) }
        ensures placed { IfOk result (λ s. IsPlacedRow setter_symbols (told_setter s) (setter_parts s) lexer.old lexer.new) }
        ensures shorter { OnOk result (left lexer.new < left lexer.old) }
        ensures refused { Refused context.entry.levels result (NoSetter (in_method is_constructor (around_of context.entry.around)) (place_of lexer.old)) }
    {
        let labels = Labels::None;
        let code = self.own_setter(context.of_method(&labels, is_constructor), lexer)?;
        Ok(code)
    }

    /// A method behind its key; it begins at a place: `a(b) { c }` (ECMA-262 section 15.4).
    pub fn method<'s>(
        &self,
        context: Context,
        lexer: &mut Lexer<'s>,
        lo: BytePos,
        home: Home,
        key: Key<'s>,
    ) -> Result<Box<Prop<'s>>, ParseError>
        requires nests { ReadsWithin (suc (left lexer.old)) (F.pre self.now.inner) (F.post self.now.inner) self.now.body }
        requires bodies { ReadsBodies (left lexer.old) (B.pre self.now.body) (B.post self.now.body) }
        ensures read { IfOk result (λ m. OnlyKeyed (is_method (holder_at home)) (around_of context.entry.around) (view_key key.entry) (view_member m.value (owner_at home)) (place_of lexer.old) (place_of lexer.new)) }
        ensures placed { IfOk result (λ m. IsPlacedMember (holder_words (holder_at home)) lo.0 (told_key key.entry) (view_key key.entry) lexer.old (told_prop m.value) (view_member m.value (owner_at home)) lexer.new) }
        ensures shorter { OnOk result (left lexer.new < left lexer.old) }
        ensures refused { Refused context.entry.levels result (NoneKeyed (is_method (holder_at home)) (around_of context.entry.around) (view_key key.entry) (place_of lexer.old)) }
    {
        let FunctionCode { params, body } = self.method_code(
            context,
            lexer,
            home.constructs(&key),
        )?;
        let Body {
            directives,
            statements,
        } = body;
        let span = span_to(lo, lexer);
        Ok(make::method(
            context.alloc,
            span,
            home.placement(),
            key,
            params,
            directives,
            statements,
        )?)
    }

    /// A getter behind its key; it begins at a place: `get a() { b }` (ECMA-262 section 15.4).
    pub(crate) fn getter<'s>(
        &self,
        context: Context,
        lexer: &mut Lexer<'s>,
        lo: BytePos,
        home: Home,
        key: Key<'s>,
    ) -> Result<Box<Prop<'s>>, ParseError>
        requires nests { ReadsWithin (suc (left lexer.old)) (F.pre self.now.inner) (F.post self.now.inner) self.now.body }
        requires bodies { ReadsBodies (left lexer.old) (B.pre self.now.body) (B.post self.now.body) }
        ensures read { IfOk result (λ m. OnlyKeyed (is_getter (holder_at home)) (around_of context.entry.around) (view_key key.entry) (view_member m.value (owner_at home)) (place_of lexer.old) (place_of lexer.new)) }
        ensures placed { IfOk result (λ m. IsPlacedMember (getter_words (holder_at home)) lo.0 (told_key key.entry) (view_key key.entry) lexer.old (told_prop m.value) (view_member m.value (owner_at home)) lexer.new) }
        ensures shorter { OnOk result (left lexer.new < left lexer.old) }
        ensures refused { Refused context.entry.levels result (NoneKeyed (is_getter (holder_at home)) (around_of context.entry.around) (view_key key.entry) (place_of lexer.old)) }
    {
        let body = self.getter_code(context, lexer, home.constructs(&key))?;
        let Body {
            directives,
            statements,
        } = body;
        let span = span_to(lo, lexer);
        Ok(make::getter(
            context.alloc,
            span,
            home.placement(),
            key,
            directives,
            statements,
        )?)
    }

    /// A setter behind its key; it begins at a place: `set a(b) { c }` (ECMA-262 section 15.4).
    pub(crate) fn setter<'s>(
        &self,
        context: Context,
        lexer: &mut Lexer<'s>,
        lo: BytePos,
        home: Home,
        key: Key<'s>,
    ) -> Result<Box<Prop<'s>>, ParseError>
        requires nests { ReadsWithin (suc (left lexer.old)) (F.pre self.now.inner) (F.post self.now.inner) self.now.body }
        requires bodies { ReadsBodies (left lexer.old) (B.pre self.now.body) (B.post self.now.body) }
        ensures read { IfOk result (λ m. OnlyKeyed (is_setter (holder_at home)) (around_of context.entry.around) (view_key key.entry) (view_member m.value (owner_at home)) (place_of lexer.old) (place_of lexer.new)) }
        ensures placed { IfOk result (λ m. IsPlacedMember (setter_words (holder_at home)) lo.0 (told_key key.entry) (view_key key.entry) lexer.old (told_prop m.value) (view_member m.value (owner_at home)) lexer.new) }
        ensures shorter { OnOk result (left lexer.new < left lexer.old) }
        ensures refused { Refused context.entry.levels result (NoneKeyed (is_setter (holder_at home)) (around_of context.entry.around) (view_key key.entry) (place_of lexer.old)) }
    {
        let SetterCode { param, body } = self.setter_code(context, lexer, home.constructs(&key))?;
        let Body {
            directives,
            statements,
        } = body;
        let span = span_to(lo, lexer);
        Ok(make::setter(
            context.alloc,
            span,
            home.placement(),
            key,
            param,
            directives,
            statements,
        )?)
    }

    /// What stands behind the key of a field, with its semicolon, in what its value stands in: ` = a;`, or `;`. Behind `get`, `set` and
    /// `static` no line end ends it.
    fn own_field<'s>(
        &self,
        context: Context,
        lexer: &mut Lexer<'s>,
    ) -> Result<Option<Box<Expr<'s>>>, ParseError>
        requires nests { ReadsWithin (suc (left lexer.old)) (F.pre self.now.inner) (F.post self.now.inner) self.now.body }
        requires bodies { ReadsBodies (left lexer.old) (B.pre self.now.body) (B.post self.now.body) }
        ensures read { IfOk result (λ o. OnlyRow so_far (around_of context.entry.around) field_row (place_of lexer.old) (part (optional_of view_expr o) none) (place_of lexer.new)) }
        ensures placed { IfOk result (λ o. IsPlacedRow field_symbols (tale (told_optional told_expr o) no_tales) (part (optional_of view_expr o) none) lexer.old lexer.new) }
        ensures within { OnOk result (left lexer.new ≤ left lexer.old) }
        ensures refused { Refused context.entry.levels result (NoRow so_far (around_of context.entry.around) field_row (place_of lexer.old)) }
    {
        lexer.ends(Ending::Key);
        if !lexer.take(Fixed::Equals) {
            semicolon(context, lexer)?;
            return Ok(None);
        }
        let value = self.inner(context, lexer, ASSIGNMENT)?;
        semicolon(context, lexer)?;
        Ok(Some(value))
    }

    /// The same, whatever the field stands in.
    fn field_code<'s>(
        &self,
        context: Context,
        lexer: &mut Lexer<'s>,
    ) -> Result<Option<Box<Expr<'s>>>, ParseError>
        requires nests { ReadsWithin (suc (left lexer.old)) (F.pre self.now.inner) (F.post self.now.inner) self.now.body }
        requires bodies { ReadsBodies (left lexer.old) (B.pre self.now.body) (B.post self.now.body) }
        ensures read { IfOk result (λ o. OnlyRow so_far (in_field (around_of context.entry.around)) field_row (place_of lexer.old) (part (optional_of view_expr o) none) (place_of lexer.new)) }
        ensures placed { IfOk result (λ o. IsPlacedRow field_symbols (tale (told_optional told_expr o) no_tales) (part (optional_of view_expr o) none) lexer.old lexer.new) }
        ensures within { OnOk result (left lexer.new ≤ left lexer.old) }
        ensures refused { Refused context.entry.levels result (NoRow so_far (in_field (around_of context.entry.around)) field_row (place_of lexer.old)) }
    {
        let labels = Labels::None;
        let value = self.own_field(context.of_field(&labels), lexer)?;
        Ok(value)
    }

    /// A field behind its key; it begins at a place: `a = b;`, `a;` (ECMA-262 section 15.7).
    pub(crate) fn field<'s>(
        &self,
        context: Context,
        lexer: &mut Lexer<'s>,
        lo: BytePos,
        home: Home,
        key: Key<'s>,
    ) -> Result<Box<Prop<'s>>, ParseError>
        requires nests { ReadsWithin (suc (left lexer.old)) (F.pre self.now.inner) (F.post self.now.inner) self.now.body }
        requires bodies { ReadsBodies (left lexer.old) (B.pre self.now.body) (B.post self.now.body) }
        requires classed { is_classed home ≡ true }
        ensures read { IfOk result (λ m. OnlyKeyed (is_field (holder_at home)) (around_of context.entry.around) (view_key key.entry) (view_member m.value (owner_at home)) (place_of lexer.old) (place_of lexer.new)) }
        ensures placed { IfOk result (λ m. IsPlacedMember (holder_words (holder_at home)) lo.0 (told_key key.entry) (view_key key.entry) lexer.old (told_prop m.value) (view_member m.value (owner_at home)) lexer.new) }
        ensures within { OnOk result (left lexer.new ≤ left lexer.old) }
        ensures refused { Refused context.entry.levels result (NoneKeyed (is_field (holder_at home)) (around_of context.entry.around) (view_key key.entry) (place_of lexer.old)) }
    {
        let value = self.field_code(context, lexer)?;
        Ok(make::field(
            context.alloc,
            span_to(lo, lexer),
            home.placement(),
            key,
            value,
        )?)
    }

    /// A getter from its key on, behind its `get`, which counts; it begins at a place: `a() { b }`.
    pub fn getter_member<'s>(
        &self,
        context: Context,
        lexer: &mut Lexer<'s>,
        lo: BytePos,
        home: Home,
    ) -> Result<Box<Prop<'s>>, ParseError>
        requires nests { ReadsWithin (suc (left lexer.old)) (F.pre self.now.inner) (F.post self.now.inner) self.now.body }
        requires bodies { ReadsBodies (left lexer.old) (B.pre self.now.body) (B.post self.now.body) }
        ensures read { IfOk result (λ m. OnlyFromKey (is_getter (holder_at home)) (around_of context.entry.around) (view_member m.value (owner_at home)) (place_of lexer.old) (place_of lexer.new)) }
        ensures placed { IfOk result (λ m. IsPlacedFrom (getter_words (holder_at home)) lo.0 lexer.old (told_prop m.value) (view_member m.value (owner_at home)) lexer.new) }
        ensures shorter { OnOk result (left lexer.new < left lexer.old) }
        ensures refused { Refused context.entry.levels result (λ e. NoneFromKey (is_getter (holder_at home)) (around_of context.entry.around) (place_of lexer.old) (inner e)) }
    {
        within_leaf(context, lexer)?;
        let PlacedKey { key, levels, .. } = self.key(context, lexer)?;
        Ok(self.getter(Context { levels, ..context }, lexer, lo, home, key)?)
    }

    /// A setter from its key on, behind its `set`, which counts; it begins at a place: `a(b) { c }`.
    pub fn setter_member<'s>(
        &self,
        context: Context,
        lexer: &mut Lexer<'s>,
        lo: BytePos,
        home: Home,
    ) -> Result<Box<Prop<'s>>, ParseError>
        requires nests { ReadsWithin (suc (left lexer.old)) (F.pre self.now.inner) (F.post self.now.inner) self.now.body }
        requires bodies { ReadsBodies (left lexer.old) (B.pre self.now.body) (B.post self.now.body) }
        ensures read { IfOk result (λ m. OnlyFromKey (is_setter (holder_at home)) (around_of context.entry.around) (view_member m.value (owner_at home)) (place_of lexer.old) (place_of lexer.new)) }
        ensures placed { IfOk result (λ m. IsPlacedFrom (setter_words (holder_at home)) lo.0 lexer.old (told_prop m.value) (view_member m.value (owner_at home)) lexer.new) }
        ensures shorter { OnOk result (left lexer.new < left lexer.old) }
        ensures refused { Refused context.entry.levels result (λ e. NoneFromKey (is_setter (holder_at home)) (around_of context.entry.around) (place_of lexer.old) (inner e)) }
    {
        within_leaf(context, lexer)?;
        let PlacedKey { key, levels, .. } = self.key(context, lexer)?;
        Ok(self.setter(Context { levels, ..context }, lexer, lo, home, key)?)
    }

    /// What stands in a class behind its key: a method, or a field. It begins at a place.
    pub(crate) fn class_keyed<'s>(
        &self,
        context: Context,
        lexer: &mut Lexer<'s>,
        lo: BytePos,
        home: Home,
        key: Key<'s>,
    ) -> Result<Box<Prop<'s>>, ParseError>
        requires nests { ReadsWithin (suc (left lexer.old)) (F.pre self.now.inner) (F.post self.now.inner) self.now.body }
        requires bodies { ReadsBodies (left lexer.old) (B.pre self.now.body) (B.post self.now.body) }
        requires classed { is_classed home ≡ true }
        ensures read { IfOk result (λ m. OnlyKeyed (keyed_in_class (holder_at home)) (around_of context.entry.around) (view_key key.entry) (view_member m.value (owner_at home)) (place_of lexer.old) (place_of lexer.new)) }
        ensures placed { IfOk result (λ m. IsPlacedMember (holder_words (holder_at home)) lo.0 (told_key key.entry) (view_key key.entry) lexer.old (told_prop m.value) (view_member m.value (owner_at home)) lexer.new) }
        ensures within { OnOk result (left lexer.new ≤ left lexer.old) }
        ensures refused { Refused context.entry.levels result (NoneKeyed (keyed_in_class (holder_at home)) (around_of context.entry.around) (view_key key.entry) (place_of lexer.old)) }
    {
        if lexer.is_before(Fixed::Open) {
            return Ok(self.method(context, lexer, lo, home, key)?);
        }
        Ok(self.field(context, lexer, lo, home, key)?)
    }
}
