//! The makers of statements and of what stands in them.

ghost use Rattle.std.specs.Prelude.{◌≡◌, [], ◌∷◌, IfOk, map};
ghost use Rattle.jsx_tree.specs.Kinds.{Role, Block, Var, Declarator, Empty, If, Do, While, Continue, Break, Label, Throw, Debugger, Assigns, ExprStmt, statement, expression, node, list, none, part, For, ForDeclaration, Switch, Try, Catch, Binds, ForIn, ForOf, ForBinding};
ghost use Rattle.jsx_tree.specs.View.{word, name_of, word_of, inside, forest, optional_name, optional_of, view_expr, view_pattern, view_pat, view_stmt, optional_at_of, clause_of, view_control, view_target};
ghost use Rattle.jsx_tree.specs.Told.{told_list, told_name, told_optional, told_text, told_node, told_expr, told_pat, told_stmt, led_by, told_control};
ghost use Rattle.jsx_make.specs.NodeSpans.{pat_at, stmt_at};

use crate::make::boxed;
use jsx_base::Span;
use jsx_tree::{Control, DeclareWord, Expr, Ident, Pat, Stmt};
use std::alloc::{AllocError, Global};

/// A declarator: `a`, or `a = 1`.
pub fn declarator<'s>(
    alloc: Global,
    at: Option<Span>,
    pattern: Box<Pat<'s>>,
    value: Option<Box<Expr<'s>>>,
) -> Result<Box<Pat<'s>>, AllocError>
    ensures view { IfOk result (λ p. (r : Role) → view_pattern p.value r ≡ node (statement Declarator) (part (view_pattern pattern.entry.value r) (part (optional_of view_expr value.entry) none))) }
    ensures told { IfOk result (λ p. told_pat p.value ≡ told_node at (told_pat pattern.entry.value ∷ told_optional told_expr value.entry ∷ [])) }
    ensures span { IfOk result (λ p. pat_at p.value ≡ at) }
{
    boxed(alloc, Pat::Binding(at, pattern, value))
}

/// `const a = 1, b = 2;`, each declarator a `Pat::Binding`.
pub fn variables<'s>(
    alloc: Global,
    at: Option<Span>,
    word: DeclareWord,
    declarators: Vec<Box<Pat<'s>>>,
) -> Result<Box<Stmt<'s>>, AllocError>
    ensures view { IfOk result (λ s. view_stmt s.value ≡ node (statement (Var (word_of word))) (part (list (forest (map (inside view_pat) declarators.entry.items))) none)) }
    ensures told { IfOk result (λ s. told_stmt s.value ≡ told_node at (told_list (map (inside told_pat) declarators.entry.items) ∷ [])) }
    ensures span { IfOk result (λ s. stmt_at s.value ≡ at) }
{
    boxed(alloc, Stmt::Var(at, word, declarators))
}

/// `a;`
pub fn expression_statement<'s>(
    alloc: Global,
    at: Option<Span>,
    expression: Box<Expr<'s>>,
) -> Result<Box<Stmt<'s>>, AllocError>
    ensures view { IfOk result (λ s. view_stmt s.value ≡ node (statement ExprStmt) (part (view_expr expression.entry.value) none)) }
    ensures told { IfOk result (λ s. told_stmt s.value ≡ told_node at (told_expr expression.entry.value ∷ [])) }
    ensures span { IfOk result (λ s. stmt_at s.value ≡ at) }
{
    boxed(alloc, Stmt::Expr(at, expression))
}

/// `;`
pub fn empty_statement<'s>(alloc: Global, at: Option<Span>) -> Result<Box<Stmt<'s>>, AllocError>
    ensures view { IfOk result (λ s. view_stmt s.value ≡ node (statement Empty) none) }
    ensures told { IfOk result (λ s. told_stmt s.value ≡ told_node at []) }
    ensures span { IfOk result (λ s. stmt_at s.value ≡ at) }
{
    boxed(alloc, Stmt::Empty(at))
}

/// `{ a; }`
pub fn block<'s>(
    alloc: Global,
    at: Option<Span>,
    body: Vec<Box<Stmt<'s>>>,
) -> Result<Box<Stmt<'s>>, AllocError>
    ensures view { IfOk result (λ s. view_stmt s.value ≡ node (statement Block) (part (list (forest (map (inside view_stmt) body.entry.items))) none)) }
    ensures told { IfOk result (λ s. told_stmt s.value ≡ told_node at (told_list (map (inside told_stmt) body.entry.items) ∷ [])) }
    ensures span { IfOk result (λ s. stmt_at s.value ≡ at) }
{
    boxed(alloc, Stmt::Block(at, body))
}

/// `continue a;`
pub fn continue_statement<'s>(
    alloc: Global,
    at: Option<Span>,
    label: Option<Ident<'s>>,
) -> Result<Box<Stmt<'s>>, AllocError>
    ensures view { IfOk result (λ s. view_stmt s.value ≡ node (statement Continue) (part (optional_name label.entry) none)) }
    ensures told { IfOk result (λ s. told_stmt s.value ≡ told_node at (told_name label.entry ∷ [])) }
    ensures span { IfOk result (λ s. stmt_at s.value ≡ at) }
{
    boxed(alloc, Stmt::Continue(at, label))
}

/// `break a;`
pub fn break_statement<'s>(
    alloc: Global,
    at: Option<Span>,
    label: Option<Ident<'s>>,
) -> Result<Box<Stmt<'s>>, AllocError>
    ensures view { IfOk result (λ s. view_stmt s.value ≡ node (statement Break) (part (optional_name label.entry) none)) }
    ensures told { IfOk result (λ s. told_stmt s.value ≡ told_node at (told_name label.entry ∷ [])) }
    ensures span { IfOk result (λ s. stmt_at s.value ≡ at) }
{
    boxed(alloc, Stmt::Break(at, label))
}

/// `a: b;`
pub fn label_statement<'s>(
    alloc: Global,
    at: Option<Span>,
    label: Ident<'s>,
    body: Box<Stmt<'s>>,
) -> Result<Box<Stmt<'s>>, AllocError>
    ensures view { IfOk result (λ s. view_stmt s.value ≡ node (statement Label) (part (name_of label.entry) (part (view_stmt body.entry.value) none))) }
    ensures told { IfOk result (λ s. told_stmt s.value ≡ told_node at (told_text label.entry.text ∷ told_stmt body.entry.value ∷ [])) }
    ensures span { IfOk result (λ s. stmt_at s.value ≡ at) }
{
    boxed(alloc, Stmt::Control(Control::Label(at, label, body)))
}

/// `throw a;`
pub fn throw_statement<'s>(
    alloc: Global,
    at: Option<Span>,
    value: Box<Expr<'s>>,
) -> Result<Box<Stmt<'s>>, AllocError>
    ensures view { IfOk result (λ s. view_stmt s.value ≡ node (statement Throw) (part (view_expr value.entry.value) none)) }
    ensures told { IfOk result (λ s. told_stmt s.value ≡ told_node at (told_expr value.entry.value ∷ [])) }
    ensures span { IfOk result (λ s. stmt_at s.value ≡ at) }
{
    boxed(alloc, Stmt::Throw(at, value))
}

/// `debugger;`
pub fn debugger_statement<'s>(alloc: Global, at: Option<Span>) -> Result<Box<Stmt<'s>>, AllocError>
    ensures view { IfOk result (λ s. view_stmt s.value ≡ node (statement Debugger) none) }
    ensures told { IfOk result (λ s. told_stmt s.value ≡ told_node at []) }
    ensures span { IfOk result (λ s. stmt_at s.value ≡ at) }
{
    boxed(alloc, Stmt::Debugger(at))
}

/// `if (a) b; else c;`
pub fn if_statement<'s>(
    alloc: Global,
    at: Option<Span>,
    test: Box<Expr<'s>>,
    then: Box<Stmt<'s>>,
    other: Option<Box<Stmt<'s>>>,
) -> Result<Box<Stmt<'s>>, AllocError>
    ensures view { IfOk result (λ s. view_stmt s.value ≡ node (statement If) (part (view_expr test.entry.value) (part (view_stmt then.entry.value) (part (optional_of view_stmt other.entry) none)))) }
    ensures told { IfOk result (λ s. told_stmt s.value ≡ told_node at (told_expr test.entry.value ∷ told_stmt then.entry.value ∷ told_optional told_stmt other.entry ∷ [])) }
    ensures span { IfOk result (λ s. stmt_at s.value ≡ at) }
{
    boxed(alloc, Stmt::Control(Control::If(at, test, then, other)))
}

/// `do a; while (b);`
pub fn do_statement<'s>(
    alloc: Global,
    at: Option<Span>,
    body: Box<Stmt<'s>>,
    test: Box<Expr<'s>>,
) -> Result<Box<Stmt<'s>>, AllocError>
    ensures view { IfOk result (λ s. view_stmt s.value ≡ node (statement Do) (part (view_stmt body.entry.value) (part (view_expr test.entry.value) none))) }
    ensures told { IfOk result (λ s. told_stmt s.value ≡ told_node at (told_stmt body.entry.value ∷ told_expr test.entry.value ∷ [])) }
    ensures span { IfOk result (λ s. stmt_at s.value ≡ at) }
{
    boxed(alloc, Stmt::Control(Control::Do(at, body, test)))
}

/// `while (a) b;`
pub fn while_statement<'s>(
    alloc: Global,
    at: Option<Span>,
    test: Box<Expr<'s>>,
    body: Box<Stmt<'s>>,
) -> Result<Box<Stmt<'s>>, AllocError>
    ensures view { IfOk result (λ s. view_stmt s.value ≡ node (statement While) (part (view_expr test.entry.value) (part (view_stmt body.entry.value) none))) }
    ensures told { IfOk result (λ s. told_stmt s.value ≡ told_node at (told_expr test.entry.value ∷ told_stmt body.entry.value ∷ [])) }
    ensures span { IfOk result (λ s. stmt_at s.value ≡ at) }
{
    boxed(alloc, Stmt::Control(Control::While(at, test, body)))
}

/// `let a = 1` in the head of a `for`, each declarator a `Pat::Binding`.
pub fn head_declaration<'s>(
    alloc: Global,
    at: Option<Span>,
    word: DeclareWord,
    declarators: Vec<Box<Pat<'s>>>,
) -> Result<Box<Pat<'s>>, AllocError>
    ensures view { IfOk result (λ p. (r : Role) → view_pattern p.value r ≡ node (statement (ForDeclaration (word_of word))) (part (list (forest (map (inside view_pat) declarators.entry.items))) none)) }
    ensures told { IfOk result (λ p. told_pat p.value ≡ told_node at (told_list (map (inside told_pat) declarators.entry.items) ∷ [])) }
{
    boxed(alloc, Pat::Declaration(at, word, declarators))
}

/// `let a` in the head of a `for`-`in` or `for`-`of`.
pub fn head<'s>(
    alloc: Global,
    at: Option<Span>,
    word: DeclareWord,
    target: Box<Pat<'s>>,
) -> Result<Box<Pat<'s>>, AllocError>
    ensures view { IfOk result (λ p. (r : Role) → view_pattern p.value r ≡ node (statement (ForBinding (word_of word))) (part (view_pat target.entry.value) none)) }
    ensures told { IfOk result (λ p. told_pat p.value ≡ told_node at (told_pat target.entry.value ∷ [])) }
{
    boxed(alloc, Pat::Head(at, word, target))
}

/// `for (a in b) c;`
pub fn for_in<'s>(
    alloc: Global,
    at: Option<Span>,
    head: Box<Pat<'s>>,
    object: Box<Expr<'s>>,
    body: Box<Stmt<'s>>,
) -> Result<Box<Stmt<'s>>, AllocError>
    ensures view { IfOk result (λ s. view_stmt s.value ≡ node (statement ForIn) (part (view_target head.entry.value) (part (view_expr object.entry.value) (part (view_stmt body.entry.value) none)))) }
    ensures told { IfOk result (λ s. told_stmt s.value ≡ told_node at (told_pat head.entry.value ∷ told_expr object.entry.value ∷ told_stmt body.entry.value ∷ [])) }
    ensures span { IfOk result (λ s. stmt_at s.value ≡ at) }
{
    boxed(alloc, Stmt::Control(Control::ForIn(at, head, object, body)))
}

/// `for (a of b) c;`
pub fn for_of<'s>(
    alloc: Global,
    at: Option<Span>,
    head: Box<Pat<'s>>,
    items: Box<Expr<'s>>,
    body: Box<Stmt<'s>>,
) -> Result<Box<Stmt<'s>>, AllocError>
    ensures view { IfOk result (λ s. view_stmt s.value ≡ node (statement ForOf) (part (view_target head.entry.value) (part (view_expr items.entry.value) (part (view_stmt body.entry.value) none)))) }
    ensures told { IfOk result (λ s. told_stmt s.value ≡ told_node at (told_pat head.entry.value ∷ told_expr items.entry.value ∷ told_stmt body.entry.value ∷ [])) }
    ensures span { IfOk result (λ s. stmt_at s.value ≡ at) }
{
    boxed(alloc, Stmt::Control(Control::ForOf(at, head, items, body)))
}

/// `for (a; b; c) d;`
pub fn for_statement<'s>(
    alloc: Global,
    at: Option<Span>,
    init: Option<Box<Pat<'s>>>,
    test: Option<Box<Expr<'s>>>,
    update: Option<Box<Expr<'s>>>,
    body: Box<Stmt<'s>>,
) -> Result<Box<Stmt<'s>>, AllocError>
    ensures view { IfOk result (λ s. view_stmt s.value ≡ node (statement For) (part (optional_at_of Assigns view_pattern init.entry) (part (optional_of view_expr test.entry) (part (optional_of view_expr update.entry) (part (view_stmt body.entry.value) none))))) }
    ensures told { IfOk result (λ s. told_stmt s.value ≡ told_node at (told_optional told_pat init.entry ∷ told_optional told_expr test.entry ∷ told_optional told_expr update.entry ∷ told_stmt body.entry.value ∷ [])) }
    ensures span { IfOk result (λ s. stmt_at s.value ≡ at) }
{
    boxed(
        alloc,
        Stmt::Control(Control::For(at, init, test, update, body)),
    )
}

/// `switch (a) { case b: c; }`, each case a `Control::Case`.
pub fn switch_statement<'s>(
    alloc: Global,
    at: Option<Span>,
    value: Box<Expr<'s>>,
    cases: Vec<Box<Control<'s>>>,
) -> Result<Box<Stmt<'s>>, AllocError>
    ensures view { IfOk result (λ s. view_stmt s.value ≡ node (statement Switch) (part (view_expr value.entry.value) (part (list (forest (map (inside view_control) cases.entry.items))) none))) }
    ensures told { IfOk result (λ s. told_stmt s.value ≡ told_node at (told_expr value.entry.value ∷ told_list (map (inside told_control) cases.entry.items) ∷ [])) }
    ensures span { IfOk result (λ s. stmt_at s.value ≡ at) }
{
    boxed(alloc, Stmt::Control(Control::Switch(at, value, cases)))
}

/// `case a: b;`, or `default: b;`
pub fn case_clause<'s>(
    alloc: Global,
    at: Option<Span>,
    test: Option<Box<Expr<'s>>>,
    body: Vec<Box<Stmt<'s>>>,
) -> Result<Box<Control<'s>>, AllocError>
    ensures view { IfOk result (λ s. view_control s.value ≡ clause_of view_expr test.entry (list (forest (map (inside view_stmt) body.entry.items)))) }
    ensures told { IfOk result (λ s. told_control s.value ≡ told_node at (led_by told_expr test.entry (told_list (map (inside told_stmt) body.entry.items) ∷ []))) }
{
    boxed(alloc, Control::Case(at, test, body))
}

/// `try {} catch (a) {} finally {}`, each block a `Stmt::Block`, what is caught a `Control::Catch`.
pub fn try_statement<'s>(
    alloc: Global,
    at: Option<Span>,
    body: Box<Stmt<'s>>,
    handler: Option<Box<Control<'s>>>,
    finalizer: Option<Box<Stmt<'s>>>,
) -> Result<Box<Stmt<'s>>, AllocError>
    ensures view { IfOk result (λ s. view_stmt s.value ≡ node (statement Try) (part (view_stmt body.entry.value) (part (optional_of view_control handler.entry) (part (optional_of view_stmt finalizer.entry) none)))) }
    ensures told { IfOk result (λ s. told_stmt s.value ≡ told_node at (told_stmt body.entry.value ∷ told_optional told_control handler.entry ∷ told_optional told_stmt finalizer.entry ∷ [])) }
    ensures span { IfOk result (λ s. stmt_at s.value ≡ at) }
{
    boxed(
        alloc,
        Stmt::Control(Control::Try(at, body, handler, finalizer)),
    )
}

/// `catch (a) {}`, or `catch {}`
pub fn catch_clause<'s>(
    alloc: Global,
    at: Option<Span>,
    parameter: Option<Box<Pat<'s>>>,
    body: Box<Stmt<'s>>,
) -> Result<Box<Control<'s>>, AllocError>
    ensures view { IfOk result (λ s. view_control s.value ≡ node (statement Catch) (part (optional_at_of Binds view_pattern parameter.entry) (part (view_stmt body.entry.value) none))) }
    ensures told { IfOk result (λ s. told_control s.value ≡ told_node at (told_optional told_pat parameter.entry ∷ told_stmt body.entry.value ∷ [])) }
{
    boxed(alloc, Control::Catch(at, parameter, body))
}
