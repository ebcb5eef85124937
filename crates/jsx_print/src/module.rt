//! Scripts and modules (ECMA-262 section 16).

ghost use Rattle.std.specs.Prelude.{◌≡◌, OnOk, codes, drop, map};
ghost use Rattle.jsx_pen.specs.Pen.{rows};
ghost use Rattle.jsx_plan.specs.Plan.{Ended, Ink, arranged, behind, braced, clause_in, job_of, names_in, outcome, pen_of, pushed, with_tree};
ghost use Rattle.jsx_tree.specs.Kinds.{Binds, ExportAll, ExportAllAs, ExportDecl, ExportDefaultClass, ExportDefaultExpr, ExportDefaultFn, ExportFrom, ExportNames, Exported, From, Import, ImportBare, Imported, Module, Script, list, node, none, part, program};
ghost use Rattle.jsx_tree.specs.Normal.{is_empty, laid_tree};
ghost use Rattle.jsx_tree.specs.View.{body, directive, forest, forest_at, inside, optional_name, text_of, word};
ghost use Rattle.jsx_tree.specs.ViewProgram.{source_of, view_import_clause, view_specifier};
ghost use Rattle.jsx_plan.specs.Noted.{noted_expr, noted_item, noted_pattern, noted_program, noted_stmt};

use jsx_pen::Step;
use jsx_plan::{Printer, Role, Side, is_empty_stmt};
use jsx_tree::{Expr, Ident, ImportClause, ImportNames, Item, Pat, Program, Specifier, Stmt, Text};
use std::alloc::AllocError;

/// A module or a script.
#[tactic(auto, using(crate::proofs::Productions::opening))]
pub(crate) fn open_program<'a, 's>(
    printer: &mut Printer<'a, 's>,
    program: &'a Program<'s>,
) -> Result<(), AllocError>
    ensures { OnOk result (outcome (job_of printer.new) ≡ with_tree (job_of printer.old) (noted_program program.now)) }
{
    match program {
        Program::Module(module) => open_module(printer, &module.directives, &module.body),
        Program::Script(script) => open_script(printer, &script.directives, &script.body),
    }
}

#[tactic(auto, using(crate::proofs::Productions::planning))]
fn open_module<'a, 's>(
    printer: &mut Printer<'a, 's>,
    directives: &'a [Text<'s>],
    body: &'a Vec<Item<'s>>,
) -> Result<(), AllocError>
    ensures { OnOk result (outcome (job_of printer.new) ≡ with_tree (job_of printer.old) (node (program Module) (part (list (forest (map directive directives.now))) (part (list (forest (map noted_item body.now.items))) none)))) }
{
    printer.items(body, 0)?;
    printer.top_directives(directives)
}

#[tactic(auto, using(crate::proofs::Productions::planning))]
fn open_script<'a, 's>(
    printer: &mut Printer<'a, 's>,
    directives: &'a [Text<'s>],
    body: &'a [Box<Stmt<'s>>],
) -> Result<(), AllocError>
    ensures { OnOk result (outcome (job_of printer.new) ≡ with_tree (job_of printer.old) (node (program Script) (part (list (forest (map directive directives.now))) (part (list (forest (map (inside noted_stmt) body.now))) none)))) }
{
    printer.top_stmts(body)?;
    printer.top_directives(directives)
}

/// The items of a module from this one on, each with the end of its line.
#[tactic(auto, using(crate::proofs::Productions::items))]
pub(crate) fn open_items<'a, 's>(
    printer: &mut Printer<'a, 's>,
    items: &'a Vec<Item<'s>>,
    i: usize,
) -> Result<(), AllocError>
    ensures { OnOk result (outcome (job_of printer.new) ≡ behind (job_of printer.old) (arranged Ended (pen_of (job_of printer.old)) (rows (forest (map noted_item (drop i items.now.items)))))) }
{
    match items.get(i) {
        Some(item) => {
            if is_empty_item(item) {
                printer.items(items, i + 1)
            } else {
                printer.items(items, i + 1)?;
                printer.step(Step::Line)?;
                open_item(printer, item)
            }
        }
        None => Ok(()),
    }
}

/// A statement of a module, an import or an export.
#[tactic(auto, using(crate::proofs::Productions::opening))]
fn open_item<'a, 's>(printer: &mut Printer<'a, 's>, item: &'a Item<'s>) -> Result<(), AllocError>
    ensures { OnOk result (outcome (job_of printer.new) ≡ with_tree (job_of printer.old) (noted_item item.now)) }
{
    match item {
        Item::Stmt(stmt) => printer.stmt(stmt),
        Item::ImportBare(_, source) => import_bare(printer, source),
        Item::Import(_, clause, source) => import(printer, clause, source),
        Item::ExportNames(_, specifiers) => export_names(printer, specifiers),
        Item::ExportFrom(_, specifiers, source) => export_from(printer, specifiers, source),
        Item::ExportAll(_, source) => export_all(printer, source),
        Item::ExportAllAs(_, name, source) => export_all_as(printer, name, source),
        Item::ExportDecl(_, stmt) => export_decl(printer, stmt),
        Item::ExportDefaultFn(_, _, name, params, directives, stmts) => {
            export_default_fn(printer, name, params, directives, stmts)
        }
        Item::ExportDefaultClass(_, _, class) => export_default_class(printer, class),
        Item::ExportDefaultExpr(_, _, expr) => export_default_expr(printer, expr),
    }
}

#[tactic(auto, using(crate::proofs::Productions::planning))]
fn export_decl<'a, 's>(
    printer: &mut Printer<'a, 's>,
    stmt: &'a Box<Stmt<'s>>,
) -> Result<(), AllocError>
    ensures { OnOk result (outcome (job_of printer.new) ≡ with_tree (job_of printer.old) (node (program ExportDecl) (part (noted_stmt stmt.now.value) none))) }
{
    printer.stmt(stmt)?;
    printer.sign("export ")
}

#[tactic(auto, using(crate::proofs::Productions::absent))]
fn export_default_fn<'a, 's>(
    printer: &mut Printer<'a, 's>,
    name: &'a Option<Ident<'s>>,
    params: &'a [Box<Pat<'s>>],
    directives: &'a [Text<'s>],
    stmts: &'a [Box<Stmt<'s>>],
) -> Result<(), AllocError>
    ensures { OnOk result (outcome (job_of printer.new) ≡ with_tree (job_of printer.old) (node (program ExportDefaultFn) (part (optional_name name.now) (part (list (forest_at Binds (map (inside noted_pattern) params.now))) (part (body directives.now (map (inside noted_stmt) stmts.now)) none))))) }
{
    printer.body(directives, stmts)?;
    printer.sign(") ")?;
    printer.pats(params, Role::Binds)?;
    printer.sign("(")?;
    printer.may_name(name)?;
    printer.sign("export default function ")
}

#[tactic(auto, using(crate::proofs::Productions::planning))]
fn export_default_class<'a, 's>(
    printer: &mut Printer<'a, 's>,
    class: &'a Box<Expr<'s>>,
) -> Result<(), AllocError>
    ensures { OnOk result (outcome (job_of printer.new) ≡ with_tree (job_of printer.old) (node (program ExportDefaultClass) (part (noted_expr class.now.value) none))) }
{
    printer.expr(class)?;
    printer.sign("export default ")
}

#[tactic(auto, using(crate::proofs::Productions::planning))]
fn export_default_expr<'a, 's>(
    printer: &mut Printer<'a, 's>,
    expr: &'a Box<Expr<'s>>,
) -> Result<(), AllocError>
    ensures { OnOk result (outcome (job_of printer.new) ≡ with_tree (job_of printer.old) (node (program ExportDefaultExpr) (part (noted_expr expr.now.value) none))) }
{
    printer.sign(";")?;
    printer.expr(expr)?;
    printer.sign("export default ")
}

#[tactic(auto, using(crate::proofs::Productions::planning))]
fn import_bare<'a, 's>(
    printer: &mut Printer<'a, 's>,
    source: &'a Text<'s>,
) -> Result<(), AllocError>
    ensures { OnOk result (outcome (job_of printer.new) ≡ with_tree (job_of printer.old) (node (program ImportBare) (part (source_of source.now) none))) }
{
    printer.sign(";")?;
    printer.word(source)?;
    printer.sign("import ")
}

#[tactic(auto, using(crate::proofs::Productions::importing))]
fn import<'a, 's>(
    printer: &mut Printer<'a, 's>,
    clause: &'a ImportClause<'s>,
    source: &'a Text<'s>,
) -> Result<(), AllocError>
    ensures { OnOk result (outcome (job_of printer.new) ≡ with_tree (job_of printer.old) (node (program Import) (part (view_import_clause clause.now) (part (source_of source.now) none)))) }
{
    printer.sign(";")?;
    printer.word(source)?;
    printer.raw(" from ")?;
    import_clause(printer, clause)?;
    printer.sign("import ")
}

#[tactic(auto, using(crate::proofs::Productions::planning))]
fn export_names<'a, 's>(
    printer: &mut Printer<'a, 's>,
    specifiers: &'a Vec<Specifier<'s>>,
) -> Result<(), AllocError>
    ensures { OnOk result (outcome (job_of printer.new) ≡ with_tree (job_of printer.old) (node (program ExportNames) (part (list (forest (map (view_specifier Exported) specifiers.now.items))) none))) }
{
    printer.sign("};")?;
    printer.step(Step::Pad)?;
    printer.specifiers(specifiers, Side::Exported, 0)?;
    printer.step(Step::Pad)?;
    printer.sign("export {")
}

#[tactic(auto, using(crate::proofs::Productions::planning))]
fn export_from<'a, 's>(
    printer: &mut Printer<'a, 's>,
    specifiers: &'a Vec<Specifier<'s>>,
    source: &'a Text<'s>,
) -> Result<(), AllocError>
    ensures { OnOk result (outcome (job_of printer.new) ≡ with_tree (job_of printer.old) (node (program ExportFrom) (part (list (forest (map (view_specifier From) specifiers.now.items))) (part (source_of source.now) none)))) }
{
    printer.sign(";")?;
    printer.word(source)?;
    printer.sign("} from ")?;
    printer.step(Step::Pad)?;
    printer.specifiers(specifiers, Side::From, 0)?;
    printer.step(Step::Pad)?;
    printer.sign("export {")
}

#[tactic(auto, using(crate::proofs::Productions::planning))]
fn export_all<'a, 's>(printer: &mut Printer<'a, 's>, source: &'a Text<'s>) -> Result<(), AllocError>
    ensures { OnOk result (outcome (job_of printer.new) ≡ with_tree (job_of printer.old) (node (program ExportAll) (part (source_of source.now) none))) }
{
    printer.sign(";")?;
    printer.word(source)?;
    printer.sign("export * from ")
}

#[tactic(auto, using(crate::proofs::Productions::planning))]
fn export_all_as<'a, 's>(
    printer: &mut Printer<'a, 's>,
    name: &'a Text<'s>,
    source: &'a Text<'s>,
) -> Result<(), AllocError>
    ensures { OnOk result (outcome (job_of printer.new) ≡ with_tree (job_of printer.old) (node (program ExportAllAs) (part (word name.now) (part (source_of source.now) none)))) }
{
    printer.sign(";")?;
    printer.word(source)?;
    printer.raw(" from ")?;
    printer.word(name)?;
    printer.sign("export * as ")
}

/// What is imported.
#[tactic(auto, using(crate::proofs::Productions::clauses))]
fn import_clause<'a, 's>(
    printer: &mut Printer<'a, 's>,
    clause: &'a ImportClause<'s>,
) -> Result<(), AllocError>
    ensures { OnOk result (job_of printer.new ≡ clause_in (job_of printer.old) clause.now) }
{
    match clause {
        ImportClause::Default(name) => printer.word(&name.text),
        ImportClause::Names(names) => import_names(printer, names),
        ImportClause::Both(_, name, names) => import_both(printer, name, names),
    }
}

fn import_both<'a, 's>(
    printer: &mut Printer<'a, 's>,
    name: &'a Ident<'s>,
    names: &'a ImportNames<'s>,
) -> Result<(), AllocError>
    ensures { OnOk result (job_of printer.new ≡ pushed (pushed (names_in (job_of printer.old) names.now) (Ink (codes ", "))) (Ink (text_of name.now.text))) }
{
    import_names(printer, names)?;
    printer.sign(", ")?;
    printer.word(&name.text)
}

#[tactic(auto, using(crate::proofs::Productions::clauses))]
fn import_names<'a, 's>(
    printer: &mut Printer<'a, 's>,
    names: &'a ImportNames<'s>,
) -> Result<(), AllocError>
    ensures { OnOk result (job_of printer.new ≡ names_in (job_of printer.old) names.now) }
{
    match names {
        ImportNames::All(_, name) => import_all(printer, name),
        ImportNames::List(_, specifiers) => import_list(printer, specifiers),
    }
}

/// `* as a`
fn import_all<'a, 's>(printer: &mut Printer<'a, 's>, name: &'a Ident<'s>) -> Result<(), AllocError>
    ensures { OnOk result (job_of printer.new ≡ pushed (pushed (job_of printer.old) (Ink (text_of name.now.text))) (Ink (codes "* as "))) }
{
    printer.word(&name.text)?;
    printer.sign("* as ")
}

/// `{ a, b as c }`
fn import_list<'a, 's>(
    printer: &mut Printer<'a, 's>,
    specifiers: &'a Vec<Specifier<'s>>,
) -> Result<(), AllocError>
    ensures { OnOk result (job_of printer.new ≡ braced (job_of printer.old) (forest (map (view_specifier Imported) specifiers.now.items))) }
{
    printer.sign("}")?;
    printer.step(Step::Pad)?;
    printer.specifiers(specifiers, Side::Imported, 0)?;
    printer.step(Step::Pad)?;
    printer.sign("{")
}

/// Whether nothing is printed of an item.
#[tactic(auto, using(crate::proofs::Productions::noted_views))]
pub(crate) fn is_empty_item(item: &Item<'_>) -> bool
    ensures { result ≡ is_empty (laid_tree (noted_item item.now)) }
{
    match item {
        Item::Stmt(stmt) => is_empty_stmt(stmt),
        Item::ImportBare(_, _) | Item::Import(_, _, _) | Item::ExportNames(_, _) => false,
        Item::ExportFrom(_, _, _) | Item::ExportAll(_, _) | Item::ExportAllAs(_, _, _) => false,
        Item::ExportDecl(_, _) | Item::ExportDefaultFn(_, _, _, _, _, _) => false,
        Item::ExportDefaultClass(_, _, _) | Item::ExportDefaultExpr(_, _, _) => false,
    }
}
