//! Programs, and the items of a module.

ghost use Rattle.std.specs.Prelude.{◌≡◌, ◌++◌, OnOk, IfOk, map, [], ◌∷◌, codes};
ghost use Rattle.jsx_tree.specs.Clashes.{AtName};
ghost use Rattle.jsx_tree.specs.View.{forest, view_expr};
ghost use Rattle.jsx_tree.specs.ViewProgram.{view, view_item};
ghost use Rattle.jsx_tree.specs.Told.{tales, told, told_expr, told_item};
ghost use Rattle.jsx_names.specs.Events.{Exports, Plain};
ghost use Rattle.jsx_heard.specs.Said.{Unnamed, Elsewhere, InDefault, said, said_each, of_program, met, met_all};

use crate::imports::{exported, import_clause, passed_on};
use crate::mode::Way;
use crate::names::{declares, exports};
use crate::walk::Walker;
use jsx_base::BytePos;
use jsx_names::{Event, Frame, Sort};
use jsx_tree::{Expr, Item, Program};
use std::alloc::{AllocError, Global};

/// `export default`, at its second word (ECMA-262 section 16.2.3).
fn export_default(events: &mut Vec<Event<'_>>, word: BytePos) -> Result<(), AllocError>
    ensures { OnOk result (met_all events.new.items ≡ met_all events.old.items ++ met (Exports (codes "default") (AtName [])) word ∷ []) }
{
    events.push(Event::Exports("default", word))?;
    Ok(())
}

impl Walker {
    /// An item of a module (ECMA-262 section 16.2).
    #[tactic(auto, using(crate::proofs::Saying::sayings))]
    fn item<'t>(self, events: &mut Vec<Event<'t>>, item: &'t Item<'_>) -> Result<(), AllocError>
        ensures { OnOk result (met_all events.new.items ≡ met_all events.old.items ++ said Plain Unnamed Elsewhere (view_item item.now) (told_item item.now)) }
    {
        match item {
            Item::Stmt(stmt) => self.stmt(events, false, stmt),
            Item::ImportBare(..) | Item::ExportAll(..) => Ok(()),
            Item::Import(_, clause, _) => import_clause(events, clause),
            Item::ExportNames(_, specifiers) => exported(events, specifiers),
            Item::ExportFrom(_, specifiers, _) => passed_on(events, specifiers),
            Item::ExportAllAs(_, name, _) => exports(events, name),
            Item::ExportDecl(_, stmt) => self.stmt(events, true, stmt),
            Item::ExportDefaultFn(_, word, name, parameters, _, body) => {
                export_default(events, *word)?;
                if let Some(name) = name {
                    declares(events, Way::Simply, Sort::Function, &name.text)?;
                }
                self.code(events, parameters, body)
            }
            Item::ExportDefaultClass(_, word, class) => {
                export_default(events, *word)?;
                self.default_class(events, class)
            }
            Item::ExportDefaultExpr(_, word, expr) => {
                export_default(events, *word)?;
                self.expr(events, expr)
            }
        }
    }

    /// The class behind `export default`, whose name the module declares. No name stands there alone.
    #[tactic(auto, using(crate::proofs::Saying::sayings))]
    fn default_class<'t>(
        self,
        events: &mut Vec<Event<'t>>,
        class: &'t Expr<'_>,
    ) -> Result<(), AllocError>
        ensures { OnOk result (met_all events.new.items ≡ met_all events.old.items ++ said Plain Unnamed InDefault (view_expr class.now) (told_expr class.now)) }
    {
        match class {
            Expr::Class(_, name, parent, members) => {
                self.named_class(events, name, parent, members)
            }
            Expr::Ident(..) => Ok(()),
            _ => self.expr(events, class),
        }
    }

    fn items<'t>(self, events: &mut Vec<Event<'t>>, items: &'t [Item<'_>]) -> Result<(), AllocError>
        ensures { OnOk result (met_all events.new.items ≡ met_all events.old.items ++ said_each Plain Unnamed Elsewhere (forest (map view_item items.now)) (tales (map told_item items.now))) }
    {
        for item in items {
            self.item(events, item)?;
        }
        Ok(())
    }

    #[tactic(auto, using(crate::proofs::Saying::sayings))]
    fn program<'t>(
        self,
        events: &mut Vec<Event<'t>>,
        program: &'t Program<'_>,
    ) -> Result<(), AllocError>
        ensures { OnOk result (met_all events.new.items ≡ met_all events.old.items ++ of_program (view program.now) (told program.now)) }
    {
        match program {
            Program::Module(module) => {
                events.push(Event::Opens(Frame::Module))?;
                self.items(events, &module.body)?;
            }
            Program::Script(script) => {
                events.push(Event::Opens(Frame::Script))?;
                self.stmts(events, &script.body)?;
            }
        }
        events.push(Event::Closes)?;
        Ok(())
    }
}

/// What a program's text says of names, in the order of the text: the scopes, the names that are declared, referred to and
/// exported, and the direct calls of `eval` (ECMA-262 sections 8.2, 13.3.6.1 and 16.2.3).
///
/// # Errors
///
/// `AllocError` for want of memory.
pub fn heard<'t>(alloc: Global, program: &'t Program<'_>) -> Result<Vec<Event<'t>>, AllocError>
    ensures { IfOk result (λ it. met_all it.items ≡ of_program (view program.now) (told program.now)) }
{
    let mut events = Vec::new(alloc);
    let walker = Walker { levels: usize::MAX };
    walker.program(&mut events, program)?;
    Ok(events)
}
