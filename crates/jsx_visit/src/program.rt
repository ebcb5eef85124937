//! Programs, and the items of a module.

ghost use Rattle.std.specs.Prelude.{◌≡◌, OnOk, IsTrue, map};
ghost use Rattle.jsx_tree.specs.ViewProgram.{view, view_item};
ghost use Rattle.jsx_tree.specs.Told.{told, told_item};
ghost use Rattle.jsx_visit.specs.Visit.{visited, span_of};
ghost use Rattle.jsx_visit.specs.Parts.{but_export, with_export, kept, kept_each};

use crate::visitor::Visitor;
use crate::walk::Walker;
use jsx_tree::{Item, Program};
use std::alloc::{AllocError, Global};

impl Walker {
    fn item<V: Visitor>(self, visitor: &mut V, item: &mut Item<'_>) -> Result<(), AllocError>
        ensures seen { OnOk result (view_item item.new ≡ visited V.made (view_item item.old)) }
        ensures places { OnOk result (kept V.keeps (told_item item.new) ≡ kept V.keeps (told_item item.old)) }
    {
        self.first_of_item(visitor, item)?;
        self.second_of_item(visitor, item)
    }

    #[tactic(auto, using(crate::proofs::Visits::items))]
    fn first_of_item<V: Visitor>(
        self,
        visitor: &mut V,
        item: &mut Item<'_>,
    ) -> Result<(), AllocError>
        ensures seen { OnOk result (view_item item.new ≡ but_export V.made (view_item item.old)) }
        ensures places { OnOk result (kept V.keeps (told_item item.new) ≡ kept V.keeps (told_item item.old)) }
    {
        match item {
            Item::Stmt(stmt) => self.stmt(visitor, stmt),
            Item::ExportDecl(_, stmt) => self.stmt(visitor, stmt),
            Item::ExportDefaultFn(_, _, _, parameters, _, _) => self.patterns(visitor, parameters),
            Item::ExportDefaultClass(_, _, class) => self.expr(visitor, class),
            Item::ExportDefaultExpr(_, _, expr) => self.expr(visitor, expr),
            Item::ImportBare(..) => Ok(()),
            Item::Import(..) => Ok(()),
            Item::ExportNames(..) => Ok(()),
            Item::ExportFrom(..) => Ok(()),
            Item::ExportAll(..) => Ok(()),
            Item::ExportAllAs(..) => Ok(()),
        }
    }

    #[tactic(auto, using(crate::proofs::Visits::items))]
    fn second_of_item<V: Visitor>(
        self,
        visitor: &mut V,
        item: &mut Item<'_>,
    ) -> Result<(), AllocError>
        ensures seen { OnOk result (view_item item.new ≡ with_export V.made (view_item item.old)) }
        ensures places { OnOk result (kept V.keeps (told_item item.new) ≡ kept V.keeps (told_item item.old)) }
    {
        match item {
            Item::ExportDefaultFn(_, _, _, _, _, body) => self.stmts(visitor, body),
            Item::Stmt(..)
            | Item::ExportDecl(..)
            | Item::ExportDefaultClass(..)
            | Item::ExportDefaultExpr(..)
            | Item::ImportBare(..)
            | Item::Import(..)
            | Item::ExportNames(..)
            | Item::ExportFrom(..)
            | Item::ExportAll(..)
            | Item::ExportAllAs(..) => Ok(()),
        }
    }

    fn items<V: Visitor>(self, visitor: &mut V, items: &mut Vec<Item<'_>>) -> Result<(), AllocError>
        ensures seen { OnOk result (map view_item items.new.items ≡ map (visited V.made) (map view_item items.old.items)) }
        ensures places { OnOk result (kept_each V.keeps told_item items.new.items ≡ kept_each V.keeps told_item items.old.items) }
    {
        for item in items.iter_mut() {
            self.item(visitor, item)?;
        }
        Ok(())
    }

    #[tactic(auto, using(crate::proofs::Visits::items))]
    fn program<V: Visitor>(
        self,
        visitor: &mut V,
        program: &mut Program<'_>,
    ) -> Result<(), AllocError>
        ensures seen { OnOk result (view program.new ≡ visited V.made (view program.old)) }
        ensures places { OnOk result (kept V.keeps (told program.new) ≡ kept V.keeps (told program.old)) }
        ensures whole { OnOk result (span_of program.new ≡ span_of program.old) }
    {
        match program {
            Program::Module(module) => self.items(visitor, &mut module.body),
            Program::Script(script) => self.stmts(visitor, &mut script.body),
        }
    }
}

/// Visits each expression of a program after its parts, and each target in parentheses after what stands in them, in the order
/// of the text. What stands in JSX isn't entered: an element is handed to the visitor as it is. A visitor that keeps what a node
/// tells of places keeps what the program tells.
///
/// # Errors
///
/// `AllocError` for want of memory. Then the program may be changed in part.
pub fn visit<V: Visitor>(
    alloc: Global,
    visitor: &mut V,
    program: &mut Program<'_>,
) -> Result<(), AllocError>
    ensures seen { OnOk result (view program.new ≡ visited V.made (view program.old)) }
    ensures places { IsTrue V.keeps → OnOk result (told program.new ≡ told program.old) }
    ensures whole { OnOk result (span_of program.new ≡ span_of program.old) }
{
    let walker = Walker {
        alloc,
        levels: usize::MAX,
    };
    walker.program(visitor, program)
}
