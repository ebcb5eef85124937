//! Programs, and the items of a module, at their places.

ghost use Rattle.std.specs.Prelude.{◌≡◌, OnOk, map, false};
ghost use Rattle.jsx_tree.specs.Parentheses.{first_no_directive};
ghost use Rattle.jsx_tree.specs.View.{forest};
ghost use Rattle.jsx_tree.specs.ViewProgram.{view, view_item};
ghost use Rattle.jsx_scope.specs.Walk.{walk, walk_each, but_export, with_export};
ghost use Rattle.jsx_scope.specs.declared.place.Place.TheVariants as place;

use crate::directives::keep_items_from_directives;
use crate::place::Place;
use crate::walk::Walker;
use jsx_tree::{Item, Program};
use std::alloc::AllocError;

impl Walker {
    fn item(self, item: &mut Item<'_>) -> Result<(), AllocError>
        ensures { OnOk result (view_item item.new ≡ walk (place.Level 0) false (view_item item.old)) }
    {
        self.first_of_item(item)?;
        self.second_of_item(item)
    }

    #[tactic(auto, using(crate::proofs::Items::items))]
    fn first_of_item(self, item: &mut Item<'_>) -> Result<(), AllocError>
        ensures { OnOk result (view_item item.new ≡ but_export (view_item item.old)) }
    {
        match item {
            Item::Stmt(stmt) => self.stmt(false, stmt),
            Item::ExportDecl(_, stmt) => self.stmt(false, stmt),
            Item::ExportDefaultFn(_, _, _, parameters, _, _) => self.patterns(false, parameters),
            Item::ExportDefaultClass(_, _, class) => self.expr(Place::Level(0), false, class),
            Item::ExportDefaultExpr(_, _, expr) => self.expr(Place::Default, false, expr),
            Item::ImportBare(..)
            | Item::Import(..)
            | Item::ExportNames(..)
            | Item::ExportFrom(..)
            | Item::ExportAll(..)
            | Item::ExportAllAs(..) => Ok(()),
        }
    }

    #[tactic(auto, using(crate::proofs::Items::items))]
    fn second_of_item(self, item: &mut Item<'_>) -> Result<(), AllocError>
        ensures { OnOk result (view_item item.new ≡ with_export (view_item item.old)) }
    {
        match item {
            Item::ExportDefaultFn(_, _, _, _, _, body) => self.body(body),
            Item::Stmt(..)
            | Item::ExportDecl(..)
            | Item::ExportDefaultClass(..)
            | Item::ExportDefaultExpr(..)
            | Item::ImportBare(..)
            | Item::Import(..)
            | Item::ExportNames(..)
            | Item::ExportFrom(..)
            | Item::ExportAll(..)
            | Item::ExportAllAs(..) => Ok(()),
        }
    }

    fn items(self, items: &mut Vec<Item<'_>>) -> Result<(), AllocError>
        ensures { OnOk result (map view_item items.new.items ≡ map (walk (place.Level 0) false) (map view_item items.old.items)) }
    {
        for item in items.iter_mut() {
            self.item(item)?;
        }
        Ok(())
    }

    /// The items of a module, of which the first is no directive.
    #[tactic(auto, using(crate::proofs::Items::items))]
    fn module_body(self, items: &mut Vec<Item<'_>>) -> Result<(), AllocError>
        ensures { OnOk result (forest (map view_item items.new.items) ≡ first_no_directive (walk_each (place.Level 0) false (forest (map view_item items.old.items)))) }
    {
        self.items(items)?;
        keep_items_from_directives(self.alloc, items)
    }

    #[tactic(auto, using(crate::proofs::Items::items))]
    pub(crate) fn program(self, program: &mut Program<'_>) -> Result<(), AllocError>
        ensures { OnOk result (view program.new ≡ walk (place.Level 0) false (view program.old)) }
    {
        match program {
            Program::Module(module) => self.module_body(&mut module.body),
            Program::Script(script) => self.body(&mut script.body),
        }
    }
}
