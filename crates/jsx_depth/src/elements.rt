//! JSX: elements, and what may stand in them.

ghost use Rattle.std.specs.Prelude.{◌≡◌, map};
ghost use Rattle.jsx_tree.specs.Kinds.{list};
ghost use Rattle.jsx_tree.specs.View.{inside, forest, optional_of, view_jsx};
ghost use Rattle.jsx_depth.specs.Fits.{counts_tree, fits, fits_inside};

use crate::expressions::fits_expr;
use crate::level::{has_level, within};
use jsx_tree::Jsx;

/// Each of these counts.
#[tactic(auto, using(crate::proofs::Depths::depths))]
pub(crate) fn counts_jsx(element: &Jsx) -> bool
    ensures { result ≡ counts_tree (view_jsx element.now) }
{
    match element {
        Jsx::Element(..)
        | Jsx::ElementWithChildren(..)
        | Jsx::Fragment(..)
        | Jsx::Text(..)
        | Jsx::Str(..)
        | Jsx::Container(..)
        | Jsx::Spread(..)
        | Jsx::Attribute(..) => true,
    }
}

#[cycle(depth)]
#[tactic(auto, using(crate::proofs::Depths::depths))]
pub(crate) fn parts_of_jsx(element: &Jsx, levels: u32) -> bool
    ensures { result ≡ fits_inside levels (view_jsx element.now) }
{
    match element {
        Jsx::Element(_, _, attributes) => has_level(levels) && fits_elements(attributes, levels),
        Jsx::ElementWithChildren(_, _, attributes, children, _) => {
            has_level(levels)
                && fits_elements(attributes, levels)
                && fits_elements(children, levels)
                && has_level(levels)
        }
        Jsx::Fragment(_, children) => fits_elements(children, levels),
        Jsx::Container(_, Some(value)) => fits_expr(value, levels),
        Jsx::Spread(_, value) => fits_expr(value, levels),
        Jsx::Attribute(_, _, value) => has_level(levels) && fits_optional_element(value, levels),
        Jsx::Container(_, None) | Jsx::Text(..) | Jsx::Str(..) => true,
    }
}

#[cycle(depth)]
#[tactic(auto, using(crate::proofs::Depths::nodes))]
fn fits_element(element: &Jsx, levels: u32) -> bool
    ensures { result ≡ fits levels (view_jsx element.now) }
{
    match within(counts_jsx(element), levels) {
        Some(inside) => parts_of_jsx(element, inside),
        None => false,
    }
}

#[cycle(depth)]
fn fits_elements(elements: &[Box<Jsx<'_>>], levels: u32) -> bool
    ensures { result ≡ fits levels (list (forest (map (inside view_jsx) elements.now))) }
{
    for element in elements {
        if !fits_element(element, levels) {
            return false;
        }
    }
    true
}

#[cycle(depth)]
#[tactic(auto, using(crate::proofs::Depths::depths))]
fn fits_optional_element(element: &Option<Box<Jsx<'_>>>, levels: u32) -> bool
    ensures { result ≡ fits levels (optional_of view_jsx element.now) }
{
    match element {
        Some(element) => fits_element(element, levels),
        None => true,
    }
}
