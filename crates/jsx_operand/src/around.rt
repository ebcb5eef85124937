//! What a node stands in, for the early errors that ask (ECMA-262 sections 13 to 16).

ghost use Rattle.std.specs.Prelude.{◌≡◌, [], map, true};
ghost use Rattle.jsx_tree.specs.Kinds.{none};
ghost use Rattle.jsx_tree.specs.Grammar.{InArrow, InFunction, InClassCode};
ghost use Rattle.jsx_tree.specs.StaticRules.{enter};
ghost use Rattle.jsx_tree.specs.View.{directive, forest};
ghost use Rattle.jsx_operand.specs.Around.{around_of, in_code, in_field, in_members, in_method, labels_of, within_module, within_script};

use crate::body::makes_strict;
use jsx_tree::Text;
use std::alloc::Global;
use std::cell::Cell;

/// The labels that enclose, the innermost first (ECMA-262 section 14.13).
#[derive(Clone, Copy)]
pub enum Labels<'a> {
    None,
    /// A label, whether it stands on a loop, and those outside of it.
    Inside(&'a str, bool, &'a Labels<'a>),
}

/// What a node stands in.
#[derive(Clone, Copy)]
pub struct Around<'a> {
    pub is_module: bool,
    /// Strict code (ECMA-262 section 11.2.2).
    pub is_strict: bool,
    /// A function that `return` ends.
    pub returns: bool,
    /// What `new.target` speaks of.
    pub has_target: bool,
    /// A method, for `super.a`.
    pub has_super: bool,
    /// A constructor of a class with `extends`, for `super()`.
    pub calls_super: bool,
    /// A class with `extends`.
    pub is_derived: bool,
    pub in_loop: bool,
    /// A loop or a `switch`.
    pub breakable: bool,
    pub labels: &'a Labels<'a>,
}

impl<'a> Around<'a> {
    /// What the statements of a module stand in.
    pub fn of_module(labels: &'a Labels<'a>) -> Around<'a>
        ensures { around_of result ≡ within_module (labels_of labels.now) }
    {
        Around {
            is_module: true,
            is_strict: true,
            returns: false,
            has_target: false,
            has_super: false,
            calls_super: false,
            is_derived: false,
            in_loop: false,
            breakable: false,
            labels,
        }
    }

    /// What the statements of a script stand in, as far as its directives say nothing else.
    pub fn of_script(labels: &'a Labels<'a>) -> Around<'a>
        ensures { around_of result ≡ within_script (labels_of labels.now) }
    {
        Around {
            is_module: false,
            is_strict: false,
            returns: false,
            has_target: false,
            has_super: false,
            calls_super: false,
            is_derived: false,
            in_loop: false,
            breakable: false,
            labels,
        }
    }
}

/// What each function of the parser is handed down.
#[derive(Clone, Copy)]
pub struct Context<'a> {
    pub alloc: Global,
    pub around: Around<'a>,
    /// How deep what is read may be.
    pub levels: u32,
    /// How many levels are left below what stands deepest, since this was last measured: a hint, by which no tree is looked at again without need.
    pub spare: &'a Cell<u32>,
}

impl<'a> Context<'a> {
    /// The same in the cases of a `switch`.
    pub fn of_switch(self) -> Context<'a>
        ensures around { around_of result.around ≡ record (around_of self.entry.around) { breakable = true } }
        ensures levels { result.levels ≡ self.entry.levels }
    {
        let around = Around {
            breakable: true,
            ..self.around
        };
        Context { around, ..self }
    }

    /// The same in the body of a label, with the labels that enclose there.
    pub fn of_label<'b>(self, labels: &'b Labels<'b>) -> Context<'b>
    where
        'a: 'b,
        ensures around { around_of result.around ≡ record (around_of self.entry.around) { labels = labels_of labels.now } }
        ensures levels { result.levels ≡ self.entry.levels }
    {
        let around = Around {
            labels,
            ..self.around
        };
        Context { around, ..self }
    }

    /// The same in a function, where no label encloses (ECMA-262 section 15.2).
    pub fn of_function<'b>(self, labels: &'b Labels<'b>) -> Context<'b>
    where
        'a: 'b,
        requires { labels_of labels.now ≡ [] }
        ensures around { around_of result.around ≡ enter none InFunction (around_of self.entry.around) }
        ensures levels { result.levels ≡ self.entry.levels }
    {
        let around = Around {
            returns: true,
            has_target: true,
            has_super: false,
            calls_super: false,
            in_loop: false,
            breakable: false,
            labels,
            ..self.around
        };
        Context { around, ..self }
    }

    /// The same in an arrow function, where no label encloses. What `new.target` and `super` speak of stays (ECMA-262
    /// section 15.3).
    pub fn of_arrow<'b>(self, labels: &'b Labels<'b>) -> Context<'b>
    where
        'a: 'b,
        requires { labels_of labels.now ≡ [] }
        ensures around { around_of result.around ≡ enter none InArrow (around_of self.entry.around) }
        ensures levels { result.levels ≡ self.entry.levels }
    {
        let around = Around {
            returns: true,
            in_loop: false,
            breakable: false,
            labels,
            ..self.around
        };
        Context { around, ..self }
    }

    /// The same in a method, a getter or a setter, where `super()` may stand in the constructor of a class with `extends`
    /// alone (ECMA-262 sections 15.4 and 15.7).
    pub fn of_method<'b>(self, labels: &'b Labels<'b>, is_constructor: bool) -> Context<'b>
    where
        'a: 'b,
        requires { labels_of labels.now ≡ [] }
        ensures around { around_of result.around ≡ in_method is_constructor (around_of self.entry.around) }
        ensures levels { result.levels ≡ self.entry.levels }
    {
        let around = Around {
            returns: true,
            has_target: true,
            has_super: true,
            calls_super: self.around.is_derived && is_constructor,
            in_loop: false,
            breakable: false,
            labels,
            ..self.around
        };
        Context { around, ..self }
    }

    /// The same in the value of a field (ECMA-262 section 15.7).
    pub fn of_field<'b>(self, labels: &'b Labels<'b>) -> Context<'b>
    where
        'a: 'b,
        requires { labels_of labels.now ≡ [] }
        ensures around { around_of result.around ≡ in_field (around_of self.entry.around) }
        ensures levels { result.levels ≡ self.entry.levels }
    {
        let around = Around {
            returns: false,
            has_target: true,
            has_super: true,
            calls_super: false,
            in_loop: false,
            breakable: false,
            labels,
            ..self.around
        };
        Context { around, ..self }
    }

    /// The same behind the directives of a script or of a body, which may make it strict (ECMA-262 section 11.2.2).
    pub fn of_code(self, directives: &[Text]) -> Context<'a>
        ensures around { around_of result.around ≡ in_code (forest (map directive directives.now)) (around_of self.entry.around) }
        ensures levels { result.levels ≡ self.entry.levels }
    {
        let is_strict = self.around.is_strict || makes_strict(directives);
        let around = Around {
            is_strict,
            ..self.around
        };
        Context { around, ..self }
    }

    /// The same in a class, all parts of which are strict code (ECMA-262 section 11.2.2).
    pub fn of_class(self) -> Context<'a>
        ensures around { around_of result.around ≡ enter none InClassCode (around_of self.entry.around) }
        ensures levels { result.levels ≡ self.entry.levels }
    {
        let around = Around {
            is_strict: true,
            ..self.around
        };
        Context { around, ..self }
    }

    /// The same in the members of a class, with `extends` or without (ECMA-262 section 15.7).
    pub fn of_members(self, is_derived: bool) -> Context<'a>
        ensures around { around_of result.around ≡ in_members is_derived (around_of self.entry.around) }
        ensures levels { result.levels ≡ self.entry.levels }
    {
        let around = Around {
            is_strict: true,
            is_derived,
            ..self.around
        };
        Context { around, ..self }
    }

    /// The same in the body of a loop.
    pub fn of_loop(self) -> Context<'a>
        ensures around { around_of result.around ≡ record (around_of self.entry.around) { loop = true; breakable = true } }
        ensures levels { result.levels ≡ self.entry.levels }
    {
        let around = Around {
            in_loop: true,
            breakable: true,
            ..self.around
        };
        Context { around, ..self }
    }
}
