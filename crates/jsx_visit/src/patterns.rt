//! Patterns and keys.

ghost use Rattle.std.specs.Prelude.{◌≡◌, OnOk, cond, map};
ghost use Rattle.jsx_tree.specs.Kinds.{Binds, Assigns};
ghost use Rattle.jsx_tree.specs.View.{inside, view_pattern, view_key, optional_at_of};
ghost use Rattle.jsx_tree.specs.Told.{told_pat, told_key, told_optional};
ghost use Rattle.jsx_visit.specs.Visit.{visited, changed_target};
ghost use Rattle.jsx_visit.specs.Parts.{is_pair, but_pair, but_half, with_half, seen_at, kept, kept_each};

use crate::visitor::Visitor;
use crate::walk::Walker;
use jsx_tree::{Key, Pat};
use std::alloc::AllocError;

/// Whether a pattern is a target in parentheses.
#[tactic(auto, using(crate::proofs::Visits::visits))]
fn has_pair(pattern: &Pat<'_>) -> bool
    ensures binds { result ≡ is_pair (view_pattern pattern.now Binds) }
    ensures assigns { result ≡ is_pair (view_pattern pattern.now Assigns) }
{
    match pattern {
        Pat::Paren(..) => true,
        _ => false,
    }
}

impl Walker {
    /// A target in parentheses, after what stands in them.
    fn closed<V: Visitor>(
        self,
        visitor: &mut V,
        paired: bool,
        pattern: &mut Box<Pat<'_>>,
    ) -> Result<(), AllocError>
        ensures binds { OnOk result (view_pattern pattern.new.value Binds ≡ cond paired (changed_target V.made (view_pattern pattern.old.value Binds)) (view_pattern pattern.old.value Binds)) }
        ensures assigns { OnOk result (view_pattern pattern.new.value Assigns ≡ cond paired (changed_target V.made (view_pattern pattern.old.value Assigns)) (view_pattern pattern.old.value Assigns)) }
        ensures places { OnOk result (kept V.keeps (told_pat pattern.new.value) ≡ kept V.keeps (told_pat pattern.old.value)) }
    {
        if paired {
            return visitor.target(self.alloc, pattern);
        }
        Ok(())
    }

    /// A pattern, after its parts.
    #[cycle(walk)]
    pub(crate) fn pattern<V: Visitor>(
        self,
        visitor: &mut V,
        pattern: &mut Box<Pat<'_>>,
    ) -> Result<(), AllocError>
        ensures binds { OnOk result (view_pattern pattern.new.value Binds ≡ visited V.made (view_pattern pattern.old.value Binds)) }
        ensures assigns { OnOk result (view_pattern pattern.new.value Assigns ≡ visited V.made (view_pattern pattern.old.value Assigns)) }
        ensures places { OnOk result (kept V.keeps (told_pat pattern.new.value) ≡ kept V.keeps (told_pat pattern.old.value)) }
    {
        let paired = has_pair(pattern);
        let below = self.below()?;
        below.parts_of_pattern(visitor, pattern)?;
        self.closed(visitor, paired, pattern)
    }

    #[cycle(walk)]
    fn parts_of_pattern<V: Visitor>(
        self,
        visitor: &mut V,
        pattern: &mut Pat<'_>,
    ) -> Result<(), AllocError>
        ensures binds { OnOk result (view_pattern pattern.new Binds ≡ but_pair V.made (view_pattern pattern.old Binds)) }
        ensures assigns { OnOk result (view_pattern pattern.new Assigns ≡ but_pair V.made (view_pattern pattern.old Assigns)) }
        ensures places { OnOk result (kept V.keeps (told_pat pattern.new) ≡ kept V.keeps (told_pat pattern.old)) }
    {
        self.second_of_pattern(visitor, pattern)?;
        self.first_of_pattern(visitor, pattern)
    }

    #[cycle(walk)]
    #[tactic(auto, using(crate::proofs::Visits::visits))]
    fn first_of_pattern<V: Visitor>(
        self,
        visitor: &mut V,
        pattern: &mut Pat<'_>,
    ) -> Result<(), AllocError>
        ensures binds { OnOk result (view_pattern pattern.new Binds ≡ but_half V.made (view_pattern pattern.old Binds)) }
        ensures assigns { OnOk result (view_pattern pattern.new Assigns ≡ but_half V.made (view_pattern pattern.old Assigns)) }
        ensures places { OnOk result (kept V.keeps (told_pat pattern.new) ≡ kept V.keeps (told_pat pattern.old)) }
    {
        match pattern {
            Pat::Array(_, items) => self.patterns(visitor, items),
            Pat::Object(_, items) => self.patterns(visitor, items),
            Pat::Target(expr) => self.expr(visitor, expr),
            Pat::Paren(_, target) => self.pattern(visitor, target),
            Pat::Binding(_, target, _) => self.pattern(visitor, target),
            Pat::WithInit(_, target, _) => self.pattern(visitor, target),
            Pat::Rest(_, target) => self.pattern(visitor, target),
            Pat::Pair(_, key, _) => self.key(visitor, key),
            Pat::Declaration(_, _, declarators) => self.patterns(visitor, declarators),
            Pat::Head(_, _, target) => self.pattern(visitor, target),
            Pat::Ident(..) | Pat::Hole | Pat::Shorthand(..) | Pat::RestProperty(..) => Ok(()),
        }
    }

    #[cycle(walk)]
    #[tactic(auto, using(crate::proofs::Visits::visits))]
    fn second_of_pattern<V: Visitor>(
        self,
        visitor: &mut V,
        pattern: &mut Pat<'_>,
    ) -> Result<(), AllocError>
        ensures binds { OnOk result (view_pattern pattern.new Binds ≡ with_half V.made (view_pattern pattern.old Binds)) }
        ensures assigns { OnOk result (view_pattern pattern.new Assigns ≡ with_half V.made (view_pattern pattern.old Assigns)) }
        ensures places { OnOk result (kept V.keeps (told_pat pattern.new) ≡ kept V.keeps (told_pat pattern.old)) }
    {
        match pattern {
            Pat::Binding(_, _, value) => self.optional(visitor, value),
            Pat::WithInit(_, _, value) => self.expr(visitor, value),
            Pat::Pair(_, _, target) => self.pattern(visitor, target),
            Pat::Shorthand(_, _, value) => self.optional(visitor, value),
            _ => Ok(()),
        }
    }

    #[cycle(walk)]
    pub(crate) fn patterns<V: Visitor>(
        self,
        visitor: &mut V,
        patterns: &mut Vec<Box<Pat<'_>>>,
    ) -> Result<(), AllocError>
        ensures binds { OnOk result (map (seen_at Binds) patterns.new.items ≡ map (visited V.made) (map (seen_at Binds) patterns.old.items)) }
        ensures assigns { OnOk result (map (seen_at Assigns) patterns.new.items ≡ map (visited V.made) (map (seen_at Assigns) patterns.old.items)) }
        ensures places { OnOk result (kept_each V.keeps (inside told_pat) patterns.new.items ≡ kept_each V.keeps (inside told_pat) patterns.old.items) }
    {
        for pattern in patterns.iter_mut() {
            self.pattern(visitor, pattern)?;
        }
        Ok(())
    }

    #[cycle(walk)]
    #[tactic(auto, using(crate::proofs::Visits::visits))]
    pub(crate) fn key<V: Visitor>(
        self,
        visitor: &mut V,
        key: &mut Key<'_>,
    ) -> Result<(), AllocError>
        ensures seen { OnOk result (view_key key.new ≡ visited V.made (view_key key.old)) }
        ensures places { OnOk result (kept V.keeps (told_key key.new) ≡ kept V.keeps (told_key key.old)) }
    {
        match key {
            Key::Computed(_, expr) => self.expr(visitor, expr),
            Key::Name(..) | Key::Literal(..) => Ok(()),
        }
    }

    #[cycle(walk)]
    #[tactic(auto, using(crate::proofs::Visits::visits))]
    pub(crate) fn optional_pattern<V: Visitor>(
        self,
        visitor: &mut V,
        pattern: &mut Option<Box<Pat<'_>>>,
    ) -> Result<(), AllocError>
        ensures binds { OnOk result (optional_at_of Binds view_pattern pattern.new ≡ visited V.made (optional_at_of Binds view_pattern pattern.old)) }
        ensures assigns { OnOk result (optional_at_of Assigns view_pattern pattern.new ≡ visited V.made (optional_at_of Assigns view_pattern pattern.old)) }
        ensures places { OnOk result (kept V.keeps (told_optional told_pat pattern.new) ≡ kept V.keeps (told_optional told_pat pattern.old)) }
    {
        match pattern {
            Some(pattern) => self.pattern(visitor, pattern),
            None => Ok(()),
        }
    }
}
