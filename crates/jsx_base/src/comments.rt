//! Comments, and the marks of calls that are free of effects.

ghost use Rattle.std.specs.Prelude.{◌≡◌, ◌+◌, ◌↔◌, ◌||◌, List, ℕ, [], map, length, cond, nat_eq, IsTrue, IfOk, OnOk, OnErr};
ghost use Rattle.jsx_base.specs.Comments.{comment_data, Lists, comments_at, AddsComment, SameComments, SomeContains, is_marked};

mod single_threaded;

use crate::{BytePos, Span};
pub use single_threaded::SingleThreadedComments;
use std::alloc::{AllocError, Global};

/// How a comment is written.
#[derive(Clone, Copy, Debug, PartialEq, Eq, Hash)]
pub enum CommentKind {
    /// From `//` to the line's end.
    Line,
    /// Between `/*` and `*/`.
    Block,
}

/// A comment of a text.
#[derive(Debug, PartialEq, Eq, Hash, Drop)]
pub struct Comment {
    pub kind: CommentKind,
    pub span: Span,
    /// What stands behind `//`, or between `/*` and `*/`.
    pub text: String,
}

impl Comment {
    /// An equal one.
    ///
    /// # Errors
    ///
    /// `AllocError` for want of memory.
    pub fn try_clone(&self, alloc: Global) -> Result<Comment, AllocError>
        ensures { IfOk result (λ copy. comment_data copy ≡ comment_data self.now) }
    {
        Ok(Comment {
            kind: self.kind,
            span: self.span,
            text: String::from_str(alloc, self.text.as_str())?,
        })
    }
}

/// The comments of a text by the place of the token that they lead, and the places of the calls
/// that are marked as free of effects.
pub trait Comments {
    /// The places that comments lead, each with its comments in order.
    ghost lists: { Self → Lists };

    /// The places that are marked.
    ghost marked: { Self → List ℕ };

    /// The comments that lead the token at a place, in order.
    fn leading(&self, pos: BytePos) -> &[Comment]
        ensures { map comment_data result.now ≡ comments_at (lists self.now) pos.0 };

    /// Adds a comment behind those that lead the token at a place.
    ///
    /// # Errors
    ///
    /// `AllocError` for want of memory. Then nothing has changed.
    fn add_leading(&mut self, pos: BytePos, c: Comment) -> Result<(), AllocError>
        ensures added { OnOk result (AddsComment pos.0 (comment_data c) (lists self.old) (lists self.new)) }
        ensures kept { OnErr result (SameComments (lists self.old) (lists self.new)) }
        ensures marks { marked self.new ≡ marked self.old };

    /// Marks a place, if it isn't marked already.
    ///
    /// # Errors
    ///
    /// `AllocError` for want of memory. Then nothing has changed.
    fn add_pure_comment(&mut self, pos: BytePos) -> Result<(), AllocError>
        ensures marked { OnOk result ((q : ℕ) → is_marked (marked self.new) q ≡ (nat_eq pos.0 q || is_marked (marked self.old) q)) }
        ensures once { OnOk result (length (marked self.new) ≡ length (marked self.old) + cond (is_marked (marked self.old) pos.0) 0 1) }
        ensures kept { OnErr result (marked self.new ≡ marked self.old) }
        ensures comments { SameComments (lists self.old) (lists self.new) };

    /// Whether a place is marked.
    fn has_pure(&self, pos: BytePos) -> bool
        ensures { result ≡ is_marked (marked self.now) pos.0 };

    /// Whether the text stands in a comment of any place. It takes time by the bytes of all
    /// comments, and by those of the text for each comment.
    fn any_contains(&self, text: &str) -> bool
        ensures { IsTrue result ↔ SomeContains text.now (lists self.now) };
}

#[cfg(test)]
mod tests {
    use super::*;
    use crate::DUMMY_SP;

    fn block(alloc: Global, text: &str) -> Result<Comment, AllocError> {
        Ok(Comment {
            kind: CommentKind::Block,
            span: DUMMY_SP,
            text: String::from_str(alloc, text)?,
        })
    }

    // Adds a copy of a comment of this text.
    fn lead<C: Comments>(
        comments: &mut C,
        alloc: Global,
        pos: u32,
        text: &str,
    ) -> Result<(), AllocError> {
        let comment = block(alloc, text)?;
        comments.add_leading(BytePos(pos), comment.try_clone(alloc)?)
    }

    fn has_text(comment: Option<&Comment>, text: &str) -> bool {
        match comment {
            Some(comment) => comment.text.as_str() == text,
            None => false,
        }
    }

    // Whether these are the first and the last text that lead a place.
    fn ends_are<C: Comments>(comments: &C, pos: u32, first: &str, last: &str) -> bool {
        let list = comments.leading(BytePos(pos));
        has_text(list.first(), first) && has_text(list.last(), last)
    }

    fn lead_in_order<C: Comments>(comments: &mut C, alloc: Global) -> Result<(), AllocError> {
        lead(comments, alloc, 7, "one")?;
        lead(comments, alloc, 3, "two")?;
        lead(comments, alloc, 7, "three")
    }

    fn are_in_order<C: Comments>(comments: &C) -> bool {
        ends_are(comments, 7, "one", "three")
            && ends_are(comments, 3, "two", "two")
            && comments.leading(BytePos(4)).is_empty()
    }

    fn order_is_kept(alloc: Global) -> Result<bool, AllocError> {
        let mut comments = SingleThreadedComments::new(alloc);
        lead_in_order(&mut comments, alloc)?;
        Ok(are_in_order(&comments))
    }

    #[test]
    fn comments_lead_their_place_in_order(rt: HostRuntime) {
        assert!(rt; order_is_kept(rt.alloc()) == Ok(true));
    }

    fn has_each_text<C: Comments>(comments: &C) -> bool {
        comments.any_contains("@refresh reset")
            && comments.any_contains("b")
            && comments.any_contains("")
            && !comments.any_contains("reset b")
    }

    fn each_text_is_found(alloc: Global) -> Result<bool, AllocError> {
        let mut comments = SingleThreadedComments::new(alloc);
        lead(&mut comments, alloc, 9, "a @refresh reset")?;
        lead(&mut comments, alloc, 2, "b")?;
        Ok(has_each_text(&comments))
    }

    #[test]
    fn a_text_is_looked_for_in_every_comment(rt: HostRuntime) {
        assert!(rt; each_text_is_found(rt.alloc()) == Ok(true));
    }

    fn is_marked_alone<C: Comments>(comments: &C) -> bool {
        comments.has_pure(BytePos(5))
            && !comments.has_pure(BytePos(6))
            && comments.leading(BytePos(5)).is_empty()
            && !comments.any_contains("")
    }

    fn mark_stands_alone(alloc: Global) -> Result<bool, AllocError> {
        let mut comments = SingleThreadedComments::new(alloc);
        comments.add_pure_comment(BytePos(5))?;
        comments.add_pure_comment(BytePos(5))?;
        Ok(is_marked_alone(&comments))
    }

    #[test]
    fn a_mark_is_no_comment(rt: HostRuntime) {
        assert!(rt; mark_stands_alone(rt.alloc()) == Ok(true));
    }
}
