//! Comments in memory.

ghost use Rattle.std.specs.Prelude.{◌≡◌, ◌↔◌, ℕ, [], ◌∷◌, ◌++◌, map, cond, nat_eq, IsTrue, OnOk, OnErr};
ghost use Rattle.std.specs.List.{Any};
ghost use Rattle.std.specs.Ordering.{nat_cmp};
ghost use Rattle.std.specs.BTreeMap.{get};
ghost use Rattle.std.specs.Str.Iter.{HasSubslice};
ghost use Rattle.jsx_base.specs.Comments.{comment_data, held};

use crate::{BytePos, Comment, Comments};
use std::alloc::{AllocError, Global};
use std::collections::{BTreeMap, BTreeSet};
use std::marker::Model;

/// Comments in memory. Each call but `any_contains` takes time by the logarithm of the number of
/// places.
#[derive(Debug, Drop)]
pub struct SingleThreadedComments {
    leading: BTreeMap<u32, Vec<Comment>>,
    pure_places: BTreeSet<u32>,
}

impl Model for SingleThreadedComments {
    ghost use Rattle.std.specs.Prelude.{map};
    ghost use Rattle.jsx_base.specs.Comments.{PlacedComments, entry_data};

    ghost Value = { PlacedComments };

    ghost view = { λ c. record { lists = map entry_data c.leading.entries; marked = c.pure_places.keys } };
}

impl SingleThreadedComments {
    /// No comments and no marks. It takes no memory.
    pub fn new(alloc: Global) -> SingleThreadedComments
        ensures comments { result.lists ≡ [] }
        ensures marks { result.marked ≡ [] }
    {
        SingleThreadedComments {
            leading: BTreeMap::new(alloc),
            pure_places: BTreeSet::new(alloc),
        }
    }
}

impl Comments for SingleThreadedComments {
    ghost lists = { λ comments. comments.lists };

    ghost marked = { λ comments. comments.marked };

    fn leading(&self, pos: BytePos) -> &[Comment] {
        match self.leading.get(&pos.0) {
            Some(comments) => comments,
            None => &[],
        }
    }

    fn add_leading(&mut self, pos: BytePos, c: Comment) -> Result<(), AllocError> {
        add_comment(&mut self.leading, pos.0, c)?;
        Ok(())
    }

    fn add_pure_comment(&mut self, pos: BytePos) -> Result<(), AllocError> {
        self.pure_places.insert(pos.0)?;
        Ok(())
    }

    fn has_pure(&self, pos: BytePos) -> bool {
        self.pure_places.contains(&pos.0)
    }

    fn any_contains(&self, text: &str) -> bool {
        self.leading
            .values()
            .any(|comments| one_contains(comments, text))
    }
}

// Adds a comment behind those of a place.
fn add_comment(
    leading: &mut BTreeMap<u32, Vec<Comment>>,
    place: u32,
    c: Comment,
) -> Result<(), AllocError>
    ensures added { OnOk result ((q : ℕ) → held (get nat_cmp leading.new q)
        ≡ cond (nat_eq place q) (held (get nat_cmp leading.old q) ++ comment_data c ∷ []) (held (get nat_cmp leading.old q))) }
    ensures kept { OnErr result ((q : ℕ) → held (get nat_cmp leading.new q) ≡ held (get nat_cmp leading.old q)) }
{
    leading.entry(place)?.or_default().push(c)?;
    Ok(())
}

// Whether the text stands in one of these comments.
fn one_contains(comments: &[Comment], text: &str) -> bool
    ensures { IsTrue result ↔ Any (λ comment. HasSubslice comment.text text.now) (map comment_data comments.now) }
{
    for comment in comments {
        if comment.text.as_str().contains(text) {
            return true;
        }
    }
    false
}
