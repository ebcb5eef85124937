//! Where pages go, and how much of them is shown.

/// At most so many lines of one text of a suggestion are shown.
pub const MAX_HIGHLIGHT_LINES: usize = 6;

/// At most so many texts of a suggestion are shown.
pub const MAX_SUGGESTIONS: usize = 4;

/// Whether styles are shown in colours. It changes nothing: a page is text alone.
#[derive(Clone, Copy, Debug, PartialEq, Eq)]
pub enum ColorConfig {
    Auto,
    Always,
    Never,
}

/// Where pages go.
#[derive(Drop)]
pub enum Destination<S> {
    Raw(S),
}

/// A place for pages that is lent.
#[derive(Drop)]
pub enum WritableDst<'a, S> {
    Raw(&'a mut S),
}
