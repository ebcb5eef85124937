//! Places and spans.

ghost use Rattle.std.specs.Prelude.{◌≡◌, ◌≤◌, ◌↔◌, IsTrue, min, max};

/// A place: a number of bytes. A file's first byte has the place at which the file starts.
#[derive(Clone, Copy, Debug, PartialEq, Eq, PartialOrd, Ord, Hash)]
pub struct BytePos(pub u32);

/// A number of characters.
#[derive(Clone, Copy, Debug, PartialEq, Eq, PartialOrd, Ord, Hash)]
pub struct CharPos(pub usize);

/// From the byte at `lo` up to, and without, the byte at `hi`.
#[derive(Clone, Copy, Debug, PartialEq, Eq, PartialOrd, Ord, Hash)]
pub struct Span {
    pub lo: BytePos,
    pub hi: BytePos,
}

/// The span of what stands nowhere.
pub const DUMMY_SP: Span = Span {
    lo: BytePos(0),
    hi: BytePos(0),
};

impl Span {
    /// The span between two places, in whatever order they come.
    pub fn new(a: BytePos, b: BytePos) -> Span
        ensures lo { result.lo.0 ≡ min a.0 b.0 }
        ensures hi { result.hi.0 ≡ max a.0 b.0 }
    {
        if a.0 <= b.0 {
            Span { lo: a, hi: b }
        } else {
            Span { lo: b, hi: a }
        }
    }

    /// Whether it is `DUMMY_SP`, from the place 0 to the place 0.
    pub fn is_dummy(self) -> bool
        ensures dummy { IsTrue result ↔ (self ≡ DUMMY_SP) }
        ensures zero { IsTrue result ↔ ((self.lo.0 ≡ 0) × (self.hi.0 ≡ 0)) }
    {
        self == DUMMY_SP
    }

    /// The least span that holds both.
    pub fn to(self, end: Span) -> Span
        ensures lo { result.lo.0 ≡ min self.lo.0 end.lo.0 }
        ensures hi { result.hi.0 ≡ max self.hi.0 end.hi.0 }
    {
        Span {
            lo: self.lo.min(end.lo),
            hi: self.hi.max(end.hi),
        }
    }
}

/// What has a span.
pub trait Spanned {
    ghost use Rattle.jsx_base.specs.declared.place.Span.{Span};

    ghost span_of: { Self → Span };

    fn span(&self) -> Span
        ensures { result ≡ span_of self.now };
}
