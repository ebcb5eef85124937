//! The ends of spans.

ghost use Rattle.std.specs.Prelude.{◌≡◌};
ghost use Rattle.std.specs.Option.{option_map};
ghost use Rattle.jsx_base.specs.Files.{Place};
ghost use Rattle.jsx_base.specs.Locs.{loc_data};
ghost use Rattle.jsx_base.specs.MultiSpan.{spans_of};
ghost use Rattle.jsx_draw.specs.Spots.{ends_in, held_in, primary_place};

use jsx_base::{Loc, MultiSpan, SourceMapper, Span};

/// Where the first primary span begins, if it is in a file.
pub fn place_of<'m, M: SourceMapper>(map: &'m M, spans: &MultiSpan) -> Option<Loc<'m>>
    ensures { option_map loc_data result ≡ primary_place (M.files map.now) (spans_of spans.now).primary }
{
    let span = spans.primary_span()?;
    let (first, _) = ends_of(map, span)?;
    Some(first)
}

/// The ends of a span that is no dummy, in its file.
pub fn ends_of<'m, M: SourceMapper>(map: &'m M, span: Span) -> Option<(Loc<'m>, Loc<'m>)>
    ensures { option_map {U = Place × Place} (λ it. (loc_data it.0, loc_data it.1)) result ≡ option_map (ends_in span) (held_in (M.files map.now) span) }
{
    if span.is_dummy() {
        return None;
    }
    let in_order = Span::new(span.lo, span.hi);
    let first = map.lookup_char_pos(in_order.lo)?;
    if first.file.end_pos.0 < in_order.hi.0 {
        return None;
    }
    let last = map.lookup_char_pos(in_order.hi)?;
    Some((first, last))
}
