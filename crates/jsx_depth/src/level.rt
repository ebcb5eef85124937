//! Levels that are left.

ghost use Rattle.std.specs.Prelude.{◌≡◌};
ghost use Rattle.jsx_depth.specs.Fits.{is_left, level_in};

/// How many levels are left within a node, if there are so many: one that counts takes one.
pub(crate) fn within(counts: bool, levels: u32) -> Option<u32>
    ensures { result ≡ level_in counts levels }
{
    if !counts {
        return Some(levels);
    }
    match levels {
        0 => None,
        _ => Some(levels - 1),
    }
}

/// Whether a name or a literal is within so many.
pub(crate) fn has_level(levels: u32) -> bool
    ensures { result ≡ is_left levels }
{
    match levels {
        0 => false,
        _ => true,
    }
}
