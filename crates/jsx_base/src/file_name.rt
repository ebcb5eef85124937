//! The names of files.

ghost use Rattle.std.specs.Prelude.{◌≡◌, IfOk, Some};
ghost use Rattle.jsx_base.specs.FileName.{name_of, shown_name};

use std::alloc::{AllocError, Global};
use std::fmt;

/// What a text is called.
#[derive(Debug, PartialEq, Eq, PartialOrd, Ord, Hash, Drop)]
pub enum FileName {
    /// A file of the outside.
    Real(String),
    /// A text of the compiler's own.
    Internal(String),
    /// A text of the caller's.
    Custom(String),
    /// A text without a name.
    Anon,
}

impl fmt::Display for FileName {
    ghost output = { λ name. Some (shown_name name) };

    fn fmt<W: fmt::Write>(&self, f: &mut fmt::Formatter<W>) -> fmt::Result {
        match self {
            FileName::Real(text) => f.write_str(text.as_str()),
            FileName::Internal(text) | FileName::Custom(text) => write!(f, "<{text}>"),
            FileName::Anon => f.write_str("<anon>"),
        }
    }
}

impl FileName {
    /// An equal one.
    ///
    /// # Errors
    ///
    /// `AllocError` for want of memory.
    pub fn try_clone(&self, alloc: Global) -> Result<FileName, AllocError>
        ensures { IfOk result (λ copy. name_of copy ≡ name_of self.now) }
    {
        Ok(match self {
            FileName::Real(text) => FileName::Real(String::from_str(alloc, text.as_str())?),
            FileName::Internal(text) => FileName::Internal(String::from_str(alloc, text.as_str())?),
            FileName::Custom(text) => FileName::Custom(String::from_str(alloc, text.as_str())?),
            FileName::Anon => FileName::Anon,
        })
    }
}

#[cfg(test)]
mod tests {
    use super::*;

    fn is_shown(alloc: Global, name: &FileName, want: &str) -> Result<bool, AllocError> {
        let shown = name.to_string(alloc)?;
        Ok(shown.as_str() == want)
    }

    fn copy_of_a_file_is_bare(alloc: Global) -> Result<bool, AllocError> {
        let real = FileName::Real(String::from_str(alloc, "a.js")?);
        let copy = real.try_clone(alloc)?;
        is_shown(alloc, &copy, "a.js")
    }

    fn made_name_stands_in_brackets(alloc: Global) -> Result<bool, AllocError> {
        let made = FileName::Internal(String::from_str(alloc, "made")?);
        is_shown(alloc, &made, "<made>")
    }

    #[test]
    fn names_that_are_no_files_stand_in_angle_brackets(rt: HostRuntime) {
        assert!(rt; copy_of_a_file_is_bare(rt.alloc()) == Ok(true));
        assert!(rt; made_name_stands_in_brackets(rt.alloc()) == Ok(true));
        assert!(rt; is_shown(rt.alloc(), &FileName::Anon, "<anon>") == Ok(true));
    }
}
