//! Marks, which tell apart what has the same name, and the numbers that are still free.

ghost use Rattle.std.specs.Prelude.{◌≡◌, ◌+◌, ◌-◌, ◌^◌, ◌≤◌, ◌↔◌, IfOk, IfErr, IsErr, OnOk, OnErr};

use std::marker::Model;

/// A mark of its own for each thing that is to be told apart.
#[derive(Clone, Copy, Debug, PartialEq, Eq, PartialOrd, Ord, Hash)]
pub struct Mark(pub u32);

/// The mark of a name. 0 is no mark.
#[derive(Clone, Copy, Debug, PartialEq, Eq, PartialOrd, Ord, Hash)]
pub struct SyntaxContext(pub u32);

/// The marks of a program: of names that it binds at its top, and of those that it doesn't bind.
#[derive(Clone, Copy, Debug, PartialEq, Eq)]
pub struct Marks {
    pub top_level: Mark,
    pub unresolved: Mark,
}

/// Why a place or a mark wasn't given.
#[derive(Clone, Copy, Debug, PartialEq, Eq)]
pub enum BaseError {
    /// The text doesn't fit between the last file and the greatest place.
    TooLong,
    /// No mark is left.
    MarksSpent,
    /// Want of memory.
    Memory,
}

/// The next mark and the next place that are free.
#[derive(Debug, Drop)]
pub struct Globals {
    next_mark: u32,
    next_pos: u32,
}

impl Model for Globals {
    ghost use Rattle.std.specs.Prelude.{◌≤◌};
    ghost use Rattle.jsx_base.specs.Globals.{FreeMarksAndPlaces};

    ghost Value = { FreeMarksAndPlaces };

    ghost view = { λ globals. record { next_mark = globals.next_mark; next_pos = globals.next_pos } };

    ghost invariant = { λ globals. 1 ≤ globals.next_mark };
}

impl Globals {
    /// Mark 1 and place 1 come first.
    pub fn new() -> Globals
        ensures mark { result.next_mark ≡ 1 }
        ensures place { result.next_pos ≡ 1 }
    {
        Globals {
            next_mark: 1,
            next_pos: 1,
        }
    }

    /// These come first.
    pub fn with(next_mark: u32, next_pos: u32) -> Globals
        requires { 1 ≤ next_mark }
        ensures mark { result.next_mark ≡ next_mark }
        ensures place { result.next_pos ≡ next_pos }
    {
        Globals {
            next_mark,
            next_pos,
        }
    }

    /// How many marks can still be given.
    pub fn marks_left(&self) -> u32
        ensures { result ≡ 2 ^ 32 - 1 - self.now.next_mark }
    {
        u32::MAX - self.next_mark
    }

    /// The next free place.
    pub fn next_pos(&self) -> u32
        ensures { result ≡ self.now.next_pos }
    {
        self.next_pos
    }

    // The next free place is this one, which doesn't lie before it.
    pub(crate) fn move_to(&mut self, next_pos: u32)
        ensures { self.new ≡ record self.old { next_pos = next_pos } }
    {
        self.next_pos = next_pos;
    }

    /// The next mark. It takes no memory.
    ///
    /// # Errors
    ///
    /// `MarksSpent` exactly where no mark is left. Then nothing has changed.
    pub fn fresh_mark(&mut self) -> Result<Mark, BaseError>
        ensures spent { IsErr result ↔ (2 ^ 32 - 1 - self.old.next_mark ≡ 0) }
        ensures cause { IfErr result (λ error. error ≡ BaseError.MarksSpent) }
        ensures mark { IfOk result (λ mark. mark.0 ≡ self.old.next_mark) }
        ensures next { OnOk result (self.new ≡ record self.old { next_mark = self.old.next_mark + 1 }) }
        ensures kept { OnErr result (self.new ≡ self.old) }
    {
        if self.next_mark == u32::MAX {
            return Err(BaseError::MarksSpent);
        }
        let mark = Mark(self.next_mark);
        self.next_mark += 1;
        Ok(mark)
    }
}

#[cfg(test)]
mod tests {
    use super::*;

    fn gives_one_mark(globals: &mut Globals) -> bool {
        globals.fresh_mark() == Ok(Mark(u32::MAX - 1))
            && globals.fresh_mark() == Err(BaseError::MarksSpent)
    }

    #[test]
    fn marks_come_in_order_until_they_are_spent(rt: HostRuntime) {
        let mut globals = Globals::with(u32::MAX - 1, 7);
        assert!(rt; globals.marks_left() == 1);
        assert!(rt; gives_one_mark(&mut globals));
        assert!(rt; globals.next_pos() == 7);
        assert!(rt; Globals::new().marks_left() == u32::MAX - 1);
    }
}
