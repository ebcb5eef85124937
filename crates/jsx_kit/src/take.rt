//! Taking a value and leaving a dummy in its place.

ghost use Rattle.std.specs.Prelude.{◌≡◌, IfOk, OnOk, OnErr, IsOk, None, []};

use jsx_base::{DUMMY_SP, Span};
use std::alloc::{AllocError, Global};
use std::mem;

/// What has a dummy that can stand in a value's place.
pub trait Take: Drop {
    /// The value is the dummy.
    ghost is_dummy: { Self → Type 0 };

    /// Making a dummy takes no memory, so that no call is ever refused.
    ghost takes_no_memory: { Type 0 };

    /// A dummy.
    fn dummy(alloc: Global) -> Result<Self, AllocError>
    where
        Self: Sized,
        ensures dummy { IfOk result is_dummy }
        ensures sure { takes_no_memory → IsOk result };

    /// Hands the value out and leaves a dummy. An `Err` leaves the value as it was.
    fn take(&mut self, alloc: Global) -> Result<Self, AllocError>
    where
        Self: Sized,
        ensures taken { IfOk result (λ value. value ≡ self.old) }
        ensures left { OnOk result (is_dummy self.new) }
        ensures err { OnErr result (self.new ≡ self.old) }
        ensures sure { takes_no_memory → IsOk result }
    {
        let dummy = Self::dummy(alloc)?;
        Ok(mem::replace(self, dummy))
    }

    /// Puts what `op` makes of the value in its place. An `Err` leaves the value as it was, and `op` isn't called.
    final fn map_with_mut<F: FnOnce(Self) -> Self + Drop>(
        &mut self,
        alloc: Global,
        op: F,
    ) -> Result<(), AllocError>
    where
        Self: Sized,
        requires { F.pre op self.old }
        ensures mapped { OnOk result (F.post op self.old self.new) }
        ensures err { OnErr result (self.new ≡ self.old) }
        ensures sure { takes_no_memory → IsOk result }
    {
        let value = self.take(alloc)?;
        *self = op(value);
        Ok(())
    }
}

impl<T: Drop> Take for Option<T> {
    ghost is_dummy = { λ value. value ≡ None };

    ghost takes_no_memory = { Unit {0} };

    fn dummy(_alloc: Global) -> Result<Option<T>, AllocError> {
        Ok(None)
    }
}

/// A dummy box holds a dummy.
impl<T: Take> Take for Box<T> {
    ghost is_dummy = { λ value. T.is_dummy value.value };

    ghost takes_no_memory = { ⊥ };

    fn dummy(alloc: Global) -> Result<Box<T>, AllocError> {
        let inner = T::dummy(alloc)?;
        Ok(Box::new(alloc, inner)?)
    }
}

impl<T: Drop> Take for Vec<T> {
    ghost is_dummy = { λ value. value.items ≡ [] };

    ghost takes_no_memory = { Unit {0} };

    fn dummy(alloc: Global) -> Result<Vec<T>, AllocError> {
        Ok(Vec::new(alloc))
    }
}

impl Take for Span {
    ghost use Rattle.jsx_base.specs.declared.place.TheConstants.{DUMMY_SP};

    ghost is_dummy = { λ value. value ≡ DUMMY_SP };

    ghost takes_no_memory = { Unit {0} };

    fn dummy(_alloc: Global) -> Result<Span, AllocError> {
        Ok(DUMMY_SP)
    }
}
