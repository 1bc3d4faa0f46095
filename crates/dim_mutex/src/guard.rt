//! The right to a value.
ghost use Rattle.std.specs.Prelude.{◌≡◌, true};
ghost use Rattle.dim_rag.specs.declared.entry.Mode.TheVariants.{Running};
ghost use Rattle.dim_mutex.specs.Standing.{holds, mode_of};
ghost use Rattle.dim_mutex.specs.Views.{opening, IsCallerOf};
ghost use Rattle.dim_mutex.specs.Steps.{Released};

use crate::caller::Caller;
use crate::domain::Domain;
use dim_base::Lid;
use std::sync::{MutexGuard, Wait};

/// The right to the value of an `Immune`, from when its lock was taken.
///
/// A guard that is only dropped lets the value go, and the gate's hold stays.
#[derive(Drop)]
pub struct Guard<'a, T> {
    pub(crate) l: Lid,
    pub(crate) value: MutexGuard<'a, T>,
}

impl<'a, T> Guard<'a, T> {
    /// The lock. Behind a call of `value` this tells it anew.
    pub fn lock(&self) -> Lid
        ensures { result ≡ self.now.l }
    {
        self.l
    }

    /// The value, to be changed. A proof then knows no more of which lock this is; behind `change`
    /// it does.
    pub fn value(&mut self) -> &mut T {
        &mut *self.value
    }

    /// The value, to be read.
    pub fn get(&self) -> &T {
        &*self.value
    }

    /// Changes the value. It stays the guard of this lock.
    pub fn change<F: FnOnce(&mut T)>(self, f: F) -> Guard<'a, T>
        requires { F.IsAlwaysCallable f }
        ensures { result.l ≡ self.entry.l }
    {
        let Self { l, mut value } = self;
        f(&mut *value);
        Guard { l, value }
    }

    /// Lets the value go, and gives the lock back. It may wait for the caller's turn at the gate.
    ///
    /// It needs a caller of the domain that runs and holds the lock; it then has room for the entry.
    pub fn release<R: Wait>(self, rt: &R, domain: &Domain, caller: &mut Caller)
        requires caller { IsCallerOf domain.now caller.old }
        requires held { holds self.l.0 caller.old.known ≡ true }
        requires runs { mode_of caller.old.known ≡ Running }
        ensures caller { IsCallerOf domain.now caller.new }
        ensures released { Released (opening domain.now) self.entry.l caller.old.known
            caller.new.known }
    {
        let Self { l, value } = self;
        drop(value);
        caller.give_back(rt, domain, l);
    }
}
