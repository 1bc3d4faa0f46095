//! Stacks of one frame, and entries.
ghost use Rattle.std.specs.Prelude.{◌≡◌, ◌∷◌, []};
ghost use Rattle.dim_rag.specs.declared.entry.Entry.TheVariants as entry;

use dim_base::{Lid, Tid};
use dim_rag::{Births, Entry, Why};
use dim_stack::{Frame, Stack};

/// The stack of one frame.
pub fn at(func: u32, offset: u32) -> Stack
    ensures { result ≡ record { func = func; at = offset } ∷ [] }
{
    Stack::new(&[Frame { func, at: offset }])
}

/// The stack of one frame of the function `left`.
pub fn left(offset: u32) -> Stack
    ensures { result ≡ record { func = 0; at = offset } ∷ [] }
{
    at(0, offset)
}

/// The stack of one frame of the function `right`.
pub fn right(offset: u32) -> Stack
    ensures { result ≡ record { func = 1; at = offset } ∷ [] }
{
    at(1, offset)
}

/// A thread may take a lock that it has asked for.
pub fn go(t: u32, l: u32, stack: Stack) -> Entry
    ensures { result ≡ entry.Go (record { 0 = t }) (record { 0 = l }) stack }
{
    Entry::Go {
        t: Tid(t),
        l: Lid(l),
        stack,
    }
}

/// A thread is held back because of a cover of signature 0 with these births.
pub fn yielded(t: u32, l: u32, births: [u32; 2], stack: Stack) -> Entry
    ensures { result ≡ entry.Yield (record { 0 = t }) (record { 0 = l }) stack 0 births }
{
    Entry::Yield {
        t: Tid(t),
        l: Lid(l),
        stack,
        sig: 0,
        births: Births::new(&births),
    }
}

/// A thread has a lock that it may take.
pub fn got(t: u32, l: u32) -> Entry
    ensures { result ≡ entry.Got (record { 0 = t }) (record { 0 = l }) }
{
    Entry::Got {
        t: Tid(t),
        l: Lid(l),
    }
}

/// A thread has taken a lock without having asked for it.
pub fn took(t: u32, l: u32, stack: Stack) -> Entry
    ensures { result ≡ entry.Took (record { 0 = t }) (record { 0 = l }) stack }
{
    Entry::Took {
        t: Tid(t),
        l: Lid(l),
        stack,
    }
}

/// A thread gives back a hold of a lock.
pub fn free(t: u32, l: u32) -> Entry
    ensures { result ≡ entry.Free (record { 0 = t }) (record { 0 = l }) }
{
    Entry::Free {
        t: Tid(t),
        l: Lid(l),
    }
}

/// A thread ends.
pub fn end(t: u32, why: Why) -> Entry
    ensures { result ≡ entry.End (record { 0 = t }) why }
{
    Entry::End { t: Tid(t), why }
}
