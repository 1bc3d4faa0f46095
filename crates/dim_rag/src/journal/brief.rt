//! Entries in brief: what of them has a small size, and where the rest of them lies.
ghost use Rattle.std.specs.Prelude.{◌≡◌, IsTrue, List, ◌∷◌, [], ◌+◌, ◌<◌, ◌≤◌, ◌^◌, ◌++◌, ◌↔◌, length, vec_len, vec_capacity};
ghost use Rattle.dim_stack.specs.declared.Frame.{Frame};
ghost use Rattle.dim_rag.specs.declared.journal.brief.Cause.{Cause};
ghost use Rattle.dim_rag.specs.Shown.{HasStack, shown};
ghost use Rattle.dim_rag.specs.Yielded.{is_learn, yielded};
ghost use Rattle.dim_rag.specs.Fits.{IsInRange};
ghost use Rattle.dim_rag.specs.Journal.{frames_at, wide_at, thread, lock, AreIn, HasFrames, HasCause, HasWide, stack_of, causes_of, brief_of, entry_in_full};

use crate::births::Births;
use crate::entry::{Entry, Why};
use crate::entry_ref::EntryRef;
use dim_base::{Lid, Tid};
use dim_stack::Frame;
use std::mem::size_of;

/// Births that an entry names, and the number of the signature of which they are a cover. A Learn
/// names no signature, and has 0 there.
#[derive(Clone, Copy)]
pub struct Cause {
    pub sig: u32,
    pub births: Births,
}

/// An entry in brief. Its stack is `len` items of a list of frames, from the place `start` on, and
/// its cause is the number of an item of a list of these. Its thread and its lock have numbers below
/// 256; an entry of others is `Wide`: the number of an item of a list of entries in full.
///
/// What takes one byte stands first, since there it takes no room of its own.
#[derive(Clone, Copy)]
pub enum Brief {
    Went {
        len: u8,
        t: u8,
        l: u8,
        start: u32,
    },
    Yielded {
        len: u8,
        t: u8,
        l: u8,
        start: u32,
        cause: u32,
    },
    Obtained {
        t: u8,
        l: u8,
    },
    Freed {
        t: u8,
        l: u8,
    },
    Took {
        len: u8,
        t: u8,
        l: u8,
        start: u32,
    },
    MissedBusy {
        len: u8,
        t: u8,
        l: u8,
        start: u32,
        holder: Tid,
    },
    MissedAvoid {
        len: u8,
        t: u8,
        l: u8,
        start: u32,
        cause: u32,
    },
    Ended {
        t: u8,
        why: Why,
    },
    Broken {
        t: u8,
        set: u32,
    },
    Learnt {
        cause: u32,
    },
    Wide {
        number: u32,
    },
}

// An entry in brief takes at most 12 bytes.
const _: () = prove!(size_of::<Brief>() <= 12);

// A cause takes 144 bytes.
const _: () = prove!(size_of::<Cause>() == 144);

/// The number of a thread or a lock in a byte.
fn byte_of(number: u32) -> u8
    requires { number < 256 }
    ensures { result ≡ number }
{
    number as u8
}

/// The thread whose number is in a byte.
fn thread(t: u8) -> Tid
    ensures { result ≡ thread t }
{
    Tid(u32::from(t))
}

/// The lock whose number is in a byte.
fn lock(l: u8) -> Lid
    ensures { result ≡ lock l }
{
    Lid(u32::from(l))
}

/// Puts the frames of a stack behind the others, in the room that is there. It answers the place of
/// the first.
fn keep_stack(frames: &mut Vec<Frame>, stack: &[Frame]) -> u32
    requires room { vec_len frames.old + 32 ≤ vec_capacity frames.old }
    requires few { vec_len frames.old < 2 ^ 32 }
    requires some { 1 ≤ length stack.now }
    requires short { length stack.now ≤ 32 }
    ensures items { frames.new.items ≡ frames.old.items ++ stack.now }
    ensures capacity { vec_capacity frames.old ≤ vec_capacity frames.new }
    ensures start { result ≡ length frames.old.items }
    ensures within { AreIn (length frames.new.items) result (length stack.now) }
{
    let start = frames.len() as u32;
    let _kept = frames.extend_from_slice(stack);
    start
}

/// Puts a cause behind the others, in the room that is there. It answers its number.
fn keep_cause(causes: &mut Vec<Cause>, sig: u32, births: &Births) -> u32
    requires room { vec_len causes.old < vec_capacity causes.old }
    requires few { vec_len causes.old < 2 ^ 32 }
    ensures items { causes.new.items
        ≡ causes.old.items ++ record { sig = sig; births = births.now } ∷ [] }
    ensures capacity { vec_capacity causes.old ≤ vec_capacity causes.new }
    ensures number { result ≡ length causes.old.items }
{
    let number = causes.len() as u32;
    causes.push_reserved(Cause {
        sig,
        births: *births,
    });
    number
}

/// An entry in brief. Its frames and its cause are put behind the others, in the room that is
/// there.
///
/// It is inlined, so that the kind of an entry is asked for once where it is known.
#[inline(always)]
#[tactic(auto, using(crate::proofs::Briefs::none_more))]
pub fn brief_of(frames: &mut Vec<Frame>, causes: &mut Vec<Cause>, e: &EntryRef<'_>) -> Brief
    requires stack { HasStack e.now }
    requires narrow { IsInRange 256 256 (shown e.now) }
    requires frames_room { vec_len frames.old + 32 ≤ vec_capacity frames.old }
    requires causes_room { vec_len causes.old < vec_capacity causes.old }
    requires few_frames { vec_len frames.old < 2 ^ 32 }
    requires few { vec_len causes.old < 2 ^ 32 }
    ensures frames { frames.new.items ≡ frames.old.items ++ stack_of (shown e.now) }
    ensures causes { causes.new.items ≡ causes.old.items ++ causes_of (shown e.now) }
    ensures frames_capacity { vec_capacity frames.old ≤ vec_capacity frames.new }
    ensures causes_capacity { vec_capacity causes.old ≤ vec_capacity causes.new }
    ensures value { result
        ≡ brief_of (length frames.old.items) (length causes.old.items) (shown e.now) }
    ensures has_frames { HasFrames (length frames.new.items) result }
    ensures has_cause { HasCause (length causes.new.items) result }
    ensures short { length (stack_of (shown e.now)) ≤ 32 }
{
    match e {
        EntryRef::Go { t, l, stack } => Brief::Went {
            len: stack.len() as u8,
            t: byte_of(t.0),
            l: byte_of(l.0),
            start: keep_stack(frames, stack),
        },
        EntryRef::Yield {
            t,
            l,
            stack,
            sig,
            births,
        } => Brief::Yielded {
            len: stack.len() as u8,
            t: byte_of(t.0),
            l: byte_of(l.0),
            start: keep_stack(frames, stack),
            cause: keep_cause(causes, *sig, births),
        },
        EntryRef::Got { t, l } => Brief::Obtained {
            t: byte_of(t.0),
            l: byte_of(l.0),
        },
        EntryRef::Free { t, l } => Brief::Freed {
            t: byte_of(t.0),
            l: byte_of(l.0),
        },
        EntryRef::Took { t, l, stack } => Brief::Took {
            len: stack.len() as u8,
            t: byte_of(t.0),
            l: byte_of(l.0),
            start: keep_stack(frames, stack),
        },
        EntryRef::MissBusy {
            t,
            l,
            stack,
            holder,
        } => Brief::MissedBusy {
            len: stack.len() as u8,
            t: byte_of(t.0),
            l: byte_of(l.0),
            start: keep_stack(frames, stack),
            holder: *holder,
        },
        EntryRef::MissAvoid {
            t,
            l,
            stack,
            sig,
            births,
        } => Brief::MissedAvoid {
            len: stack.len() as u8,
            t: byte_of(t.0),
            l: byte_of(l.0),
            start: keep_stack(frames, stack),
            cause: keep_cause(causes, *sig, births),
        },
        EntryRef::End { t, why } => Brief::Ended {
            t: byte_of(t.0),
            why: *why,
        },
        EntryRef::Break { set, t } => Brief::Broken {
            t: byte_of(t.0),
            set: *set,
        },
        EntryRef::Learn { births } => Brief::Learnt {
            cause: keep_cause(causes, 0, births),
        },
    }
}

/// The frames of a stack, 1 to 32 of them, from a place on.
fn frames_at(frames: &[Frame], start: u32, len: u8) -> &[Frame]
    requires { AreIn (length frames.now) start len }
    ensures value { result.now ≡ frames_at frames.now start len }
    ensures some { 1 ≤ length result.now }
    ensures few { length result.now ≤ 32 }
{
    let start = start as usize;
    &frames[start..start + usize::from(len)]
}

/// The entry in full with a number, by reference.
///
/// It is inlined, since what a function answers lies in memory, and the entries that aren't kept in
/// full would lie there too.
#[inline(always)]
fn wide_at(wide: &[Entry], number: u32) -> EntryRef<'_>
    requires { number < length wide.now }
    ensures entry { shown result ≡ wide_at wide.now number }
    ensures stack { HasStack result }
{
    EntryRef::of(&wide[number as usize])
}

/// The entry that a brief one stands for, by reference.
///
/// It is inlined, so that the kind of an entry is asked for once where it is looked at.
#[inline(always)]
pub fn look<'a>(
    frames: &'a [Frame],
    causes: &'a [Cause],
    wide: &'a [Entry],
    brief: &Brief,
) -> EntryRef<'a>
    requires has_frames { HasFrames (length frames.now) brief.now }
    requires has_cause { HasCause (length causes.now) brief.now }
    requires has_wide { HasWide (length wide.now) brief.now }
    ensures entry { shown result ≡ entry_in_full frames.now causes.now wide.now brief.now }
    ensures stack { HasStack result }
{
    match brief {
        Brief::Went { len, t, l, start } => EntryRef::Go {
            t: thread(*t),
            l: lock(*l),
            stack: frames_at(frames, *start, *len),
        },
        Brief::Yielded {
            len,
            t,
            l,
            start,
            cause,
        } => {
            let cause = &causes[*cause as usize];
            EntryRef::Yield {
                t: thread(*t),
                l: lock(*l),
                stack: frames_at(frames, *start, *len),
                sig: cause.sig,
                births: &cause.births,
            }
        }
        Brief::Obtained { t, l } => EntryRef::Got {
            t: thread(*t),
            l: lock(*l),
        },
        Brief::Freed { t, l } => EntryRef::Free {
            t: thread(*t),
            l: lock(*l),
        },
        Brief::Took { len, t, l, start } => EntryRef::Took {
            t: thread(*t),
            l: lock(*l),
            stack: frames_at(frames, *start, *len),
        },
        Brief::MissedBusy {
            len,
            t,
            l,
            start,
            holder,
        } => EntryRef::MissBusy {
            t: thread(*t),
            l: lock(*l),
            stack: frames_at(frames, *start, *len),
            holder: *holder,
        },
        Brief::MissedAvoid {
            len,
            t,
            l,
            start,
            cause,
        } => {
            let cause = &causes[*cause as usize];
            EntryRef::MissAvoid {
                t: thread(*t),
                l: lock(*l),
                stack: frames_at(frames, *start, *len),
                sig: cause.sig,
                births: &cause.births,
            }
        }
        Brief::Ended { t, why } => EntryRef::End {
            t: thread(*t),
            why: *why,
        },
        Brief::Broken { t, set } => EntryRef::Break {
            set: *set,
            t: thread(*t),
        },
        Brief::Learnt { cause } => EntryRef::Learn {
            births: &causes[*cause as usize].births,
        },
        Brief::Wide { number } => wide_at(wide, *number),
    }
}

/// The entry that a brief one stands for.
pub fn entry_in_full(frames: &[Frame], causes: &[Cause], wide: &[Entry], brief: &Brief) -> Entry
    requires has_frames { HasFrames (length frames.now) brief.now }
    requires has_cause { HasCause (length causes.now) brief.now }
    requires has_wide { HasWide (length wide.now) brief.now }
    ensures { result ≡ entry_in_full frames.now causes.now wide.now brief.now }
{
    look(frames, causes, wide, brief).entry()
}

/// Whether a brief entry stands for a Learn.
pub fn is_learn(wide: &[Entry], brief: &Brief) -> bool
    requires { HasWide (length wide.now) brief.now }
    ensures { (fs : List Frame) (cs : List Cause) → is_learn (entry_in_full fs cs wide.now brief.now) ≡ result }
{
    match brief {
        Brief::Learnt { .. } => true,
        Brief::Wide { number } => matches!(&wide[*number as usize], Entry::Learn { .. }),
        _ => false,
    }
}

/// The number of the signature that a brief entry names, where it stands for a Yield.
pub fn yielded(causes: &[Cause], wide: &[Entry], brief: &Brief) -> Option<u32>
    requires has_cause { HasCause (length causes.now) brief.now }
    requires has_wide { HasWide (length wide.now) brief.now }
    ensures { (fs : List Frame) → yielded (entry_in_full fs causes.now wide.now brief.now) ≡ result }
{
    match brief {
        Brief::Yielded { cause, .. } => Some(causes[*cause as usize].sig),
        Brief::Wide { number } => yielded_in_full(&wide[*number as usize]),
        _ => None,
    }
}

/// The number of the signature that an entry names, where it is a Yield.
fn yielded_in_full(e: &Entry) -> Option<u32>
    ensures { result ≡ yielded e.now }
{
    match e {
        Entry::Yield { sig, .. } => Some(*sig),
        _ => None,
    }
}

/// Whether the thread and the lock of an entry have numbers below 256, where it has them.
pub fn is_narrow(e: &EntryRef<'_>) -> bool
    ensures { IsTrue result ↔ IsInRange 256 256 (shown e.now) }
{
    match e {
        EntryRef::Go { t, l, .. }
        | EntryRef::Yield { t, l, .. }
        | EntryRef::Got { t, l }
        | EntryRef::Free { t, l }
        | EntryRef::Took { t, l, .. }
        | EntryRef::MissBusy { t, l, .. }
        | EntryRef::MissAvoid { t, l, .. } => t.0 < 256 && l.0 < 256,
        EntryRef::End { t, .. } | EntryRef::Break { t, .. } => t.0 < 256,
        EntryRef::Learn { .. } => true,
    }
}
