//! Entries by reference.
ghost use Rattle.std.specs.Prelude.{◌≡◌, ◌≤◌, ◌↔◌, length, option_map, IfSome, IsTrue};
ghost use Rattle.dim_rag.specs.declared.entry.Entry.TheVariants.{Miss};
ghost use Rattle.dim_rag.specs.declared.entry.MissWhy.TheVariants.{Avoid};
ghost use Rattle.dim_rag.specs.Made.{entry_by};
ghost use Rattle.dim_rag.specs.Shown.{HasStack, shown};

use crate::births::Births;
use crate::command::{Command, Reply};
use crate::entry::{Entry, MissWhy, Named, Why, same_entry};
use dim_base::{Lid, Tid};
use dim_stack::{Frame, Stack};

/// An entry whose frames and births stay where they are kept, so that it is small. A contract says
/// which entry it shows (`shown`).
#[derive(Clone, Copy)]
pub enum EntryRef<'a> {
    Go {
        t: Tid,
        l: Lid,
        stack: &'a [Frame],
    },
    Yield {
        t: Tid,
        l: Lid,
        stack: &'a [Frame],
        sig: u32,
        births: &'a Births,
    },
    Got {
        t: Tid,
        l: Lid,
    },
    Free {
        t: Tid,
        l: Lid,
    },
    Took {
        t: Tid,
        l: Lid,
        stack: &'a [Frame],
    },
    /// A Miss at a lock that is held.
    MissBusy {
        t: Tid,
        l: Lid,
        stack: &'a [Frame],
        holder: Tid,
    },
    /// A Miss that would have completed a cover.
    MissAvoid {
        t: Tid,
        l: Lid,
        stack: &'a [Frame],
        sig: u32,
        births: &'a Births,
    },
    End {
        t: Tid,
        why: Why,
    },
    Break {
        set: u32,
        t: Tid,
    },
    Learn {
        births: &'a Births,
    },
}

impl<'a> EntryRef<'a> {
    /// An entry by reference.
    ///
    /// It is inlined, so that the kind of an entry is asked for once where it is known.
    #[inline(always)]
    pub fn of(e: &'a Entry) -> EntryRef<'a>
        ensures entry { shown result ≡ e.now }
        ensures stack { HasStack result }
    {
        match e {
            Entry::Go { t, l, stack } => EntryRef::Go {
                t: *t,
                l: *l,
                stack: frames_of(stack),
            },
            Entry::Yield {
                t,
                l,
                stack,
                sig,
                births,
            } => EntryRef::Yield {
                t: *t,
                l: *l,
                stack: frames_of(stack),
                sig: *sig,
                births,
            },
            Entry::Got { t, l } => EntryRef::Got { t: *t, l: *l },
            Entry::Free { t, l } => EntryRef::Free { t: *t, l: *l },
            Entry::Took { t, l, stack } => EntryRef::Took {
                t: *t,
                l: *l,
                stack: frames_of(stack),
            },
            Entry::Miss { t, l, stack, why } => EntryRef::of_miss(*t, *l, stack, why),
            Entry::End { t, why } => EntryRef::End { t: *t, why: *why },
            Entry::Break { set, t } => EntryRef::Break { set: *set, t: *t },
            Entry::Learn { births } => EntryRef::Learn { births },
        }
    }

    /// A Miss by reference.
    #[inline(always)]
    fn of_miss(t: Tid, l: Lid, stack: &'a Stack, why: &'a MissWhy) -> EntryRef<'a>
        ensures entry { shown result ≡ Miss t l stack.now why.now }
        ensures stack { HasStack result }
    {
        let stack = frames_of(stack);
        match why {
            MissWhy::Busy { holder } => EntryRef::MissBusy {
                t,
                l,
                stack,
                holder: *holder,
            },
            MissWhy::Avoid(named) => EntryRef::MissAvoid {
                t,
                l,
                stack,
                sig: named.sig,
                births: &named.births,
            },
        }
    }

    /// The entry that t's or the tender's command makes, by the reply to it, if it makes one.
    ///
    /// It is inlined, so that the kind of an entry is asked for once where it is known.
    #[inline(always)]
    pub fn by(t: Tid, cmd: &'a Command, reply: &'a Reply) -> Option<EntryRef<'a>>
        ensures entry { option_map shown result ≡ entry_by t cmd.now reply.now }
        ensures stack { IfSome result HasStack }
    {
        match (cmd, reply) {
            (Command::Request { l, stack }, Reply::Go) => Some(EntryRef::Go {
                t,
                l: *l,
                stack: frames_of(stack),
            }),
            (Command::Request { l, stack }, Reply::Yield(named)) => Some(EntryRef::Yield {
                t,
                l: *l,
                stack: frames_of(stack),
                sig: named.sig,
                births: &named.births,
            }),
            (Command::Acquire { l }, Reply::Got) => Some(EntryRef::Got { t, l: *l }),
            (Command::Release { l }, Reply::Freed) => Some(EntryRef::Free { t, l: *l }),
            (Command::Request { l, stack } | Command::Try { l, stack }, Reply::Took) => {
                Some(EntryRef::Took {
                    t,
                    l: *l,
                    stack: frames_of(stack),
                })
            }
            (Command::Try { l, stack }, Reply::MissBusy { holder }) => Some(EntryRef::MissBusy {
                t,
                l: *l,
                stack: frames_of(stack),
                holder: *holder,
            }),
            (Command::Try { l, stack }, Reply::MissAvoid(named)) => Some(EntryRef::MissAvoid {
                t,
                l: *l,
                stack: frames_of(stack),
                sig: named.sig,
                births: &named.births,
            }),
            (Command::End { why }, Reply::Ended) => Some(EntryRef::End { t, why: *why }),
            (Command::Break { set, t }, Reply::Broken { .. }) => {
                Some(EntryRef::Break { set: *set, t: *t })
            }
            (Command::Learn { births }, Reply::Learnt { .. }) => Some(EntryRef::Learn { births }),
            _ => None,
        }
    }

    /// The entry that it shows.
    ///
    /// It is inlined, so that no code is left of it where nothing reads the entry.
    #[inline(always)]
    pub fn entry(&self) -> Entry
        requires { HasStack self.now }
        ensures { result ≡ shown self.now }
    {
        match self {
            EntryRef::Go { t, l, stack } => Entry::Go {
                t: *t,
                l: *l,
                stack: Stack::new(stack),
            },
            EntryRef::Yield {
                t,
                l,
                stack,
                sig,
                births,
            } => Entry::Yield {
                t: *t,
                l: *l,
                stack: Stack::new(stack),
                sig: *sig,
                births: **births,
            },
            EntryRef::Got { t, l } => Entry::Got { t: *t, l: *l },
            EntryRef::Free { t, l } => Entry::Free { t: *t, l: *l },
            EntryRef::Took { t, l, stack } => Entry::Took {
                t: *t,
                l: *l,
                stack: Stack::new(stack),
            },
            EntryRef::MissBusy {
                t,
                l,
                stack,
                holder,
            } => Entry::Miss {
                t: *t,
                l: *l,
                stack: Stack::new(stack),
                why: MissWhy::Busy { holder: *holder },
            },
            EntryRef::MissAvoid {
                t,
                l,
                stack,
                sig,
                births,
            } => Entry::Miss {
                t: *t,
                l: *l,
                stack: Stack::new(stack),
                why: avoided(*sig, **births),
            },
            EntryRef::End { t, why } => Entry::End { t: *t, why: *why },
            EntryRef::Break { set, t } => Entry::Break { set: *set, t: *t },
            EntryRef::Learn { births } => Entry::Learn { births: **births },
        }
    }
}

/// Whether two entries by reference show the same entry.
///
/// Of the kinds that are entered most it compares the parts where they lie.
pub fn same_shown(a: &EntryRef<'_>, b: &EntryRef<'_>) -> bool
    requires stack { HasStack a.now }
    requires other_stack { HasStack b.now }
    ensures { IsTrue result ↔ (shown a.now ≡ shown b.now) }
{
    match (a, b) {
        (EntryRef::Got { t, l }, EntryRef::Got { t: u, l: m }) => is_pair(t, l, u, m),
        (EntryRef::Free { t, l }, EntryRef::Free { t: u, l: m }) => is_pair(t, l, u, m),
        (
            EntryRef::Go { t, l, stack },
            EntryRef::Go {
                t: u,
                l: m,
                stack: s,
            },
        ) => is_pair(t, l, u, m) && are_frames(stack, s),
        (
            EntryRef::Took { t, l, stack },
            EntryRef::Took {
                t: u,
                l: m,
                stack: s,
            },
        ) => is_pair(t, l, u, m) && are_frames(stack, s),
        _ => same_in_full(a, b),
    }
}

/// Whether two entries by reference show the same entry, by making both.
///
/// It isn't inlined, since they are large and a function fills its locals each time that it is
/// called.
#[inline(never)]
fn same_in_full(a: &EntryRef<'_>, b: &EntryRef<'_>) -> bool
    requires stack { HasStack a.now }
    requires other_stack { HasStack b.now }
    ensures { IsTrue result ↔ (shown a.now ≡ shown b.now) }
{
    same_entry(&a.entry(), &b.entry())
}

/// Whether a thread and a lock are these two.
fn is_pair(t: &Tid, l: &Lid, u: &Tid, m: &Lid) -> bool
    ensures { IsTrue result ↔ ((t.now ≡ u.now) × (l.now ≡ m.now)) }
{
    t.0 == u.0 && l.0 == m.0
}

/// Whether the frames of two stacks are equal.
fn are_frames(a: &[Frame], b: &[Frame]) -> bool
    ensures { IsTrue result ↔ (a.now ≡ b.now) }
{
    a == b
}

/// Why a try took no lock that would have completed a cover.
fn avoided(sig: u32, births: Births) -> MissWhy
    ensures { result ≡ Avoid record { sig = sig; births = births } }
{
    MissWhy::Avoid(Named { sig, births })
}

/// The frames of a stack, of which there are 1 to 32.
pub(crate) fn frames_of(stack: &Stack) -> &[Frame]
    ensures value { result.now ≡ stack.now }
    ensures some { 1 ≤ length result.now }
    ensures few { length result.now ≤ 32 }
{
    let _len = stack.len(); // for the contract: how many there are
    stack.as_slice()
}
