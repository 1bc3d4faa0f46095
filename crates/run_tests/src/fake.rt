//! A door of one thread alone.
ghost use Rattle.std.specs.Prelude.{◌≡◌, ◌≤◌, ◌<◌, ◌+◌, ◌-◌, [], ◌∷◌, ◌++◌, vec_len, vec_capacity, IfOk, IfSome, Some, None, ◌⊎◌, ◌^◌, nat_lt, List, true};
ghost use Rattle.dim_base.specs.declared.Tid.{Tid};
ghost use Rattle.dim_rag.specs.declared.entry.Entry.{Entry};
ghost use Rattle.dim_rag.specs.Fits.{IsYielding};
ghost use Rattle.dim_rag.specs.Tables.{thread_of};
ghost use Rattle.std.proofs.Common.{arith};
ghost use Rattle.dim_rag.specs.declared.command.Reply.TheVariants as reply;
ghost use Rattle.dim_rag.specs.declared.entry.Named.{Named};
ghost use Rattle.dim_vm.specs.Door.{MayAsk, IsReplyTo, IsAcquired, mode_in, times_in, entry_by_reply, door_after};
ghost use Rattle.dim_rag.specs.History.{past, count};

use dim_base::{Lid, OutOfMemory, Tid};
use dim_rag::{Births, Command, Entry, MissWhy, Named, Reply};
use dim_vm::{Door, stops_after};
use std::alloc::Global;
use std::marker::Model;

/// How often the thread is kept from its locks: so many Yields, then so many Stills, the last of
/// which is a Woken, and so many Busys.
#[derive(Clone, Copy, Debug)]
pub struct Script {
    pub yields: u32,
    pub stills: u32,
    pub busys: u32,
}

/// It lets the thread have each lock once its script is at its end.
#[derive(Drop)]
pub struct Fake {
    thread: Tid,
    locks: u32,
    left: u32,
    asks: u64,
    stops: u64,
    yielding: bool,
    last: Option<Reply>,
    own: Vec<Entry>,
    script: Script,
}

impl Model for Fake {
    ghost use Rattle.std.specs.Prelude.{◌≡◌, ◌≤◌, ◌+◌, vec_len, vec_capacity, true};
    ghost use Rattle.dim_rag.specs.History.{past};
    ghost use Rattle.dim_rag.specs.Fits.{IsYielding};
    ghost use Rattle.dim_vm.specs.Door.{Seen};

    ghost Value = { Seen };

    ghost view = { λ d. record { thread = d.thread; locks = d.locks; own = d.own.items; last = d.last; left = d.left; stops = d.stops } };

    ghost invariant = { λ d. (vec_len d.own + d.left ≤ vec_capacity d.own) × (d.yielding ≡ true → IsYielding d.thread.0 (past d.own.items)) };
}

/// Appends an entry in the room that is there.
fn append(entries: &mut Vec<Entry>, e: Entry)
    requires { vec_len entries.old < vec_capacity entries.old }
    ensures items { entries.new.items ≡ entries.old.items ++ e ∷ [] }
    ensures len { vec_len entries.new ≡ vec_len entries.old + 1 }
    ensures capacity { vec_capacity entries.new ≡ vec_capacity entries.old }
{
    // A value of this type in the function lets the check pass an `Entry` to a generic function.
    let _why = MissWhy::Busy { holder: Tid(0) };
    entries.push_reserved(e);
}

/// The entry of a reply to a command, if it makes one.
fn entry_by_reply(t: Tid, cmd: Command, reply: &Reply) -> Option<Entry>
    ensures entry { result ≡ entry_by_reply t cmd reply.now }
    ensures thread { IfSome result (λ e. thread_of e ≡ Some t) }
{
    match cmd {
        Command::Request { l, stack } => match reply {
            Reply::Go => Some(Entry::Go { t, l, stack }),
            Reply::Took => Some(Entry::Took { t, l, stack }),
            Reply::Yield(named) => Some(Entry::Yield {
                t,
                l,
                stack,
                sig: named.sig,
                births: named.births,
            }),
            _ => None,
        },
        Command::Acquire { l } => match reply {
            Reply::Got => Some(Entry::Got { t, l }),
            _ => None,
        },
        Command::Release { l } => match reply {
            Reply::Freed => Some(Entry::Free { t, l }),
            _ => None,
        },
        Command::Try { l, stack } => match reply {
            Reply::Took => Some(Entry::Took { t, l, stack }),
            Reply::MissBusy { holder } => {
                let why = MissWhy::Busy { holder: *holder };
                Some(Entry::Miss { t, l, stack, why })
            }
            Reply::MissAvoid(named) => {
                let why = MissWhy::Avoid(*named);
                Some(Entry::Miss { t, l, stack, why })
            }
            _ => None,
        },
        Command::End { why } => match reply {
            Reply::Ended => Some(Entry::End { t, why }),
            _ => None,
        },
        Command::Break { .. } | Command::Learn { .. } => None,
    }
}

/// Whether it is a Yield, after which its thread yields.
fn is_yield(e: &Entry) -> bool
    ensures { result ≡ true → (t : Tid) → thread_of e.now ≡ Some t → (h : List Entry)
        → IsYielding t.0 (e.now ∷ h) }
{
    matches!(e, Entry::Yield { .. })
}

/// How often a thread holds a lock, by its entries.
fn times(own: &[Entry], t: Tid, lock: Lid) -> u64
    ensures { result ≡ count t.0 lock.0 (past own.now) }
{
    let mut times = 0;
    for e in own {
        times = times_after(times, e, t, lock);
    }
    times
}

/// How often after one more entry, where so often before it.
fn times_after(times: u64, e: &Entry, t: Tid, l: Lid) -> u64
    requires { times < 2 ^ 63 }
    ensures count { (h : List Entry) → count t.0 l.0 h ≡ times
        → result ≡ count t.0 l.0 (e.now ∷ h) }
    ensures few { result ≤ times + 1 }
{
    match e {
        Entry::Got { t: u, l: m } if *u == t && *m == l => 1,
        Entry::Took { t: u, l: m, .. } if *u == t && *m == l => times + 1,
        Entry::Free { t: u, l: m } if *u == t && *m == l => times.saturating_sub(1),
        _ => times,
    }
}

impl Fake {
    /// A door with no entry yet.
    pub fn new(
        alloc: Global,
        thread: Tid,
        locks: u32,
        left: u32,
        script: Script,
    ) -> Result<Fake, OutOfMemory>
        ensures { IfOk result
            (λ d. d
            ≡ record
            { thread = thread; locks = locks; own = []; last = None; left = left; stops = 0 }) }
    {
        let mut own = Vec::new(alloc);
        own.reserve(left as usize)?;
        Ok(Fake {
            thread,
            locks,
            left,
            asks: 0,
            stops: 0,
            yielding: false,
            last: None,
            own,
            script,
        })
    }

    /// Opens the door anew for a slice.
    pub fn open(&mut self)
        ensures { self.new ≡ record self.old { last = None } }
    {
        self.last = None;
    }

    /// The entries so far.
    pub fn entries(&self) -> &[Entry]
        ensures { result.now ≡ self.now.own }
    {
        &self.own
    }

    /// How often it was asked.
    pub fn asks(&self) -> u64 {
        self.asks
    }

    /// What the script says to a command.
    fn choose(&mut self, cmd: &Command) -> Reply
        requires { MayAsk self.old cmd.now }
        ensures reply { IsReplyTo self.old cmd.now result }
        ensures kept { self.new ≡ self.old }
    {
        match cmd {
            Command::Request { l, .. } | Command::Try { l, .. } if self.holds(*l) => Reply::Took,
            Command::Request { .. } => self.let_through(),
            Command::Acquire { .. } => self.hand_over(),
            Command::Release { .. } => Reply::Freed,
            Command::Try { .. } => self.hand_at_once(),
            Command::End { .. } => Reply::Ended,
            Command::Break { .. } | Command::Learn { .. } => unreachable!(),
        }
    }

    /// Whether the thread holds a lock.
    fn holds(&self, l: Lid) -> bool
        ensures { result ≡ nat_lt 0 (times_in self.now l) }
    {
        times(&self.own, self.thread, l) > 0
    }

    /// Yields while the script has Yields.
    fn let_through(&mut self) -> Reply
        ensures reply { (result ≡ reply.Go) ⊎ ((named : Named) × (result ≡ reply.Yield named)) }
        ensures kept { self.new ≡ self.old }
    {
        if self.script.yields == 0 {
            return Reply::Go;
        }
        self.script.yields -= 1;
        Reply::Yield(Named {
            sig: 0,
            births: Births::new(&[]),
        })
    }

    /// Lets a thread take a lock at once while the script has no Busys.
    fn hand_at_once(&mut self) -> Reply
        ensures reply { (result ≡ reply.Took)
            ⊎ ((holder : Tid) × (result ≡ reply.MissBusy holder)) }
        ensures kept { self.new ≡ self.old }
    {
        if self.script.busys == 0 {
            return Reply::Took;
        }
        self.script.busys -= 1;
        Reply::MissBusy { holder: OTHER }
    }

    /// Hands over a lock that was asked for, unless the script has Stills, for a thread that
    /// yields, or Busys.
    fn hand_over(&mut self) -> Reply
        ensures reply { IsAcquired (mode_in self.old) result }
        ensures kept { self.new ≡ self.old }
    {
        if self.yielding && self.script.stills > 0 {
            self.script.stills -= 1;
            return if self.script.stills == 0 {
                Reply::Woken
            } else {
                Reply::Still { cause: 0 }
            };
        }
        if self.script.busys == 0 {
            return Reply::Got;
        }
        self.script.busys -= 1;
        Reply::Busy { holder: OTHER }
    }

    /// Notes a reply, and its entry if it makes one.
    fn note(&mut self, reply: &Reply, entry: Option<Entry>)
        requires room { 1 ≤ self.old.left }
        requires thread { IfSome entry (λ e. thread_of e ≡ Some self.old.thread) }
        ensures { self.new ≡ door_after self.old reply.now entry }
    {
        self.last = Some(*reply);
        self.asks = self.asks.saturating_add(1);
        self.stops = stops_after(reply, self.stops);
        if let Some(e) = entry {
            self.yielding = is_yield(&e);
            self.left -= 1;
            append(&mut self.own, e);
        }
    }
}

/// Who holds what is Busy.
const OTHER: Tid = Tid(9);

impl Door for Fake {
    ghost use Rattle.std.specs.Prelude.{⊤, ◌≤◌};

    ghost seen = { λ d. d };

    ghost stopped = { λ _. ⊤ };

    ghost woken = { λ _. ⊤ };

    ghost reaches = { λ a b. a.stops ≤ b.stops };

    fn ask(&mut self, cmd: Command) -> Reply {
        let reply = self.choose(&cmd);
        let entry = entry_by_reply(self.thread, cmd, &reply);
        self.note(&reply, entry);
        reply
    }

    ghost reaches_itself = { λ d. Prim.omega arith };

    ghost reaches_on = { λ a b c h k. Prim.omega arith };
}
