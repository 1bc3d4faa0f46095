//! The gate as one machine sees it.
ghost use Rattle.std.specs.Prelude.{◌≡◌, ◌≤◌};
ghost use Rattle.dim_vm.specs.Door.{Seen, MayAsk, IsReplyTo, told, IsStop, stops_after};
ghost use Rattle.dim_rag.specs.declared.command.Reply.TheVariants.{Woken, Ended};

use dim_rag::{Command, Reply};

/// The gate as one machine sees it.
pub trait Door {
    /// The thread, the number of locks, the thread's own entries, the last reply, for how many
    /// entries there is room, and how many replies were Busy or Still.
    ghost seen: { Self → Seen };

    /// The thread can't go on, by what was last seen of the history.
    ghost stopped: { Self → Type 0 };

    /// Not all causes of the thread's latest Yield stand, by what was last seen of the history.
    ghost woken: { Self → Type 0 };

    /// The second may come of the first by asks. What else stands behind a door and what asks do to
    /// it, each door says for itself.
    ghost reaches: { Self → Self → Type 0 };

    /// Asks the gate.
    fn ask(&mut self, cmd: Command) -> Reply
        requires room { 1 ≤ (seen self.old).left }
        requires may { MayAsk (seen self.old) cmd }
        ensures reply { IsReplyTo (seen self.old) cmd result }
        ensures seen { seen self.new ≡ told (seen self.old) cmd result }
        ensures stopped { IsStop result → stopped self.new }
        ensures woken { result ≡ Woken → woken self.new }
        ensures still_woken { result ≡ Ended → woken self.old → woken self.new }
        ensures reaches { reaches self.old self.new };

    /// Asks the gate by a command that stays the caller's, as `ask` does, and writes the reply into
    /// a place of the caller's, so that both, which are large, are copied less.
    fn ask_into(&mut self, cmd: &Command, reply: &mut Reply)
        requires room { 1 ≤ (seen self.old).left }
        requires may { MayAsk (seen self.old) cmd.now }
        ensures reply { IsReplyTo (seen self.old) cmd.now reply.new }
        ensures seen { seen self.new ≡ told (seen self.old) cmd.now reply.new }
        ensures stopped { IsStop reply.new → stopped self.new }
        ensures woken { reply.new ≡ Woken → woken self.new }
        ensures still_woken { reply.new ≡ Ended → woken self.old → woken self.new }
        ensures reaches { reaches self.old self.new }
    {
        *reply = self.ask(*cmd);
    }

    /// No ask leads nowhere else.
    ghost reaches_itself: { (d : Self) → reaches d d };

    /// Asks after asks are asks.
    ghost reaches_on: { (a b c : Self) → reaches a b → reaches b c → reaches a c };
}

/// How many replies were Busy or Still, after one more reply, where so many were before it. It
/// stands still at 2^64 - 1.
pub fn stops_after(reply: &Reply, stops: u64) -> u64
    ensures { result ≡ stops_after reply.now stops }
{
    match reply {
        Reply::Busy { .. } | Reply::Still { .. } => stops.saturating_add(1),
        _ => stops,
    }
}
