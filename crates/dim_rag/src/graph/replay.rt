//! What an entry changes of the rows, the holders and the counts.
ghost use Rattle.std.specs.Prelude.{◌≡◌, ◌-◌, ◌<◌, ◌≤◌, suc, length, nat_lt, vec_len, Some, None, if◌then◌else◌};
ghost use Rattle.dim_rag.specs.Fits.{IsInRange};
ghost use Rattle.dim_rag.specs.Shown.{HasStack, shown};
ghost use Rattle.dim_rag.specs.Rows.{HasRoom, count_before, counts_after, holders_after, rows_after};

use crate::entry::Mode;
use crate::entry_ref::EntryRef;
use crate::graph::holder::Holder;
use crate::graph::row::Row;
use dim_base::{Lid, Tid};
use dim_stack::Frame;

/// Writes into the rows, the holders and the counts what an entry changes.
///
/// It is inlined, so that the kind of an entry is asked for once where it is known.
#[inline(always)]
pub fn replay(
    rows: &mut Vec<Row>,
    holders: &mut Vec<Holder>,
    counts: &mut Vec<u8>,
    e: &EntryRef<'_>,
    place: u32,
)
    requires stack { HasStack e.now }
    requires in_range { IsInRange (vec_len rows.old) (vec_len holders.old) (shown e.now) }
    requires each { vec_len counts.old ≡ vec_len holders.old }
    requires room { HasRoom (shown e.now) (count_before counts.old.items (shown e.now)) }
    ensures rows { rows.new.items ≡ rows_after rows.old.items (shown e.now) place }
    ensures holders { holders.new.items
        ≡ holders_after rows.old.items holders.old.items counts.old.items (shown e.now) place }
    ensures counts { counts.new.items ≡ counts_after counts.old.items (shown e.now) }
{
    match e {
        EntryRef::Go { t, l, stack } => rows[t.0 as usize].allow(*l, stack, place),
        EntryRef::Yield {
            t,
            l,
            stack,
            births,
            ..
        } => rows[t.0 as usize].hold_back(*l, stack, births, place),
        EntryRef::Got { t, l } => {
            rows[t.0 as usize].hold_allowed(*t, &mut holders[l.0 as usize]);
            counts[l.0 as usize] = 1;
            rows[t.0 as usize].mode = Mode::Running;
        }
        EntryRef::Free { t, l } => {
            give_back(&mut holders[l.0 as usize], &mut counts[l.0 as usize]);
            rows[t.0 as usize].mode = Mode::Running;
        }
        EntryRef::Took { t, l, stack } => {
            let (holder, count) = (&mut holders[l.0 as usize], &mut counts[l.0 as usize]);
            take(holder, count, *t, *l, stack, place);
            rows[t.0 as usize].mode = Mode::Running;
        }
        EntryRef::MissBusy { t, .. } | EntryRef::MissAvoid { t, .. } => {
            rows[t.0 as usize].mode = Mode::Running;
        }
        EntryRef::End { t, .. } => rows[t.0 as usize].mode = Mode::Ended { place },
        EntryRef::Break { t, .. } => rows[t.0 as usize].break_out(place),
        EntryRef::Learn { .. } => {}
    }
}

/// Gives a lock back once. With its last hold nobody holds it.
fn give_back(holder: &mut Holder, count: &mut u8)
    ensures holder { holder.new ≡ (if nat_lt 1 count.old then holder.old else None) }
    ensures count { count.new ≡ count.old - 1 }
{
    if *count <= 1 {
        holder.clear();
    }
    *count = count.saturating_sub(1);
}

/// Takes a lock once more. With its first hold there is an edge, with 1 to 32 frames.
fn take(holder: &mut Holder, count: &mut u8, t: Tid, l: Lid, stack: &[Frame], place: u32)
    requires room { count.old < 255 }
    requires some { 1 ≤ length stack.now }
    requires few { length stack.now ≤ 32 }
    ensures holder { holder.new ≡ (if nat_lt 0 count.old then holder.old
        else Some record { t = t; l = l; stack = stack.now; birth = place }) }
    ensures count { count.new ≡ suc count.old }
{
    if *count == 0 {
        holder.set(t, l, stack, place);
    }
    *count += 1;
}
