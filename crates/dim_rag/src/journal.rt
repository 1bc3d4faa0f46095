//! The entries of a history, kept in brief.
ghost use Rattle.std.specs.Prelude.{◌≡◌, ◌+◌, ◌-◌, ◌<◌, ◌≤◌, ◌^◌, [], ◌∷◌, ◌++◌, ◌↔◌, length, slice_get, map, max, All, Some, IsTrue, IfOk, IsOk, OnOk, OnErr};
ghost use Rattle.dim_rag.specs.Fits.{IsInRange};
ghost use Rattle.dim_rag.specs.Journal.{HasFrames, HasCause, HasWide, entries_of};
ghost use Rattle.dim_rag.specs.Shown.{HasStack, shown};
ghost use Rattle.dim_rag.specs.Yielded.{is_learn, yielded};

pub mod brief;

use crate::entry::{Entry, MissWhy};
use crate::entry_ref::EntryRef;
use brief::{Brief, Cause, brief_of, entry_in_full, is_learn, is_narrow, look, yielded};
use dim_base::{OutOfMemory, Tid};
use dim_stack::Frame;
use std::alloc::Global;
use std::marker::Model;

/// For so many entries more an empty journal asks room.
const MORE: usize = 16384;

/// A journal keeps fewer frames than this, so that a u32 has the place of each.
const TOO_MANY_FRAMES: usize = 4_294_967_296;

/// The entries of a history, oldest first.
///
/// A contract sees them, and for how many further ones there is room. An entry takes 12 bytes, 8
/// for each frame of its stack, and 144 for its births where it has some. One of a thread or on a
/// lock with a number of 256 or more, which no gate makes, is kept in full besides. No call but
/// `reserve`, `add` and `entries` takes memory.
#[derive(Drop)]
pub struct Journal {
    spare: u32,
    briefs: Vec<Brief>,
    frames: Vec<Frame>,
    causes: Vec<Cause>,
    wide: Vec<Entry>,
}

impl Model for Journal {
    ghost use Rattle.std.specs.Prelude.{vec_capacity};
    ghost use Rattle.dim_rag.specs.Journal.{Recorded, IsJournal, entries_of};

    ghost Value = { Recorded };

    ghost view = { λ a. record { entries = entries_of a.frames.items a.causes.items a.wide.items a.briefs.items; spare = a.spare } };

    ghost invariant = { λ a. IsJournal a.spare (vec_capacity a.briefs) (vec_capacity a.frames) (vec_capacity a.causes) a.briefs.items a.frames.items a.causes.items a.wide.items };
}

impl Journal {
    /// No entry, and no room.
    pub fn new(alloc: Global) -> Journal
        ensures { result ≡ record { entries = []; spare = 0 } }
    {
        Journal {
            spare: 0,
            briefs: Vec::new(alloc),
            frames: Vec::new(alloc),
            causes: Vec::new(alloc),
            wide: Vec::new(alloc),
        }
    }

    /// Makes room for at least `entries` further entries, each with a stack of 32 frames and with
    /// births.
    ///
    /// Where memory runs out, all is as before. So it is where the frames could come to 2^32, which
    /// take 32 GB.
    pub fn reserve(&mut self, entries: u32) -> Result<(), OutOfMemory>
        requires { length self.old.entries + entries < 2 ^ 32 }
        ensures ok { OnOk result
            (self.new ≡ record self.old { spare = max self.old.spare entries }) }
        ensures err { OnErr result (self.new ≡ self.old) }
    {
        if entries <= self.spare {
            return Ok(());
        }
        let room = room_for(entries, self.briefs.len());
        if self.frames.len() + 32 * room >= TOO_MANY_FRAMES {
            return Err(OutOfMemory);
        }
        self.briefs.reserve(room)?;
        self.frames.reserve(32 * room)?;
        self.causes.reserve(room)?;
        self.spare = entries;
        Ok(())
    }

    /// Appends an entry, in the room that there is. Its thread and its lock have numbers below 256.
    pub fn push(&mut self, e: &Entry)
        requires room { 1 ≤ self.old.spare }
        requires narrow { IsInRange 256 256 e.now }
        ensures { self.new
            ≡ record self.old
            { entries = self.old.entries ++ e.now ∷ []; spare = self.old.spare - 1 } }
    {
        self.push_ref(&EntryRef::of(e));
    }

    /// Appends an entry that is given by reference, in the room that there is. Its thread and its
    /// lock have numbers below 256. No entry is made.
    ///
    /// It is inlined, so that the kind of an entry is asked for once where it is known.
    #[inline(always)]
    pub fn push_ref(&mut self, e: &EntryRef<'_>)
        requires room { 1 ≤ self.old.spare }
        requires stack { HasStack e.now }
        requires narrow { IsInRange 256 256 (shown e.now) }
        ensures { self.new
            ≡ record self.old
            { entries = self.old.entries ++ shown e.now ∷ []; spare = self.old.spare - 1 } }
    {
        let brief = brief_of(&mut self.frames, &mut self.causes, e);
        self.briefs.push_reserved(brief);
        self.spare -= 1;
    }

    /// Appends any entry that is given by reference, in the room that there is. Memory is wanted only
    /// for one of a thread or on a lock with a number of 256 or more; where it runs out, all is as
    /// before.
    ///
    /// It is inlined, so that the kind of an entry is asked for once where it is known.
    #[inline(always)]
    pub fn add(&mut self, e: &EntryRef<'_>) -> Result<(), OutOfMemory>
        requires room { 1 ≤ self.old.spare }
        requires stack { HasStack e.now }
        ensures ok { OnOk result
            (self.new
            ≡ record self.old
            { entries = self.old.entries ++ shown e.now ∷ []; spare = self.old.spare - 1 }) }
        ensures err { OnErr result (self.new ≡ self.old) }
        ensures narrow { IsInRange 256 256 (shown e.now) → IsOk result }
    {
        if is_narrow(e) {
            self.push_ref(e);
            return Ok(());
        }
        self.add_wide(e)
    }

    /// Appends an entry that is kept in full.
    #[cold]
    #[inline(never)]
    fn add_wide(&mut self, e: &EntryRef<'_>) -> Result<(), OutOfMemory>
        requires room { 1 ≤ self.old.spare }
        requires stack { HasStack e.now }
        ensures ok { OnOk result
            (self.new
            ≡ record self.old
            { entries = self.old.entries ++ shown e.now ∷ []; spare = self.old.spare - 1 }) }
        ensures err { OnErr result (self.new ≡ self.old) }
    {
        let number = keep_wide(&mut self.wide, e)?;
        self.briefs.push_reserved(Brief::Wide { number });
        self.spare -= 1;
        Ok(())
    }

    /// Whether there is room for one more.
    pub fn has_room(&self) -> bool
        ensures { IsTrue result ↔ (1 ≤ self.now.spare) }
    {
        self.spare > 0
    }

    /// How many entries there are.
    pub fn len(&self) -> u32
        ensures len { result ≡ length self.now.entries }
        ensures small { length self.now.entries + self.now.spare < 2 ^ 32 }
    {
        self.briefs.len() as u32
    }

    /// The entry at a place below the length.
    pub fn entry(&self, place: u32) -> Entry
        requires { place < length self.now.entries }
        ensures { slice_get self.now.entries place ≡ Some result }
    {
        entry_in_full(
            &self.frames,
            &self.causes,
            &self.wide,
            &self.briefs[place as usize],
        )
    }

    /// The entry at a place below the length, by reference. It makes no entry.
    ///
    /// It is inlined, so that the kind of an entry is asked for once where it is looked at.
    #[inline(always)]
    pub fn look(&self, place: u32) -> EntryRef<'_>
        requires { place < length self.now.entries }
        ensures entry { slice_get self.now.entries place ≡ Some (shown result) }
        ensures stack { HasStack result }
    {
        look(
            &self.frames,
            &self.causes,
            &self.wide,
            &self.briefs[place as usize],
        )
    }

    /// The number of the signature that the entry at a place names, where it is a Yield. The place
    /// is below the length.
    pub fn yielded(&self, place: u32) -> Option<u32>
        requires { place < length self.now.entries }
        ensures { slice_get (map yielded self.now.entries) place ≡ Some result }
    {
        yielded(&self.causes, &self.wide, &self.briefs[place as usize])
    }

    /// Whether the entry at a place is a Learn. The place is below the length.
    pub fn is_learn(&self, place: u32) -> bool
        requires { place < length self.now.entries }
        ensures { slice_get (map is_learn self.now.entries) place ≡ Some result }
    {
        is_learn(&self.wide, &self.briefs[place as usize])
    }

    /// The entries in full, in a list of their own.
    pub fn entries(&self, alloc: Global) -> Result<Vec<Entry>, OutOfMemory>
        ensures { IfOk result (λ all. all.items ≡ self.now.entries) }
    {
        entries_of(alloc, &self.frames, &self.causes, &self.wide, &self.briefs)
    }
}

/// For how many further entries a journal of this length asks room, so as to have it for `entries`.
///
/// One that is empty asks for 16,384 more, since a list that begins small is moved again and again as
/// it grows.
fn room_for(entries: u32, len: usize) -> usize
    ensures low { entries ≤ result }
    ensures high { result ≤ entries + 16384 }
{
    let more = if len == 0 { MORE } else { 0 };
    entries as usize + more
}

/// Puts an entry in full behind the others. It answers its number.
fn keep_wide(wide: &mut Vec<Entry>, e: &EntryRef<'_>) -> Result<u32, OutOfMemory>
    requires stack { HasStack e.now }
    requires few { length wide.old.items < 2 ^ 32 }
    ensures number { IfOk result (λ n. n ≡ length wide.old.items) }
    ensures items { OnOk result (wide.new.items ≡ wide.old.items ++ shown e.now ∷ []) }
    ensures kept { OnErr result (wide.new.items ≡ wide.old.items) }
{
    let number = wide.len() as u32;
    append(wide, e.entry())?;
    Ok(number)
}

/// Puts an entry behind the others.
fn append(entries: &mut Vec<Entry>, e: Entry) -> Result<(), OutOfMemory>
    ensures ok { OnOk result (entries.new.items ≡ entries.old.items ++ e ∷ []) }
    ensures err { OnErr result (entries.new.items ≡ entries.old.items) }
{
    // A value of this type in the function lets the check pass an `Entry` to a generic function.
    let _why = MissWhy::Busy { holder: Tid(0) };
    entries.push(e)?;
    Ok(())
}

/// The entries that brief ones stand for.
fn entries_of(
    alloc: Global,
    frames: &[Frame],
    causes: &[Cause],
    wide: &[Entry],
    briefs: &[Brief],
) -> Result<Vec<Entry>, OutOfMemory>
    requires frames { All (HasFrames (length frames.now)) briefs.now }
    requires causes { All (HasCause (length causes.now)) briefs.now }
    requires wide { All (HasWide (length wide.now)) briefs.now }
    ensures { IfOk result (λ all. all.items ≡ entries_of frames.now causes.now wide.now briefs.now) }
{
    let mut all = Vec::new(alloc);
    for brief in briefs {
        append(&mut all, entry_in_full(frames, causes, wide, brief))?;
    }
    Ok(all)
}
