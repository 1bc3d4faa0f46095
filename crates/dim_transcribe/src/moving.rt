//! How the operations of a log are made in a program, and for what its places stand.
use crate::drafting::{CALL_OF_ROOTS, Draft, OWN_FUNCTIONS, ROOTS, RUN, within_leaf};
use crate::items::{Items, Step};
use crate::sites::{Site, Sites, sites_of};
use crate::transcript::{Key, Move, StandIn};
use dim_asm::Program;
use dim_base::{Lid, OutOfMemory};
use dim_log::{Log, Spot};
use dim_orders::Chain;
use dim_stack::{Frame, Stack};
use std::alloc::Global;

/// A frame has at most so many.
const MOST_FRAMES: usize = 32;

/// What the program was made of.
#[derive(Clone, Copy)]
pub struct Assembled<'a> {
    pub program: &'a Program,
    pub items: &'a Items,
    pub sites: &'a Sites,
    pub draft: &'a Draft,
}

/// A number in 32 bits, or the largest one.
fn small(n: usize) -> u32 {
    u32::try_from(n).unwrap_or(u32::MAX)
}

impl<'a> Assembled<'a> {
    /// For what the places and locks of the program stand.
    pub fn key(&self, alloc: Global) -> Result<Key, OutOfMemory> {
        let mut places = Vec::new(alloc);
        for site in self.sites.all.iter() {
            places.push(self.place(site))?;
        }
        places.sort_by_key(|place: &StandIn| place.frame)?;
        let mut locks = Vec::new(alloc);
        for lock in self.items.locks.iter() {
            locks.push(*lock)?;
        }
        Ok(Key { places, locks })
    }

    /// How each operation of some chains is made.
    pub fn moves(
        &self,
        alloc: Global,
        log: &Log,
        chains: &[Chain],
    ) -> Result<Vec<Vec<Move>>, OutOfMemory> {
        let mut moves = Vec::new(alloc);
        for (chain, start) in chains.iter().zip(self.items.starts.iter()) {
            moves.push(self.moves_of(alloc, log, *start, chain.operations.len())?)?;
        }
        Ok(moves)
    }

    /// How so many items are made, from one on.
    fn moves_of(
        &self,
        alloc: Global,
        log: &Log,
        start: usize,
        len: usize,
    ) -> Result<Vec<Move>, OutOfMemory> {
        let mut moves = Vec::new(alloc);
        for i in 0..len {
            if let Some(Some(step)) = self.items.steps.get(start.saturating_add(i)) {
                moves.push(self.move_of(alloc, log, step)?)?;
            }
        }
        Ok(moves)
    }

    /// How an item is made.
    fn move_of(&self, alloc: Global, log: &Log, step: &Step) -> Result<Move, OutOfMemory> {
        let mut frames = [self.frame(RUN, CALL_OF_ROOTS); MOST_FRAMES];
        let mut len = 0;
        let mut root = 0;
        for site in sites_of(alloc, log, step)?.iter() {
            if len < MOST_FRAMES {
                frames[len] = self.site_frame(site);
                len += 1;
                root = self.sites.root(site.function);
            }
        }
        if len < MOST_FRAMES {
            frames[len] = self.frame(ROOTS, self.draft.leaf(ROOTS, root));
        }
        let all = len.saturating_add(2).min(MOST_FRAMES);
        Ok(Move {
            lock: Lid(small(step.lock)),
            stack: Stack::new(&frames[..all]),
        })
    }

    /// The frame of a function at an offset.
    fn frame(&self, f: usize, at: usize) -> Frame {
        Frame {
            func: self.program.number(small(f)),
            at: small(at),
        }
    }

    /// The frame of a site.
    fn site_frame(&self, site: &Site) -> Frame {
        let f = OWN_FUNCTIONS.saturating_add(self.sites.function(site.function));
        let leaf = self.draft.leaf(f, self.sites.selector(site));
        self.frame(f, leaf.saturating_add(within_leaf(site.act)))
    }

    /// The place of a site.
    fn place(&self, site: &Site) -> StandIn {
        StandIn {
            frame: self.site_frame(site),
            spot: Spot {
                function: site.function,
                line: site.line,
            },
        }
    }
}
