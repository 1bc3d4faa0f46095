//! The causes of a Yield that stand.
ghost use Rattle.std.specs.Prelude.{◌≡◌, ℕ, ◌<◌, true};
ghost use Rattle.dim_rag.specs.History.{past, mode, latest_wish};
ghost use Rattle.dim_rag.specs.Edges.{is_birth, causes, standing, standing_by, standing_in};
ghost use Rattle.dim_rag.specs.Stuck.{edges_in, is_member};

use crate::births::Births;
use crate::entry::Mode;
use crate::graph::Graph;
use crate::graph::set::is_owner_in;
use dim_base::Tid;

impl Graph {
    /// The first cause, in order of position, of a thread that yields and whose causes all stand.
    ///
    /// None exactly where the thread doesn't yield, or is woken: a cause of its Yield has ended, or
    /// it had none.
    pub fn standing(&self, t: Tid) -> Option<u32>
        requires { t.0 < self.now.threads }
        ensures { result ≡ standing self.now.threads self.now.locks t.0 (past self.now.entries) }
    {
        self.standing_in(self.everyone(), t)
    }

    /// A set of which each thread is a member.
    fn everyone(&self) -> u32
        ensures { (t : ℕ) → t < self.now.threads → is_member result t ≡ true }
    {
        let _ = &self.threads;
        u32::MAX
    }

    /// The place of the first cause of a thread that yields, where all its causes stand and are
    /// edges of members of a set; none else.
    pub(crate) fn standing_in(&self, set: u32, t: Tid) -> Option<u32>
        requires { t.0 < self.now.threads }
        ensures { result
            ≡ standing_in (edges_in set self.now.threads self.now.locks (past self.now.entries))
            (mode t.0 (past self.now.entries)) (latest_wish t.0 (past self.now.entries)) }
    {
        let row = &self.rows[t.0 as usize];
        match row.mode {
            Mode::Yielding { place, .. } => self.first_cause(set, &row.births, place),
            _ => None,
        }
    }

    /// The first of the births other than a place, if there is one and all of these are births of
    /// edges of members.
    fn first_cause(&self, set: u32, births: &Births, place: u32) -> Option<u32>
        ensures { result
            ≡ standing_by (edges_in set self.now.threads self.now.locks (past self.now.entries))
            (causes place births.now) }
    {
        let mut first = None;
        for i in 0..births.len() {
            let birth = births.at(i);
            if birth != place {
                if !self.is_birth_in(set, birth) {
                    return None;
                }
                first = first.or(Some(birth));
            }
        }
        first
    }

    /// Whether a place is the birth of an edge of a member of a set.
    fn is_birth_in(&self, set: u32, place: u32) -> bool
        ensures { result
            ≡ is_birth place
            (edges_in set self.now.threads self.now.locks (past self.now.entries)) }
    {
        is_owner_in(set, &self.edge_born(place))
    }
}
