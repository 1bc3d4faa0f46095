//! Numbers for the strongly connected parts of a graph, by Tarjan's way without recursion.
//!
//! Nothing is claimed of them here: `parts` looks whether they go down along each edge.
ghost use Rattle.std.specs.Prelude.{◌≡◌, slice_index};

use dim_base::OutOfMemory;
use std::alloc::Global;

/// What a node has that is in no part yet.
const NONE: u32 = u32::MAX;

/// The edges of a graph by where they begin: those of `v` stand from `starts[v]` on to
/// `starts[v + 1]`.
#[derive(Drop)]
struct Graph {
    starts: Vec<u32>,
    ends: Vec<u32>,
}

/// A search in depth. Nodes on `path` are entered and not left, those on `open` are in no part.
#[derive(Drop)]
struct Search {
    /// The place of each node in the order in which they were entered, from 1, and 0 before.
    entered: Vec<u32>,
    /// The least place that was seen from each node.
    low: Vec<u32>,
    /// The edge of each node that is next.
    next: Vec<u32>,
    part: Vec<u32>,
    open: Vec<u32>,
    path: Vec<u32>,
    root: u32,
    count: u32,
    parts: u32,
}

/// A number for each of so many nodes, the same for those of one part, where no edge goes to a
/// greater number.
pub fn components(
    alloc: Global,
    nodes: usize,
    edges: &[(u32, u32)],
) -> Result<Vec<u32>, OutOfMemory> {
    let graph = Graph::of(alloc, nodes, edges)?;
    let mut search = Search::new(alloc, nodes)?;
    for _ in 0..nodes.saturating_mul(2).saturating_add(edges.len()) {
        search.step(&graph)?;
    }
    Ok(search.part)
}

impl Graph {
    fn of(alloc: Global, nodes: usize, edges: &[(u32, u32)]) -> Result<Graph, OutOfMemory> {
        let mut starts = filled(alloc, nodes.saturating_add(2), 0)?;
        for (from, _) in edges {
            raise(&mut starts, from.saturating_add(2));
        }
        add_up(&mut starts);
        let mut ends = filled(alloc, edges.len(), 0)?;
        for (from, to) in edges {
            let place = from.saturating_add(1);
            put(&mut ends, at(&starts, place), *to);
            raise(&mut starts, place);
        }
        Ok(Graph { starts, ends })
    }
}

impl Search {
    fn new(alloc: Global, nodes: usize) -> Result<Search, OutOfMemory> {
        Ok(Search {
            entered: filled(alloc, nodes, 0)?,
            low: filled(alloc, nodes, 0)?,
            next: filled(alloc, nodes, 0)?,
            part: filled(alloc, nodes, NONE)?,
            open: Vec::new(alloc),
            path: Vec::new(alloc),
            root: 0,
            count: 0,
            parts: 0,
        })
    }

    /// Goes along one edge, leaves a node, or takes the next root.
    fn step(&mut self, graph: &Graph) -> Result<(), OutOfMemory> {
        let Some(v) = self.path.last().copied() else {
            return self.take_root(graph);
        };
        let edge = at(&self.next, v);
        if edge < at(&graph.starts, v.saturating_add(1)) {
            raise(&mut self.next, v);
            return self.see(graph, v, at(&graph.ends, edge));
        }
        self.leave(v);
        Ok(())
    }

    fn take_root(&mut self, graph: &Graph) -> Result<(), OutOfMemory> {
        let root = self.root;
        self.root = root.saturating_add(1);
        if at(&self.entered, root) == 0 && (root as usize) < self.entered.len() {
            self.enter(graph, root)?;
        }
        Ok(())
    }

    fn see(&mut self, graph: &Graph, v: u32, w: u32) -> Result<(), OutOfMemory> {
        if at(&self.entered, w) == 0 {
            return self.enter(graph, w);
        }
        if at(&self.part, w) == NONE {
            lower(&mut self.low, v, at(&self.entered, w));
        }
        Ok(())
    }

    fn enter(&mut self, graph: &Graph, v: u32) -> Result<(), OutOfMemory> {
        self.count = self.count.saturating_add(1);
        put(&mut self.entered, v, self.count);
        put(&mut self.low, v, self.count);
        put(&mut self.next, v, at(&graph.starts, v));
        self.open.push(v)?;
        self.path.push(v)?;
        Ok(())
    }

    fn leave(&mut self, v: u32) {
        let _v = self.path.pop();
        let low = at(&self.low, v);
        if low == at(&self.entered, v) {
            self.close(v);
        }
        if let Some(u) = self.path.last().copied() {
            lower(&mut self.low, u, low);
        }
    }

    /// Makes a part of the open nodes down to one.
    fn close(&mut self, v: u32) {
        while let Some(w) = self.open.pop() {
            put(&mut self.part, w, self.parts);
            if w == v {
                break;
            }
        }
        self.parts = self.parts.saturating_add(1);
    }
}

/// So many times a number.
pub fn filled(alloc: Global, count: usize, number: u32) -> Result<Vec<u32>, OutOfMemory> {
    let mut list = Vec::with_capacity(alloc, count)?;
    for _ in 0..count {
        list.push(number)?;
    }
    Ok(list)
}

/// The number at a place, and 0 behind the end.
pub fn at(list: &[u32], place: u32) -> u32
    ensures { result ≡ slice_index list.now place }
{
    list.get(place as usize).copied().unwrap_or(0)
}

/// Puts a number at a place, where there is one.
pub fn put(list: &mut [u32], place: u32, number: u32) {
    if let Some(there) = list.get_mut(place as usize) {
        *there = number;
    }
}

/// Makes the number at a place one more.
fn raise(list: &mut [u32], place: u32) {
    let number = at(list, place);
    put(list, place, number.saturating_add(1));
}

/// Makes the number at a place at most this.
fn lower(list: &mut [u32], place: u32, number: u32) {
    let there = at(list, place);
    put(list, place, there.min(number));
}

/// Puts for each number the sum of those up to it.
fn add_up(list: &mut [u32]) {
    let mut sum = 0u32;
    for number in list.iter_mut() {
        sum = sum.saturating_add(*number);
        *number = sum;
    }
}
