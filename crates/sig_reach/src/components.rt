//! Strongly connected components: which nodes lead to one another.
//!
//! A depth-first search of Tarjan ("Depth-first search and linear graph algorithms", 1972), in the form of Gabow
//! ("Path-based depth-first search for strong and biconnected components", 2000): one pass, with a list of the starts
//! of components on the path in place of low links. The path holds the nodes whose component isn't known yet. It is
//! cut into components that lead one to the next; a link from the last one back to an earlier one joins all between,
//! and where no link of the last one waits, it is whole, and leaves the path. Links wait on one list, so nothing
//! recurses, and a search costs as much as there are nodes and links.

ghost use Rattle.std.specs.Prelude.{◌≡◌, ℕ, ◌+◌, ◌-◌, ◌<◌, ◌≤◌, [], ◌∷◌, ◌++◌, true, length, slice_index, IfOk, OnOk};
ghost use Rattle.std.specs.Option.{IfSome, IfNone};
ghost use Rattle.sig_reach.specs.Marks.{AreThere};
ghost use Rattle.sig_reach.specs.Components.{AreComponents, IsSearch, stage_of, at_start, with_links, entered, last_start, NoneWaits, IsTaken, IsJoinedFrom, IsClosed, Keeps, work};

use sig_types::List;
use std::alloc::{AllocError, Global};

/// A link that waits to be followed.
#[derive(Clone, Copy)]
pub struct Link {
    /// The place on the path of the node that it leaves.
    pub place: usize,
    /// The node to which it leads.
    pub node: usize,
}

/// A search that is under way. As in Tarjan's paper, 0 stands for what has no number yet.
#[derive(Drop)]
pub struct Search {
    /// For each node that was entered, one more than its place on the path.
    places: Vec<usize>,
    /// For each node whose component is known, one more than the node by which that goes.
    numbers: Vec<usize>,
    /// The nodes whose component isn't known yet, in the order in which they were entered.
    path: Vec<usize>,
    /// For each component on the path the place of its first node.
    starts: Vec<usize>,
    /// The links of the path's nodes that weren't followed yet.
    waiting: Vec<Link>,
}

impl Search {
    /// A search that has entered no node.
    fn new(alloc: Global, nodes: usize) -> Result<Search, AllocError>
        ensures { IfOk result (λ search. stage_of search ≡ at_start nodes) }
    {
        let places = vec![in alloc; 0usize; nodes]?;
        let numbers = vec![in alloc; 0usize; nodes]?;
        Ok(Search {
            places,
            numbers,
            path: Vec::new(alloc),
            starts: Vec::new(alloc),
            waiting: Vec::new(alloc),
        })
    }

    /// Puts a node at the end of the path, as a component of its own, and lets its links wait.
    fn enter(&mut self, node: usize, row: &[u32]) -> Result<(), AllocError>
        requires node { node < length self.old.places.items }
        ensures { OnOk result (stage_of self.new ≡ entered (stage_of self.old) node row.now) }
    {
        let place = self.path.len();
        for to in row {
            let node = *to as usize;
            self.waiting.push(Link { place, node })?;
        }
        self.starts.push(place)?;
        self.path.push(node)?;
        self.places[node] = place + 1;
        Ok(())
    }

    /// The place where the last component starts.
    fn last_start(&self) -> usize
        ensures { result ≡ last_start self.now.starts.items }
    {
        let count = self.starts.len();
        if count == 0 {
            0
        } else {
            self.starts[count - 1]
        }
    }

    /// Takes the last of the links that wait, if it leaves the last component.
    fn next(&mut self) -> Option<Link>
        ensures none { IfNone result (NoneWaits (stage_of self.old) × (stage_of self.new ≡ stage_of self.old)) }
        ensures some { IfSome result (λ link. IsTaken (stage_of self.old) link (stage_of self.new)) }
    {
        let start = self.last_start();
        let count = self.waiting.len();
        if count > 0 && self.waiting[count - 1].place >= start {
            self.waiting.pop()
        } else {
            None
        }
    }

    /// Joins the components from the one with the place on.
    fn join(&mut self, place: usize)
        ensures { IsJoinedFrom (stage_of self.old) place (stage_of self.new) }
    {
        let mut kept = self.starts.len();
        'above: while kept > 0 && self.starts[kept - 1] > place {
            kept -= 1;
        }
        self.starts.truncate(kept);
    }

    /// Takes the last component from the path. It goes by its last node.
    fn close(&mut self)
        requires some { 0 < length self.old.path.items }
        requires there { (k : ℕ) → k < length self.old.path.items → slice_index self.old.path.items k < length self.old.numbers.items }
        ensures { IsClosed (stage_of self.old) (stage_of self.new) }
    {
        let start = self.last_start();
        let number = self.path[self.path.len() - 1] + 1;
        for place in start..self.path.len() {
            let node = self.path[place];
            self.numbers[node] = number;
        }
        self.path.truncate(start);
        self.starts.pop();
    }

    /// Follows a link that leaves the last component.
    fn follow(&mut self, link: Link, sources: &[List<u32>]) -> Result<(), AllocError>
        requires there { AreThere sources.now }
        requires to { link.node < length sources.now }
        requires search { IsSearch sources.now (with_links (stage_of self.old) (link ∷ [])) }
        requires leaves { last_start self.old.starts.items ≤ link.place }
        ensures search { OnOk result (IsSearch sources.now (stage_of self.new)) }
        ensures keeps { OnOk result (Keeps (stage_of self.old) (stage_of self.new)) }
        ensures less { OnOk result (work sources.now (stage_of self.new) ≤ work sources.now (stage_of self.old)) }
    {
        let node = link.node;
        if self.numbers[node] == 0 {
            let place = self.places[node];
            if place == 0 {
                self.enter(node, sources[node].as_slice())?;
            } else {
                self.join(place - 1);
            }
        }
        Ok(())
    }

    /// One step: a link is followed, or a component leaves the path.
    fn step(&mut self, sources: &[List<u32>]) -> Result<(), AllocError>
        requires there { AreThere sources.now }
        requires search { IsSearch sources.now (stage_of self.old) }
        requires path { 0 < length self.old.path.items }
        ensures search { OnOk result (IsSearch sources.now (stage_of self.new)) }
        ensures keeps { OnOk result (Keeps (stage_of self.old) (stage_of self.new)) }
        ensures less { OnOk result (work sources.now (stage_of self.new) < work sources.now (stage_of self.old)) }
    {
        match self.next() {
            Some(link) => self.follow(link, sources)?,
            None => self.close(),
        }
        Ok(())
    }

    /// Finds the components of all nodes to which links lead from this one.
    fn explore(&mut self, node: usize, sources: &[List<u32>]) -> Result<(), AllocError>
        requires there { AreThere sources.now }
        requires node { node < length sources.now }
        requires search { IsSearch sources.now (stage_of self.old) }
        requires unknown { slice_index self.old.numbers.items node ≡ 0 }
        requires none { self.old.path.items ≡ [] }
        ensures search { OnOk result (IsSearch sources.now (stage_of self.new)) }
        ensures none { OnOk result (self.new.path.items ≡ []) }
        ensures known { OnOk result (0 < slice_index self.new.numbers.items node) }
        ensures keeps { OnOk result (Keeps (stage_of self.old) (stage_of self.new)) }
    {
        self.enter(node, sources[node].as_slice())?;
        'path: while !self.path.is_empty() {
            self.step(sources)?;
        }
        Ok(())
    }
}

/// For each node the number of its component: two have the same exactly where each leads to the other. `sources` has
/// for each node those from which a link leads to it.
pub fn components(alloc: Global, sources: &[List<u32>]) -> Result<Vec<usize>, AllocError>
    requires there { AreThere sources.now }
    ensures { IfOk result (λ numbers. AreComponents sources.now numbers.items) }
{
    let mut search = Search::new(alloc, sources.len())?;
    for node in 0..sources.len() {
        if search.numbers[node] == 0 {
            search.explore(node, sources)?;
        }
    }
    let Search { numbers, .. } = search;
    Ok(numbers)
}
