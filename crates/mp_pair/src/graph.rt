//! The graph whose pairings are listed.
ghost use Rattle.std.specs.Prelude.{◌≡◌, ◌++◌, ◌∷◌, [], IfOk, OnOk, OnErr};
ghost use Rattle.std.specs.List.Sorted.{IsStrictlyIncreasing};
ghost use Rattle.mp_pair.specs.Bipartite.{lists};

use mp_term::Memory;
use std::alloc::Global;
use std::marker::Model;

/// Items, called the left ones, with the classes that each may take; and the capacity of each class: how many items may
/// take it. A class is a number: the index of its capacity, from 0. Contracts see a `Graph` as `Bipartite` of
/// `specs/Bipartite.antt`: the capacities, and the classes of each left item.
#[derive(Drop)]
pub struct Graph {
    alloc: Global,
    pub(crate) capacities: Vec<u32>,
    pub(crate) left: Vec<Vec<u32>>,
}

impl Model for Graph {
    ghost use Rattle.std.specs.Prelude.{All};
    ghost use Rattle.std.specs.List.Sorted.{IsStrictlyIncreasing};
    ghost use Rattle.mp_pair.specs.Bipartite.{Bipartite, lists};

    ghost Value = { Bipartite };

    ghost view = { λ g. record { capacities = g.capacities.items; left = lists g.left.items } };

    ghost invariant = { λ g. All IsStrictlyIncreasing (lists g.left.items) };
}

impl Graph {
    /// The graph of classes with these capacities and of no left item. `Memory` comes where there is no room for the
    /// capacities.
    pub fn new(alloc: Global, capacities: &[u32]) -> Result<Graph, Memory>
        ensures capacities { IfOk result (λ graph. graph.capacities ≡ capacities.now) }
        ensures left { IfOk result (λ graph. graph.left ≡ []) }
    {
        let Ok(copy) = Vec::from_slice(alloc, capacities) else {
            return Err(Memory);
        };
        Ok(Graph {
            alloc,
            capacities: copy,
            left: Vec::new(alloc),
        })
    }

    /// Adds a left item after the others, which may take these classes. They ascend, each once; one that the graph
    /// gives no capacity has the capacity 0. `Memory` comes where there is no room for them, and the graph is then as
    /// it was.
    pub fn add_left(&mut self, classes: &[u32]) -> Result<(), Memory>
        requires { IsStrictlyIncreasing classes.now }
        ensures ok { OnOk result (self.new ≡ record self.old { left = self.old.left ++ classes.now ∷ [] }) }
        ensures err { OnErr result (self.new ≡ self.old) }
    {
        let Ok(copy) = Vec::from_slice(self.alloc, classes) else {
            return Err(Memory);
        };
        match self.left.push(copy) {
            Ok(()) => Ok(()),
            Err(_) => Err(Memory),
        }
    }
}

// Copies the lists. Memory where there is no room for them.
pub(crate) fn copy_lists(alloc: Global, from: &[Vec<u32>]) -> Result<Vec<Vec<u32>>, Memory>
    ensures { IfOk result (λ copies. lists copies.items ≡ lists from.now) }
{
    let mut copies = Vec::new(alloc);
    for list in from {
        let Ok(copy) = Vec::from_slice(alloc, list) else {
            return Err(Memory);
        };
        match copies.push(copy) {
            Ok(()) => {}
            Err(_) => return Err(Memory),
        }
    }
    Ok(copies)
}
