ghost use Rattle.std.specs.Prelude.{◌≡◌, ℕ, ◌+◌, ◌<◌, length, slice_index, IfOk};
ghost use Rattle.grove_flow.specs.Networks.{AreArcsOf};
ghost use Rattle.grove_flow.specs.Trees.{IsStateOf};
ghost use Rattle.grove_flow.specs.Searches.{IsReady, IsSearched};

use crate::Network;
use crate::fan::Fans;
use crate::queue::Queue;
use crate::state::State;
use crate::tree::Tree;
use grove_base::NoMemory;
use std::alloc::Global;

/// A search for the nearest variable that still has to take, by the way of Dijkstra with the slacks as lengths. The
/// places stand still while it runs.
#[derive(Drop)]
pub struct Search {
    pub tree: Tree,
    queue: Queue,
    fans: Fans,
}

impl Search {
    pub fn new(alloc: Global, network: &Network) -> Result<Self, NoMemory>
        requires arcs { AreArcsOf network.now.arcs.items (length network.now.needs.items) }
        ensures ready { IfOk result (λ search. IsReady network.now search) }
    {
        let tree = Tree::new(alloc, network.needs.len())?;
        let fans = Fans::new(alloc, network)?;
        Ok(Search {
            tree,
            queue: Queue::new(alloc),
            fans,
        })
    }

    /// Reaches one variable after another from the source, until one still has to take.
    pub fn find(
        &mut self,
        network: &Network,
        state: &State,
        source: usize,
    ) -> Result<usize, NoMemory>
        requires state { IsStateOf network.now state.now }
        requires ready { IsReady network.now self.old }
        requires source { source < length network.now.needs.items }
        requires some { 0 < slice_index state.now.excess.items source }
        ensures searched { IfOk result
            (λ target. (count : ℕ) × IsSearched network.now state.now self.new source count target) }
        ensures unmet { IfOk result (λ target. 0 < slice_index state.now.unmet.items target) }
    {
        self.begin(network, state, source)?;
        let mut last = source;
        let mut count = 1;
        while state.unmet[last] == 0 {
            last = self.grow(network, state, source, last, count)?;
            count += 1;
        }
        Ok(last)
    }

    fn begin(&mut self, network: &Network, state: &State, source: usize) -> Result<(), NoMemory>
        requires state { IsStateOf network.now state.now }
        requires ready { IsReady network.now self.old }
        requires source { source < length network.now.needs.items }
        requires some { 0 < slice_index state.now.excess.items source }
        ensures searched { IfOk result (λ done. IsSearched network.now state.now self.new source 1 source) }
    {
        self.queue.clear();
        self.tree.begin(source, state.excess[source]);
        self.queue
            .offer(network, state, &self.tree, &self.fans, source)?;
        Ok(())
    }

    // Reaches one more variable, the nearest.
    fn grow(
        &mut self,
        network: &Network,
        state: &State,
        source: usize,
        last: usize,
        count: u64,
    ) -> Result<usize, NoMemory>
        requires searched { IsSearched network.now state.now self.old source count last }
        requires met { slice_index state.now.unmet.items last ≡ 0 }
        ensures searched { IfOk result (λ next. IsSearched network.now state.now self.new source (count + 1) next) }
    {
        let Some((key, i)) = self.queue.next(network, state, &self.tree) else {
            unreachable!()
        };
        let (next, room) = self.tree.reach(network.arcs[i], state.amounts[i]);
        self.tree.enter(next, count + 1, i, room, key);
        self.queue
            .offer(network, state, &self.tree, &self.fans, next)?;
        Ok(next)
    }
}
