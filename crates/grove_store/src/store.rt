ghost use Rattle.std.specs.Prelude.{◌≡◌, ◌≤◌, ◌↔◌, All, length, IsTrue, IfOk, IfErr};
ghost use Rattle.grove_store.specs.StoreStates.{IsStore, opened};

use crate::NoStore;
use crate::kept_texts::KeptTexts;
use crate::same::{same_records, same_trees};
use grove_access::Records;
use grove_build::{KeptPlans, PlanCounts};
use grove_line::LineReader;
use grove_tree::{NoMemory, Tree};
use std::alloc::Global;
use std::marker::Model;

mod answering;
mod lines;
mod replying;
mod reweighing;
mod rounds;

/// A tree with a record for each node, which answers lines.
#[derive(Debug, Drop)]
pub struct Store {
    tree: Tree,
    records: Records,
    waits: Vec<u32>,
    workers: u32,
    rounds: u64,
    /// What was planned over the tree since its weights changed last.
    plans: KeptPlans,
    /// The replies that told of it.
    texts: KeptTexts,
    /// It keeps the memory in which it reads a line for the next.
    reader: LineReader,
}

impl Model for Store {
    ghost use Rattle.std.specs.Prelude.{All};
    ghost use Rattle.grove_build.specs.KeptPlans.{AreSettledFor};
    ghost use Rattle.grove_store.specs.KeptTexts.{RepliesFor};
    ghost use Rattle.grove_store.specs.StoreStates.{StoreState, IsStore};

    ghost Value = { StoreState };

    ghost view = { λ store. record {
      rows = store.tree;
      records = store.records;
      waits = store.waits.items;
      workers = store.workers;
      rounds = store.rounds;
    } };

    ghost invariant = { λ store. IsStore
        (record {
          rows = store.tree;
          records = store.records;
          waits = store.waits.items;
          workers = store.workers;
          rounds = store.rounds;
        }) × AreSettledFor store.tree store.plans × All (RepliesFor store.tree) store.texts };
}

impl Store {
    /// A store of this tree and these records, which plans and runs by so many workers. Nobody has waited yet, and no
    /// round was run. The only error is running out of memory; it hands back the tree and the records.
    pub fn open(alloc: Global, tree: Tree, records: Records, workers: u32) -> Result<Store, NoStore>
        requires records { length records ≡ length tree }
        requires workers { (1 ≤ workers) × (workers ≤ 16) }
        ensures opened { IfOk result (λ store. store ≡ opened tree records workers) }
        ensures tree { IfErr result (λ refused. refused.tree ≡ tree) }
        ensures records { IfErr result (λ refused. refused.records ≡ records) }
    {
        match vec![in alloc; 0; tree.len() as usize] {
            Ok(waits) => Ok(Store::resume(alloc, tree, records, waits, workers, 0)),
            Err(_) => Err(NoStore { tree, records }),
        }
    }

    /// A store as it stood after so many rounds, with what its nodes had waited for by then. It takes no memory.
    pub fn resume(
        alloc: Global,
        tree: Tree,
        records: Records,
        waits: Vec<u32>,
        workers: u32,
        rounds: u64,
    ) -> Store
        requires records { length records ≡ length tree }
        requires waits { (length waits.items ≡ length tree) × All (λ count. count ≤ 1000) waits.items }
        requires workers { (1 ≤ workers) × (workers ≤ 16) }
        ensures { result ≡ record {
          rows = tree;
          records = records;
          waits = waits.items;
          workers = workers;
          rounds = rounds;
        } }
    {
        Store {
            tree,
            records,
            waits,
            workers,
            rounds,
            plans: KeptPlans::new(alloc),
            texts: KeptTexts::new(alloc),
            reader: LineReader::new(),
        }
    }

    /// The tree, with the weights that it has learned. What holds of every store is told here.
    pub fn tree(&self) -> &Tree
        ensures rows { result.now ≡ self.now.rows }
        ensures store { IsStore self.now }
    {
        &self.tree
    }

    /// The records as the last round left them.
    pub fn records(&self) -> &Records
        ensures { result.now ≡ self.now.records }
    {
        &self.records
    }

    /// How often a lock of each node found it held since the weights changed last, held at 1,000.
    pub fn waits(&self) -> &[u32]
        ensures { result.now ≡ self.now.waits }
    {
        &self.waits
    }

    /// How many rounds were run.
    pub fn rounds(&self) -> u64
        ensures { result ≡ self.now.rounds }
    {
        self.rounds
    }

    /// How often a plan that was kept was given, and how many lists were planned, since the store was opened or copied.
    pub fn plan_counts(&self) -> PlanCounts {
        self.plans.counts()
    }

    /// Are both stores equal?
    pub fn same(&self, other: &Store) -> bool
        ensures { IsTrue result ↔ (self.now ≡ other.now) }
    {
        same_trees(&self.tree, &other.tree)
            && same_records(&self.records, &other.records)
            && self.waits.as_slice() == other.waits.as_slice()
            && self.workers == other.workers
            && self.rounds == other.rounds
    }

    /// A copy, for which no plans are kept yet.
    pub fn copy(&self, alloc: Global) -> Result<Store, NoMemory>
        ensures { IfOk result (λ copy. copy ≡ self.now) }
    {
        let tree = self.tree.copy(alloc)?;
        let records = self.records.copy(alloc)?;
        let waits = Vec::from_slice(alloc, &self.waits)?;
        Ok(Store::resume(alloc, tree, records, waits, self.workers, self.rounds))
    }
}
