//! The numbers of a store.
ghost use Rattle.std.specs.Prelude.{◌≡◌, ◌+◌, ◌*◌, ◌++◌, length, All, OnOk, FitsSigned};
ghost use Rattle.std.specs.Int.{w64};
ghost use Rattle.grove_effects.specs.Effects.{effect};
ghost use Rattle.grove_data.specs.Numbers.{numbers_of};

use grove_base::NoMemory;
use grove_effects::keep_numbers;
use grove_store::Store;
use grove_tree::Node;

/// Makes the kept numbers those of the store, and puts what changed.
pub(crate) fn keep_store(out: &mut Vec<u8>, kept: &mut [u64], store: &Store) -> Result<(), NoMemory>
    requires { length kept.old ≡ 3 * length store.now.rows + 1 }
    ensures changes { OnOk result (out.new.items ≡ out.old.items ++ effect kept.old (numbers_of store.now)) }
    ensures kept { OnOk result (kept.new ≡ numbers_of store.now) }
    ensures fit { OnOk result (All (FitsSigned w64) store.now.records) }
{
    let tree = store.tree();
    let records = store.records().values();
    let waits = store.waits();
    let weight_at = |node| u64::from(tree.weight(Node::new(node)));
    let bits_at = |node| records[node as usize].cast_unsigned();
    let waits_at = |node| u64::from(waits[node as usize]);
    let nodes = tree.len();
    let (before_rounds, kept_rounds) = kept.split_at_mut(3 * nodes as usize);
    let (before_waits, kept_waits) = before_rounds.split_at_mut(2 * nodes as usize);
    let (kept_weights, kept_bits) = before_waits.split_at_mut(nodes as usize);
    keep_numbers(out, 0, kept_weights, weight_at)?;
    keep_numbers(out, nodes, kept_bits, bits_at)?;
    keep_numbers(out, 2 * nodes, kept_waits, waits_at)?;
    keep_numbers(out, 3 * nodes, kept_rounds, |_| store.rounds())?;
    Ok(())
}
