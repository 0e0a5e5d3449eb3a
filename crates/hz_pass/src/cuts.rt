//! The cuts of a circuit by their data nodes.
ghost use Rattle.std.specs.Prelude.{◌≡◌, ◌≢◌, ◌++◌, ◌∷◌, ◌<◌, [], ℕ, None, Some, IfOk, IsTrue, OnOk, length, map, replicate, slice_get, slice_set};
ghost use Rattle.hz_core.specs.Netlist.{IsCutNumber};
ghost use Rattle.hz_pass.specs.CutLists.{cuts_at, AreByData, AreDataCutsBelow};

use hz_core::{Circuit, Memory};
use std::alloc::Global;

/// For each node the cuts whose data node it is; no list at all if each cut is listed.
pub(crate) fn cuts_by_data(
    alloc: Global,
    circuit: &Circuit,
    listed: &[Option<bool>],
) -> Result<Vec<Vec<u32>>, Memory>
    requires { length listed.now ≡ length circuit.now.names }
    ensures { IfOk result (λ lists. AreByData circuit.now listed.now
        (map (λ list. list.items) lists.items)) }
{
    if lists_all_cuts(circuit, listed) {
        return Ok(Vec::new(alloc));
    }
    let mut lists = empty_lists(alloc, circuit.nodes())?;
    file_cuts(circuit, lists.as_mut_slice())?;
    Ok(lists)
}

// Whether each cut is listed.
fn lists_all_cuts(circuit: &Circuit, listed: &[Option<bool>]) -> bool
    requires { length listed.now ≡ length circuit.now.names }
    ensures { IsTrue result → (cut : ℕ) → IsCutNumber circuit.now cut → slice_get listed.now cut
        ≢ Some None }
{
    for cut in circuit.primary_inputs()..circuit.inputs() {
        if listed[cut as usize].is_none() {
            return false;
        }
    }
    true
}

// So many empty lists.
fn empty_lists(alloc: Global, count: u32) -> Result<Vec<Vec<u32>>, Memory>
    ensures { IfOk result (λ lists. map (λ list. list.items) lists.items ≡ replicate count []) }
{
    let mut lists = Vec::with_capacity(alloc, count as usize)?;
    for _list in 0..count {
        lists.push(Vec::new(alloc))?;
    }
    Ok(lists)
}

// Puts each cut into the list of its data node.
fn file_cuts(circuit: &Circuit, lists: &mut [Vec<u32>]) -> Result<(), Memory>
    requires { map (λ list. list.items) lists.old ≡ replicate (length circuit.now.names) [] }
    ensures { OnOk result (AreDataCutsBelow circuit.now
        (map (λ list. list.items) lists.new) circuit.now.inputs) }
{
    for cut in circuit.primary_inputs()..circuit.inputs() {
        if let Some(node) = circuit.data_of(cut) {
            file(lists, node, cut)?;
        }
    }
    Ok(())
}

// Puts a cut into the list of a node, after those that are there.
fn file(lists: &mut [Vec<u32>], node: u32, cut: u32) -> Result<(), Memory>
    requires { node < length lists.old }
    ensures { OnOk result (map (λ list. list.items) lists.new
        ≡ slice_set (map (λ list. list.items) lists.old) node
        (cuts_at (map (λ list. list.items) lists.old) node ++ cut ∷ [])) }
{
    let list = &mut lists[node as usize];
    list.push(cut)?;
    Ok(())
}

/// The cuts in the list of a node.
pub(crate) fn cuts_at(lists: &[Vec<u32>], node: u32) -> &[u32]
    ensures { result.now ≡ cuts_at (map (λ list. list.items) lists.now) node }
{
    match lists.get(node as usize) {
        Some(list) => list.as_slice(),
        None => &[],
    }
}
