// The bits that assignments give to nodes.

ghost use Rattle.std.specs.Prelude.{◌≡◌, ◌++◌, length, map, replicate, None, IfOk, OnOk, option_to_list};
ghost use Rattle.std.specs.List.{filter_map, range_with_len};
ghost use Rattle.hz_text.specs.Assignment.{assigned_bit};
ghost use Rattle.hz_text.specs.Bits.{ArePairs, assigned_bits, pair_of, IsChange};

use crate::assignments::Assigned;
use hz_core::Memory;
use std::alloc::Global;

/// For each of that many nodes, the bit that is assigned to it.
pub fn bits_of(alloc: Global, all: &[Assigned], nodes: u32) -> Result<Vec<Option<bool>>, Memory>
    requires { ArePairs nodes all.now }
    ensures { IfOk result
        (λ bits. bits.items ≡ map (assigned_bit all.now) (range_with_len 0 nodes)) }
{
    let mut bits = vec![in alloc; None; nodes as usize]?;
    let mut pairs = Vec::new(alloc);
    read_pairs(all, &mut pairs)?;
    list_bits(bits.as_mut_slice(), pairs.as_slice());
    Ok(bits)
}

/// The nodes and bits of assignments, in place of those that the vector had.
pub fn read_pairs(all: &[Assigned], pairs: &mut Vec<(u32, bool)>) -> Result<(), Memory>
    ensures { OnOk result (pairs.new.items ≡ filter_map pair_of all.now) }
{
    pairs.clear();
    for assigned in all {
        push_pair(pairs, assigned)?;
    }
    Ok(())
}

// Adds the node and the bit of an assignment that has both.
fn push_pair(pairs: &mut Vec<(u32, bool)>, assigned: &Assigned) -> Result<(), Memory>
    ensures { OnOk result
        (pairs.new.items ≡ pairs.old.items ++ option_to_list (pair_of assigned.now)) }
{
    let (Some(node), Some(bit)) = (assigned.node, assigned.bit) else {
        return Ok(());
    };
    pairs.push((node, bit))?;
    Ok(())
}

// Gives nodes their bits.
fn list_bits(bits: &mut [Option<bool>], pairs: &[(u32, bool)])
    requires none { bits.old ≡ replicate (length bits.old) None }
    requires change { IsChange (length bits.old) pairs.now }
    ensures { bits.new ≡ assigned_bits pairs.now (length bits.old) }
{
    for (node, bit) in pairs {
        bits[*node as usize] = Some(*bit);
    }
}
