//! The values of the outputs in all lanes.
ghost use Rattle.std.specs.Prelude.{◌≡◌, length, IfOk};
ghost use Rattle.hz_batch.specs.Columns.{AreColumns};
ghost use Rattle.hz_batch.specs.Keys.{HaveKeys};
ghost use Rattle.hz_batch.specs.Kept.{AreColumnsFor};

use crate::keys::{make_keys, table_of};
use crate::letter::Letter;
use hz_core::{Circuit, Memory};
use hz_net::Net;
use hz_plane::{LaneValues, Planes};
use std::alloc::Global;

/// The first and the second values of the outputs in all lanes, their keys, and the values that
/// each key says.
#[derive(Drop)]
pub(crate) struct Columns {
    pub(crate) firsts: Vec<LaneValues>,
    pub(crate) seconds: Vec<LaneValues>,
    pub(crate) keys: Vec<[[u64; 8]; 4]>,
    pub(crate) table: Vec<(Letter, Letter)>,
}

// Columns for the outputs of a circuit.
pub(crate) fn columns_for(alloc: Global, circuit: &Circuit) -> Result<Columns, Memory>
    ensures { IfOk result (AreColumnsFor circuit.now) }
{
    let count = circuit.outputs().len();
    let none = LaneValues {
        zero: [0; 8],
        one: [0; 8],
    };
    Ok(Columns {
        firsts: vec![in alloc; none; count]?,
        seconds: vec![in alloc; none; count]?,
        keys: vec![in alloc; [[0; 8]; 4]; count]?,
        table: table_of(alloc)?,
    })
}

// Keeps the present values of the outputs in all lanes.
pub(crate) fn keep_values(net: &Net, planes: &Planes<'_>, columns: &mut [LaneValues])
    requires net { planes.now.netlist ≡ net.now }
    requires count { length columns.old ≡ length net.now.outputs }
    ensures count { length columns.new ≡ length columns.old }
    ensures columns { AreColumns net.now planes.now.stage planes.now.lanes net.now.outputs
        columns.new }
{
    net.keeps_shape();
    let outputs = net.circuit().outputs();
    for place in 0..outputs.len() {
        columns[place] = planes.values(outputs[place]);
    }
}

// Keeps the keys of the outputs, by both of their values.
pub(crate) fn keep_keys(columns: &mut Columns)
    requires seconds { length columns.old.seconds.items ≡ length columns.old.firsts.items }
    requires keys { length columns.old.keys.items ≡ length columns.old.firsts.items }
    ensures firsts { columns.new.firsts ≡ columns.old.firsts }
    ensures seconds { columns.new.seconds ≡ columns.old.seconds }
    ensures table { columns.new.table ≡ columns.old.table }
    ensures count { length columns.new.keys.items ≡ length columns.old.firsts.items }
    ensures keys { HaveKeys columns.new.firsts.items columns.new.seconds.items
        columns.new.keys.items }
{
    make_keys(
        columns.firsts.as_slice(),
        columns.seconds.as_slice(),
        columns.keys.as_mut_slice(),
    );
}
