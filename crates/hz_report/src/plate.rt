//! The lines of changes, of which most bytes stay from one change to the next.
ghost use Rattle.std.specs.Prelude.{◌≡◌, ◌≤◌, IfOk, length};
ghost use Rattle.hz_net.specs.Network.{AreByVariable};
ghost use Rattle.hz_write.specs.Writer.{Writes, NoneWaits};
ghost use Rattle.hz_text.specs.Printed.{statement_text, all_listed};
ghost use Rattle.hz_report.specs.Report.{row_lines, shown_rows};

use crate::head::write_kept_bits;
use crate::kept::Kept;
use crate::rows::{write_kept_rows, write_rows};
use hz_core::Memory;
use hz_desk::Rows;
use hz_net::Net;
use hz_options::Show;
use hz_outside::Sink;
use hz_text::write_bits;
use hz_write::Writer;
use std::alloc::Global;
use std::marker::Model;

/// What the lines of changes are made with: the network, which variables are shown, and for more
/// than one change the lines that nearly all changes have in common, as a printer keeps them set.
///
/// Contracts see it as the circuit of the network and which variables are shown.
#[derive(Drop)]
pub struct Plate<'n> {
    net: &'n Net,
    show: Show,
    // A line and a word for each node. They take about 50 bytes and its name twice.
    kept: Option<Kept>,
}

impl<'n> Model for Plate<'n> {
    ghost use Rattle.hz_report.specs.Plate.{PlateOf, HoldsPlate};

    ghost Value = { PlateOf };

    ghost view = { λ fields. record { netlist = fields.net.now; show = fields.show } };

    ghost invariant = { HoldsPlate };
}

impl<'n> Plate<'n> {
    /// A plate for so many changes. Only this call takes memory.
    pub fn new(alloc: Global, net: &'n Net, show: Show, changes: usize) -> Result<Plate<'n>, Memory>
        ensures { IfOk result (λ plate. plate ≡ record { netlist = net.now; show = show }) }
    {
        let kept = match show {
            Show::Nodes if changes > 1 => Some(Kept::new(alloc, net.circuit())?),
            _ => None,
        };
        Ok(Plate { net, show, kept })
    }

    /// The network.
    pub fn net(&self) -> &'n Net
        ensures { result.now ≡ self.now.netlist }
    {
        self.net
    }

    // Gives the line of each variable that is shown.
    pub(crate) fn write_rows<K: Sink>(&mut self, writer: &mut Writer<'_, K>, rows: &Rows)
        requires rows { AreByVariable self.old.netlist rows.now }
        requires none_waits { NoneWaits writer.old }
        ensures gave { Writes K.output K.faults
            (row_lines self.old.netlist 0 (shown_rows self.old.netlist self.old.show rows.now))
            writer.old writer.new }
        ensures none_waits { NoneWaits writer.new }
        ensures same { self.new ≡ self.old }
    {
        match &mut self.kept {
            Some(kept) => write_kept_rows(
                writer,
                self.net,
                rows,
                kept.rows.text.as_mut_slice(),
                kept.rows.begins.as_slice(),
                &mut kept.shown,
            ),
            None => write_rows(writer, self.net, rows, self.show),
        }
    }

    // Gives a line that lists the first nodes with their bits.
    pub(crate) fn write_bits<K: Sink>(
        &mut self,
        writer: &mut Writer<'_, K>,
        keyword: &[u8],
        bits: &[bool],
    )
        requires { length bits.now ≤ length self.old.netlist.names }
        ensures gave { Writes K.output K.faults
            (statement_text self.old.netlist keyword.now (all_listed bits.now)) writer.old writer.new }
        ensures none_waits { NoneWaits writer.new }
        ensures same { self.new ≡ self.old }
    {
        match &mut self.kept {
            Some(kept) => {
                writer.text(keyword);
                write_kept_bits(
                    writer,
                    self.net,
                    bits,
                    kept.start.text.as_mut_slice(),
                    kept.start.begins.as_slice(),
                );
            }
            None => write_bits(writer, self.net.circuit(), keyword, bits),
        }
    }
}
