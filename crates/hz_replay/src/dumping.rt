//! The job `vcd`: the last run of a run text as a value change dump, once all its runs are replayed.
ghost use Rattle.std.specs.Prelude.{◌≤◌, length};
ghost use Rattle.hz_run_text.specs.RunText.{IsRunTextFor};
ghost use Rattle.hz_vcd.specs.Dump.{variables_of};
ghost use Rattle.hz_vcd.specs.Word.{words_of};
ghost use Rattle.hz_refusal.specs.Ends.{Ends};
ghost use Rattle.hz_replay.specs.Dumps.{last_dump, MeansLast, IsLastWritten};
ghost use Rattle.hz_replay.specs.Replaying.{AreAccepted};
ghost use Rattle.hz_write.specs.Writer.{Writes};
ghost use Rattle.hz_write.specs.Writes.{Wrote};

use crate::replaying::first_refusal;
use crate::verdict::put_no;
use hz_core::Memory;
use hz_gmw::Run;
use hz_net::Net;
use hz_outside::{PutFault, Sink};
use hz_refusal::{OnRuns, Status, status_after};
use hz_run_text::RunText;
use hz_vcd::write_within;
use hz_write::Writer;
use std::alloc::Global;

/// The job `vcd`.
#[derive(Drop)]
pub struct Dumps;

impl OnRuns for Dumps {
    ghost use Rattle.hz_replay.specs.Dumps.{IsVcdOutcome};

    ghost judges = { λ _. IsVcdOutcome };

    fn with_runs<K: Sink>(&self, alloc: Global, net: &Net, runs: &RunText, out: &mut K) -> Status {
        match first_refusal(alloc, net, runs) {
            Ok(None) => dump_last(alloc, net, runs, out),
            Ok(Some(refused)) => {
                status_after(put_no(out, net, refused.run, refused.why), Status::No)
            }
            Err(Memory) => Status::Memory,
        }
    }
}

// The part of the job with runs of which none is refused: room for a bit of each variable is taken, and the dump is put.
fn dump_last<K: Sink>(alloc: Global, net: &Net, runs: &RunText, out: &mut K) -> Status
    requires text { IsRunTextFor net.now runs.now }
    requires accepted { AreAccepted net.now runs.now }
    ensures { Ends K.output K.faults (IsLastWritten net.now runs.now) out.old out.new result }
{
    let Ok(mut room) = vec![in alloc; false; net.len() as usize] else {
        return Status::Memory;
    };
    let put = put_last(alloc, out, net, runs, room.as_mut_slice());
    status_after(put, Status::Done)
}

// Puts the dump of the last run, or of the start alone if there is no run.
fn put_last<K: Sink>(
    alloc: Global,
    out: &mut K,
    net: &Net,
    runs: &RunText,
    room: &mut [bool],
) -> Result<(), PutFault>
    requires room { variables_of net.now ≤ length room.old }
    requires text { IsRunTextFor net.now runs.now }
    requires accepted { AreAccepted net.now runs.now }
    ensures wrote { Wrote K.output K.faults (last_dump net.now runs.now) out.old out.new result }
    ensures means { MeansLast net.now runs.now (words_of (last_dump net.now runs.now)) }
{
    let mut writer = Writer::new(out);
    write_last(alloc, &mut writer, net, runs, room);
    writer.finish()
}

// Gives the dump to a writer.
fn write_last<K: Sink>(
    alloc: Global,
    writer: &mut Writer<'_, K>,
    net: &Net,
    runs: &RunText,
    room: &mut [bool],
)
    requires room { variables_of net.now ≤ length room.old }
    requires text { IsRunTextFor net.now runs.now }
    requires accepted { AreAccepted net.now runs.now }
    ensures gave { Writes K.output K.faults (last_dump net.now runs.now) writer.old writer.new }
    ensures means { MeansLast net.now runs.now (words_of (last_dump net.now runs.now)) }
{
    match runs.runs().checked_sub(1) {
        Some(last) => {
            let (lead, cycle) = (runs.lead(last), runs.cycle(last));
            write_within(writer, net, runs.nodes(), room, lead, cycle);
        }
        None => write_within(writer, net, runs.nodes(), room, &Run::new(alloc), None),
    }
}
