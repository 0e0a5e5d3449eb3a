//! What is counted of patterns.
ghost use Rattle.std.specs.Prelude.{◌≡◌};
ghost use Rattle.hz_batch.specs.BatchText.{counts_line};
ghost use Rattle.hz_batch.specs.Comes.{last_line};
ghost use Rattle.hz_batch.specs.Counts.{AreWithin, with_mark, no_counts};
ghost use Rattle.hz_batch.specs.ResetText.{unknown_line};
ghost use Rattle.hz_write.specs.Writer.{Writes, NoneWaits};

use crate::job::Job;
use hz_outside::Sink;
use hz_write::Piece::{Count, Number, Text};
use hz_write::Writer;

/// What a pattern came to, as far as it is counted.
#[derive(Clone, Copy, Debug, PartialEq, Eq)]
pub(crate) enum Mark {
    /// A gate is open at the start.
    Open,
    /// A gate is unstable at the start.
    Unstable,
    /// Some variable is X in the result of Algorithm B.
    Unsettled,
    /// No variable is.
    Steady,
}

/// How many patterns had each mark.
#[derive(Clone, Copy, Debug)]
pub(crate) struct Counts {
    open_starts: u32,
    unstable_starts: u32,
    unsettled: u32,
}

impl Counts {
    // Nothing is counted.
    pub(crate) fn new() -> Counts
        ensures { result ≡ no_counts }
    {
        Counts {
            open_starts: 0,
            unstable_starts: 0,
            unsettled: 0,
        }
    }

    // Counts one mark more.
    pub(crate) fn add(&mut self, mark: Mark)
        requires { AreWithin 65536 self.old }
        ensures { self.new ≡ with_mark self.old mark }
    {
        match mark {
            Mark::Open => self.open_starts += 1,
            Mark::Unstable => self.unstable_starts += 1,
            Mark::Unsettled => self.unsettled += 1,
            Mark::Steady => {}
        }
    }

    // Gives the last line, of so many patterns.
    pub(crate) fn write<K: Sink>(self, writer: &mut Writer<'_, K>, job: Job, patterns: usize)
        ensures gave { Writes K.output K.faults
            (last_line job patterns self.open_starts self.unstable_starts self.unsettled)
            writer.old writer.new }
        ensures none_waits { NoneWaits writer.new }
    {
        match job {
            Job::Batch => self.write_counts(writer, patterns),
            Job::Reset => self.write_unknown(writer, patterns),
        }
    }

    // Gives the line of what starts were refused, and of what stayed X.
    #[tactic(auto, using(hz_write::proofs::Writers::writes_same), unfolding(crate::specs::BatchText::counts_line, hz_write::specs::Writes::line_of))]
    fn write_counts<K: Sink>(self, writer: &mut Writer<'_, K>, patterns: usize)
        ensures gave { Writes K.output K.faults
            (counts_line patterns self.open_starts self.unstable_starts self.unsettled)
            writer.old writer.new }
        ensures none_waits { NoneWaits writer.new }
    {
        writer.line(&[
            Text(b"patterns "),
            Count(patterns),
            Text(b" open "),
            Number(self.open_starts),
            Text(b" unstable "),
            Number(self.unstable_starts),
            Text(b" unsettled "),
            Number(self.unsettled),
        ]);
    }
    // Gives the line of what stayed X.
    #[tactic(auto, using(hz_write::proofs::Writers::writes_same), unfolding(crate::specs::ResetText::unknown_line, hz_write::specs::Writes::line_of))]
    fn write_unknown<K: Sink>(self, writer: &mut Writer<'_, K>, patterns: usize)
        ensures gave { Writes K.output K.faults (unknown_line patterns self.unsettled)
            writer.old writer.new }
        ensures none_waits { NoneWaits writer.new }
    {
        writer.line(&[
            Text(b"patterns "),
            Count(patterns),
            Text(b" unknown "),
            Number(self.unsettled),
        ]);
    }
}
