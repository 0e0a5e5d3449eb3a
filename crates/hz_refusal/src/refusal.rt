//! Refusals: their lines and their statuses.
ghost use Rattle.std.specs.Prelude.{◌≡◌, ◌<◌, length};
ghost use Rattle.hz_write.specs.Writes.{Wrote};
ghost use Rattle.hz_refusal.specs.Ends.{Ends};
ghost use Rattle.hz_refusal.specs.Refused.{LoadPrints, StartPrints, TextPrints, named_node, named_gate, NamesNode};
ghost use Rattle.hz_refusal.specs.Refusal.{words_line, unread_line, long_line, place_word, fault_line, missing_line, mismatch_line, text_fault_line, open_line, unstable_line};

use crate::status::{Status, status_after};
use hz_core::Circuit;
use hz_outside::{LoadFault, Place, PutFault, Sink};
use hz_pass::StartFault;
use hz_text::TextFault;
use hz_write::Piece::{Number, Text};
use hz_write::put_line;

// Words that name no job.
#[tactic(auto, unfolding(crate::specs::Refusal::words_line))]
pub fn put_words<K: Sink>(out: &mut K) -> Result<(), PutFault>
    ensures { Wrote K.output K.faults words_line out.old out.new result }
{
    put_line(
        out,
        &[Text(b"refused: words; usage: hazard JOB FIRST [SECOND] [--cap N] [--show nodes|all]")],
    )
}

// The word for a file's place.
fn place_word(place: Place) -> &'static [u8]
    ensures { result.now ≡ place_word place }
{
    match place {
        Place::First => b"first",
        Place::Second => b"second",
    }
}

// A file that was not read.
#[tactic(auto, unfolding(crate::specs::Refusal::unread_line))]
fn put_unread<K: Sink>(out: &mut K, place: Place) -> Result<(), PutFault>
    ensures { Wrote K.output K.faults (unread_line place) out.old out.new result }
{
    put_line(
        out,
        &[
            Text(b"refused: "),
            Text(place_word(place)),
            Text(b" file not read"),
        ],
    )
}

// A file with too many bytes.
#[tactic(auto, unfolding(crate::specs::Refusal::long_line))]
fn put_long<K: Sink>(out: &mut K, place: Place) -> Result<(), PutFault>
    ensures { Wrote K.output K.faults (long_line place) out.old out.new result }
{
    put_line(
        out,
        &[
            Text(b"refused: "),
            Text(place_word(place)),
            Text(b" file too long"),
        ],
    )
}

// A fault at a line of a text, by what the text is called.
#[tactic(auto, unfolding(crate::specs::Refusal::fault_line))]
pub fn put_at<'p, K: Sink>(
    out: &mut K,
    called: &'p [u8],
    line: u32,
    fault: &'p [u8],
) -> Result<(), PutFault>
    ensures { Wrote K.output K.faults (fault_line called.now line fault.now) out.old out.new
        result }
{
    put_line(
        out,
        &[
            Text(b"refused: "),
            Text(called),
            Text(b" line "),
            Number(line),
            Text(fault),
        ],
    )
}

// A node for which a text has no value.
#[tactic(auto, unfolding(crate::specs::Refusal::missing_line))]
fn put_missing<'p, K: Sink>(
    out: &mut K,
    called: &'p [u8],
    circuit: &'p Circuit,
    node: u32,
) -> Result<(), PutFault>
    requires { node < length circuit.now.names }
    ensures { Wrote K.output K.faults (missing_line called.now circuit.now node) out.old out.new
        result }
{
    put_line(
        out,
        &[
            Text(b"refused: "),
            Text(called),
            Text(b": no value for "),
            Text(circuit.name(node)),
        ],
    )
}

// A count of the network's size that a text has wrong.
#[tactic(auto, unfolding(crate::specs::Refusal::mismatch_line))]
fn put_mismatch<K: Sink>(
    out: &mut K,
    called: &[u8],
    line: u32,
    told: u32,
    real: u32,
) -> Result<(), PutFault>
    ensures { Wrote K.output K.faults (mismatch_line called.now line told real) out.old out.new
        result }
{
    put_line(
        out,
        &[
            Text(b"refused: "),
            Text(called),
            Text(b" line "),
            Number(line),
            Text(b": net "),
            Number(told),
            Text(b", not "),
            Number(real),
        ],
    )
}

// A fault of a text that is called so. If memory ran out, there is no line.
fn put_text_fault<K: Sink>(
    out: &mut K,
    called: &[u8],
    circuit: &Circuit,
    fault: TextFault,
) -> Result<(), PutFault>
    requires { NamesNode circuit.now (named_node fault) }
    ensures { Wrote K.output K.faults (text_fault_line called.now circuit.now fault) out.old out.new
        result }
{
    match fault {
        TextFault::Form { line } => put_at(out, called, line, b": form"),
        TextFault::Unknown { line } => put_at(out, called, line, b": unknown name"),
        TextFault::Twice { line } => put_at(out, called, line, b": assigned twice"),
        TextFault::Missing { node } => put_missing(out, called, circuit, node),
        TextFault::Bit { line } => put_at(out, called, line, b": bit"),
        TextFault::Order { line } => put_at(out, called, line, b": order"),
        TextFault::TooMany { line } => put_at(out, called, line, b": too many"),
        TextFault::Memory => Ok(()),
        TextFault::Mismatch { line, told, real } => put_mismatch(out, called, line, told, real),
    }
}

// A node that the start leaves open: a cut or a gate.
#[tactic(auto, unfolding(crate::specs::Refusal::open_line))]
fn put_open<K: Sink>(out: &mut K, circuit: &Circuit, node: u32) -> Result<(), PutFault>
    requires { node < length circuit.now.names }
    ensures { Wrote K.output K.faults (open_line circuit.now node) out.old out.new result }
{
    put_line(
        out,
        &[Text(b"refused: start: open "), Text(circuit.name(node))],
    )
}

// A gate that is unstable at the start.
#[tactic(auto, unfolding(crate::specs::Refusal::unstable_line))]
fn put_unstable<K: Sink>(out: &mut K, circuit: &Circuit, gate: u32) -> Result<(), PutFault>
    requires { gate < length circuit.now.names }
    ensures { Wrote K.output K.faults (unstable_line circuit.now gate) out.old out.new result }
{
    put_line(
        out,
        &[Text(b"refused: start: unstable "), Text(circuit.name(gate))],
    )
}

// Writes why a file was not loaded.
pub fn refuse_load<K: Sink>(out: &mut K, place: Place, fault: LoadFault) -> Status
    ensures { Ends K.output K.faults (LoadPrints place fault) out.old out.new result }
{
    match fault {
        LoadFault::Failed => status_after(put_unread(out, place), Status::File),
        LoadFault::TooLong => status_after(put_long(out, place), Status::TooLong),
        LoadFault::Memory => Status::Memory,
    }
}

// Writes why a text that is called so can't be read on a circuit.
pub fn refuse_text<K: Sink>(
    out: &mut K,
    called: &[u8],
    circuit: &Circuit,
    fault: TextFault,
) -> Status
    requires { NamesNode circuit.now (named_node fault) }
    ensures ends { Ends K.output K.faults (TextPrints called.now circuit.now fault) out.old out.new
        result }
    ensures memory { fault ≡ TextFault.Memory → result ≡ Status.Memory }
{
    match fault {
        TextFault::Memory => Status::Memory,
        _ => status_after(put_text_fault(out, called, circuit, fault), Status::Text),
    }
}

// Writes why listed values give no start.
pub fn refuse_start<K: Sink>(out: &mut K, circuit: &Circuit, fault: StartFault) -> Status
    requires { NamesNode circuit.now (named_gate fault) }
    ensures { Ends K.output K.faults (StartPrints circuit.now fault) out.old out.new result }
{
    match fault {
        StartFault::Open { gate } => status_after(put_open(out, circuit, gate), Status::Start),
        StartFault::Unstable { gate } => {
            status_after(put_unstable(out, circuit, gate), Status::Start)
        }
        StartFault::Memory => Status::Memory,
    }
}
