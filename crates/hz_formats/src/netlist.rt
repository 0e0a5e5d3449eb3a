//! The first text: a netlist, in the format that the name of its file tells.
ghost use Rattle.std.specs.Prelude.{◌≡◌, ◌≤◌, IfOk, IfErr, length};
ghost use Rattle.hz_bench.specs.Fault.{bench_row};
ghost use Rattle.hz_blif.specs.Fault.{blif_fault_line};
ghost use Rattle.hz_core.specs.Netlist.{IsWhole};
ghost use Rattle.hz_line.specs.Line.{most_text_bytes};
ghost use Rattle.hz_formats.specs.Netlists.{has_blif_name, IsNetlistText, IsNetlistRefusal, TextsAreCircuits, named_netlist_line};

use hz_bench::BenchFault;
use hz_blif::BlifFault;
use hz_core::Circuit;
use hz_line::is_keyword;
use std::alloc::Global;

/// The end of the name of a file that is read as BLIF, in any letter case.
const BLIF: &[u8] = b".blif";

/// Why a first text is no netlist, by its format.
#[derive(Clone, Copy)]
pub enum NetlistFault {
    Bench(BenchFault),
    Blif(BlifFault),
}

impl NetlistFault {
    /// The line of the text that it names, or 0 if it names none.
    pub fn line(self) -> u32
        ensures { result ≡ named_netlist_line self }
    {
        match self {
            NetlistFault::Bench(fault) => bench_line(fault),
            NetlistFault::Blif(fault) => blif_line(fault),
        }
    }
}

// The line that a fault of a netlist in the .bench format names.
fn bench_line(fault: BenchFault) -> u32
    ensures { result ≡ (bench_row fault).line }
{
    match fault {
        BenchFault::Form { line }
        | BenchFault::Name { line }
        | BenchFault::KindUnknown { line }
        | BenchFault::Twice { line, .. }
        | BenchFault::Pins { line, .. }
        | BenchFault::Undefined { line } => line,
        BenchFault::TooMany { .. } | BenchFault::Memory => 0,
    }
}

// The line that a fault of a netlist in BLIF names.
fn blif_line(fault: BlifFault) -> u32
    ensures { result ≡ blif_fault_line fault }
{
    match fault {
        BlifFault::Form { line }
        | BlifFault::Name { line }
        | BlifFault::Construct { line }
        | BlifFault::Twice { line, .. }
        | BlifFault::Cover { line }
        | BlifFault::Pins { line, .. }
        | BlifFault::Constant { line }
        | BlifFault::Undefined { line } => line,
        BlifFault::TooMany { .. } | BlifFault::Memory => 0,
    }
}

/// Reads a netlist: as BLIF if the name of its file says so, else in the .bench format.
pub fn read_netlist(alloc: Global, name: &str, text: &[u8]) -> Result<Circuit, NetlistFault>
    requires { length text.now ≤ most_text_bytes }
    ensures netlist { IfOk result (λ circuit. IsNetlistText name.now text.now circuit) }
    ensures whole { IfOk result (λ circuit. IsWhole circuit) }
    ensures refusal { IfErr result (IsNetlistRefusal name.now text.now) }
{
    if has_blif_name(name.as_bytes()) {
        match hz_blif::read(alloc, text) {
            Ok(circuit) => Ok(circuit),
            Err(fault) => Err(NetlistFault::Blif(fault)),
        }
    } else {
        match hz_bench::read(alloc, text) {
            Ok(circuit) => Ok(circuit),
            Err(fault) => Err(NetlistFault::Bench(fault)),
        }
    }
}

// Whether a file with this name is read as BLIF.
fn has_blif_name(name: &[u8]) -> bool
    ensures { result ≡ has_blif_name name.now }
{
    match name.len().checked_sub(BLIF.len()) {
        Some(front) => is_keyword(&name[front..], BLIF),
        None => false,
    }
}

/// The text of a netlist without a fault is that of a circuit, in each format, and in BLIF its network keeps the covers.
pub fn texts_are_circuits()
    ensures { TextsAreCircuits }
{
    hz_bench::faultless_text_is_circuit();
    hz_blif::faultless_text_is_circuit();
    hz_blif::stable_states_keep_covers();
}
