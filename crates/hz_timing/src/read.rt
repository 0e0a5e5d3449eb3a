//! Reading scripts with assumptions of time.

ghost use Rattle.std.specs.Prelude.{◌≡◌, ◌≤◌, ◌⊎◌, false, length, IfOk, IfErr, OnOk, IsErrOf, MatchResult};
ghost use Rattle.hz_line.specs.Line.{most_text_bytes};
ghost use Rattle.hz_timing.specs.TimedFault.{IsTimedFaultless, IsLeastTimedFault, IsTimedRefusal};
ghost use Rattle.hz_timing.specs.TimedText.{IsTimedValue, IsTimedScriptFor};
ghost use Rattle.hz_timing.specs.TimedReading.{IsAcceptedTimed};

use crate::assumptions::check_assumptions;
use crate::build::build;
use crate::fault::TimedFault;
use crate::script::TimedScript;
use crate::statement::{TimedEntry, TimedStatements};
use hz_net::Net;
use hz_text::{TextFault, read_text};
use std::alloc::Global;

/// Reads a script with assumptions of time, on a network: lines `order`, `ideal` and `start`, and lines `change` behind the
/// first start. Assumptions stand before the first change. Keywords may be in any letter case. `again` says whether a start
/// may stand again.
///
/// It takes time linear in the text and the circuit, and for each start a bit of each node, if the names are not chosen to
/// collide.
pub fn read_timed(
    alloc: Global,
    again: bool,
    net: &Net,
    text: &[u8],
) -> Result<TimedScript, TimedFault>
    requires { length text.now ≤ most_text_bytes }
    ensures value { IfOk result (IsTimedValue net.now text.now) }
    ensures usable { IfOk result (IsTimedScriptFor net.now) }
    ensures one { IfOk result (λ script. again ≡ false → length script.parts ≡ 1) }
    ensures faultless { OnOk result (IsTimedFaultless again net.now text.now) }
    ensures fault { IfErr result (IsTimedRefusal again net.now text.now) }
    ensures exact { (fault : TimedFault) → IsLeastTimedFault again net.now text.now fault
        → IsErrOf result fault ⊎ IsErrOf result (TimedFault.Text TextFault.Memory) }
{
    net.keeps_shape();
    let entries = read_accepted(alloc, again, net, text)?;
    let script = build(alloc, net.circuit().nodes(), entries.as_slice())?;
    Ok(script)
}

// The statements of a text in which no fault stands.
fn read_accepted(
    alloc: Global,
    again: bool,
    net: &Net,
    text: &[u8],
) -> Result<Vec<TimedEntry>, TimedFault>
    requires { length text.now ≤ most_text_bytes }
    ensures { MatchResult result
        (λ entries. IsAcceptedTimed again net.now text.now entries.items)
        (λ fault. IsTimedRefusal again net.now text.now fault) }
{
    let entries = read_text(alloc, TimedStatements { alloc, again, net }, text)?;
    check_assumptions(net, entries.as_slice())?;
    Ok(entries)
}
