//! Reading scripts.

ghost use Rattle.std.specs.Prelude.{◌≤◌, ◌⊎◌, length, IfOk, IfErr, OnOk, IsErrOf, MatchResult};
ghost use Rattle.hz_script.specs.ScriptFault.{IsLeastScriptFault, IsScriptFaultless, IsScriptRefusal};
ghost use Rattle.hz_script.specs.ScriptReading.{IsAcceptedScript};
ghost use Rattle.hz_script.specs.ScriptText.{IsValue, IsScriptFor};
ghost use Rattle.hz_line.specs.Line.{most_text_bytes};

use crate::build::build;
use crate::script::Script;
use crate::statement::{Entry, Statements};
use hz_core::Circuit;
use hz_text::{TextFault, read_text};
use std::alloc::Global;

/// Reads a script of a circuit: a line `start`, then lines `change`, each with assignments `name = bit`. The start lists
/// every primary input and may list cuts and gates; a change lists inputs. Keywords may be in any letter case.
///
/// It takes time linear in the text and the circuit, if the names are not chosen to collide.
pub fn read_script(alloc: Global, circuit: &Circuit, text: &[u8]) -> Result<Script, TextFault>
    requires { length text.now ≤ most_text_bytes }
    ensures value { IfOk result (IsValue circuit.now text.now) }
    ensures usable { IfOk result (IsScriptFor circuit.now) }
    ensures faultless { OnOk result (IsScriptFaultless circuit.now text.now) }
    ensures fault { IfErr result (IsScriptRefusal circuit.now text.now) }
    ensures exact { (fault : TextFault) → IsLeastScriptFault circuit.now text.now fault
        → IsErrOf result fault ⊎ IsErrOf result TextFault.Memory }
{
    let entries = read_accepted(alloc, circuit, text)?;
    let script = build(alloc, circuit.nodes(), entries.as_slice())?;
    Ok(script)
}

// The statements of a text in which no fault stands.
fn read_accepted(alloc: Global, circuit: &Circuit, text: &[u8]) -> Result<Vec<Entry>, TextFault>
    requires { length text.now ≤ most_text_bytes }
    ensures { MatchResult result
        (λ entries. IsAcceptedScript circuit.now text.now entries.items)
        (λ fault. IsScriptRefusal circuit.now text.now fault) }
{
    read_text(alloc, Statements { alloc, circuit }, text)
}
