//! What holds of all networks, and of both algorithms on them.
ghost use Rattle.std.specs.Prelude.{◌≡◌, ℕ, Bool, List, length};
ghost use Rattle.hz_core.specs.declared.tri.Tri.{Tri};
ghost use Rattle.hz_core.specs.Netlist.{Netlist, IsCircuit};
ghost use Rattle.hz_net.specs.Network.{Driver, network_of, driver_value, driver_value3, bit_at, value_at, IsVariable};
ghost use Rattle.hz_net.specs.PassEnds.{ResultOfAExists, ResultOfBExists, RoundsOfAAreFew, RoundsOfBAreFew, RanksExist, SettlingRoundsExist};
ghost use Rattle.hz_net.specs.Reads.{Reads, AreReaders, readers_of, IsWired};

/// Wires come from nodes and go into gates, and none goes into two gates; the readers of a node are the wires from it, and
/// the reader of a wire is the gate that it goes into.
pub fn network_is_wired()
    ensures wired { (netlist : Netlist) → IsCircuit netlist → IsWired (network_of netlist) }
    ensures readers { (netlist : Netlist) (i : ℕ) → IsCircuit netlist → IsVariable netlist i →
        AreReaders (network_of netlist) i (readers_of netlist i) }
{}

/// What drives a variable asks for the same value in two states that agree at the variables that it reads.
pub fn values_read_decide()
    ensures binary { (input left right : List Bool) (driver : Driver) → length left ≡ length right →
        ((i : ℕ) → Reads driver i → bit_at left i ≡ bit_at right i) →
        driver_value input left driver ≡ driver_value input right driver }
    ensures ternary { (input : List Bool) (left right : List Tri) (driver : Driver) →
        length left ≡ length right →
        ((i : ℕ) → Reads driver i → value_at left i ≡ value_at right i) →
        driver_value3 input left driver ≡ driver_value3 input right driver }
{}

/// Both algorithms come to rest on every change, after at most one round more than there are variables: there are their
/// results, and with them the ranks of Algorithm A and the settling rounds of Algorithm B.
#[tactic(auto, using(crate::proofs::RestRounds::ranks_of_result, crate::proofs::RestRounds::settling_of_result))]
pub fn passes_end()
    ensures a { ResultOfAExists }
    ensures b { ResultOfBExists }
    ensures few_of_a { RoundsOfAAreFew }
    ensures few_of_b { RoundsOfBAreFew }
    ensures ranks { RanksExist }
    ensures rounds { SettlingRoundsExist }
{}
