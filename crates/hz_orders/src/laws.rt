//! What holds along runs that keep orders.
ghost use Rattle.std.specs.Prelude.{◌≡◌, ◌↔◌, ℕ, Bool, not, List, [], length, take, IsTrue};
ghost use Rattle.hz_core.specs.declared.kind.Kind.{Kind};
ghost use Rattle.hz_core.specs.declared.tri.Tri.{Tri};
ghost use Rattle.hz_core.specs.Gate.{takes};
ghost use Rattle.hz_core.specs.Ternary.{tri_of, Refines};
ghost use Rattle.hz_core.specs.Netlist.{Netlist, IsCircuit, IsWhole};
ghost use Rattle.hz_net.specs.Network.{network_of, bit_at, value_at, IsVariable};
ghost use Rattle.hz_net.specs.Passes.{algorithm_a, algorithm_b, IsResult};
ghost use Rattle.hz_net.specs.Starts.{IsStableStart};
ghost use Rattle.hz_gmw.specs.Runs.{IsRun};
ghost use Rattle.hz_word.specs.declared.word.Word.{Word};
ghost use Rattle.hz_word.specs.declared.count.Count.{Count};
ghost use Rattle.hz_word.specs.Capped.{IsAtMost, IsFold};
ghost use Rattle.hz_word.specs.Covers.{Covers};
ghost use Rattle.hz_free.specs.VariableWords.{variable_history};
ghost use Rattle.hz_free.specs.Inductive.{IsInductive, told_at};
ghost use Rattle.hz_orders.specs.declared.order.Order.{Order};
ghost use Rattle.hz_orders.specs.Orders.{IsUsed, Keeps, KeepsOrder};
ghost use Rattle.hz_orders.specs.Parts.{IsBoundUnder, IsCountUnder};
ghost use Rattle.hz_orders.specs.Inductive.{IsInductiveUnder};
ghost use Rattle.hz_orders.specs.Ideal.{FollowsFromIdeal, IsIdeal};
ghost use Rattle.hz_orders.specs.Outcomes.{IsKeptOutcome, narrowings, told_values};

use hz_reach::b_is_exact;

/// Along every run from a stable start that keeps the orders, a word of words that are inductive under them covers the history of its
/// variable.
pub fn ordered_covers()
    ensures { (orders : List Order) (netlist : Netlist) (input start : List Bool) (cap : ℕ)
        (told : List Word) (i : ℕ) (steps : List (List ℕ)) → IsCircuit netlist → IsWhole netlist →
        IsStableStart netlist start →
        IsInductiveUnder orders (network_of netlist) input start cap told →
        IsVariable netlist i → IsRun (network_of netlist) input start steps →
        Keeps orders start steps →
        Covers (told_at told i) (variable_history start steps i) }
{}

/// The first steps of a run keep what the run keeps.
pub fn prefixes_keep()
    ensures { (orders : List Order) (start : List Bool) (steps : List (List ℕ)) (k : ℕ) →
        Keeps orders start steps → Keeps orders start (take k steps) }
{}

/// Words that are inductive are so under any orders, and words that are inductive under no orders are inductive.
pub fn inductive_under_orders()
    ensures any { (orders : List Order) (netlist : Netlist) (input start : List Bool) (cap : ℕ)
        (told : List Word) → IsCircuit netlist → IsWhole netlist →
        IsInductive (network_of netlist) input start cap told →
        IsInductiveUnder orders (network_of netlist) input start cap told }
    ensures none { (netlist : Netlist) (input start : List Bool) (cap : ℕ) (told : List Word) →
        IsCircuit netlist → IsWhole netlist →
        IsInductiveUnder [] (network_of netlist) input start cap told →
        IsInductive (network_of netlist) input start cap told }
{}

/// What bounds a gate under orders: its word without orders, and the number of its changes under them.
pub fn gate_bounds()
    ensures fold { (orders : List Order) (kind : Kind) (wire : ℕ) (pins : List Word) (cap : ℕ)
        (outcome : Word) (bound : Count) → IsTrue (takes kind (length pins)) →
        IsFold kind pins cap outcome → IsAtMost outcome.changes bound →
        IsBoundUnder orders kind wire pins cap bound }
    ensures count { (orders : List Order) (kind : Kind) (wire : ℕ) (pins : List Word) (cap : ℕ)
        (count : Count) → IsCountUnder orders kind wire pins cap count →
        IsBoundUnder orders kind wire pins cap count }
{}

/// Every outcome state of runs that keep the orders refines what the words narrow to, in each round.
pub fn kept_outcomes_refine()
    ensures { (orders : List Order) (netlist : Netlist) (input start : List Bool) (cap : ℕ)
        (told : List Word) (state : List Bool) (round : ℕ) → IsCircuit netlist →
        IsWhole netlist → IsStableStart netlist start →
        IsInductiveUnder orders (network_of netlist) input start cap told →
        IsKeptOutcome orders (network_of netlist) input start state →
        Refines state (narrowings (network_of netlist) input (told_values told) round) }
{}

/// A run that keeps orders, and along which the first wire of a further order is ideal, keeps this order if it follows from that.
pub fn ideal_wires_keep()
    ensures { (orders : List Order) (netlist : Netlist) (input start : List Bool) (cap : ℕ)
        (order : Order) (steps : List (List ℕ)) → IsCircuit netlist → IsWhole netlist →
        IsStableStart netlist start →
        FollowsFromIdeal orders (network_of netlist) input start cap order →
        IsRun (network_of netlist) input start steps → Keeps orders start steps →
        IsIdeal (network_of netlist) input start steps order.first →
        KeepsOrder start steps order }
{}

/// A change uses an order exactly if Algorithm B ends at the other value at the order's first wire.
pub fn used_by_b()
    ensures { (netlist : Netlist) (input start : List Bool) (a b : List Tri) (order : Order) →
        IsCircuit netlist → IsStableStart netlist start →
        IsResult (algorithm_a (network_of netlist) input start) a →
        IsResult (algorithm_b (network_of netlist) input a) b →
        (value_at b order.first ≡ tri_of (not (bit_at start order.first)))
        ↔ IsUsed (network_of netlist) input start order }
{
    b_is_exact();
}
