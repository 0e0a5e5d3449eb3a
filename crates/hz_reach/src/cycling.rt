//! The cycle.
ghost use Rattle.std.specs.Prelude.{◌≡◌, ◌*◌, [], length};
ghost use Rattle.hz_net.specs.Network.{network_of};
ghost use Rattle.hz_reach.specs.Order.{IsInKeyOrder};
ghost use Rattle.hz_reach.specs.Room.{Spends};
ghost use Rattle.hz_reach.specs.Given.{IsEmptyRun};
ghost use Rattle.hz_reach.specs.Cycles.{ComeFromAChange, IsCycleOf};
ghost use Rattle.hz_reach.specs.Turned.{IsTurned};

use crate::Scratch;
use crate::passing::make_pass;
use hz_core::Tri;
use hz_gmw::Run;
use hz_net::Net;

/// The cycle: from a turned state back to it, a nontransient cycle in which each variable that is X in the result of
/// Algorithm B takes both bits, and no other variable changes. It is two passes over the gates that are X. If there is none
/// the cycle has no step.
///
/// `scratch` holds the state in which the cycle begins, and holds it again afterwards. It takes no memory and cannot fail.
pub fn cycle_run(
    net: &Net,
    input: &[bool],
    rank: &[u32],
    b: &[Tri],
    scratch: &mut Scratch,
    run: &mut Run,
)
    requires change { ComeFromAChange net.now input.now rank.now b.now }
    requires turned { IsTurned (network_of net.now) rank.now b.now scratch.old.state }
    requires none_marked { scratch.old.marked ≡ [] }
    requires run { IsEmptyRun (4 * length (network_of net.now)) run.old }
    ensures cycle { IsCycleOf (network_of net.now) input.now b.now scratch.old.state run.new.steps }
    ensures state { scratch.new.state ≡ scratch.old.state }
    ensures marked { scratch.new.marked ≡ [] }
    ensures room { Spends run.old run.new }
{
    scratch.sort(rank);
    cycle_in_order(net, input, rank, b, scratch, run);
}

/// The cycle, if the variables of `scratch` are sorted by rank already.
pub fn cycle_in_order(
    net: &Net,
    input: &[bool],
    rank: &[u32],
    b: &[Tri],
    scratch: &mut Scratch,
    run: &mut Run,
)
    requires change { ComeFromAChange net.now input.now rank.now b.now }
    requires turned { IsTurned (network_of net.now) rank.now b.now scratch.old.state }
    requires none_marked { scratch.old.marked ≡ [] }
    requires sorted { IsInKeyOrder rank.now scratch.old.sorted }
    requires run { IsEmptyRun (4 * length (network_of net.now)) run.old }
    ensures cycle { IsCycleOf (network_of net.now) input.now b.now scratch.old.state run.new.steps }
    ensures state { scratch.new.state ≡ scratch.old.state }
    ensures marked { scratch.new.marked ≡ [] }
    ensures room { Spends run.old run.new }
{
    net.keeps_shape();
    make_pass(net, rank, b, scratch, run);
    // If no gate had a turn, none has one in a second pass.
    if run.steps() == 0 {
        return;
    }
    make_pass(net, rank, b, scratch, run);
}
