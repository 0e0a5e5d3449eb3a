//! The least of listed variables with some property.
ghost use Rattle.std.specs.Prelude.{◌≡◌, ◌<◌, Option, All, None, false, not, length, replicate};
ghost use Rattle.std.specs.Bool.{beq};
ghost use Rattle.hz_net.specs.Network.{bit_at};
ghost use Rattle.hz_gmw.specs.LeastListed.{least_from, least_repeat};

use crate::variable_set::VariableSet;
use hz_lists::lesser;

/// The least listed variable at which two states differ.
pub(crate) fn least_differing(list: &[u32], left: &[bool], right: &[bool]) -> Option<u32>
    requires left { All (λ var. var < length left.now) list.now }
    requires long { length left.now ≡ length right.now }
    ensures { result
        ≡ least_from None (λ var. not (beq (bit_at left.now var) (bit_at right.now var))) list.now }
{
    let mut found = None;
    for var in list {
        if left[*var as usize] != right[*var as usize] {
            found = lesser(found, Some(*var));
        }
    }
    found
}

/// The least variable that is listed twice. The set is room for it, and is empty before and after. A list of one, as most steps are,
/// has none.
pub(crate) fn least_repeated(list: &[u32], named: &mut VariableSet) -> Option<u32>
    requires inside { All (λ var. var < length named.old) list.now }
    requires none { named.old ≡ replicate (length named.old) false }
    ensures least { result ≡ least_repeat None named.old list.now }
    ensures none { named.new ≡ replicate (length named.old) false }
{
    if let [_] = list {
        return None;
    }
    let mut found = None;
    for var in list {
        if named.contains(*var) {
            found = lesser(found, Some(*var));
        }
        named.insert(*var);
    }
    named.clear();
    found
}
