//! The feedback cycles. Each variable that is not feedback-free chooses one of the variables that it reads; the way back from
//! choice to choice comes around in a cycle, which is the core of the variable.
ghost use Rattle.std.specs.Prelude.{◌≡◌, ◌↔◌, ℕ, ◌+◌, ◌^◌, ◌<◌, ◌≤◌, true, List, [], None, length, IfOk, OnOk, MatchOption, IsTrue, All, nat_eq, position};
ghost use Rattle.hz_net.specs.Network.{Driver, network_of, bit_at, IsVariable};
ghost use Rattle.hz_net.specs.Reads.{IsWired};
ghost use Rattle.hz_lists.specs.Listed.{is_listed};
ghost use Rattle.hz_free.specs.Chains.{IsFeedbackFree};
ghost use Rattle.hz_free.specs.Feedback.{IsChoice};
ghost use Rattle.hz_free.specs.FreePart.{AreMarks, AreFeedback};
ghost use Rattle.hz_free.specs.Paths.{IsLink, AreLinks, IsPathToMark, AreChoices, AreRooted, AreChoosers, AreNumbered, HasRoot, HaveValue, HaveChoosers, IsFeeding, HasNoLinks, IsInside, AddsCycle, HaveNumbers, core_by};

use crate::cycles::Cycles;
use crate::link::Link;
use hz_core::Memory;
use hz_net::{Net, VarKind};
use std::alloc::Global;

// The feedback cycles of a network, and for each variable the number of the cycle that is its core.
#[derive(Debug, Drop)]
pub(crate) struct Feedback {
    pub(crate) cycles: Cycles,
    pub(crate) cores: Vec<Link>,
}

// The feedback cycles of a network, given which of its variables are feedback-free. Without feedback nothing is searched.
pub(crate) fn find_feedback(alloc: Global, net: &Net, free: &[bool]) -> Result<Feedback, Memory>
    requires { AreMarks (network_of net.now) free.now }
    ensures { IfOk result
        (λ feedback. AreFeedback (network_of net.now) feedback.cycles feedback.cores.items) }
{
    net.keeps_shape();
    if are_all_free(free) {
        return Ok(no_feedback(alloc));
    }
    let choices = choose_all(alloc, net, free)?;
    let mut choosers = no_links(alloc, choices.len())?;
    let mut roots = no_links(alloc, choices.len())?;
    let mut numbers = no_links(alloc, choices.len())?;
    let cycles = find_cycles(
        alloc,
        choices.as_slice(),
        choosers.as_mut_slice(),
        roots.as_mut_slice(),
        numbers.as_mut_slice(),
    )?;
    Ok(Feedback {
        cycles,
        cores: roots,
    })
}

// Whether each variable is feedback-free.
fn are_all_free(free: &[bool]) -> bool
    ensures { IsTrue result ↔ All IsTrue free.now }
{
    free.iter().all(|is_free| *is_free)
}

// What is found where each variable is feedback-free: no cycle, and no core.
fn no_feedback(alloc: Global) -> Feedback
    ensures cycles { result.cycles ≡ [] }
    ensures cores { result.cores.items ≡ [] }
{
    Feedback {
        cycles: Cycles::new(alloc),
        cores: Vec::new(alloc),
    }
}

// The cycles of given choices, with room for what is found of each variable: which variable of its cycle chose it, in which
// variable of a cycle the way back from it ends, and the number of its cycle. In the end each variable has the number of its core in
// place of its root.
fn find_cycles(
    alloc: Global,
    choices: &[Link],
    choosers: &mut [Link],
    roots: &mut [Link],
    numbers: &mut [Link],
) -> Result<Cycles, Memory>
    requires room { length choices.now < 2 ^ 32 }
    requires links { AreLinks choices.now }
    requires choosers { HasNoLinks (length choices.now) choosers.old }
    requires roots { HasNoLinks (length choices.now) roots.old }
    requires numbers { HasNoLinks (length choices.now) numbers.old }
    ensures { IfOk result
        (λ cycles. (net : List Driver) → IsWired net → AreChoices net choices.now →
        AreFeedback net cycles roots.new) }
{
    let mut path = Vec::new(alloc);
    find_roots(choices, choosers, roots, &mut path)?;
    let cycles = list_cycles(alloc, choosers, numbers, &mut path)?;
    write_cores(roots, numbers);
    Ok(cycles)
}

// What each variable chooses that is not feedback-free.
fn choose_all(alloc: Global, net: &Net, free: &[bool]) -> Result<Vec<Link>, Memory>
    requires { AreMarks (network_of net.now) free.now }
    ensures { IfOk result (λ choices. AreChoices (network_of net.now) choices.items) }
{
    let Ok(mut choices) = Vec::with_capacity(alloc, free.len()) else {
        return Err(Memory);
    };
    for var in 0..net.len() {
        let Ok(()) = choices.push(choose(net, free, var)) else {
            return Err(Memory);
        };
    }
    Ok(choices)
}

// What a variable chooses: the first variable that it reads and that is not feedback-free.
fn choose(net: &Net, free: &[bool], var: u32) -> Link
    requires var { IsVariable net.now var }
    requires marks { AreMarks (network_of net.now) free.now }
    ensures { MatchOption result (IsFeedbackFree (network_of net.now) var)
        (IsChoice (network_of net.now) var) }
{
    net.keeps_shape();
    if free[var as usize] {
        return Link::none();
    }
    match net.kind_of(var) {
        VarKind::Input { .. } => Link::none(),
        VarKind::Gate { .. } => {
            let (first, count) = net.wires_in(var);
            first_feeding(free, first, first + count)
        }
        VarKind::Wire { source, .. } => first_feeding(free, source, source + 1),
    }
}

// The first variable of a range that is not feedback-free.
fn first_feeding(free: &[bool], first: u32, end: u32) -> Link
    requires { end ≤ length free.now }
    ensures { MatchOption result ((i : ℕ) → first ≤ i → i < end → bit_at free.now i ≡ true)
        (IsFeeding free.now first end) }
{
    for var in first..end {
        if !free[var as usize] {
            return Link::to(var);
        }
    }
    Link::none()
}

// No variable leads to another one.
fn no_links(alloc: Global, variables: usize) -> Result<Vec<Link>, Memory>
    ensures { IfOk result (λ links. HasNoLinks variables links.items) }
{
    let Ok(links) = vec![in alloc; Link::none(); variables] else {
        return Err(Memory);
    };
    Ok(links)
}

// Goes from a variable from link to link, until a variable that has a mark, and marks those on the way. They become the path. Returns
// the variable in which it ends.
fn follow(
    links: &[Link],
    start: u32,
    mark: u32,
    marks: &mut [Link],
    path: &mut Vec<u32>,
) -> Result<u32, Memory>
    requires links { AreLinks links.now }
    requires start { IsLink links.now start }
    requires mark { mark < 4294967295 }
    requires long { length marks.old ≡ length links.now }
    ensures { IfOk result
        (λ end. IsPathToMark links.now start mark path.new.items end marks.old marks.new) }
{
    path.clear();
    let mut var = start;
    while marks[var as usize].get().is_none() {
        let Ok(()) = path.push(var) else {
            return Err(Memory);
        };
        marks[var as usize] = Link::to(mark);
        var = links[var as usize].get().unwrap();
    }
    Ok(var)
}

// For each variable that has a choice its root, and for each variable of a cycle which one of the cycle chose it. Any path that is given
// lends its room.
fn find_roots(
    choices: &[Link],
    choosers: &mut [Link],
    roots: &mut [Link],
    path: &mut Vec<u32>,
) -> Result<(), Memory>
    requires room { length choices.now < 2 ^ 32 }
    requires links { AreLinks choices.now }
    requires rooted { AreRooted choices.now choosers.old roots.old 0 }
    ensures { OnOk result (AreRooted choices.now choosers.new roots.new (length choices.now)) }
{
    for var in 0..choices.len() {
        if choices[var].get().is_some() {
            match find_root(choices, var as u32, choosers, roots, path) {
                Ok(()) => {}
                Err(fault) => return Err(fault),
            }
        }
    }
    Ok(())
}

// The root of a variable and of those on the way back from it.
fn find_root(
    choices: &[Link],
    start: u32,
    choosers: &mut [Link],
    roots: &mut [Link],
    path: &mut Vec<u32>,
) -> Result<(), Memory>
    requires room { length choices.now < 2 ^ 32 }
    requires links { AreLinks choices.now }
    requires start { IsLink choices.now start }
    requires rooted { AreRooted choices.now choosers.old roots.old start }
    ensures { OnOk result (AreRooted choices.now choosers.new roots.new (start + 1)) }
{
    let end = follow(choices, start, start, roots, path)?;
    let root = root_of(choices, path.as_slice(), end, choosers, roots);
    set_roots(path.as_slice(), root, roots);
    Ok(())
}

// The root of the variables of a path. If the path ends in one of its own variables, it came around in a new cycle.
fn root_of(choices: &[Link], path: &[u32], end: u32, choosers: &mut [Link], roots: &[Link]) -> Link
    requires room { length choices.now < 2 ^ 32 }
    requires links { AreLinks choices.now }
    requires choosers { length choosers.old ≡ length choices.now }
    requires path { (i : ℕ) → IsTrue (is_listed path.now i) → IsLink choices.now i }
    requires end { end < length roots.now }
    requires roots { length roots.now ≡ length choices.now }
    ensures { HasRoot choices.now path.now end choosers.old choosers.new roots.now result }
{
    match place_of(path, end) {
        Some(place) => {
            note_choosers(choices, &path[place..], choosers);
            Link::to(end)
        }
        None => roots[end as usize],
    }
}

// The place of a variable on a path.
fn place_of(path: &[u32], end: u32) -> Option<usize>
    ensures { result ≡ position (nat_eq end) path.now }
{
    path.iter().position(|var| end == *var)
}

// Each variable of a cycle is the one that chose its choice.
fn note_choosers(choices: &[Link], cycle: &[u32], choosers: &mut [Link])
    requires room { length choices.now < 2 ^ 32 }
    requires links { AreLinks choices.now }
    requires choosers { length choosers.old ≡ length choices.now }
    requires cycle { (i : ℕ) → IsTrue (is_listed cycle.now i) → IsLink choices.now i }
    ensures { HaveChoosers choices.now cycle.now choosers.old choosers.new }
{
    for var in cycle {
        let choice = choices[*var as usize].get().unwrap();
        choosers[choice as usize] = Link::to(*var);
    }
}

// The variables of a path have a root.
fn set_roots(path: &[u32], root: Link, roots: &mut [Link])
    requires { (i : ℕ) → IsTrue (is_listed path.now i) → i < length roots.old }
    ensures { HaveValue path.now root roots.old roots.new }
{
    for var in path {
        roots[*var as usize] = root;
    }
}

// The cycles in the order of their least variables, each from its least variable on. Any path that is given lends its room.
fn list_cycles(
    alloc: Global,
    choosers: &[Link],
    numbers: &mut [Link],
    path: &mut Vec<u32>,
) -> Result<Cycles, Memory>
    requires room { length choosers.now < 2 ^ 32 }
    requires links { AreLinks choosers.now }
    requires numbers { HasNoLinks (length choosers.now) numbers.old }
    ensures { IfOk result
        (λ cycles. (net : List Driver) → AreChoosers net choosers.now →
        AreNumbered net choosers.now numbers.new (length choosers.now) cycles) }
{
    let mut cycles = Cycles::new(alloc);
    for var in 0..choosers.len() {
        if choosers[var].get().is_some() && numbers[var].get().is_none() {
            match list_cycle(choosers, var as u32, numbers, path, &mut cycles) {
                Ok(()) => {}
                Err(fault) => return Err(fault),
            }
        }
    }
    Ok(cycles)
}

// The cycle of a variable, from that variable on.
fn list_cycle(
    choosers: &[Link],
    first: u32,
    numbers: &mut [Link],
    path: &mut Vec<u32>,
    cycles: &mut Cycles,
) -> Result<(), Memory>
    requires links { AreLinks choosers.now }
    requires first { IsLink choosers.now first }
    requires long { length numbers.old ≡ length choosers.now }
    requires room { length cycles.old < 4294967295 }
    ensures { OnOk result
        (AddsCycle choosers.now first numbers.old cycles.old numbers.new cycles.new) }
{
    follow(choosers, first, cycles.len() as u32, numbers, path)?;
    cycles.push(path.as_slice())
}

// Writes the number of each variable's core, that of its root, in place of the root.
fn write_cores(roots: &mut [Link], numbers: &[Link])
    requires { All (IsInside (length numbers.now)) roots.old }
    ensures { HaveNumbers numbers.now roots.old roots.new (length roots.old) }
{
    for var in 0..roots.len() {
        roots[var] = core_at(roots[var], numbers);
    }
}

// The number at a root.
fn core_at(root: Link, numbers: &[Link]) -> Link
    requires { IsInside (length numbers.now) root }
    ensures { result ≡ core_by numbers.now root }
{
    match root.get() {
        Some(root) => numbers[root as usize],
        None => Link::none(),
    }
}
