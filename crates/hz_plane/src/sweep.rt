//! Gates evaluated in place until nothing changes. The first sweep looks at no marks: if it did, `batch` on 1,000 gates with feedback
//! would take 154 million instructions in place of 132.
ghost use Rattle.std.specs.Prelude.{◌≡◌, ◌≢◌, ℕ, ◌+◌, ◌/◌, ◌<◌, ◌≤◌, ◌^◌, ◌⊎◌, Contains, All, false, true, length, slice_index};
ghost use Rattle.hz_core.specs.Netlist.{IsCircuit, IsWhole, IsGateNumber, gate_at};
ghost use Rattle.hz_plane.specs.Schedules.{IsSchedule};
ghost use Rattle.hz_plane.specs.Steps.{gate_pair, step_planes, IsStillPair, AreAllPlanes};
ghost use Rattle.hz_plane.specs.Sweeps.{weight, AreDueBelow, AreDueBut, AreMarkedWithin, AreNoneMarked, IsMarked, Ran};

use crate::excited::excited;
use crate::pair::Pair;
use crate::rule::Rule;
use crate::schedule::Schedule;
use hz_core::Kind;
use hz_net::Net;

/// A part of the words of marks, outside of which no word has one.
#[derive(Clone, Copy, Debug)]
pub(crate) struct Span {
    pub(crate) begin: usize,
    pub(crate) end: usize,
}

impl Span {
    // The part with one word more.
    #[inline(always)]
    fn with(self, word: usize) -> Span
        requires { word < 2 ^ 32 }
        ensures begin { result.begin ≤ self.begin }
        ensures end { self.end ≤ result.end }
        ensures from { result.begin ≤ word }
        ensures to { word < result.end }
        ensures bound { (most : ℕ) → self.end ≤ most → word < most → result.end ≤ most }
    {
        Span {
            begin: self.begin.min(word),
            end: self.end.max(word + 1),
        }
    }
}

// What a sweep comes to: so many words of marks, and so many places.
#[derive(Clone, Copy, Debug)]
struct Reach {
    words: usize,
    places: usize,
}

/// What a pass goes by.
#[derive(Clone, Copy)]
pub(crate) struct Pass<'a> {
    pub(crate) rule: Rule,
    pub(crate) net: &'a Net,
    pub(crate) schedule: &'a Schedule,
}

// Marks the gate at a place, in a sweep that has come to a word. A gate of an earlier word is left for the next sweep.
#[inline(always)]
fn mark(reader: u32, word: usize, words: usize, marks: &mut [u64], span: Span) -> Span
    requires inside { reader / 64 < length marks.old }
    ensures here { IsMarked marks.new reader }
    ensures kept { (other : ℕ) → IsMarked marks.old other → IsMarked marks.new other }
    ensures within { (from : ℕ) → AreMarkedWithin marks.old from words span.begin span.end
        → from ≤ word → AreMarkedWithin marks.new from words result.begin result.end }
    ensures bound { span.end ≤ length marks.old → result.end ≤ length marks.old }
{
    let place = (reader / 64) as usize;
    marks[place] |= 1 << (reader % 64);
    if place < word || place >= words {
        span.with(place)
    } else {
        span
    }
}

// Marks the gates that stand at those of these places to which the sweep comes.
#[inline(always)]
fn mark_all(list: &[u32], word: usize, to: Reach, marks: &mut [u64], span: Span) -> Span
    requires inside { All (λ reader. reader / 64 < length marks.old) list.now }
    ensures listed { (reader : ℕ) → Contains list.now reader → reader < to.places
        → IsMarked marks.new reader }
    ensures kept { (other : ℕ) → IsMarked marks.old other → IsMarked marks.new other }
    ensures within { (from : ℕ) → AreMarkedWithin marks.old from to.words span.begin span.end
        → from ≤ word → AreMarkedWithin marks.new from to.words result.begin result.end }
    ensures bound { span.end ≤ length marks.old → result.end ≤ length marks.old }
{
    let mut span = span;
    for reader in list {
        if (*reader as usize) < to.places {
            span = mark(*reader, word, to.words, marks, span);
        }
    }
    span
}

// Takes the first mark of a word that has one.
#[inline(always)]
fn take(word: usize, marks: &mut [u64]) -> usize
    requires inside { word < length marks.old }
    requires few { length marks.old < 2 ^ 32 }
    requires some { slice_index marks.old word ≢ 0 }
    ensures word { result / 64 ≡ word }
    ensures kept { (other : ℕ) → other ≢ result → IsMarked marks.old other
        → IsMarked marks.new other }
    ensures none { (other : ℕ) → IsMarked marks.new other → IsMarked marks.old other }
    ensures less { slice_index marks.new word < slice_index marks.old word }
{
    let bit = marks[word].trailing_zeros();
    marks[word] &= !(1 << bit);
    64 * word + bit as usize
}

impl<'a> Pass<'a> {
    /// Evaluates gates in place, each of them at least once, until no gate would change.
    pub(crate) fn run(&self, marks: &mut [u64], planes: &mut [Pair])
        requires schedule { IsSchedule self.now.net.now self.now.schedule.now }
        requires long { length planes.old ≡ length self.now.net.now.names }
        requires planes { AreAllPlanes planes.old }
        requires marks { length marks.old
            ≡ length self.now.schedule.now.order.items / 64 + 1 }
        ensures ran { Ran self.now.rule self.now.net.now planes.old planes.new }
        ensures planes { AreAllPlanes planes.new }
        ensures still { (gate : ℕ) → IsGateNumber self.now.net.now gate
            → IsStillPair self.now.rule self.now.net.now planes.new gate }
    {
        marks.fill(0);
        let mut begin = 0;
        for end in self.schedule.ends.as_slice() {
            if begin < *end && *end <= self.schedule.order.len() {
                self.rest(begin, *end, marks, planes);
                begin = *end;
            }
        }
        self.rest(begin, self.schedule.order.len(), marks, planes);
    }

    // Evaluates the gates of a part of the order, until none of them would change.
    fn rest(&self, begin: usize, end: usize, marks: &mut [u64], planes: &mut [Pair])
        requires schedule { IsSchedule self.now.net.now self.now.schedule.now }
        requires long { length planes.old ≡ length self.now.net.now.names }
        requires planes { AreAllPlanes planes.old }
        requires marks { length marks.old
            ≡ length self.now.schedule.now.order.items / 64 + 1 }
        requires begin { begin ≤ end }
        requires end { end ≤ length self.now.schedule.now.order.items }
        requires due { AreDueBelow begin
            self.now.rule self.now.net.now self.now.schedule.now.order.items marks.old planes.old }
        requires none { AreNoneMarked marks.old }
        ensures ran { Ran self.now.rule self.now.net.now planes.old planes.new }
        ensures planes { AreAllPlanes planes.new }
        ensures due { AreDueBelow end
            self.now.rule self.now.net.now self.now.schedule.now.order.items marks.new planes.new }
        ensures none { AreNoneMarked marks.new }
    {
        let mut span = self.sweep_first(begin, end, marks, planes);
        while span.begin < span.end {
            span = self.sweep(span, end, marks, planes);
        }
    }

    // Evaluates each gate of a part once. Of the gates that read one that changed, those that stand later come in this sweep
    // still, and only the others are marked.
    #[inline(always)]
    fn sweep_first(&self, begin: usize, end: usize, marks: &mut [u64], planes: &mut [Pair]) -> Span
        requires schedule { IsSchedule self.now.net.now self.now.schedule.now }
        requires long { length planes.old ≡ length self.now.net.now.names }
        requires planes { AreAllPlanes planes.old }
        requires marks { length marks.old
            ≡ length self.now.schedule.now.order.items / 64 + 1 }
        requires begin { begin ≤ end }
        requires end { end ≤ length self.now.schedule.now.order.items }
        requires due { AreDueBelow begin
            self.now.rule self.now.net.now self.now.schedule.now.order.items marks.old planes.old }
        requires none { AreNoneMarked marks.old }
        ensures ran { Ran self.now.rule self.now.net.now planes.old planes.new }
        ensures planes { AreAllPlanes planes.new }
        ensures due { AreDueBelow end
            self.now.rule self.now.net.now self.now.schedule.now.order.items marks.new planes.new }
        ensures within { AreMarkedWithin marks.new 0 0 result.begin result.end }
        ensures bound { result.end ≤ length marks.old }
    {
        let mut next = Span {
            begin: marks.len(),
            end: 0,
        };
        for place in begin..end {
            next = self.visit_first(place, marks, planes, next);
        }
        next
    }

    // Evaluates the gate at a place, and marks what stands no later and reads it, if this changed it.
    #[inline(always)]
    fn visit_first(&self, place: usize, marks: &mut [u64], planes: &mut [Pair], span: Span) -> Span
        requires schedule { IsSchedule self.now.net.now self.now.schedule.now }
        requires long { length planes.old ≡ length self.now.net.now.names }
        requires planes { AreAllPlanes planes.old }
        requires marks { length marks.old
            ≡ length self.now.schedule.now.order.items / 64 + 1 }
        requires place { place < length self.now.schedule.now.order.items }
        requires due { AreDueBelow place
            self.now.rule self.now.net.now self.now.schedule.now.order.items marks.old planes.old }
        requires within { AreMarkedWithin marks.old 0 0 span.begin span.end }
        ensures ran { Ran self.now.rule self.now.net.now planes.old planes.new }
        ensures planes { AreAllPlanes planes.new }
        ensures due { AreDueBelow (place + 1)
            self.now.rule self.now.net.now self.now.schedule.now.order.items marks.new planes.new }
        ensures within { AreMarkedWithin marks.new 0 0 result.begin result.end }
        ensures bound { span.end ≤ length marks.old → result.end ≤ length marks.old }
    {
        let back = self.schedule.back.at(place);
        if back.is_empty() {
            self.advance(place, planes);
            return span;
        }
        if self.evaluate(place, planes) {
            let to = Reach {
                words: 0,
                places: place + 1,
            };
            mark_all(back, place / 64, to, marks, span)
        } else {
            span
        }
    }

    // Evaluates the marked gates of these words, and marks what reads a gate that changed. It answers in which words there
    // are marks now.
    #[inline(always)]
    fn sweep(&self, span: Span, end: usize, marks: &mut [u64], planes: &mut [Pair]) -> Span
        requires schedule { IsSchedule self.now.net.now self.now.schedule.now }
        requires long { length planes.old ≡ length self.now.net.now.names }
        requires planes { AreAllPlanes planes.old }
        requires marks { length marks.old
            ≡ length self.now.schedule.now.order.items / 64 + 1 }
        requires end { end ≤ length self.now.schedule.now.order.items }
        requires within { span.end ≤ length marks.old }
        requires due { AreDueBelow end
            self.now.rule self.now.net.now self.now.schedule.now.order.items marks.old planes.old }
        requires marked { AreMarkedWithin marks.old 0 0 span.begin span.end }
        ensures ran { Ran self.now.rule self.now.net.now planes.old planes.new }
        ensures planes { AreAllPlanes planes.new }
        ensures within { result.end ≤ length marks.old }
        ensures due { AreDueBelow end
            self.now.rule self.now.net.now self.now.schedule.now.order.items marks.new planes.new }
        ensures marked { AreMarkedWithin marks.new 0 0 result.begin result.end }
        ensures less { result.begin < result.end
            → weight self.now.rule planes.new < weight self.now.rule planes.old }
        ensures most { weight self.now.rule planes.new ≤ weight self.now.rule planes.old }
    {
        let mut next = Span {
            begin: marks.len(),
            end: 0,
        };
        let to = Reach {
            words: span.end,
            places: end,
        };
        for word in span.begin..span.end {
            next = self.sweep_word(word, to, marks, planes, next);
        }
        next
    }

    // Evaluates the gates of a word that are marked, until none is, and marks what reads a gate that changed.
    #[inline(always)]
    fn sweep_word(
        &self,
        word: usize,
        to: Reach,
        marks: &mut [u64],
        planes: &mut [Pair],
        span: Span,
    ) -> Span
        requires schedule { IsSchedule self.now.net.now self.now.schedule.now }
        requires long { length planes.old ≡ length self.now.net.now.names }
        requires planes { AreAllPlanes planes.old }
        requires marks { length marks.old
            ≡ length self.now.schedule.now.order.items / 64 + 1 }
        requires end { to.places ≤ length self.now.schedule.now.order.items }
        requires word { word < length marks.old }
        requires due { AreDueBelow to.places
            self.now.rule self.now.net.now self.now.schedule.now.order.items marks.old planes.old }
        requires within { AreMarkedWithin marks.old word to.words span.begin span.end }
        ensures ran { Ran self.now.rule self.now.net.now planes.old planes.new }
        ensures planes { AreAllPlanes planes.new }
        ensures due { AreDueBelow to.places
            self.now.rule self.now.net.now self.now.schedule.now.order.items marks.new planes.new }
        ensures within { AreMarkedWithin marks.new (word + 1) to.words result.begin result.end }
        ensures bound { span.end ≤ length marks.old → result.end ≤ length marks.old }
        ensures less { (result ≡ span)
            ⊎ (weight self.now.rule planes.new < weight self.now.rule planes.old) }
        ensures most { weight self.now.rule planes.new ≤ weight self.now.rule planes.old }
    {
        let mut next = span;
        while marks[word] != 0 {
            let place = take(word, marks);
            next = self.visit(place, to, marks, planes, next);
        }
        next
    }

    // Evaluates the gate at a place, if the sweep comes to it, and marks what reads it, if this changed it. Each other gate
    // is marked, if it would change.
    #[inline(always)]
    fn visit(
        &self,
        place: usize,
        to: Reach,
        marks: &mut [u64],
        planes: &mut [Pair],
        span: Span,
    ) -> Span
        requires schedule { IsSchedule self.now.net.now self.now.schedule.now }
        requires long { length planes.old ≡ length self.now.net.now.names }
        requires planes { AreAllPlanes planes.old }
        requires marks { length marks.old
            ≡ length self.now.schedule.now.order.items / 64 + 1 }
        requires end { to.places ≤ length self.now.schedule.now.order.items }
        requires place { place / 64 < length marks.old }
        requires due { AreDueBut place to.places
            self.now.rule self.now.net.now self.now.schedule.now.order.items marks.old planes.old }
        requires within { AreMarkedWithin marks.old (place / 64) to.words span.begin span.end }
        ensures ran { Ran self.now.rule self.now.net.now planes.old planes.new }
        ensures planes { AreAllPlanes planes.new }
        ensures due { AreDueBelow to.places
            self.now.rule self.now.net.now self.now.schedule.now.order.items marks.new planes.new }
        ensures within { AreMarkedWithin marks.new (place / 64) to.words result.begin result.end }
        ensures bound { span.end ≤ length marks.old → result.end ≤ length marks.old }
        ensures less { ((result ≡ span) × (marks.new ≡ marks.old)
            × (weight self.now.rule planes.new ≡ weight self.now.rule planes.old))
            ⊎ (weight self.now.rule planes.new < weight self.now.rule planes.old) }
    {
        if place >= to.places {
            return span;
        }
        if self.evaluate(place, planes) {
            mark_all(self.schedule.readers.at(place), place / 64, to, marks, span)
        } else {
            span
        }
    }

    // Evaluates the gate at a place, and says whether this changed it.
    #[inline(always)]
    fn evaluate(&self, place: usize, planes: &mut [Pair]) -> bool
        requires schedule { IsSchedule self.now.net.now self.now.schedule.now }
        requires long { length planes.old ≡ length self.now.net.now.names }
        requires place { place < length self.now.schedule.now.order.items }
        ensures made { planes.new ≡ step_planes self.now.rule self.now.net.now planes.old
            (slice_index self.now.schedule.now.order.items place) }
        ensures same { result ≡ false → IsStillPair self.now.rule self.now.net.now planes.old
            (slice_index self.now.schedule.now.order.items place) }
        ensures none { result ≡ false → planes.new ≡ planes.old }
        ensures less { result ≡ true
            → weight self.now.rule planes.new < weight self.now.rule planes.old }
    {
        let excited = self.excited_at(place, planes);
        excited.are_planes();
        let gate = self.schedule.order.as_slice()[place];
        let own = planes[gate as usize];
        let next = self.rule.next(own, excited);
        if next.is_same(own) {
            return false;
        }
        planes[gate as usize] = next;
        true
    }

    // Evaluates the gate at a place.
    #[inline(always)]
    fn advance(&self, place: usize, planes: &mut [Pair])
        requires schedule { IsSchedule self.now.net.now self.now.schedule.now }
        requires long { length planes.old ≡ length self.now.net.now.names }
        requires place { place < length self.now.schedule.now.order.items }
        ensures { planes.new ≡ step_planes self.now.rule self.now.net.now planes.old
            (slice_index self.now.schedule.now.order.items place) }
    {
        let excited = self.excited_at(place, planes);
        let gate = self.schedule.order.as_slice()[place];
        planes[gate as usize] = self.rule.next(planes[gate as usize], excited);
    }

    // The excitation of the gate at a place, by its copied kind and pins.
    #[inline(always)]
    fn excited_at(&self, place: usize, planes: &[Pair]) -> Pair
        requires schedule { IsSchedule self.now.net.now self.now.schedule.now }
        requires long { length planes.now ≡ length self.now.net.now.names }
        requires place { place < length self.now.schedule.now.order.items }
        ensures { result ≡ gate_pair self.now.net.now planes.now
            (slice_index self.now.schedule.now.order.items place) }
    {
        let gate = self.schedule.order.as_slice()[place];
        let kind = self.schedule.kinds.as_slice()[place];
        excitation(self.net, gate, kind, self.schedule.pins.at(place), planes)
    }
}

// The excitation of a gate, by its kind and by the nodes that it reads.
#[inline(always)]
fn excitation(net: &Net, gate: u32, kind: Kind, sources: &[u32], planes: &[Pair]) -> Pair
    requires gate { IsGateNumber net.now gate }
    requires circuit { IsCircuit net.now }
    requires whole { IsWhole net.now }
    requires long { length planes.now ≡ length net.now.names }
    requires kind { kind ≡ (gate_at net.now gate).kind }
    requires sources { sources.now ≡ (gate_at net.now gate).sources }
    ensures { result ≡ gate_pair net.now planes.now gate }
{
    net.keeps_shape();
    excited(kind, sources, planes)
}
