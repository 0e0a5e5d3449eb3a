//! A dump that was read.
ghost use Rattle.std.specs.Prelude.{◌≡◌};

use hz_gmw::Run;
use std::marker::Model;

/// What a dump means: a state, and a run from there.
#[derive(Drop)]
pub struct Wave {
    state: Vec<bool>,
    run: Run,
}

impl Model for Wave {
    ghost use Rattle.hz_vcd.specs.Wave.{WaveOf};

    ghost Value = { WaveOf };

    ghost view = { λ wave. record { state = wave.state.items; steps = wave.run.steps } };
}

impl Wave {
    /// A state, and a run from there.
    pub(crate) fn of(state: Vec<bool>, run: Run) -> Wave
        ensures state { result.state ≡ state.items }
        ensures steps { result.steps ≡ run.steps }
    {
        Wave { state, run }
    }

    /// The bit of each variable at the time 0.
    pub fn state(&self) -> &[bool]
        ensures { result.now ≡ self.now.state }
    {
        self.state.as_slice()
    }

    /// The run: its step k has the variables that change at the time k, in their order.
    pub fn run(&self) -> &Run
        ensures { result.now.steps ≡ self.now.steps }
    {
        &self.run
    }
}
