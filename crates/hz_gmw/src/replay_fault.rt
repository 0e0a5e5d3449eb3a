//! Why a replayer refuses a step or a cycle.

use thiserror::Error;

/// Why a list of variables is no step of the multiple-winner relation. Faults are numbered in this order; if several
/// stand, the answer is the first. The variable is the least for which it stands.
#[derive(Clone, Copy, Debug, PartialEq, Eq, Error)]
pub enum StepFault {
    /// The list is empty.
    #[error("empty")]
    Empty,
    /// The list names the variable twice.
    #[error("repeated {var}")]
    Repeated { var: u32 },
    /// The list names the variable, and it is stable.
    #[error("stable {var}")]
    Stable { var: u32 },
}

/// Why the states since a mark are no nontransient cycle. Faults are numbered in this order; if several stand, the
/// answer is the first. The variable is the least for which it stands.
#[derive(Clone, Copy, Debug, PartialEq, Eq, Error)]
pub enum CycleFault {
    /// The variable has not the value that it had at the mark.
    #[error("differs {var}")]
    Differs { var: u32 },
    /// No step was made since the mark, and the variable is unstable.
    #[error("not stable {var}")]
    NotStable { var: u32 },
    /// The variable had one value in all states since the mark, and was unstable in all of them.
    #[error("transient {var}")]
    Transient { var: u32 },
}
