// The keywords of run texts.

/// What a statement of a run text begins with.
#[derive(Clone, Copy, Debug)]
pub(crate) enum RunKeyword {
    Runs,
    Net,
    Start,
    Input,
    Run,
    Step,
    Cycle,
    End,
}
