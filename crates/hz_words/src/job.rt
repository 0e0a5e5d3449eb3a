//! The jobs that are built.
ghost use Rattle.std.specs.Prelude.{◌≡◌, option_map, IfSome};
ghost use Rattle.hz_options.specs.Numbers.{IsCap};
ghost use Rattle.hz_words.specs.Command.{texts_of};
ghost use Rattle.hz_words.specs.Job.{job_named, job_on_files, job_on_number, job_with, job_model, options_of, HasNumbersInRange};

use crate::command::Arguments;
use crate::values::{read_cap, read_demo, read_show};
use hz_options::Options;

/// What is done with the netlist of a first file and the text of a second.
#[derive(Clone, Copy, Debug, PartialEq, Eq)]
pub enum Task {
    /// The changes of a script are analysed.
    Analyse,
    /// How often each variable may change in the changes of a script is found.
    Edges,
    /// The changes of a script are made in every order, from each state that they lead to.
    Explore,
    /// Two runs of an unsettled change of a script are looked for.
    Split,
    /// The runs of a run text are replayed.
    Replay,
    /// A run text is written in format 2.
    Convert,
    /// The last run of a run text is written as a value change dump.
    Vcd,
    /// Each of many patterns is analysed.
    Batch,
    /// What each of many patterns brings about where nobody knows the start.
    Reset,
}

/// What the words ask for.
#[derive(Clone, Copy, Debug, PartialEq, Eq)]
pub enum Job<'w> {
    /// A task on two files.
    OnFiles {
        /// What is done.
        task: Task,
        /// The options beside it.
        options: Options,
        /// The name of the netlist's file.
        first: &'w str,
        /// The name of the second text's file.
        second: &'w str,
    },
    /// The circuit of a number is made and analysed.
    Demo {
        /// The number, 1 to 18,000.
        number: u32,
        /// The options beside it.
        options: Options,
    },
}

// The job that the arguments ask for.
pub(crate) fn job_with<'w>(arguments: &Arguments<'w>) -> Option<Job<'w>>
    ensures job { option_map job_model result ≡ job_with (texts_of arguments.now) }
    ensures range { IfSome result HasNumbersInRange }
{
    let options = options_of(arguments)?;
    job_named(arguments.job?, arguments.first?, arguments.second, options)
}

// The options that the arguments give.
fn options_of(arguments: &Arguments<'_>) -> Option<Options>
    ensures value { result ≡ options_of (texts_of arguments.now) }
    ensures range { IfSome result (λ options. IsCap options.cap) }
{
    let cap = read_cap(arguments.cap?)?;
    let show = read_show(arguments.show?)?;
    Some(Options { cap, show })
}

// The job of a word, with what the other arguments say.
fn job_named<'w>(
    word: &str,
    first: &'w str,
    second: Option<&'w str>,
    options: Options,
) -> Option<Job<'w>>
    requires { IsCap options.cap }
    ensures job { option_map job_model result
        ≡ job_named word.now first.entry.now (option_map (λ text. text.now) second.entry) options }
    ensures range { IfSome result HasNumbersInRange }
{
    if word == "demo" {
        job_on_number(first, second, options)
    } else {
        job_on_files(word, first, second, options)
    }
}

// The job of a word on two files.
fn job_on_files<'w>(
    word: &str,
    first: &'w str,
    second: Option<&'w str>,
    options: Options,
) -> Option<Job<'w>>
    requires { IsCap options.cap }
    ensures job { option_map job_model result
        ≡ job_on_files word.now first.entry.now (option_map (λ text. text.now) second.entry)
        options }
    ensures range { IfSome result HasNumbersInRange }
{
    let second = second?;
    let task = match word {
        "analyse" => Task::Analyse,
        "edges" => Task::Edges,
        "explore" => Task::Explore,
        "split" => Task::Split,
        "replay" => Task::Replay,
        "convert" => Task::Convert,
        "vcd" => Task::Vcd,
        "batch" => Task::Batch,
        "reset" => Task::Reset,
        _ => return None,
    };
    Some(Job::OnFiles {
        task,
        options,
        first,
        second,
    })
}

// The job on the circuit of a number.
fn job_on_number<'w>(text: &'w str, second: Option<&'w str>, options: Options) -> Option<Job<'w>>
    requires { IsCap options.cap }
    ensures job { option_map job_model result
        ≡ job_on_number text.entry.now (option_map (λ text. text.now) second.entry) options }
    ensures range { IfSome result HasNumbersInRange }
{
    if second.is_some() {
        return None;
    }
    let number = read_demo(text)?;
    Some(Job::Demo { number, options })
}
