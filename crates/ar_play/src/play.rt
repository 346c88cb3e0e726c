// A script on standard input, as the command line asks for it.
use crate::dialogue::{Manner, converse};
use crate::drawing::{DrawingFault, draw};
use ar_command_line::RunOptions;
use ar_language::{Fault, Recent, Remembered};
use ar_script::{Runner, Setup, run_on, run_script};
use std::alloc::Global;
use std::io::{IsTerminal, Read};
use thiserror::Error;

/// Why a script wasn't run to its end, or its array not drawn.
#[derive(Debug, Drop, Error)]
pub enum PlayFault {
    #[error(transparent)]
    Script(Fault),
    /// A fault of a script, and what is wrong with its line.
    #[error("{0}\n{1}")]
    Line(Fault, String),
    #[error(transparent)]
    Drawing(DrawingFault),
}

/// Runs a script on standard input on a new array, and draws that if a file is named. Its fault names what is wrong
/// with its line.
pub fn run(rt: &HostRuntime, setup: Setup, options: &RunOptions) -> Result<(), PlayFault> {
    let manner = Manner {
        echoes: options.echo,
        at_terminal: rt.stdin().is_terminal() && rt.stdout().is_terminal(),
    };
    if options.picture.is_none() && !options.echo && !manner.at_terminal {
        return run_plain(rt, setup);
    }
    match Runner::start(rt.alloc(), setup) {
        Ok(mut runner) => {
            let done = play_and_draw(rt, &mut runner, &options.picture, manner);
            drop(runner);
            done
        }
        Err(fault) => Err(PlayFault::Script(fault)),
    }
}

// Runs a script whose answers alone are printed.
fn run_plain(rt: &HostRuntime, setup: Setup) -> Result<(), PlayFault> {
    let mut recent = Recent::new(rt.alloc());
    let reader = Remembered::new(rt.stdin(), &mut recent);
    let end = run_script(rt.alloc(), reader, rt.stdout(), setup).end;
    explained(rt.alloc(), end, &mut recent)
}

// Runs a script, and draws the array after it. It is drawn also if a fault has ended the script; that fault takes
// precedence over one of drawing.
fn play_and_draw(
    rt: &HostRuntime,
    runner: &mut Runner,
    file: &Option<String>,
    manner: Manner,
) -> Result<(), PlayFault> {
    let mut recent = Recent::new(rt.alloc());
    let ended = play(rt, runner, Remembered::new(rt.stdin(), &mut recent), manner);
    let drawn = match file {
        Some(file) => draw(rt, runner, file.as_str()),
        None => Ok(()),
    };
    explained(rt.alloc(), ended, &mut recent)?;
    drawn.map_err(PlayFault::Drawing)
}

// Runs a script on the array of a runner.
fn play<I: Read + Drop>(
    rt: &HostRuntime,
    runner: &mut Runner,
    input: I,
    manner: Manner,
) -> Result<(), Fault> {
    if manner.echoes || manner.at_terminal {
        converse(rt.alloc(), runner, input, rt.stdout(), manner)
    } else {
        run_on(rt.alloc(), runner, input, rt.stdout()).end
    }
}

// How a script ended: a fault of a line together with what is wrong with it.
fn explained(
    alloc: Global,
    ended: Result<(), Fault>,
    recent: &mut Recent,
) -> Result<(), PlayFault> {
    let Err(fault) = ended else {
        return Ok(());
    };
    let Some(explanation) = recent.explain(fault) else {
        return Err(PlayFault::Script(fault));
    };
    match format!(in alloc; "{explanation}") {
        Ok(text) => Err(PlayFault::Line(fault, text)),
        Err(_) => Err(PlayFault::Script(fault)),
    }
}
