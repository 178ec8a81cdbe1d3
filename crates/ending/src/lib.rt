//! How a program ends: with status 0, or with a message on standard error and status 1.
#![tactic(auto)]

ghost use Rattle.std.specs.Prelude.{◌≡◌, IsOk, IsErr};
ghost use Rattle.std.specs.Process.{exit_status};

use std::io::Eprint;
use std::process::ExitCode;

/// Ends the program of this name: where it failed, the name and what was wrong are told on standard error.
pub fn of(rt: &impl Eprint, name: &str, outcome: anyhow::Result<()>) -> ExitCode
    ensures well { IsOk outcome → exit_status result ≡ 0 }
    ensures failed { IsErr outcome → exit_status result ≡ 1 }
{
    let Err(error) = outcome else {
        return ExitCode::SUCCESS;
    };
    let _told = eprintln!(rt; "{name}: {error}");
    ExitCode::FAILURE
}
