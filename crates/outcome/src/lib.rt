//! How a program ends: well, or with a word on standard error.

#![tactic(auto)]

ghost use Rattle.std.specs.Prelude.{◌≡◌, is_ok, if◌then◌else◌};
ghost use Rattle.std.specs.Process.{exit_status};

use std::fmt::Display;
use std::process::ExitCode;

/// The status that a program ends with: 0, or 1 where it failed; why is then written on standard error, behind its
/// name, if standard error takes it.
pub fn exit_code<E: Display + Drop>(
    rt: &impl Eprint,
    program: &str,
    outcome: Result<(), E>,
) -> ExitCode
    ensures { exit_status result ≡ (if is_ok outcome then 0 else 1) }
{
    match outcome {
        Ok(()) => ExitCode::SUCCESS,
        Err(failure) => {
            let _ = eprintln!(rt; "{program}: {failure}");
            ExitCode::FAILURE
        }
    }
}
