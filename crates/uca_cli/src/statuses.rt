//! The status of a run that was done.

ghost use Rattle.std.specs.Prelude.{◌≡◌};
ghost use Rattle.uca_cli.specs.Command.{check_result, done_result};

use uca_host::{DONE, REFUSED};
use uca_run_parts::RunFault;

/// The status of a run that was done.
pub(crate) fn done<T: Copy>(run: Result<T, RunFault>) -> Result<u8, RunFault>
    ensures { result ≡ done_result run }
{
    match run {
        Ok(_) => Ok(DONE),
        Err(fault) => Err(fault),
    }
}

/// The status of a check that was done.
pub(crate) fn checked(run: Result<bool, RunFault>) -> Result<u8, RunFault>
    ensures { result ≡ check_result run }
{
    match run {
        Ok(true) => Ok(DONE),
        Ok(false) => Ok(REFUSED),
        Err(fault) => Err(fault),
    }
}
