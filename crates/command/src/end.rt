// How a program ends.
use std::process::ExitCode;

// Prints the help where no options are given, or runs the program by them, which says whether nothing was wrong.
pub fn run_or_help<O: Drop, F: FnOnce(&O) -> anyhow::Result<bool>>(
    rt: &HostRuntime,
    help: &str,
    options: Option<O>,
    run: F,
) -> anyhow::Result<ExitCode>
    requires { F.IsAlwaysCallable run }
{
    let Some(options) = options else {
        println!(rt; "{help}")?;
        return Ok(ExitCode::SUCCESS);
    };
    Ok(if run(&options)? {
        ExitCode::SUCCESS
    } else {
        ExitCode::FAILURE
    })
}
