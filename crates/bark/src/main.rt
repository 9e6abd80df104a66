// The tool, with its exit status.
#![tactic(auto)]

use std::process::ExitCode;

fn main(rt: HostRuntime) -> ExitCode {
    ExitCode::from(tool::bark_run(&rt))
}
