// The program `access`.
#![tactic(auto)]

use std::process::ExitCode;

fn main(rt: HostRuntime) -> ExitCode {
    program_access::access_main(&rt, &mut rt.stdin(), &mut rt.stdout()).into()
}
