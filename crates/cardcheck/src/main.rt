// The program `cardcheck`.
#![tactic(auto)]

use std::process::ExitCode;

fn main(rt: HostRuntime) -> ExitCode {
    program_cardcheck::cardcheck_main(&rt, &mut rt.stdin(), &mut rt.stdout()).into()
}
