// The program `replay`.
#![tactic(auto)]

use std::process::ExitCode;

fn main(rt: HostRuntime) -> ExitCode {
    program_replay::replay_main(&rt, &mut rt.stdin(), &mut rt.stdout()).into()
}
