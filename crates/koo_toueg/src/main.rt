//! The program: runs scenarios of a checkpoint and rollback-recovery manager, and certifies and judges stored runs.
#![tactic(auto)]

use kt_program::{run, stand_ins};
use std::io::IsTerminal;
use std::process::ExitCode;

fn main(rt: HostRuntime) -> ExitCode {
    // No file of the program gets the descriptor of a standard stream that is closed.
    let stand_ins = stand_ins(&rt);
    let terminal = rt.stderr().is_terminal();
    let status = run(
        &rt,
        &rt,
        rt.alloc(),
        &stand_ins,
        terminal,
        &mut rt.stdout(),
        &mut rt.stderr(),
    );
    ExitCode::from(status)
}
