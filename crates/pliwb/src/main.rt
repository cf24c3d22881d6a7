//! The workbench as a program: commands from standard input, answers to standard output.
#![tactic(auto)]

use pli_base::Device;
use std::process::ExitCode;

fn main(rt: HostRuntime) -> ExitCode {
    let alloc = rt.alloc();
    let words: Vec<String> = match std::env::args(&rt) {
        Ok(words) => match words.collect(alloc) {
            Ok(words) => words,
            Err(_) => return ExitCode::from(3),
        },
        Err(_) => return ExitCode::from(3),
    };
    let mut reader = Device::over(rt.stdin());
    let mut writer = Device::over(rt.stdout());
    let mut errors = Device::over(rt.stderr());
    ExitCode::from(pli_bench::go(alloc, &words, &mut reader, &mut writer, &mut errors))
}
