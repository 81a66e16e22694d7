//! The program `drg`: decides which feasibility conditions an intersection array meets.
#![tactic(auto)]

use drg_outside::{RealInputs, RealSink};
use drg_program::{Status, run};
use std::env;
use std::io::ErrorKind;
use std::process::ExitCode;

fn main(rt: HostRuntime) -> ExitCode {
    let status = match env::args(&rt) {
        Ok(args) => match args.skip(1).collect::<Vec<String>>(rt.alloc()) {
            Ok(words) => run(
                rt.alloc(),
                &words,
                &mut RealInputs::new(&rt),
                &mut RealSink::new(&rt),
            ),
            Err(_) => Status::Memory,
        },
        // A word that isn't UTF-8 is an error of another kind.
        Err(error) if error.kind() == ErrorKind::OutOfMemory => Status::Memory,
        Err(_) => Status::Usage,
    };
    if status.is_refusal() {
        let _ = eprintln!(rt; "drg: {status}");
    }
    ExitCode::from(status.exit())
}
