// Reads a script from standard input, makes its calls on a new recorder, and prints a line for each.
#![tactic(auto)]

use script::script::read_script;
use stage::failure::Failure;
use stage::run::run_read;
use std::io;
use std::io::{BufWriter, Read, Write};
use std::process::ExitCode;

// Every fault of the script is found before its first call is made.
fn run_script(rt: &HostRuntime) -> Result<(), Failure> {
    let heap = rt.alloc();
    let mut bytes = Vec::new(heap);
    rt.stdin().read_to_end(&mut bytes)?;
    let script = read_script(heap, bytes.as_slice())?;
    let mut out = BufWriter::new(heap, rt.stdout())?;
    run_read(heap, &script, &mut out)?;
    out.flush()?;
    Ok(())
}

// A failure is named on standard error, and nothing else is printed there.
fn main(rt: HostRuntime) -> io::Result<ExitCode> {
    match run_script(&rt) {
        Ok(()) => Ok(ExitCode::SUCCESS),
        Err(failure) => {
            eprintln!(rt; "{failure}")?;
            Ok(ExitCode::FAILURE)
        }
    }
}
