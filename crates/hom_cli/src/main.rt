//! The program `hom`.
#![tactic(auto)]

ghost use Rattle.std.specs.Prelude.{◌≡◌, ◌⊎◌, IfErr};

use hom_run::{Status, run};
use io_edge::{StdSink, StdSource};
use std::env;
use std::io::ErrorKind;
use std::process::ExitCode;
use std::rt::Env;

/// The words of the command line without the program's name, or the status where there are none: a
/// word is not text, or there is no memory for them.
fn words_of(rt: &(impl Env + AllocGlobal)) -> Result<Vec<String>, Status>
    ensures { IfErr result (λ status. (status ≡ Status.Usage) ⊎ (status ≡ Status.NoMemory)) }
{
    let words = match env::args(rt) {
        Ok(words) => words,
        Err(error) if error.kind() == ErrorKind::OutOfMemory => return Err(Status::NoMemory),
        Err(_) => return Err(Status::Usage),
    };
    words
        .skip(1)
        .collect(rt.alloc())
        .map_err(|_| Status::NoMemory)
}

fn main(rt: HostRuntime) -> ExitCode {
    let status = match words_of(&rt) {
        Ok(words) => run(
            rt.alloc(),
            words.as_slice(),
            &mut StdSource::new(rt.stdin()),
            &mut StdSink::new(rt.stdout()),
        ),
        Err(status) => status,
    };
    ExitCode::from(status.number())
}
