//! The command `matchpy`: pattern matching over the rules and subjects of a file.
#![tactic(auto)]

ghost use Rattle.std.specs.Prelude.{◌≡◌, ◌⊎◌};
ghost use Rattle.std.specs.List.{Contains};
ghost use Rattle.mp_command.specs.Run.{statuses};

use mp_command::run;
use mp_io::{RealShelf, RealSink};
use std::alloc::AllocError;
use std::process::ExitCode;
use std::rt::Env;
use std::{env, io};

// The C library gives the pages of a large block back to the system when it is freed, and takes new ones for the next,
// until a block of this size was freed: from then on it keeps those of smaller blocks for later.
const KEPT_BYTES: usize = 1_048_576;

// Why the words weren't given.
enum NoWords {
    Memory,
    System,
}

// Has the pages of freed blocks kept for later ones. The block isn't touched, so it takes no page.
fn keep_freed_pages(rt: &impl AllocGlobal) {
    let _untouched: Result<Vec<u8>, AllocError> = Vec::with_capacity(rt.alloc(), KEPT_BYTES);
}

// The words after the program's name.
fn given_words(rt: &(impl Env + AllocGlobal)) -> Result<Vec<String>, NoWords> {
    let all = match env::args(rt) {
        Ok(all) => all,
        Err(error) => match error.kind() {
            io::ErrorKind::OutOfMemory => return Err(NoWords::Memory),
            _ => return Err(NoWords::System),
        },
    };
    match all.skip(1).collect(rt.alloc()) {
        Ok(words) => Ok(words),
        Err(AllocError) => Err(NoWords::Memory),
    }
}

// Runs the command with the words that the system gives, over the real shelf and sinks. The status is one of those that
// `run` has, or 17 where the system doesn't give the words.
fn status(rt: &HostRuntime) -> u8
    ensures { (result ≡ 17) ⊎ Contains statuses result }
{
    keep_freed_pages(rt);
    let words = match given_words(rt) {
        Ok(words) => words,
        Err(NoWords::Memory) => return 8,
        Err(NoWords::System) => return 17,
    };
    let mut shelf = RealShelf::new(rt);
    let mut out = RealSink::new(rt.stdout());
    let mut err = RealSink::new(rt.stderr());
    run(rt.alloc(), words.as_slice(), &mut shelf, &mut out, &mut err)
}

fn main(rt: HostRuntime) -> ExitCode {
    ExitCode::from(status(&rt))
}
