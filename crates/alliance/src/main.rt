//! The program: real files and standard output, the words after the program's name, and the top call.
#![tactic(auto)]

use flow_run::alliance_main;
use std::alloc::{AllocError, Global};
use std::env;
use std::io::ErrorKind;
use std::process::ExitCode;
use std::rt::Env;
use tool_words::Words;
use vlsi_base::Text;
use vlsi_shelf::{DirShelf, OutSink};

// The status where memory runs out before there are words.
const MEMORY: u8 = 8;

// The words after the program's name. Where one isn't text there are none, so that they spell no command.
fn words<R: Env + AllocGlobal>(rt: &R, alloc: Global) -> Result<Words, AllocError> {
    let mut words = Words::new(Vec::new(alloc));
    match env::args(rt) {
        Ok(arguments) => {
            for word in arguments.skip(1) {
                words.push(Text::from_bytes(alloc, word.as_bytes())?)?;
            }
            Ok(words)
        }
        Err(error) => {
            if error.kind() == ErrorKind::OutOfMemory {
                Err(AllocError)
            } else {
                Ok(words)
            }
        }
    }
}

fn main(rt: HostRuntime) -> ExitCode {
    let alloc = rt.alloc();
    let Ok(words) = words(&rt, alloc) else {
        return ExitCode::from(MEMORY);
    };
    let mut shelf = DirShelf::begin(&rt);
    let mut out = OutSink::begin(&rt);
    let status = alliance_main(alloc, &words, &mut shelf, &mut out);
    ExitCode::from(status.code())
}
