//! The program: reads its command line and runs the session.
ghost use Rattle.std.specs.Prelude.{◌≡◌, ◌↔◌, ◌⊎◌, List, map, drop, IfOk, IfErr};
ghost use Rattle.std.specs.String.{string_bytes};
ghost use Rattle.std.specs.IoError.{error_kind};
ghost use Rattle.keys.specs.Bytes.{Bytes};
ghost use Rattle.bwsh.specs.Output.{IsBegun};
ghost use Rattle.bwsh.specs.Session.{unread_text, IsQuiet, EndsReported};

use crate::disk::StoreFile;
use crate::session::{session, unread_words};
use std::io::{ErrorKind, Read, Write};
use std::rt::{Env, Files};
use std::thread::Threads;
use std::time::Clock;
use std::{env, io};

fn all_words<R: Env + AllocGlobal>(rt: &R) -> io::Result<Vec<String>> {
    Ok(env::args(rt)?.collect(rt.alloc())?)
}

fn words_after_name(words: &[String]) -> &[String]
    ensures { result.now ≡ drop 1 words.now }
{
    match words.split_first() {
        Some((_name, following)) => following,
        None => words,
    }
}

/// Runs the session of a command line, whose first word is the program's name, and returns the exit
/// status. If `words` is an error, `unread_words` reports it.
pub fn run_words<R: AllocGlobal + Threads + Sync + Files + Clock, I: Read, O: Write, E: Write>(
    rt: &R,
    words: io::Result<Vec<String>>,
    input: &mut I,
    out: &mut O,
    err: &mut E,
) -> u8
where
    R::File: StoreFile,
    ensures read { IfOk words (λ all. EndsReported (map string_bytes (drop 1 all.items))
        (I.remaining input.old) (O.contents out.old) (O.contents out.new)
        (E.contents err.old) (E.contents err.new)
        (input.new ≡ input.old) (out.new ≡ out.old) result) }
    ensures unread { IfErr words (λ error. ((result ≡ 2) ⊎ (result ≡ 4))
        × ((result ≡ 4) ↔ (error_kind error ≡ ErrorKind.OutOfMemory))
        × (input.new ≡ input.old) × (out.new ≡ out.old)
        × (result ≡ 2 → IsBegun (E.contents err.old) (E.contents err.new) unread_text)) }
    ensures quiet { IfOk words (λ all. result ≡ 0 →
        IsQuiet E.contents (map string_bytes (drop 1 all.items)) err.old err.new) }
{
    match words {
        Ok(words) => session(rt, words_after_name(&words), input, out, err),
        Err(error) => unread_words(error, err),
    }
}

/// Runs the session of the program's own command line and returns the exit status. The contract
/// says that this is the session of some words, or 2 or 4 with nothing read or answered: the
/// standard library does not specify which words the system passes.
pub fn run_program<
    R: Env + AllocGlobal + Threads + Sync + Files + Clock,
    I: Read,
    O: Write,
    E: Write,
>(rt: &R, input: &mut I, out: &mut O, err: &mut E) -> u8
where
    R::File: StoreFile,
    ensures ends { ((words : List Bytes) × EndsReported words
        (I.remaining input.old) (O.contents out.old) (O.contents out.new)
        (E.contents err.old) (E.contents err.new)
        (input.new ≡ input.old) (out.new ≡ out.old) result
        × (result ≡ 0 → IsQuiet E.contents words err.old err.new))
        ⊎ (((result ≡ 2) ⊎ (result ≡ 4)) × (input.new ≡ input.old) × (out.new ≡ out.old)) }
{
    run_words(rt, all_words(rt), input, out, err)
}
