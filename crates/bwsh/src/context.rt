//! What all parts of a session share.
ghost use Rattle.std.specs.Prelude.{IsTrue, ◌≡◌, false, Ok, IfOk, IsOkUnless, OnErr};
ghost use Rattle.crew.specs.Crew.{is_crew};

use crate::notes::{Notes, Source};
use crate::options::{Mode, Options};
use crate::progress::Observer;
use crate::session::{Result, SessionError};
use engine::{BadCrew, Crew};
use std::alloc::Global;
use std::io;

/// The arguments of each call of the store, and the mode of the session. The crew is in range.
#[derive(Drop)]
pub struct Context<'a, R> {
    pub rt: &'a R,
    pub alloc: Global,
    pub crew: Crew,
    pub mode: Mode,
    ghost crew_in_range: { IsTrue (is_crew crew) },
}

/// What a session is asked for, and what it records and reports.
#[derive(Drop)]
pub struct Session<'a, R, P> {
    pub calls: Context<'a, R>,
    pub asked: &'a Options,
    pub notes: &'a Notes<'a>,
    /// What writes to standard error while the session runs.
    pub report: &'a P,
}

impl<'a, R, P: Observer> Session<'a, R, P> {
    /// Fails with `BadCrew` if the crew is out of range.
    pub fn new(rt: &'a R, notes: &'a Notes<'a>, report: &'a P) -> Result<Session<'a, R, P>, BadCrew>
        ensures ok { IfOk result (λ at. (at.asked.now ≡ notes.entry.now.asked.now)
            × (at.calls.mode ≡ notes.entry.now.asked.now.mode)
            × (at.calls.crew ≡ notes.entry.now.asked.now.crew)) }
        ensures err { OnErr result (is_crew notes.entry.now.asked.now.crew ≡ false) }
    {
        let asked = notes.asked;
        asked.crew.check()?;
        let calls = Context {
            rt,
            alloc: notes.alloc,
            crew: asked.crew,
            mode: asked.mode,
        };
        Ok(Session {
            calls,
            asked,
            notes,
            report,
        })
    }

    /// Records the reason if a call on this file failed.
    pub fn check_call<T: Drop>(&self, file: Source, done: io::Result<T>) -> Result<T>
        ensures ok { IfOk result (λ value. done ≡ Ok value) }
        ensures device { IsOkUnless result SessionError.Device }
    {
        match done {
            Ok(value) => Ok(value),
            Err(reason) => {
                self.notes.record_failure(file, Some(reason));
                Err(SessionError::Device)
            }
        }
    }
}
