//! The checks of a batch before any of it is executed.
ghost use Rattle.std.specs.Prelude.{◌≡◌, Ok, Err, IsTrue, IfOk, IfErr, MatchOption, false};
ghost use Rattle.engine.specs.Refusal.{key_fault, value_fault, bound_fault, fault_at, first_fault, refusal, is_crew};

use crew::Crew;
use keys::{Command, Fault, Key, Settings, Value};
use std::alloc::Global;

// The most commands that a batch may have.
pub(crate) const LONGEST_BATCH: usize = 65_535;

// Refuses a crew out of range.
pub(crate) fn admit_crew(crew: Crew) -> Result<(), Fault>
    ensures ok { IfOk result (λ _. IsTrue (is_crew crew)) }
    ensures err { IfErr result (λ fault. (fault ≡ Fault.BadCrew) × (is_crew crew ≡ false)) }
{
    match crew.check() {
        Ok(()) => Ok(()),
        Err(_) => Err(Fault::BadCrew),
    }
}

// Rejects a batch that is too long, or else the first command that has a fault.
pub(crate) fn admit(settings: &Settings, commands: &[Command<Global>]) -> Result<(), Fault>
    ensures { MatchOption (refusal settings.now commands.now) (result ≡ Ok tt)
        (λ fault. result ≡ Err fault) }
{
    if commands.len() > LONGEST_BATCH {
        return Err(Fault::BatchTooLong);
    }
    match first_fault(settings, commands) {
        None => Ok(()),
        Some(fault) => Err(fault),
    }
}

// The fault of the first command that has one.
fn first_fault(settings: &Settings, commands: &[Command<Global>]) -> Option<Fault>
    ensures { result ≡ first_fault settings.now 0 commands.now }
{
    for (place, command) in commands.iter().enumerate() {
        let fault = fault_at(settings, place, command);
        if fault.is_some() {
            return fault;
        }
    }
    None
}

// The fault of the command at this place, if it has one.
fn fault_at(settings: &Settings, place: usize, command: &Command<Global>) -> Option<Fault>
    ensures { result ≡ fault_at settings.now place command.now }
{
    match command {
        Command::Get(key) => key_fault(settings, place, key),
        Command::Put(key, value) | Command::Add(key, value) => {
            key_fault(settings, place, key).or(value_fault(settings, place, value))
        }
        Command::Del(key) => key_fault(settings, place, key),
        Command::Scan(lo, hi, _) => {
            key_fault(settings, place, lo).or(bound_fault(settings, place, hi))
        }
        Command::Wipe(lo, hi) => {
            key_fault(settings, place, lo).or(bound_fault(settings, place, hi))
        }
    }
}

// The fault of a key of the command at this place, if it has one.
fn key_fault(settings: &Settings, place: usize, key: &Key<Global>) -> Option<Fault>
    ensures { result ≡ key_fault settings.now place key.now }
{
    if key.len() > settings.max_key as usize {
        Some(Fault::KeyTooLong(place))
    } else {
        None
    }
}

// The fault of the upper bound of the scan or wipe at this place, if it has one.
fn bound_fault(settings: &Settings, place: usize, hi: &Option<Key<Global>>) -> Option<Fault>
    ensures { result ≡ bound_fault settings.now place hi.now }
{
    match hi {
        None => None,
        Some(hi) => key_fault(settings, place, hi),
    }
}

// The fault of a value of the command at this place, if it has one.
fn value_fault(settings: &Settings, place: usize, value: &Value<Global>) -> Option<Fault>
    ensures { result ≡ value_fault settings.now place value.now }
{
    if value.len() > settings.max_value as usize {
        Some(Fault::ValueTooLong(place))
    } else {
        None
    }
}
