//! The log state of a pid: what the log contains of its page.
ghost use Rattle.std.specs.Prelude.{◌≡◌};
ghost use Rattle.mapping.specs.Outdate.{outdate};
ghost use Rattle.mapping.specs.LogState.{log_state};

/// The log state of a pid. Contracts compare it with the definitions by `log_state`.
#[derive(Clone, Copy, PartialEq, Eq, Debug, Drop)]
pub enum Logged {
    /// The log contains no page.
    No,
    /// The log contains a page, but not with the base of the present page, or there is no present page.
    Old,
    /// The log contains the base of the present page, and this many of its oldest runs.
    Upto(u64),
}

impl Logged {
    /// Returns the log state after the page has been replaced.
    pub fn outdated(self) -> Logged
        ensures { log_state result ≡ outdate (log_state self) }
    {
        match self {
            Logged::Upto(_) => Logged::Old,
            _ => self,
        }
    }
}
