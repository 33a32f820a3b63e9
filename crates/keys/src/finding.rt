//! Findings: a rule of the structure of a tree, and the page that breaks it.
use crate::pid::Pid;
use std::fmt;
use std::marker::Model;

/// A violated structural rule of the tree: the rule's number (1 to 10) and the page that breaks it. It prints as the
/// rule and the page id, in decimal. Contracts see it as the definitions' `Finding`.
#[derive(Clone, Copy, Debug, PartialEq, Eq)]
pub struct Finding {
    /// The number of the rule.
    pub rule: u32,
    /// The page that breaks the rule; for rule 2 (a page must exist), the id of the missing page.
    pub pid: Pid,
}

impl Model for Finding {
    ghost use Rattle.keys.specs.Finding as found;

    ghost Value = { found.Finding };

    ghost view = { λ f. record { rule = f.rule; pid = f.pid } };

    ghost inverse = { λ f. record { rule = f.rule; pid = f.pid } };
}

impl fmt::Display for Finding {
    ghost use Rattle.std.specs.Prelude.{◌++◌, Some, codes};
    ghost use Rattle.std.specs.Fmt.{decimal};

    ghost output = { λ f. Some (decimal f.rule ++ codes " " ++ decimal f.pid) };

    fn fmt<W: fmt::Write>(&self, f: &mut fmt::Formatter<W>) -> fmt::Result {
        write!(f, "{} {}", self.rule, self.pid.0)
    }
}
