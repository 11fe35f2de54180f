//! Certificates: what is said of each step of a script.
ghost use Rattle.std.specs.Prelude.{◌≡◌};

use fints_check_findings::Reached;
use fints_script_fields::Name;
use std::marker::Model;

/// What a certificate says of a step: bounds of the number and the length of its messages, or that no
/// run sends it.
#[derive(Clone, Copy)]
pub struct Line {
    pub name: Name,
    pub reached: Option<Reached>,
}

/// Lines, one for each step of a script; a contract sees the list.
#[derive(Drop)]
pub struct Certificate {
    lines: Vec<Line>,
}

impl Model for Certificate {
    ghost use Rattle.std.specs.Prelude.{List};
    ghost use Rattle.fints_check.specs.declared.certificate.Line.{Line};

    ghost Value = { List Line };

    ghost view = { λ c. c.lines.items };
}

impl Certificate {
    /// The certificate with these lines.
    pub fn new(lines: Vec<Line>) -> Certificate
        ensures { result ≡ lines.items }
    {
        Certificate { lines }
    }

    /// The lines in order.
    pub fn lines(&self) -> &[Line]
        ensures { result.now ≡ self.now }
    {
        &self.lines
    }
}
