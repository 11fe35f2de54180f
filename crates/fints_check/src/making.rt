//! The certificate of a report without findings.
ghost use Rattle.std.specs.Prelude.{◌≡◌, ◌↔◌, [], IfOk, IfSome, IsSome};
ghost use Rattle.std.specs.List.{All};
ghost use Rattle.fints_check_findings.specs.Figures.{AreFigures};
ghost use Rattle.fints_check_findings.specs.Findings.{AreFindings, EachIsPermitted};
ghost use Rattle.fints_check.specs.Certificates.{line_figures, line_names, step_names, IsClosedCertificate, KeepsPromise};
ghost use Rattle.fints_check.specs.CertTexts.{IsCertificate};
ghost use Rattle.fints_check.specs.declared.certificate.Line.{Line as LineValue};
ghost use Rattle.fints_script.specs.Scripts.{IsRead};
ghost use Rattle.fints_script_fields.specs.Names.{IsName};

use crate::certificate::{Certificate, Line};
use fints_check_findings::Report;
use fints_syntax::Memory;
use std::alloc::Global;

// A line for each step, with its name and its greatest figures.
fn lines_of(alloc: Global, report: &Report<'_>) -> Result<Vec<Line>, Memory>
    ensures names { IfOk result (λ lines. line_names lines.items ≡ step_names report.now.plan.script.steps) }
    ensures figures { IfOk result (λ lines. AreFigures report.now.plan.script (line_figures lines.items)) }
    ensures read { IsRead report.now.plan.script }
    ensures are_names { IfOk result (λ lines. All (λ (line : LineValue). IsName line.name) lines.items) }
{
    let plan = report.plan();
    let mut lines = Vec::new(alloc);
    for i in 0..plan.step_count() {
        let name = plan.step(i + 1).name();
        prove!(!name.as_bytes().is_empty());
        lines.push(Line {
            name,
            reached: report.reached(i + 1),
        })?;
    }
    Ok(lines)
}

/// What gives a report its certificate; a contract sees the report.
pub trait Certified {
    ghost use Rattle.fints_check_findings.specs.Reports.{ReportValue};

    /// The report.
    ghost report: { Self → ReportValue };

    /// The certificate of a report without findings, with the greatest figures of its steps; `verify`
    /// of it is true, and its text can be read back.
    fn certificate(&self, alloc: Global) -> Result<Option<Certificate>, Memory>
        ensures clean { IfOk result (λ found. IsSome found ↔ ((report self.now).findings ≡ [])) }
        ensures found { ((report self.now).findings ≡ [] → ⊥) → result ≡ Ok None }
        ensures figures { IfOk result (λ found. IfSome found
            (λ certificate. AreFigures (report self.now).plan.script (line_figures certificate))) }
        ensures readable { IfOk result (λ found. IfSome found IsCertificate) }
        ensures closed { IfOk result (λ found. IfSome found
            (IsClosedCertificate (report self.now).granted (report self.now).plan.script)) }
        ensures promise { IfOk result (λ found.
            IfSome found (KeepsPromise (report self.now).plan.script)) }
        ensures exactly { AreFindings (report self.now).granted (report self.now).plan.script
            (report self.now).findings }
        ensures permitted { (report self.now).findings ≡ []
            → EachIsPermitted (report self.now).granted (report self.now).plan.script };
}

impl Certified for Report<'_> {
    ghost report = { λ r. r };

    fn certificate(&self, alloc: Global) -> Result<Option<Certificate>, Memory> {
        if !self.findings().is_empty() {
            return Ok(None);
        }
        let lines = lines_of(alloc, self)?;
        Ok(Some(Certificate::new(lines)))
    }
}
