//! The certificate of a script without findings.
ghost use Rattle.std.specs.Prelude.{◌≡◌, IfOk};
ghost use Rattle.fints_cli_scripts.specs.Certified.{IsCertifiedBy};
ghost use Rattle.fints_check.specs.CertTexts.{cert_text};

use crate::writing::reply;
use fints_check::{Certificate, Certified, Report};
use fints_cli_texts::Reply;
use fints_syntax::Memory;
use std::alloc::Global;

fn certificate_reply(alloc: Global, certificate: &Certificate) -> Result<Reply, Memory>
    ensures status { IfOk result (λ reply. reply.status ≡ 0) }
    ensures text { IfOk result (λ reply. reply.text.items ≡ cert_text certificate.now) }
{
    let text = certificate.write(alloc)?;
    Ok(Reply { status: 0, text })
}

/// The certificate of a report without findings, or else the report, with its status.
pub fn certify(alloc: Global, report: &Report<'_>) -> Result<Reply, Memory>
    ensures { IfOk result (λ reply.
        IsCertifiedBy report.now.granted report.now.plan.script reply.status reply.text.items) }
{
    match report.certificate(alloc)? {
        Some(certificate) => certificate_reply(alloc, &certificate),
        None => reply(alloc, report),
    }
}
