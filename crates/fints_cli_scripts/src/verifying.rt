//! Whether a certificate is closed, from the texts of its inputs.
ghost use Rattle.std.specs.Prelude.{◌≡◌, ◌≤◌, ◌↔◌, ℕ, List, IsTrue, IfOk, IfErr};
ghost use Rattle.fints_params.specs.declared.fault.ParamFault.{ParamFault as ParamFaultValue};
ghost use Rattle.fints_cli_texts.specs.Fault.{fault_of};
ghost use Rattle.fints_check.specs.CertTexts.{IsCertificateOf};
ghost use Rattle.fints_params.specs.Captures.{IsReadOf};
ghost use Rattle.fints_cli_scripts.specs.Verified.{IsCertificateRefusal, IsUnverified, IsVerifiedBy, IsVerifiedOf, IsVerifiedOn, IsVerifyRefusal, TellsWhether};

use crate::inputs::read_inputs;
use fints_check::{CertFault, Certificate, Open, first_open};
use fints_cli_texts::{Fault, Reply, Unobserved};
use fints_params::{ParamFault, Params};
use fints_rules::Permissions;
use fints_script::Plan;
use fints_syntax::Memory;
use std::alloc::Global;

// The certificate that the text denotes.
fn read_certificate(alloc: Global, text: &[u8]) -> Result<Certificate, Fault>
    ensures certificate { IfOk result (λ certificate. IsCertificateOf text.now certificate) }
    ensures refused { IfErr result (λ f. IsCertificateRefusal text.now f) }
{
    match Certificate::read(alloc, text) {
        Ok(certificate) => Ok(certificate),
        Err(CertFault::Bad { line }) => Err(Fault::Certificate { line }),
        Err(CertFault::Memory) => Err(Fault::Memory),
    }
}

// The word for a certificate, with its status.
fn verdict(alloc: Global, valid: bool) -> Result<Reply, Memory>
    ensures { IfOk result (λ reply. TellsWhether valid reply.status reply.text.items) }
{
    if valid {
        return Ok(Reply {
            status: 0,
            text: Vec::from_slice(alloc, b"valid\n")?,
        });
    }
    Ok(Reply {
        status: 1,
        text: Vec::from_slice(alloc, b"invalid\n")?,
    })
}

/// What looks on while a certificate is verified. No contract says what it makes of it.
pub trait VerifyObserver {
    /// Looks at the plan, at the certificate, and at what is open of that first.
    fn verified(&mut self, plan: &Plan<'_>, certificate: &Certificate, open: Option<Open>);
}

impl VerifyObserver for Unobserved {
    fn verified(&mut self, _plan: &Plan<'_>, _certificate: &Certificate, _open: Option<Open>) {}
}

// What is said of a certificate by good parameters and a plan.
fn verify_plan<O: VerifyObserver>(
    alloc: Global,
    params: &Params,
    plan: &Plan<'_>,
    certificate: &[u8],
    observer: &mut O,
) -> Result<Reply, Fault>
    ensures told { IfOk result (λ reply.
        IsVerifiedBy (record { rows = params.now; orders = plan.now.orders }) plan.now.script certificate.now
        reply.status reply.text.items) }
    ensures refused { IfErr result (λ f. IsCertificateRefusal certificate.now f) }
{
    let permissions = Permissions::build(alloc, params, plan.orders())?;
    let certificate = read_certificate(alloc, certificate)?;
    let open = first_open(&permissions, plan, &certificate);
    observer.verified(plan, &certificate, open);
    let reply = verdict(alloc, open.is_none())?;
    Ok(reply)
}

/// Whether a certificate is closed, by good parameters: `valid` with status 0, or `invalid` with
/// status 1. Of the refusals that of the order table comes first, then that of the script, then what
/// the script leaves open with the order table, and then that of the certificate.
pub fn verify_certificate<O: VerifyObserver>(
    alloc: Global,
    params: &Params,
    orders: &[u8],
    script: &[u8],
    certificate: &[u8],
    observer: &mut O,
) -> Result<Reply, Fault>
    ensures told { IfOk result (λ reply.
        IsVerifiedOn params.now orders.now script.now certificate.now reply.status reply.text.items) }
    ensures refused { IfErr result (λ f. IsVerifyRefusal orders.now script.now certificate.now f) }
{
    let inputs = read_inputs(alloc, orders, script)?;
    let plan = inputs.script.plan(&inputs.orders)?;
    let reply = verify_plan(alloc, params, &plan, certificate, observer)?;
    Ok(reply)
}

/// Whether a certificate is closed, by what was read of a capture, with the same answers. The refusal
/// of the capture comes before the others.
pub fn verify_read<O: VerifyObserver>(
    alloc: Global,
    params: Result<Params, ParamFault>,
    orders: &[u8],
    script: &[u8],
    certificate: &[u8],
    observer: &mut O,
) -> Result<Reply, Fault>
    ensures status { IfOk result (λ reply. reply.status ≤ 1) }
    ensures told { IfOk result (λ reply. (capture : List ℕ) → IsReadOf capture params
        → IsVerifiedOf capture orders.now script.now certificate.now reply.status reply.text.items) }
    ensures refused { IfErr result (λ f. (capture : List ℕ) → IsReadOf capture params
        → IsUnverified capture orders.now script.now certificate.now f) }
    ensures params_first { (f : ParamFaultValue) → params ≡ Err f → result ≡ Err (fault_of f) }
{
    let params = match params {
        Ok(params) => params,
        Err(fault) => return Err(Fault::from(fault)),
    };
    let reply = verify_certificate(alloc, &params, orders, script, certificate, observer)?;
    Ok(reply)
}

/// Whether a certificate is closed, by a capture, with the same answers and refusals.
pub fn verify_script(
    alloc: Global,
    params: &[u8],
    orders: &[u8],
    script: &[u8],
    certificate: &[u8],
) -> Result<Reply, Fault>
    ensures told { IfOk result (λ reply.
        IsVerifiedOf params.now orders.now script.now certificate.now reply.status reply.text.items) }
    ensures refused { IfErr result (λ f. IsUnverified params.now orders.now script.now certificate.now f) }
{
    let params = Params::read(alloc, params);
    verify_read(alloc, params, orders, script, certificate, &mut Unobserved)
}
