//! What calls say of a script by a capture. The inputs are read in one place for all of them: a
//! function that reads three inputs costs more to prove than the test that asks it.
ghost use Rattle.std.specs.Prelude.{◌≡◌};

use crate::objects::is_object;
use fints_check::{Certificate, Certified, Finding, Reached, check, confirm, verify};
use fints_params::Params;
use fints_rules::{OrderTable, Permissions};
use fints_samples::T;
use fints_script::{Case, Plan, Script};
use std::alloc::Global;
use std::test::*;

/// What is said of a script by a capture.
#[derive(Clone, Copy)]
pub enum Said<'a> {
    /// The report's figures of the last step, its findings, and how many steps and branches it
    /// looked at.
    Report(Reached, &'a [Finding], u64),
    /// The case of the first finding.
    Case(&'a [u8]),
    /// The object of the report.
    Object(&'a [u8]),
    /// The certificate of the report, where it has one.
    Certificate(Option<&'a [u8]>),
    /// Whether a case shows a finding.
    Confirmed(Finding, &'a [u8], bool),
}

// A plan, and the permissions of a bank by the same order table.
#[derive(Clone, Copy)]
struct Asked<'a> {
    permissions: &'a Permissions<'a>,
    plan: &'a Plan<'a>,
    ghost same_orders: { permissions.now.orders ≡ plan.now.orders },
}

fn is_report(
    alloc: Global,
    asked: Asked<'_>,
    last: Reached,
    findings: &[Finding],
    visits: u64,
) -> Result<bool, Fail> {
    let Asked { permissions, plan } = asked;
    let count = plan.step_count();
    if count == 0 {
        return Ok(false);
    }
    let report = check(alloc, permissions, plan)?;
    let figures = (report.reached(count), report.visits());
    Ok(
        figures == (Some(last), visits)
            && (report.findings(), report.is_clean()) == (findings, findings.is_empty()),
    )
}

fn is_first_case(alloc: Global, asked: Asked<'_>, wanted: &[u8]) -> Result<bool, Fail> {
    let report = check(alloc, asked.permissions, asked.plan)?;
    if report.findings().is_empty() {
        return Ok(false);
    }
    let case = report.case(alloc, 0)?;
    let parts = Case {
        values: report.values(alloc, 0)?,
        answers: report.way(alloc, 0)?,
    };
    let (text, again) = (case.write(alloc)?, parts.write(alloc)?);
    Ok((text.as_slice(), again.as_slice()) == (wanted, wanted))
}

fn is_closed(
    alloc: Global,
    asked: Asked<'_>,
    certificate: &Certificate,
    wanted: Option<&[u8]>,
) -> Result<bool, Fail> {
    let text = certificate.write(alloc)?;
    Ok(wanted == Some(text.as_slice()) && verify(asked.permissions, asked.plan, certificate))
}

fn is_certified(alloc: Global, asked: Asked<'_>, wanted: Option<&[u8]>) -> Result<bool, Fail> {
    let report = check(alloc, asked.permissions, asked.plan)?;
    match report.certificate(alloc)? {
        None => Ok(wanted.is_none()),
        Some(certificate) => is_closed(alloc, asked, &certificate, wanted),
    }
}

fn is_confirmed(
    alloc: Global,
    asked: Asked<'_>,
    finding: &Finding,
    case: &[u8],
) -> Result<bool, Fail> {
    let case = Case::read(alloc, case)?;
    Ok(confirm(alloc, asked.permissions, asked.plan, finding, &case)?)
}

fn is_true(alloc: Global, asked: Asked<'_>, said: Said<'_>) -> Result<bool, Fail> {
    match said {
        Said::Report(last, findings, visits) => is_report(alloc, asked, last, findings, visits),
        Said::Case(case) => is_first_case(alloc, asked, case),
        Said::Object(object) => {
            let report = check(alloc, asked.permissions, asked.plan)?;
            is_object(alloc, &report, object)
        }
        Said::Certificate(wanted) => is_certified(alloc, asked, wanted),
        Said::Confirmed(finding, case, wanted) => {
            Ok(is_confirmed(alloc, asked, &finding, case)? == wanted)
        }
    }
}

// The first of these that is not true of the plan.
fn untrue_of(alloc: Global, asked: Asked<'_>, said: &[Said<'_>]) -> Result<Option<usize>, Fail> {
    for (at, one) in said.iter().enumerate() {
        if !is_true(alloc, asked, *one)? {
            return Ok(Some(at));
        }
    }
    Ok(None)
}

fn untrue_by(
    alloc: Global,
    params: &Params,
    script: &Script,
    said: &[Said<'_>],
) -> Result<Option<usize>, Fail> {
    let orders = OrderTable::read(alloc, T)?;
    let permissions = Permissions::build(alloc, params, &orders)?;
    let plan = script.plan(&orders)?;
    let asked = Asked {
        permissions: &permissions,
        plan: &plan,
    };
    untrue_of(alloc, asked, said)
}

/// The first of these that is not true of a script by a capture.
pub fn untrue(
    alloc: Global,
    capture: &[u8],
    script: &[u8],
    said: &[Said<'_>],
) -> Result<Option<usize>, Fail> {
    let params = Params::read(alloc, capture)?;
    let script = Script::read(alloc, script)?;
    untrue_by(alloc, &params, &script, said)
}
