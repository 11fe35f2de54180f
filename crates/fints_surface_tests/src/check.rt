//! The checker: the greatest figures, what is open of a certificate first, and whose order is left unreleased.
ghost use Rattle.std.specs.Prelude.{◌≡◌};

use crate::samples::{C, C1, FORK, SECOND_ACCOUNT, T, UNRELEASED, signed};
use fints_check::{
    CertFault, Certificate, Finding, Memory, Open, Reached, Way, check, first_open,
    greatest_figures,
};
use fints_params::Params;
use fints_rules::{OrderTable, Permissions, Rule};
use fints_script::{Plan, Script};
use std::alloc::Global;
use std::test::*;

/// What is asked of a script by a capture.
#[derive(Clone, Copy)]
enum Row<'a> {
    /// Whether the greatest figures are those of row `fork`.
    Figures,
    /// Whether this is open first of the certificate.
    Open(&'a [u8], Open),
    /// Whether this is the one finding, and which step leaves an order of it unreleased.
    Left(Finding, Option<u16>),
}

const FIGURES: [Option<Reached>; 3] = [
    Some(Reached {
        number: 1,
        size: 55,
    }),
    None,
    Some(Reached {
        number: 2,
        size: 173,
    }),
];

fn are_greatest(alloc: Global, plan: &Plan<'_>) -> Result<bool, Memory> {
    let figures = greatest_figures(alloc, plan)?;
    Ok(figures.as_slice() == FIGURES.as_slice())
}

// A plan, and the permissions of a bank by the same order table.
#[derive(Clone, Copy)]
struct Asked<'a> {
    permissions: &'a Permissions<'a>,
    plan: &'a Plan<'a>,
    ghost same_orders: { permissions.now.orders ≡ plan.now.orders },
}

fn is_open(alloc: Global, asked: Asked<'_>, text: &[u8], open: Open) -> Result<bool, CertFault> {
    let certificate = Certificate::read(alloc, text)?;
    Ok(first_open(asked.permissions, asked.plan, &certificate) == Some(open))
}

// Whether the report is of the plan, and says that of its one finding.
fn is_left(
    alloc: Global,
    asked: Asked<'_>,
    finding: Finding,
    left: Option<u16>,
) -> Result<bool, Memory> {
    let Asked { permissions, plan } = asked;
    let report = check(alloc, permissions, plan)?;
    if report.findings() != [finding].as_slice() {
        return Ok(false);
    }
    Ok(report.step_left(0) == left && report.plan().step_count() == plan.step_count())
}

fn is_row(alloc: Global, asked: Asked<'_>, row: Row<'_>) -> Result<bool, Fail> {
    match row {
        Row::Figures => Ok(are_greatest(alloc, asked.plan)?),
        Row::Open(text, open) => Ok(is_open(alloc, asked, text, open)?),
        Row::Left(finding, left) => Ok(is_left(alloc, asked, finding, left)?),
    }
}

fn is_row_by(alloc: Global, params: &Params, script: &Script, row: Row<'_>) -> Result<bool, Fail> {
    let orders = OrderTable::read(alloc, T)?;
    let permissions = Permissions::build(alloc, params, &orders)?;
    let plan = script.plan(&orders)?;
    let asked = Asked {
        permissions: &permissions,
        plan: &plan,
    };
    is_row(alloc, asked, row)
}

// Whether the script by the capture does what is in the row.
fn is_row_of(alloc: Global, capture: &[u8], script: &[u8], row: Row<'_>) -> Result<bool, Fail> {
    let params = Params::read(alloc, capture)?;
    let script = Script::read(alloc, script)?;
    is_row_by(alloc, &params, &script, row)
}

#[test]
fn figures(rt: HostRuntime) -> Result<(), Fail> {
    assert!(rt; is_row_of(rt.alloc(), C1, FORK, Row::Figures)?);
    Ok(())
}

// One byte too few in the last line.
const TOO_SHORT: &[u8] = b"fints-cert 2\nstep one 1 55\nstep bad -\nstep done 9999 178\n";

const SHORT: Open = Open::LowSize {
    step: 3,
    number: 9999,
    longest: 179,
    size: 178,
};

const UNREACHED: &[u8] = b"fints-cert 2\nstep one 1 55\nstep bad -\nstep done -\n";

// A branch of step 1 leads to the third.
const LED: Open = Open::Unreached {
    step: 3,
    way: Way::Branch {
        from: 1,
        branch: 1,
        number: 1,
    },
};

#[test]
fn open_first(rt: HostRuntime) -> Result<(), Fail> {
    for (text, open) in [(TOO_SHORT, SHORT), (UNREACHED, LED)] {
        assert!(rt; is_row_of(rt.alloc(), C1, FORK, Row::Open(text, open))?);
    }
    Ok(())
}

const SIGNATURES: Finding = Finding {
    step: 1,
    rule: Rule::Signatures,
    segment: 3,
};

const RELEASE: Finding = Finding {
    step: 2,
    rule: Rule::Release,
    segment: 0,
};

// The scripts of rows `second-account` and `order-without-its-release`.
#[test]
fn left(rt: HostRuntime) -> Result<(), Fail> {
    let rows = [
        (SECOND_ACCOUNT, Row::Left(SIGNATURES, None)),
        (UNRELEASED, Row::Left(RELEASE, Some(1))),
    ];
    for (steps, row) in rows {
        let script = signed(rt.alloc(), steps)?;
        assert!(rt; is_row_of(rt.alloc(), C, script.as_slice(), row)?);
    }
    Ok(())
}
