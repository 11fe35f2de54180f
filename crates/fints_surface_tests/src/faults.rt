//! Each fault of the surface is an error of its own: a `?` makes an `anyhow::Error` of it, which prints what
//! the fault prints. The texts are those of the fault lines; those of streams are the faults' own.
use fints_check::CertFault;
use fints_cli::{Failure, Fault, Input, LoadFault, ReadFault, WriteFault};
use fints_params::ParamFault;
use fints_rules::{JudgeFault, TableFault};
use fints_script::{CaseFault, FaultKind, Place, PlanFault, ScriptFault};
use fints_syntax::{Memory, SyntaxFault, SyntaxKind};
use std::alloc::{AllocError, Global};
use std::test::*;

// What a client of these calls answers.
type Answer = anyhow::Result<()>;

// Whether the answer is an error that prints this.
fn prints(alloc: Global, answer: Answer, wanted: &str) -> Result<bool, AllocError> {
    match answer {
        Ok(()) => Ok(false),
        Err(error) => {
            let text = format!(in alloc; "{error}")?;
            Ok(text.as_str() == wanted)
        }
    }
}

fn memory(call: Result<(), Memory>) -> Answer {
    call?;
    Ok(())
}

fn syntax(call: Result<(), SyntaxFault>) -> Answer {
    call?;
    Ok(())
}

fn params(call: Result<(), ParamFault>) -> Answer {
    call?;
    Ok(())
}

fn table(call: Result<(), TableFault>) -> Answer {
    call?;
    Ok(())
}

fn judged(call: Result<(), JudgeFault>) -> Answer {
    call?;
    Ok(())
}

fn script(call: Result<(), ScriptFault>) -> Answer {
    call?;
    Ok(())
}

fn plan(call: Result<(), PlanFault>) -> Answer {
    call?;
    Ok(())
}

fn case(call: Result<(), CaseFault>) -> Answer {
    call?;
    Ok(())
}

fn certificate(call: Result<(), CertFault>) -> Answer {
    call?;
    Ok(())
}

fn refused(call: Result<(), Fault>) -> Answer {
    call?;
    Ok(())
}

fn failed(call: Result<(), Failure>) -> Answer {
    call?;
    Ok(())
}

fn read(call: Result<(), ReadFault>) -> Answer {
    call?;
    Ok(())
}

fn written(call: Result<(), WriteFault>) -> Answer {
    call?;
    Ok(())
}

fn loaded(call: Result<(), LoadFault>) -> Answer {
    call?;
    Ok(())
}

// Each of the seven crates passes it on.
const REFUSED: [Result<(), Memory>; 7] = [
    Err(fints_syntax::Memory),
    Err(fints_params::Memory),
    Err(fints_rules::Memory),
    Err(fints_script::Memory),
    Err(fints_wire::Memory),
    Err(fints_check::Memory),
    Err(fints_cli::Memory),
];

// A call that succeeds makes no error.
#[test]
fn of_memory(rt: HostRuntime) -> Result<(), Fail> {
    assert!(rt; memory(Ok(())).is_ok());
    for call in REFUSED {
        assert!(rt; prints(rt.alloc(), memory(call), "memory")?);
    }
    Ok(())
}

const CUT: SyntaxFault = SyntaxFault {
    kind: SyntaxKind::Incomplete,
    offset: 0,
};

const BAD_KINDS: ParamFault = ParamFault::BadElement {
    segment: 3,
    element: 5,
};

#[test]
fn of_captures(rt: HostRuntime) -> Result<(), Fail> {
    let alloc = rt.alloc();
    assert!(rt; prints(alloc, syntax(Err(CUT)), "Incomplete at 0")?);
    assert!(rt;
        prints(
            alloc,
            params(Err(BAD_KINDS)),
            "BadElement segment 3 element 5"
        )?
    );
    Ok(())
}

#[test]
fn of_rules(rt: HostRuntime) -> Result<(), Fail> {
    let alloc = rt.alloc();
    assert!(rt;
        prints(
            alloc,
            table(Err(TableFault::TwoRows { row: 6 })),
            "TwoRows 6"
        )?
    );
    let fault = JudgeFault::NotAMessage { offset: 0 };
    assert!(rt; prints(alloc, judged(Err(fault)), "NotAMessage at 0")?);
    Ok(())
}

const BACKWARD: ScriptFault = ScriptFault {
    kind: FaultKind::BackwardJump,
    place: Place::Step(2),
};

const OPEN: PlanFault = PlanFault::OpenAccount {
    step: 1,
    segment: 3,
};

#[test]
fn of_scripts(rt: HostRuntime) -> Result<(), Fail> {
    let alloc = rt.alloc();
    assert!(rt; prints(alloc, script(Err(BACKWARD)), "BackwardJump step 2")?);
    assert!(rt; prints(alloc, plan(Err(OPEN)), "OpenAccount step 1 segment 3")?);
    assert!(rt; prints(alloc, case(Err(CaseFault::Bad { line: 1 })), "line 1")?);
    assert!(rt;
        prints(
            alloc,
            certificate(Err(CertFault::Bad { line: 2 })),
            "line 2"
        )?
    );
    Ok(())
}

const NO_BANK: Fault = Fault::Params(ParamFault::NoBankParameters);

#[test]
fn of_commands(rt: HostRuntime) -> Result<(), Fail> {
    let alloc = rt.alloc();
    assert!(rt; prints(alloc, refused(Err(NO_BANK)), "params NoBankParameters")?);
    assert!(rt;
        prints(
            alloc,
            failed(Err(Failure::Unread(Input::Script))),
            "read --script"
        )?
    );
    Ok(())
}

// Whether the answer is an error that prints what the fault prints.
fn is_of_file(alloc: Global, fault: ReadFault) -> Result<bool, AllocError> {
    let text = format!(in alloc; "{fault}")?;
    let loading = LoadFault::Unreadable(fault);
    Ok(
        prints(alloc, read(Err(fault)), text.as_str())?
            && prints(alloc, loaded(Err(loading)), text.as_str())?,
    )
}

fn is_of_output(alloc: Global, fault: WriteFault) -> Result<bool, AllocError> {
    let text = format!(in alloc; "{fault}")?;
    prints(alloc, written(Err(fault)), text.as_str())
}

#[test]
fn of_streams(rt: HostRuntime) -> Result<(), Fail> {
    for fault in [
        ReadFault::NotFound,
        ReadFault::Directory,
        ReadFault::Denied,
        ReadFault::Failed,
    ] {
        assert!(rt; is_of_file(rt.alloc(), fault)?);
    }
    assert!(rt; prints(rt.alloc(), loaded(Err(LoadFault::Memory)), "memory")?);
    assert!(rt; is_of_output(rt.alloc(), WriteFault)?);
    Ok(())
}
