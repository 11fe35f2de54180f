//! The texts of certificates.
ghost use Rattle.std.specs.Prelude.{◌≡◌, [], ◌∷◌, ◌++◌, OnOk, IfOk};
ghost use Rattle.std.specs.Fmt.{decimal};
ghost use Rattle.fints_check.specs.CertTexts.{figures_text, step_text, cert_text, IsCertificate, IsCertificateOf};

use crate::certificate::{Certificate, Line};
use fints_check_findings::Reached;
use fints_syntax::Memory;
use itoa::Buffer;
use std::alloc::Global;

fn write_number(out: &mut Vec<u8>, n: u64) -> Result<(), Memory>
    ensures { OnOk result (out.new.items ≡ out.old.items ++ decimal n) }
{
    let mut buffer = Buffer::new();
    out.extend_from_slice(buffer.format(n).as_bytes())?;
    Ok(())
}

fn write_figures(out: &mut Vec<u8>, reached: Option<Reached>) -> Result<(), Memory>
    ensures { OnOk result (out.new.items ≡ out.old.items ++ figures_text reached) }
{
    match reached {
        Some(figures) => {
            write_number(out, figures.number as u64)?;
            out.push(b' ')?;
            write_number(out, figures.size)?;
        }
        None => out.push(b'-')?,
    }
    Ok(())
}

// Adds a step's line.
fn write_line(out: &mut Vec<u8>, line: &Line) -> Result<(), Memory>
    ensures { OnOk result (out.new.items ≡ out.old.items ++ (step_text line.now ++ 10 ∷ [])) }
{
    out.extend_from_slice(b"step ")?;
    out.extend_from_slice(line.name.as_bytes())?;
    out.push(b' ')?;
    write_figures(out, line.reached)?;
    out.push(b'\n')?;
    Ok(())
}

impl Certificate {
    /// The text of the certificate. It can be read again where its names and figures are those of a
    /// certificate and it has at most 1,048,576 bytes.
    pub fn write(&self, alloc: Global) -> Result<Vec<u8>, Memory>
        ensures text { IfOk result (λ text. text.items ≡ cert_text self.now) }
        ensures readable { IfOk result (λ text.
            IsCertificate self.now → IsCertificateOf text.items self.now) }
    {
        let mut out = Vec::new(alloc);
        out.extend_from_slice(b"fints-cert 2\n")?;
        for line in self.lines() {
            write_line(&mut out, line)?;
        }
        Ok(out)
    }
}
