//! What `show` answers.
use crate::making::prints;
use fints_cli_json::{ShownMessage, ShownParams, ShownSegment};
use fints_params::{Code, Params};
use fints_samples::C;
use std::test::Fail;

#[test]
fn a_capture(rt: HostRuntime) -> Result<(), Fail> {
    let alloc = rt.alloc();
    let params = Params::read(alloc, C)?;
    let codes = [
        Code::parse(b"0020").ok_or("code")?,
        Code::parse(b"3920").ok_or("code")?,
    ];
    let shown = ShownParams {
        params: &params,
        codes: &codes,
        notes: &[],
    };
    assert!(rt;
        prints(
            alloc,
            &shown,
            b"{\"fints\":1,\"command\":\"show\",\"status\":0,\"verdict\":\"shown\",\"bank\":{\"country\":\"280\",\"code\":\"10020030\",\"kinds\":1,\"kilobytes\":0,\"protocols\":[300]},\"orders\":[{\"kind\":\"HKSAL\",\"version\":5,\"orders\":2,\"signatures\":1},{\"kind\":\"HKSAL\",\"version\":7,\"orders\":2,\"signatures\":1},{\"kind\":\"HKKAZ\",\"version\":5,\"orders\":20,\"signatures\":1},{\"kind\":\"HKCCS\",\"version\":1,\"orders\":1,\"signatures\":1},{\"kind\":\"HKTAN\",\"version\":6,\"orders\":1,\"signatures\":1}],\"pins\":[{\"kind\":\"HKSAL\",\"tan\":false},{\"kind\":\"HKKAZ\",\"tan\":false},{\"kind\":\"HKCCS\",\"tan\":true}],\"tans\":[{\"version\":6,\"one_step\":true,\"several\":false}],\"usage\":0,\"accounts\":[{\"account\":[\"1234567\",\"\",\"280\",\"10020030\"],\"iban\":\"DE111\",\"entries\":[{\"kind\":\"HKSAL\",\"signatures\":1},{\"kind\":\"HKKAZ\",\"signatures\":1},{\"kind\":\"HKCCS\",\"signatures\":1}]},{\"account\":[\"7654321\",\"\",\"280\",\"10020030\"],\"iban\":\"DE222\",\"entries\":[{\"kind\":\"HKSAL\",\"signatures\":1},{\"kind\":\"HKCCS\",\"signatures\":2}]}],\"skipped\":0,\"codes\":[\"0020\",\"3920\"],\"notes\":[]}\n"
        )?
    );
    Ok(())
}

// The byte 252 is a character of two bytes in UTF-8.
#[test]
fn a_message(rt: HostRuntime) -> Result<(), Fail> {
    let alloc = rt.alloc();
    let mut segments = Vec::new(alloc);
    let line: &[u8] = b"HNHBS:3:1+\xfc'";
    segments.push(ShownSegment {
        sealed: true,
        text: line.to_vec(alloc)?,
    })?;
    let shown = ShownMessage { segments };
    assert!(rt;
        prints(
            alloc,
            &shown,
            b"{\"fints\":1,\"command\":\"show\",\"status\":0,\"verdict\":\"shown\",\"segments\":[{\"sealed\":true,\"text\":\"HNHBS:3:1+\xc3\xbc'\"}]}\n"
        )?
    );
    Ok(())
}
