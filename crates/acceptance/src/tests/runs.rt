//! Rows that are cut from dots, rows that are turned, and widths that are no row.

use crate::tests::equal::is_equal;
use scan_core::{RunFault, Runs};
use std::alloc::{AllocError, Global};
use std::process::Abort;
use std::test::Fail;

#[test]
fn cuts_rows(rt: HostRuntime) -> Result<(), Fail> {
    let alloc = rt.alloc();
    let row = Runs::cut(alloc, &[0xaa, 0x80], 1, 8).ok().ok_or("a row")?;
    is_equal(&rt, row.widths(), [1, 1, 1, 1, 1, 1, 1, 1, 0].as_slice());
    let row = Runs::cut(alloc, &[], 0, 0).ok().ok_or("a row")?;
    is_equal(&rt, row.widths(), [0].as_slice());
    Ok(())
}

#[test]
fn turns_rows(rt: HostRuntime) -> Result<(), Fail> {
    let mut row = Runs::cut(rt.alloc(), &[0x07, 0xff, 0x3f], 2, 20)
        .ok()
        .ok_or("a row")?;
    is_equal(&rt, row.widths(), [3, 11, 2, 4, 0].as_slice());
    row.reverse();
    is_equal(&rt, row.widths(), [0, 4, 2, 11, 3].as_slice());
    Ok(())
}

/// This many bytes without a dark dot.
fn zeros(alloc: Global, count: u16) -> Result<Vec<u8>, AllocError> {
    let mut bytes = Vec::new(alloc);
    for _ in 0..count {
        bytes.push(0u8)?;
    }
    Ok(bytes)
}

#[test]
fn cuts_the_widest_row(rt: HostRuntime) -> Result<(), Fail> {
    let alloc = rt.alloc();
    let bytes = zeros(alloc, 8192)?;
    let light = bytes.as_slice();
    if light.len() < 8192 {
        return Err(Fail::from("8,192 bytes"));
    }
    let row = Runs::cut(alloc, light, 1, 65_535).ok().ok_or("a row")?;
    is_equal(&rt, row.widths(), [65_535].as_slice());
    let fault = Runs::cut(alloc, light, 0, 65_536).err().ok_or("a fault")?;
    assert!(rt; matches!(fault, RunFault::TooWide));
    Ok(())
}

/// That the widths of no row have this fault.
fn has_fault<R: AllocGlobal + Abort>(rt: &R, widths: &[u16], wanted: &str) -> Result<(), Fail> {
    let fault = Runs::of_widths(rt.alloc(), widths).err().ok_or("a fault")?;
    let found = fault.to_string(rt.alloc())?;
    is_equal(rt, found.as_str(), wanted);
    Ok(())
}

#[test]
fn refuses_widths_of_no_row(rt: HostRuntime) -> Result<(), Fail> {
    has_fault(&rt, &[5, 3], "refused 18 BadRuns")?;
    has_fault(&rt, &[0, 65_535, 1], "refused 17 TooWide")
}
