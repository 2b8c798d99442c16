//! The files of a load.

use std::alloc::AllocError;
use xs_load::load_case;

#[test]
fn makes_a_load_of_four(rt: HostRuntime) -> Result<(), AllocError> {
    let (sheet, source) = load_case(rt.alloc(), 4)?;
    let wanted =
        "(r\n(i\nAk 31\n-1\n)i\n(i\nAk 62\n-2\n)i\n(i\nAk 93\n-3\n)i\n(i\nAk 27\n-4\n)i\n)r\n";
    assert!(rt; source.as_slice() == wanted.as_bytes());
    assert!(rt; str::from_utf8(&sheet).unwrap_or("").lines().count() == 36);
    Ok(())
}
