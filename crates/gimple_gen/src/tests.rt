//! A generated program of two functions.

use super::generate;
use std::test::Fail;

#[test]
fn two_functions(rt: HostRuntime) -> Result<(), Fail> {
    let program = generate(rt.alloc(), 2)?;
    assert_eq!(rt; program.functions.len(), 3);
    Ok(())
}
