//! Comparisons whose failure tells a name.

use std::test::Fail;

/// Fails with the name unless this holds.
pub fn expect(holds: bool, name: &str) -> Result<(), Fail> {
    if holds { Ok(()) } else { Err(Fail::new(name)) }
}

/// Fails with the name, the question and both texts unless they are the same.
pub fn expect_text(found: &str, wanted: &str, name: &str, asked: &str) -> Result<(), Fail> {
    if found == wanted {
        return Ok(());
    }
    Err(Fail::new(format_args!("{name}: {asked}: {found:?} and not {wanted:?}")))
}
