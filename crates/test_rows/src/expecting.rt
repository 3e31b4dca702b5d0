//! Comparisons whose failure tells a name.

use std::test::Fail;

/// Fails with the name unless this holds.
pub fn expect(holds: bool, name: &str) -> Result<(), Fail> {
    if holds { Ok(()) } else { Err(Fail::new(name)) }
}

/// Fails with the name and both texts unless they are the same bytes.
pub fn expect_text(found: &[u8], wanted: &[u8], name: &str) -> Result<(), Fail> {
    if found == wanted {
        return Ok(());
    }
    let found = str::from_utf8(found).unwrap_or("other bytes");
    let wanted = str::from_utf8(wanted).unwrap_or("other bytes");
    Err(Fail::new(format_args!("{name}: {found:?} and not {wanted:?}")))
}
