use eip_tables::Row;
use std::mem::size_of;
use std::test::Fail;

#[test]
fn a_row_has_at_most_64_bytes(rt: HostRuntime) -> Result<(), Fail> {
    assert!(rt; size_of::<Row>() <= 64);
    Ok(())
}
