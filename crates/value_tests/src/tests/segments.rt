//! A cut of data that no command asks for.
use sccp_base::Reference;
use sccp_segment::{SplitDataFault, split_data};
use std::test::Fail;

#[test]
fn a_piece_has_a_size(rt: HostRuntime) -> Result<(), Fail> {
    let reference = Reference::new(9).ok_or("a reference")?;
    let cut = split_data(rt.alloc(), &[1], 0, reference, true);
    assert!(rt; matches!(&cut, Err(SplitDataFault::ZeroSize)));
    Ok(())
}
