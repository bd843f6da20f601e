//! The chain of three parts, by hand.

use super::sample;
use std::test::Fail;

#[test]
fn three_parts(rt: HostRuntime) -> Result<(), Fail> {
    let model = sample(rt.alloc(), 3)?;
    assert_eq!(rt; model.good.get(), 10);
    assert_eq!(rt; model.blocks.len(), 1);
    for block in model.blocks.as_slice() {
        assert_eq!(rt; block.parts.len(), 3);
        assert_eq!(rt; block.points.len(), 3);
        assert_eq!(rt; block.links.len(), 5);
    }
    Ok(())
}
