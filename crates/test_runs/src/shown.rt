//! What refused configurations and names look like as text. That of a fault and of a call's name is proved.

use cvl_base::{BadConfig, Config, Name};
use std::test::Fail;

const SHOWN: &str = "a tile has 1 to 65536 elements, there are 1 to 64 workers, Some(\"ab_9\")";

#[test]
fn as_text(rt: HostRuntime) -> Result<(), Fail> {
    let (tile, workers, name) = (BadConfig::Tile, BadConfig::Workers, Name::new(b"ab_9"));
    assert!(rt;
        Config::new(0, 65).err() == Some(tile) && Config::new(1, 65).err() == Some(workers)
    );
    let shown = format!(in rt.alloc(); "{tile}, {workers}, {name:?}")?;
    assert_eq!(rt; shown.as_str(), SHOWN);
    Ok(())
}
