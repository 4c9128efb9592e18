//! A map with what stands on it.
use obstruction_store::Store;
use posts::MapSpec;

/// A map with the obstructions that stand on it.
#[derive(Drop)]
pub struct Site<'a> {
    pub map: &'a MapSpec,
    pub shapes: &'a Store,
}
