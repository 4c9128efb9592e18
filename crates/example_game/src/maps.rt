//! The map of the game.
use class_config::{ClassName, ClassRefusal, ClassTable, PassabilityClass};
use fixed_point::Fixed;
use nav_types::{Rect, Sequence, Size};
use posts::MapSpec;
use std::alloc::Global;

/// How many players there are.
pub const PLAYERS: usize = 2;

/// The names of the classes.
#[derive(Clone, Copy, Debug)]
pub struct Classes {
    /// Class 0.
    pub infantry: ClassName,
    /// Class 1: siege engines keep more room.
    pub siege: ClassName,
}

impl Classes {
    /// The names. None where one is not of the form of a class name.
    pub fn new() -> Option<Classes> {
        Some(Classes {
            infantry: ClassName::new(b"infantry")?,
            siege: ClassName::new(b"siege")?,
        })
    }

    /// The table of the classes, with their clearances.
    fn table(&self, alloc: Global) -> Result<ClassTable, ClassRefusal> {
        let infantry = PassabilityClass {
            name: self.infantry,
            clearance: Fixed::from_raw(32768),
        };
        let siege = PassabilityClass {
            name: self.siege,
            clearance: Fixed::from_raw(98304),
        };
        ClassTable::new(alloc, &[infantry, siege])
    }
}

/// A map of 12 by 8 navcells for two players, with terrain along its northern edge that no class passes. None where a
/// part breaks a limit.
pub fn skirmish(alloc: Global, classes: &Classes) -> Result<Option<MapSpec>, ClassRefusal> {
    let table = classes.table(alloc)?;
    let northern = Rect {
        i0: 0,
        j0: 7,
        i1: 11,
        j1: 7,
    };
    let mut base = Sequence::new(alloc);
    if base.push((northern, 0b11)).is_err() {
        return Err(ClassRefusal::NoMemory);
    }
    let size = Size { w: 12, h: 8 };
    Ok(MapSpec::new(3, size, PLAYERS as u8, table, base))
}
