//! The map of a match.
ghost use Rattle.std.specs.Prelude.{◌≡◌, ◌<◌, IfOk, OnOk, All};
ghost use Rattle.nav_types.specs.Cells.{IsRectInside};
ghost use Rattle.made_match.specs.Making.{base_drawn, classes, draw_base_rect, made_class, made_map, map_size};

use crate::draws::Draws;
use crate::{drawn_posts, places};
use class_config::{ClassRefusal, ClassTable, PassabilityClass};
use nav_types::{NoMemory, Rect, Sequence, Size};
use posts::{BaseRects, MapSpec};
use std::alloc::Global;

/// The navcells along one side of the map.
const SIDE: u16 = 512;

/// How many callers the map has.
pub(crate) const CALLERS: u8 = 16;

/// How many base rectangles the map has.
const BASE_RECTS: u32 = 24;

/// The map of a match.
#[tactic(auto, unfolding(crate::specs::Making::made_map))]
pub(crate) fn map(alloc: Global, draws: &mut Draws) -> Result<MapSpec, NoMemory>
    ensures value { IfOk result (λ map. map ≡ made_map draws.old) }
    ensures state { OnOk result (draws.new ≡ (base_drawn draws.old).state) }
{
    let Some(size) = Size::new(SIDE, SIDE) else {
        unreachable!()
    };
    let base = base(alloc, draws)?;
    let classes = classes(alloc)?;
    match MapSpec::new(1, size, CALLERS, classes, base) {
        Some(map) => Ok(map),
        None => unreachable!(),
    }
}

/// The base rectangles.
#[tactic(auto, using(crate::proofs::Drawing::drawing), unfolding(crate::specs::Making::base_drawn))]
fn base(alloc: Global, draws: &mut Draws) -> Result<BaseRects, NoMemory>
    ensures value { IfOk result (λ base. base ≡ (base_drawn draws.old).value) }
    ensures inside { IfOk result (λ base. All (λ entry. IsRectInside map_size entry.0) base) }
    ensures state { OnOk result (draws.new ≡ (base_drawn draws.old).state) }
{
    let mut base = Sequence::new(alloc);
    for _number in 0..BASE_RECTS {
        base.push(base_rect(draws))?;
    }
    Ok(base)
}

/// A base rectangle with its mask. What would lie outside the map is left out.
#[tactic(auto, unfolding(crate::specs::Making::draw_base_rect))]
fn base_rect(draws: &mut Draws) -> (Rect, u16)
    ensures value { result ≡ (draw_base_rect draws.old).value }
    ensures inside { IsRectInside map_size result.0 }
    ensures state { draws.new ≡ (draw_base_rect draws.old).state }
{
    let i0 = draws.below(512);
    let j0 = draws.below(512);
    let width = draws.below(24);
    let height = draws.below(24);
    let mask = draws.below(255);
    let rect = Rect {
        i0: i0 as u16,
        j0: j0 as u16,
        i1: (i0 + width).min(511) as u16,
        j1: (j0 + height).min(511) as u16,
    };
    (rect, 1 + mask as u16)
}

/// The passability classes.
#[tactic(auto, using(crate::proofs::MapClasses::are_table))]
fn classes(alloc: Global) -> Result<ClassTable, NoMemory>
    ensures { IfOk result (λ table. table ≡ classes) }
{
    let classes = [
        made_class(0),
        made_class(1),
        made_class(2),
        made_class(3),
        made_class(4),
        made_class(5),
        made_class(6),
        made_class(7),
    ];
    match ClassTable::new(alloc, &classes) {
        Ok(table) => Ok(table),
        Err(ClassRefusal::NoMemory) => Err(NoMemory),
        Err(ClassRefusal::NotClasses) => unreachable!(),
    }
}

/// The class of a number, with half a navcell more of clearance than the one before it.
fn made_class(class: u32) -> PassabilityClass
    requires { class < 8 }
    ensures { result ≡ made_class class }
{
    PassabilityClass {
        name: drawn_posts::class_name(class),
        clearance: places::fixed(32768 * class),
    }
}
