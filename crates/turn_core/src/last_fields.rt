//! The flow field that is kept from one request to the next.
ghost use Rattle.std.specs.Prelude.{ℕ, IfOk, IsTrue, ◌≡◌};
ghost use Rattle.nav_types.specs.Cells.{IsInside};
ghost use Rattle.goal_reach.specs.declared.targets.Target.{Target};
ghost use Rattle.goal_reach.specs.Targets.{hit_by};
ghost use Rattle.flow_field.specs.Flows.{IsFieldOf};
ghost use Rattle.grid_versions.specs.Versions.{MapState, passes_of};
ghost use Rattle.turn_core.specs.Notes.{IsFlowLine};
ghost use Rattle.turn_core.specs.inner.Searching.{CanFind, IsFieldOn, IsKeptOn, Serves};

use crate::same_targets::is_same_target;
use flow_field::{Field, field};
use goal_reach::Target;
use grid_versions::Version;
use nav_types::{Areas, Cell, Class, NoMemory};
use posts::{FlowLine, FlowSummary};
use std::alloc::Global;

/// The flow field of a target for a class in the area of a number, and what it has in all.
#[derive(Drop)]
pub(crate) struct LastField {
    pub class: Class,
    pub area: u32,
    pub target: Target,
    pub field: Field,
    pub summary: FlowSummary,
}

/// The field of the target's cells in the start's area: the kept one where it is that, else a new one.
pub(crate) fn field_for(
    alloc: Global,
    version: &Version,
    kept: Option<LastField>,
    class: Class,
    start: Cell,
    target: &Target,
) -> Result<LastField, NoMemory>
    requires kept { IsKeptOn version.now kept }
    requires search { CanFind version.now class start target.now }
    ensures on { IfOk result (IsFieldOn version.now) }
    ensures serves { IfOk result (Serves version.now class start target.now) }
{
    let area = version.area(class, start);
    if let Some(last) = kept {
        if last.is_for(class, area, target) {
            return Ok(last);
        }
    }
    let field = field_on(alloc, version, class, start, target)?;
    let summary = field.summary();
    Ok(LastField {
        class,
        area,
        target: *target,
        field,
        summary,
    })
}

/// The flow field of the target's cells in the start's area, by the plane of the class.
fn field_on(
    alloc: Global,
    version: &Version,
    class: Class,
    start: Cell,
    target: &Target,
) -> Result<Field, NoMemory>
    requires { CanFind version.now class start target.now }
    ensures { IfOk result (IsFieldOf (passes_of version.now class) (hit_by target.now) start) }
{
    let view = version.class_view(class);
    field(alloc, &view, class, start, target)
}

impl LastField {
    /// Whether it is the field of this target for this class in the area of this number.
    fn is_for(&self, class: Class, area: u32, target: &Target) -> bool
        ensures { IsTrue result → (self.now.class ≡ class) × ((self.now.area ≡ area) × (self.now.target ≡ target.now)) }
    {
        self.class == class && self.area == area && is_same_target(&self.target, target)
    }

    /// What the field tells of a start in its area.
    pub(crate) fn line(&self, start: Cell) -> FlowLine
        requires inside { IsInside self.now.field.size start }
        ensures { (state : MapState) (class : ℕ) (target : Target) → Serves state class start target self.now
            → IsFlowLine (passes_of state class) (hit_by target) start result }
    {
        FlowLine {
            first: self.field.next(start),
            summary: self.summary,
        }
    }
}
