//! Versions of a map.
ghost use Rattle.std.specs.Prelude.{ℕ, ◌≡◌, ◌↔◌, ◌+◌, ◌*◌, ◌<◌, ◌≤◌, [], None, length, slice_index_or, IfOk, IfSome, OnOk, IsSome, IsTrue};
ghost use Rattle.std.specs.Arc.{arc_value};
ghost use Rattle.nav_types.specs.Cells.{IsInside, chunk_of};
ghost use Rattle.nav_types.specs.Regions.{HasRegion, HasTallies, HasRelabelled};
ghost use Rattle.class_planes.specs.Planes.{AreOf, is_passable};
ghost use Rattle.landmarks.specs.Landmarks.{AreGentle};
ghost use Rattle.obstruction_store.specs.Standing.{AllFit};
ghost use Rattle.grid_versions.specs.Chunks.{chunk_count, chunk_place};
ghost use Rattle.grid_versions.specs.inner.Guiding.{AreAllGuides};
ghost use Rattle.grid_versions.specs.inner.Tables.{AreTables};

use crate::class_views::ClassView;
use crate::dirty_parts::DirtyParts;
use crate::guides::Guides;
use crate::layers::Layers;
use crate::painted_map::PaintedMap;
use crate::planes::plane_of;
use crate::sites::Site;
use crate::standing_edits::{Changes, Edited, edited_copy};
use crate::tables::ClassTables;
use class_planes::{ClassPlane, Planes};
use landmarks::Landmarks;
use nav_types::{Areas, Axis, Cell, Class, FreeCells, NoMemory, Rows, Size, Ticks, View};
use obstruction_store::Store;
use posts::{EditReplies, Edits, MapSpec, Tallies};
use reach_sets::RegionId;
use std::alloc::Global;
use std::marker::{Brand, Model};
use std::sync::Arc;
use std::sync::ledger::{Blank, Ledger};

/// A map with the obstructions that stand on it: which cells are passable for each class, and the regions, region
/// edges and areas. Contracts see the map and the standing obstructions (`MapState`).
///
/// A version never changes, and threads may share it. What searches on it have opened is noted beside it, and by that the
/// next version may have tables of landmarks that this one lacks; no answer depends on them.
#[derive(Drop)]
pub struct Version {
    parts: Arc<VersionParts, Global>,
    guides: Arc<Guides, Global>,
}

/// What a version keeps: the map and the standing obstructions, the cells of each chunk, and the planes and the tables of
/// each class.
#[derive(Drop)]
struct VersionParts {
    map: Arc<MapSpec, Global>,
    shapes: Arc<Store, Global>,
    layers: Layers,
}

/// What edits make of a version.
#[derive(Drop)]
pub struct Next {
    /// The version after the edits.
    pub version: Version,
    /// The reply to each edit.
    pub replies: EditReplies,
    /// The number of pairs of chunk and class in which some cell is passable in one of the two versions and not in
    /// the other.
    pub relabelled: u32,
}

impl Model for VersionParts {
    ghost use Rattle.std.specs.FinMap as fin_map;
    ghost use Rattle.std.specs.Coded.{coded_ℕ};
    ghost use Rattle.obstruction_shapes.specs.contracts.shapes.Obstruction.{the_row as obstruction_row};
    ghost use Rattle.posts.specs.contracts.maps.MapSpec.{the_row as map_row};
    ghost use Rattle.grid_versions.specs.Versions.{MapState, map_state};
    ghost use Rattle.grid_versions.specs.inner.Codes.{state_code};
    ghost use Rattle.std.specs.Arc.{arc_value};

    ghost Value = { MapState };

    ghost coded = { state_code map_row.coded (fin_map.code coded_ℕ obstruction_row.coded) };

    ghost use Rattle.grid_versions.specs.inner.Parts.{AreParts};

    ghost view = { λ v. map_state (arc_value v.map) (arc_value v.shapes) };

    ghost invariant = { λ v. AreParts (arc_value v.map) (arc_value v.shapes) v.layers.cell_layer.base v.layers.cell_layer.reachers
        v.layers.cell_layer.cells v.layers.planes v.layers.tables };
}

impl Model for Version {
    ghost use Rattle.std.specs.FinMap as fin_map;
    ghost use Rattle.std.specs.Coded.{coded_ℕ};
    ghost use Rattle.obstruction_shapes.specs.contracts.shapes.Obstruction.{the_row as obstruction_row};
    ghost use Rattle.posts.specs.contracts.maps.MapSpec.{the_row as map_row};
    ghost use Rattle.grid_versions.specs.Versions.{MapState};
    ghost use Rattle.grid_versions.specs.inner.Codes.{state_code};
    ghost use Rattle.std.specs.Arc.{arc_value};

    ghost Value = { MapState };

    ghost coded = { state_code map_row.coded (fin_map.code coded_ℕ obstruction_row.coded) };

    ghost use Rattle.grid_versions.specs.inner.Guiding.{AreAllGuides};

    ghost view = { λ v. arc_value v.parts };

    ghost invariant = { λ v. AreAllGuides (arc_value v.parts).map (arc_value v.guides) };
}

impl Version {
    ghost use Rattle.grid_versions.specs.Editing.{after_edits, edit_replies};
    ghost use Rattle.grid_versions.specs.Versions.{map_state, passes_of, HasPassable};
    ghost use Rattle.grid_versions.specs.inner.Reaching.{CoverChanges, NameChanges};

    /// The version of this map and these obstructions, all of which fit the map. It is made from nothing: each chunk is
    /// labelled once for each class, which is one tick, and the work grows with the map's cells and classes. It refuses for want of memory alone.
    pub fn build<L: Ledger>(
        alloc: Global,
        map: &MapSpec,
        shapes: &Store,
        ticks: &mut Ticks<L>,
    ) -> Result<Version, NoMemory>
        requires { AllFit map.now.size shapes.now }
        ensures map { IfOk result (λ version. version.map ≡ map.now) }
        ensures standing { IfOk result (λ version. version.standing ≡ shapes.now) }
        ensures ticks { OnOk result (ticks.new
            ≡ ticks.old + length map.now.classes * chunk_count map.now.size) }
        ensures most { ticks.new ≤ ticks.old + length map.now.classes * chunk_count map.now.size }
    {
        let shared = shared_map(alloc, map)?;
        let standing = shared_store(alloc, shapes)?;
        let layers = Layers::build(alloc, &Site { map, shapes }, ticks)?;
        let parts = VersionParts {
            map: shared,
            shapes: standing,
            layers,
        };
        let guides = Guides::none(alloc, map.classes().count())?;
        Ok(Version {
            parts: Arc::new(alloc, parts)?,
            guides: Arc::new(alloc, guides)?,
        })
    }

    /// As [`Version::build`], for a caller who counts no ticks.
    pub fn new(alloc: Global, map: &MapSpec, shapes: &Store) -> Result<Version, NoMemory>
        requires { AllFit map.now.size shapes.now }
        ensures map { IfOk result (λ version. version.map ≡ map.now) }
        ensures standing { IfOk result (λ version. version.standing ≡ shapes.now) }
    {
        Version::build_counted::<Brand>(alloc, map, shapes, Blank::new(1))
    }

    /// The same version, with the ticks counted in a ledger of their own.
    fn build_counted<L: Ledger>(
        alloc: Global,
        map: &MapSpec,
        shapes: &Store,
        blank: Blank,
    ) -> Result<Version, NoMemory>
        requires name { blank.name ≡ L.name }
        requires parts { blank.parts ≡ L.parts }
        requires some { 0 < L.parts }
        requires fit { AllFit map.now.size shapes.now }
        ensures map { IfOk result (λ version. version.map ≡ map.now) }
        ensures standing { IfOk result (λ version. version.standing ≡ shapes.now) }
    {
        Version::build(alloc, map, shapes, &mut Ticks::<L>::new(blank))
    }

    /// The version after the edits, which are applied in their order, each with its reply (`edit_reply`, `after_edit`).
    /// This version stays as it is. It refuses for want of memory alone.
    ///
    /// `relabelled` is the number of pairs of chunk and class in which some cell is passable in one of the two
    /// versions and not in the other (`HasRelabelled`). The call takes at most so many ticks, also where it refuses.
    pub fn next<L: Ledger>(
        &self,
        alloc: Global,
        edits: &Edits,
        ticks: &mut Ticks<L>,
    ) -> Result<Next, NoMemory>
        ensures map { IfOk result (λ next. next.version.map ≡ self.now.map) }
        ensures standing { IfOk result (λ next. next.version.standing
            ≡ after_edits self.now.map self.now.standing edits.now) }
        ensures replies { IfOk result (λ next. next.replies
            ≡ edit_replies self.now.map self.now.standing edits.now) }
        ensures relabelled { IfOk result (λ next. HasRelabelled (length self.now.map.classes)
            (passes_of self.now) (passes_of next.version) next.relabelled) }
        ensures most { (count : ℕ) → HasRelabelled (length self.now.map.classes) (passes_of self.now)
            (passes_of (map_state self.now.map (after_edits self.now.map self.now.standing edits.now))) count
            → ticks.new ≤ ticks.old + count }
    {
        if edits.is_empty() {
            return self.unchanged(alloc);
        }
        let site = Site {
            map: self.map(),
            shapes: self.shapes(),
        };
        let Edited {
            shapes,
            replies,
            reaches,
            ids,
        } = edited_copy(alloc, &site, edits.as_slice())?;
        let dirty = DirtyParts::new(alloc, site.map.size(), reaches.as_slice())?;
        let changes = Changes {
            dirty: &dirty,
            ids: ids.as_slice(),
        };
        let (version, relabelled) = self.updated(alloc, shapes, &changes, ticks)?;
        Ok(Next {
            version,
            replies,
            relabelled,
        })
    }

    /// As [`Version::next`], for a caller who counts no ticks.
    pub fn after(&self, alloc: Global, edits: &Edits) -> Result<Next, NoMemory>
        ensures map { IfOk result (λ next. next.version.map ≡ self.now.map) }
        ensures standing { IfOk result (λ next. next.version.standing
            ≡ after_edits self.now.map self.now.standing edits.now) }
        ensures replies { IfOk result (λ next. next.replies
            ≡ edit_replies self.now.map self.now.standing edits.now) }
        ensures relabelled { IfOk result (λ next. HasRelabelled (length self.now.map.classes)
            (passes_of self.now) (passes_of next.version) next.relabelled) }
    {
        self.next_counted::<Brand>(alloc, edits, Blank::new(1))
    }

    /// The same, with the ticks counted in a ledger of their own.
    fn next_counted<L: Ledger>(
        &self,
        alloc: Global,
        edits: &Edits,
        blank: Blank,
    ) -> Result<Next, NoMemory>
        requires name { blank.name ≡ L.name }
        requires parts { blank.parts ≡ L.parts }
        requires some { 0 < L.parts }
        ensures map { IfOk result (λ next. next.version.map ≡ self.now.map) }
        ensures standing { IfOk result (λ next. next.version.standing
            ≡ after_edits self.now.map self.now.standing edits.now) }
        ensures replies { IfOk result (λ next. next.replies
            ≡ edit_replies self.now.map self.now.standing edits.now) }
        ensures relabelled { IfOk result (λ next. HasRelabelled (length self.now.map.classes)
            (passes_of self.now) (passes_of next.version) next.relabelled) }
    {
        self.next(alloc, edits, &mut Ticks::<L>::new(blank))
    }

    /// The version of this map and other obstructions, all of which fit the map, and in how many pairs of chunk and class
    /// it differs from this one. Only the cells of the changes' rectangles are painted, each pair that differs is labelled
    /// once, and what lies elsewhere is shared.
    fn updated<L: Ledger>(
        &self,
        alloc: Global,
        shapes: Store,
        changes: &Changes<'_>,
        ticks: &mut Ticks<L>,
    ) -> Result<(Version, u32), NoMemory>
        requires fit { AllFit self.now.map.size shapes }
        requires sized { changes.now.dirty.now.size ≡ self.now.map.size }
        requires covers { CoverChanges self.now.map self.now.standing shapes changes.now.dirty.now.rects }
        requires names { NameChanges self.now.map self.now.standing shapes changes.now.dirty.now.rects changes.now.ids.now }
        ensures version { IfOk result (λ next. next.0 ≡ map_state self.now.map shapes) }
        ensures relabelled { IfOk result (λ next. HasRelabelled (length self.now.map.classes) (passes_of self.now)
            (passes_of (map_state self.now.map shapes)) next.1) }
        ensures most { (count : ℕ) → HasRelabelled (length self.now.map.classes) (passes_of self.now)
            (passes_of (map_state self.now.map shapes)) count → ticks.new ≤ ticks.old + count }
    {
        let parts = self.kept();
        let shared = Arc::try_clone(&parts.map)?;
        let standing = Arc::new(alloc, shapes)?;
        let map: &MapSpec = &parts.map;
        let before: &Store = &parts.shapes;
        let now: &Store = &standing;
        let site = Site { map, shapes: now };
        let (layers, relabelled) = parts.layers.updated(alloc, before, &site, changes, ticks)?;
        let next = VersionParts {
            map: shared,
            shapes: standing,
            layers,
        };
        let version = Version {
            parts: Arc::new(alloc, next)?,
            guides: self.next_guides(alloc)?,
        };
        Ok((version, relabelled))
    }

    /// The same version once more, which shares all that this one has. It refuses for want of memory alone.
    pub fn share(&self) -> Result<Version, NoMemory>
        ensures { IfOk result (λ same. same ≡ self.now) }
    {
        Ok(Version {
            parts: Arc::try_clone(&self.parts)?,
            guides: Arc::try_clone(&self.guides)?,
        })
    }

    /// The version after no edits, which shares all that this one has.
    fn unchanged(&self, alloc: Global) -> Result<Next, NoMemory>
        ensures version { IfOk result (λ next. next.version ≡ self.now) }
        ensures replies { IfOk result (λ next. next.replies ≡ []) }
        ensures relabelled { IfOk result (λ next. next.relabelled ≡ 0) }
    {
        let version = Version {
            parts: Arc::try_clone(&self.parts)?,
            guides: self.next_guides(alloc)?,
        };
        Ok(Next {
            version,
            replies: EditReplies::new(alloc),
            relabelled: 0,
        })
    }

    /// What searches on the next version go by: what those on this one do, and a part of the tables that these have earned.
    /// Where there is no memory for more it stays.
    fn next_guides(&self, alloc: Global) -> Result<Arc<Guides, Global>, NoMemory>
        ensures { IfOk result (λ guides. AreAllGuides self.now.map (arc_value guides)) }
    {
        let map = self.map();
        if self.guides.are_due(map.size(), map.classes().count()) {
            if let Ok(guides) = self.grown_guides(alloc) {
                return Ok(guides);
            }
        }
        Ok(Arc::try_clone(&self.guides)?)
    }

    /// What searches on this version go by, with as much of the tables that classes have earned as a turn makes.
    fn grown_guides(&self, alloc: Global) -> Result<Arc<Guides, Global>, NoMemory>
        ensures { IfOk result (λ guides. AreAllGuides self.now.map (arc_value guides)) }
    {
        let parts = self.kept();
        let nothing = Store::new(alloc)?;
        let site = Site {
            map: &parts.map,
            shapes: &nothing,
        };
        let bare = PaintedMap::new(&site, &parts.layers.cell_layer.base);
        match self.guides.grown(alloc, &bare)? {
            Some(guides) => Ok(Arc::new(alloc, guides)?),
            None => Ok(Arc::try_clone(&self.guides)?),
        }
    }

    /// Tables of landmarks of a class of the map, if its searches have earned some. They are of the map's size, and gentle
    /// for the cells that are passable in this version.
    pub fn landmarks(&self, class: Class) -> Option<&Landmarks>
        requires { class < length self.now.map.classes }
        ensures size { IfSome result (λ tables. tables.now.size ≡ self.now.map.size) }
        ensures gentle { IfSome result (λ tables. AreGentle (passes_of self.now class) tables.now) }
    {
        self.guides.tables(class)
    }

    /// Notes a search of a class of the map that went from a cell and opened so many jump states. By what searches have
    /// opened, the next version may have more tables of landmarks. Nothing else depends on it.
    pub fn note_search(&self, class: Class, start: Cell, opened: u64)
        requires { class < length self.now.map.classes }
    {
        self.guides.note(class, start, opened);
    }

    /// The region of a cell for a class: its chunk by the place in the order chunk row, chunk column, and its number
    /// in the chunk, which is 0 exactly for an impassable cell (`HasRegion`).
    pub fn region(&self, class: Class, cell: Cell) -> RegionId
        requires class { class < length self.now.map.classes }
        requires inside { IsInside self.now.map.size cell }
        ensures chunk { result.chunk ≡ chunk_place self.now.map.size (chunk_of cell) }
        ensures region { HasRegion (passes_of self.now class) (chunk_of cell) cell result.region }
    {
        self.tables(class).region(self.map().size(), cell)
    }

    /// How many regions, region edges and areas all classes have together (`HasTallies`).
    pub fn tallies(&self) -> Tallies
        ensures { HasTallies (length self.now.map.classes) (passes_of self.now)
            result.regions result.edges result.areas }
    {
        let parts = self.kept();
        let mut tallies = Tallies {
            regions: 0,
            edges: 0,
            areas: 0,
        };
        for class in 0..parts.layers.tables.len() {
            let tables = parts.layers.tables.at(class);
            tallies.regions += tables.regions();
            tallies.edges += tables.edges();
            tallies.areas += u64::from(tables.areas());
        }
        tallies
    }

    /// Whether some cell is passable for the class (`HasPassable`): exactly then the class has an area. No cell is looked
    /// at.
    pub fn has_passable(&self, class: Class) -> bool
        requires { class < length self.now.map.classes }
        ensures { IsTrue result ↔ HasPassable (passes_of self.now class) }
    {
        self.tables(class).areas() > 0
    }

    /// The planes of all classes of the map, for searches that look at 64 cells at once. They are of this version
    /// (`AreOf`), and each class of the map has one.
    pub fn planes(&self) -> &Planes
        ensures of_version { AreOf self.now.map.size (passes_of self.now) result.now }
        ensures each { (class : ℕ) → class < length self.now.map.classes
            → IsSome (slice_index_or result.now class None) }
    {
        let parts = self.kept();
        &parts.layers.planes
    }

    /// This version for the requests of one class of the map, whose plane is looked up once, here.
    pub fn class_view(&self, class: Class) -> ClassView<'_>
        requires { class < length self.now.map.classes }
        ensures { result ≡ self.now }
    {
        ClassView::new(self, class)
    }

    /// What this version keeps.
    fn kept(&self) -> &VersionParts
        ensures { result.now ≡ self.now }
    {
        &self.parts
    }

    /// The plane of a class of the map.
    pub(crate) fn plane(&self, class: Class) -> &ClassPlane
        requires { class < length self.now.map.classes }
        ensures extent { result.now.size ≡ self.now.map.size }
        ensures cells { is_passable result.now ≡ passes_of self.now class }
    {
        let parts = self.kept();
        plane_of(&parts.layers.planes, class)
    }

    /// The tables of a class of the map.
    fn tables(&self, class: Class) -> &ClassTables
        requires { class < length self.now.map.classes }
        ensures { AreTables (passes_of self.now class) self.now.map.size result.now }
    {
        let parts = self.kept();
        parts.layers.tables.at(usize::from(class.number()))
    }

    /// The map.
    pub fn map(&self) -> &MapSpec
        ensures { result.now ≡ self.now.map }
    {
        let parts = self.kept();
        &parts.map
    }

    /// The standing obstructions, all of which fit the map.
    pub fn shapes(&self) -> &Store
        ensures standing { result.now ≡ self.now.standing }
        ensures fit { AllFit self.now.map.size result.now }
    {
        let parts = self.kept();
        &parts.shapes
    }
}

impl View for Version {
    ghost use Rattle.grid_versions.specs.Versions.{MapState, passes_of};
    ghost use Rattle.grid_versions.specs.inner.PassingLaws.{passes_within};
    ghost use Rattle.std.specs.Prelude.{length};

    ghost extent = { λ v. v.map.size };

    ghost class_count = { λ v. length v.map.classes };

    ghost passes = { passes_of };

    ghost within = { passes_within };

    /// The size of the map, in navcells.
    fn size(&self) -> Size {
        self.map().size()
    }

    /// The number of passability classes of the map.
    fn classes(&self) -> u8 {
        self.map().classes().count()
    }

    /// Whether the cell is passable for the class (`passable_at`): no base rectangle and no standing obstruction covers
    /// it for the class.
    fn passable(&self, class: Class, cell: Cell) -> bool {
        self.plane(class).passable(cell)
    }
}

impl Rows for Version {
    /// Writes one number for each cell of row `j` from place `from` on, as many as there is room for: bit k is set exactly
    /// where the cell is impassable for class k (`AreRowBits`).
    fn row_bits(&self, j: u16, from: u16, out: &mut [u16]) {
        let parts = self.kept();
        let site = Site {
            map: self.map(),
            shapes: self.shapes(),
        };
        let painted = PaintedMap::new(&site, &parts.layers.cell_layer.cells);
        painted.row_bits(j, from, out);
    }
}

impl FreeCells for Version {
    /// The place of the first passable cell of the line, from this one up (`IsFirstFree`); the length of the line where
    /// there is none.
    fn next_free(&self, class: Class, axis: Axis, cell: Cell) -> u16 {
        self.plane(class).next_free(axis, cell)
    }

    /// The place of the first impassable cell of the line, from this one up (`IsFirstBlocked`); the length of the line
    /// where there is none.
    fn next_blocked(&self, class: Class, axis: Axis, cell: Cell) -> u16 {
        self.plane(class).next_blocked(axis, cell)
    }
}

impl Areas for Version {
    ghost use Rattle.nav_types.specs.Regions.{HasArea};
    ghost use Rattle.grid_versions.specs.Versions.{passes_of};
    ghost use Rattle.grid_versions.specs.inner.PassingLaws.{area_zero, area_joined};

    ghost has_area = { λ v class cell area. HasArea (passes_of v class) cell area };

    ghost blocked = { λ v class cell area has. area_zero (passes_of v class) cell area has };

    ghost joined = { λ v class a b m n pa pb ha hb. area_joined (passes_of v class) a b m n pa pb ha hb };

    /// The number of the cell's area for the class; 0 exactly for an impassable cell (`HasArea`).
    fn area(&self, class: Class, cell: Cell) -> u32 {
        self.tables(class).area(self.map().size(), cell)
    }
}

/// A copy of a map that versions may share.
fn shared_map(alloc: Global, map: &MapSpec) -> Result<Arc<MapSpec, Global>, NoMemory>
    ensures { IfOk result (λ shared. arc_value shared ≡ map.now) }
{
    Ok(Arc::new(alloc, map.copy(alloc)?)?)
}

/// A copy of the standing obstructions that versions may share.
fn shared_store(alloc: Global, shapes: &Store) -> Result<Arc<Store, Global>, NoMemory>
    ensures { IfOk result (λ shared. arc_value shared ≡ shapes.now) }
{
    Ok(Arc::new(alloc, shapes.copy(alloc)?)?)
}
