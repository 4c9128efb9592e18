//! Edits applied to the standing obstructions.
ghost use Rattle.std.specs.Prelude.{ℕ, ◌≡◌, ◌++◌, option_to_list, None, Contains, IfOk, IsTrue, OnOk};
ghost use Rattle.std.specs.FinMap as fin_map;
ghost use Rattle.obstruction_store.specs.Standing.{Standing, AllFit};
ghost use Rattle.grid_versions.specs.Fitting.{fits};
ghost use Rattle.grid_versions.specs.Editing.{edit_reply, after_edit};
ghost use Rattle.grid_versions.specs.Editing.{after_edits, edit_replies};
ghost use Rattle.grid_versions.specs.inner.Reaching.{CoverChanges, HoldsReach, NameChanges};

use crate::dirty_parts::DirtyParts;
use crate::sites::Site;
use clearance_raster::reach_of;
use nav_types::{NoMemory, Rect, Sequence, Size};
use obstruction_shapes::{Shape, check};
use obstruction_store::{AddRefusal, Ids, MoveRefusal, RemoveRefusal, Store};
use posts::{Edit, EditReplies, EditReply, MapSpec, Refusal};
use std::alloc::Global;

/// Rectangles in which obstructions can block cells.
pub type Reaches = Sequence<Rect>;

/// What edits make of the standing obstructions.
#[derive(Drop)]
pub struct Edited {
    /// The obstructions after the edits.
    pub shapes: Store,
    /// The reply to each edit.
    pub replies: EditReplies,
    /// Rectangles that cover what has changed.
    pub reaches: Reaches,
    /// The numbers under which it stands.
    pub ids: Ids,
}

/// What has changed of the standing obstructions: the parts of the chunks that cover it, and the numbers under which it
/// stands.
#[derive(Drop)]
pub struct Changes<'a> {
    pub dirty: &'a DirtyParts<'a>,
    pub ids: &'a [u32],
}

/// Whether the shape fits a map of this size.
fn fits(shape: Shape, size: Size) -> bool
    ensures { result ≡ fits size shape }
{
    check(shape, size).is_ok()
}

/// Applies one edit to the standing obstructions, and replies to it.
fn apply(map: &MapSpec, shapes: &mut Store, edit: Edit) -> Result<EditReply, NoMemory>
    ensures reply { IfOk result (λ reply. reply ≡ edit_reply map.now shapes.old edit) }
    ensures standing { OnOk result (shapes.new ≡ after_edit map.now shapes.old edit) }
{
    match edit {
        Edit::Add { id, obstruction } => {
            if !fits(obstruction.shape, map.size()) {
                return Ok(EditReply::Refused(Refusal::BadShape));
            }
            match shapes.add(id, obstruction) {
                Ok(()) => Ok(EditReply::Added(id)),
                Err(AddRefusal::DuplicateId) => Ok(EditReply::Refused(Refusal::DuplicateId)),
                Err(AddRefusal::StoreFull) => Ok(EditReply::Refused(Refusal::StoreFull)),
                Err(AddRefusal::NoMemory) => Err(NoMemory),
            }
        }
        Edit::Remove { id } => match shapes.remove(id) {
            Ok(_) => Ok(EditReply::Removed(id)),
            Err(RemoveRefusal::UnknownId) => Ok(EditReply::Refused(Refusal::UnknownId)),
            Err(RemoveRefusal::NoMemory) => Err(NoMemory),
        },
        Edit::Move { id, x, z } => match shapes.move_to(id, x, z, map.size()) {
            Ok(()) => Ok(EditReply::Moved(id)),
            Err(MoveRefusal::UnknownId) => Ok(EditReply::Refused(Refusal::UnknownId)),
            Err(MoveRefusal::BadShape) => Ok(EditReply::Refused(Refusal::BadShape)),
            Err(MoveRefusal::NoMemory) => Err(NoMemory),
        },
    }
}

/// The cells that the obstruction of the number can block. None where nothing stands under the number, or what stands
/// there blocks no cell.
pub fn reach_under(map: &MapSpec, shapes: &Store, id: u32) -> Option<Rect>
    requires { AllFit map.now.size shapes.now }
    ensures { HoldsReach map.now shapes.now id result }
{
    let obstruction = shapes.get(id)?;
    reach_of(obstruction, map.classes(), map.size())
}

/// Whether nothing stands under any of the numbers. It says so only where it is.
pub fn are_free(shapes: &Store, ids: &[u32]) -> bool
    ensures { IsTrue result → (id : ℕ) → Contains ids.now id → fin_map.get shapes.now id ≡ None }
{
    for id in ids {
        if shapes.get(*id).is_some() {
            return false;
        }
    }
    true
}

/// Appends the rectangle, if there is one.
fn list(reaches: &mut Reaches, reach: Option<Rect>) -> Result<(), NoMemory>
    ensures { OnOk result (reaches.new ≡ reaches.old ++ option_to_list reach) }
{
    if let Some(rect) = reach {
        reaches.push(rect)?;
    }
    Ok(())
}

/// Applies one edit, replies to it, and lists where its obstruction can block cells before and after, and its number: the
/// rectangles that covered what has changed since some earlier time cover it then, too, and the numbers name it. A
/// refused edit lists nothing.
fn apply_listed(
    map: &MapSpec,
    shapes: &mut Store,
    edit: Edit,
    reaches: &mut Reaches,
    ids: &mut Ids,
) -> Result<EditReply, NoMemory>
    requires { AllFit map.now.size shapes.old }
    ensures reply { IfOk result (λ reply. reply ≡ edit_reply map.now shapes.old edit) }
    ensures standing { OnOk result (shapes.new ≡ after_edit map.now shapes.old edit) }
    ensures covers { OnOk result ((first : Standing) → CoverChanges map.now first shapes.old reaches.old
        → CoverChanges map.now first shapes.new reaches.new) }
    ensures names { OnOk result ((first : Standing) → NameChanges map.now first shapes.old reaches.old ids.old
        → NameChanges map.now first shapes.new reaches.new ids.new) }
{
    let id = edit.id();
    let before = reach_under(map, shapes, id);
    let reply = apply(map, shapes, edit)?;
    if reply.is_refused() {
        return Ok(reply);
    }
    let after = reach_under(map, shapes, id);
    list(reaches, before)?;
    list(reaches, after)?;
    ids.push(id)?;
    Ok(reply)
}

/// Applies the edits one after another, replies to each, and lists rectangles that cover what changes, and the numbers
/// under which it stands.
fn apply_all(
    alloc: Global,
    map: &MapSpec,
    shapes: &mut Store,
    edits: &[Edit],
    reaches: &mut Reaches,
    ids: &mut Ids,
) -> Result<EditReplies, NoMemory>
    requires { AllFit map.now.size shapes.old }
    ensures replies { IfOk result (λ replies. replies ≡ edit_replies map.now shapes.old edits.now) }
    ensures standing { OnOk result (shapes.new ≡ after_edits map.now shapes.old edits.now) }
    ensures fit { OnOk result (AllFit map.now.size shapes.new) }
    ensures covers { OnOk result ((first : Standing) → CoverChanges map.now first shapes.old reaches.old
        → CoverChanges map.now first shapes.new reaches.new) }
    ensures names { OnOk result ((first : Standing) → NameChanges map.now first shapes.old reaches.old ids.old
        → NameChanges map.now first shapes.new reaches.new ids.new) }
{
    let mut replies = EditReplies::new(alloc);
    for edit in edits {
        replies.push(apply_listed(map, shapes, *edit, reaches, ids)?)?;
    }
    Ok(replies)
}

/// Applies the edits to a copy of the standing obstructions.
pub fn edited_copy(alloc: Global, site: &Site<'_>, edits: &[Edit]) -> Result<Edited, NoMemory>
    requires { AllFit site.now.map.now.size site.now.shapes.now }
    ensures standing { IfOk result (λ next. next.shapes ≡ after_edits site.now.map.now site.now.shapes.now edits.now) }
    ensures replies { IfOk result (λ next. next.replies ≡ edit_replies site.now.map.now site.now.shapes.now edits.now) }
    ensures fit { IfOk result (λ next. AllFit site.now.map.now.size next.shapes) }
    ensures covers { IfOk result (λ next. CoverChanges site.now.map.now site.now.shapes.now next.shapes next.reaches) }
    ensures names { IfOk result (λ next. NameChanges site.now.map.now site.now.shapes.now next.shapes next.reaches next.ids) }
{
    let mut shapes = site.shapes.copy(alloc)?;
    let mut reaches = Reaches::new(alloc);
    let mut ids = Ids::new(alloc);
    let replies = apply_all(alloc, site.map, &mut shapes, edits, &mut reaches, &mut ids)?;
    Ok(Edited {
        shapes,
        replies,
        reaches,
        ids,
    })
}
