//! Edits of one page of a store: where another store holds the page too, it is copied first, and else it is changed where it
//! stands.
ghost use Rattle.std.specs.Prelude.{◌≡◌, ◌<◌, length, slice_get, slice_set, Some, IfOk, OnOk, OnErr};
ghost use Rattle.std.specs.FinMap as map;
ghost use Rattle.obstruction_store.specs.Standing.{Standing};

use crate::pages::Page;
use nav_types::NoMemory;
use obstruction_shapes::Obstruction;
use shared_list::SharedList;
use std::alloc::Global;

/// Copies the page at a place if another store holds it too, so that it may be changed there. The same obstructions stand.
fn own_page(alloc: Global, pages: &mut SharedList<Page>, at: usize) -> Result<(), NoMemory>
    requires { at < length pages.old }
    ensures { pages.new ≡ pages.old }
{
    if pages.is_shared(at) {
        let page = pages.at(at).copy(alloc)?;
        pages.set(alloc, at, page)?;
    }
    Ok(())
}

/// Adds the obstruction on the page at a place, under a number under which none stands there.
pub fn add_on(
    alloc: Global,
    pages: &mut SharedList<Page>,
    at: usize,
    id: u32,
    obstruction: Obstruction,
) -> Result<(), NoMemory>
    requires { at < length pages.old }
    ensures added { OnOk result ((page : Standing) → slice_get pages.old at ≡ Some page
        → pages.new ≡ slice_set pages.old at (map.insert page id obstruction)) }
    ensures kept { OnErr result (pages.new ≡ pages.old) }
{
    own_page(alloc, pages, at)?;
    match pages.change(at, |page| page.add(id, obstruction)) {
        Some(Ok(())) => Ok(()),
        Some(Err(_)) => Err(NoMemory),
        None => Err(NoMemory),
    }
}

/// Takes the obstruction of the number, which stands there, from the page at a place.
pub fn remove_on(
    alloc: Global,
    pages: &mut SharedList<Page>,
    at: usize,
    id: u32,
) -> Result<(), NoMemory>
    requires { at < length pages.old }
    ensures removed { OnOk result ((page : Standing) → slice_get pages.old at ≡ Some page
        → pages.new ≡ slice_set pages.old at (map.remove page id)) }
    ensures kept { OnErr result (pages.new ≡ pages.old) }
{
    own_page(alloc, pages, at)?;
    match pages.change(at, |page| page.remove(id)) {
        Some(Ok(_)) => Ok(()),
        Some(Err(_)) => Err(NoMemory),
        None => Err(NoMemory),
    }
}

/// Puts the obstruction in place of the one that stands under the number on the page at a place.
pub fn replace_on(
    alloc: Global,
    pages: &mut SharedList<Page>,
    at: usize,
    id: u32,
    obstruction: Obstruction,
) -> Result<(), NoMemory>
    requires { at < length pages.old }
    ensures replaced { OnOk result ((page : Standing) → slice_get pages.old at ≡ Some page
        → pages.new ≡ slice_set pages.old at (map.insert page id obstruction)) }
    ensures kept { OnErr result (pages.new ≡ pages.old) }
{
    own_page(alloc, pages, at)?;
    match pages.change(at, |page| page.replace(id, obstruction)) {
        Some(Ok(())) => Ok(()),
        Some(Err(_)) => Err(NoMemory),
        None => Err(NoMemory),
    }
}
