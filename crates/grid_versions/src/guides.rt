//! Tables of landmarks that the searches of a class have earned.
//!
//! ```text
//!    searches note what they open --> a class has earned a table --> a part of it is made for each version that follows
//! ```
//!
//! To make a table costs about what it costs to open one jump state for each eighth cell of the map. Where the searches of a
//! class have opened as many, they have paid for one, and it is begun, so that a match pays for tables at most about what it
//! has paid for searches. A turn makes a part of what was begun, at most the same on each map, so that none waits for a whole
//! table of a large one. Tables are those of the map where nothing stands. They serve each of its versions, since obstructions
//! take steps away and give none, and no edit touches them.
ghost use Rattle.std.specs.Prelude.{ℕ, ◌≡◌, ◌<◌, ◌≤◌, ◌^◌, length, slice_get, replicate, None, Some, IfOk, IfSome};
ghost use Rattle.std.specs.FinMap as fin_map;
ghost use Rattle.posts.specs.Maps.{Map};
ghost use Rattle.grid_versions.specs.inner.Guiding.{AreGuides, MayGuide, IsOnItsWay, AreAllGuides};

use crate::accounts::Account;
use crate::painted_map::PaintedMap;
use landmarks::{HalfTable, Landmarks, MAX_TABLES};
use nav_types::{Cell, Class, NoMemory, Size, View};
use shared_list::SharedList;
use std::alloc::Global;
use std::marker::Model;

/// The bytes that all tables of a map may take.
const MOST_BYTES: usize = 68_000_000;

/// The bytes of a cell in the tables of a class.
const CELL_BYTES: usize = 2 * MAX_TABLES;

/// For how many cells of the map one jump state has to be opened before a table is begun.
const CELLS_A_STATE: u64 = 8;

/// The work that a turn does at most for tables, in squares of two by two cells that are looked at. The eight tables of a map of
/// 512 by 512 cells take about as much.
const WORK_A_TURN: usize = 21_200_000;

/// What the searches of a class go by, and what they have cost since that was made. Searches on all versions that share
/// this are noted here. Contracts see the tables alone.
#[derive(Drop)]
pub struct Guide {
    tables: Option<Landmarks>,
    account: Account,
}

impl Model for Guide {
    ghost use Rattle.std.specs.Prelude.{Option};
    ghost use Rattle.landmarks.specs.Landmarks.{Tables};

    ghost Value = { Option Tables };

    ghost view = { λ g. g.tables };
}

impl Guide {
    /// No tables, by which nothing was searched.
    fn none() -> Guide
        ensures { result ≡ None }
    {
        Guide {
            tables: None,
            account: Account::new(),
        }
    }

    /// How many tables are made.
    fn made(&self) -> usize {
        match &self.tables {
            Some(tables) => tables.made(),
            None => 0,
        }
    }

    /// Whether the searches have paid for one table more on a map of this size, and the class may have it.
    fn has_earned(&self, size: Size) -> bool {
        self.account.opened() >= price_of(size) && self.made() < MAX_TABLES
    }

    /// The same tables once more, or a list with none of them yet.
    fn begun(&self, alloc: Global, size: Size) -> Result<Landmarks, NoMemory>
        ensures { IfOk result (λ tables. (map : Map) (k : ℕ) → map.size ≡ size → MayGuide map k self.now
            → AreGuides map k tables) }
    {
        match &self.tables {
            Some(tables) => tables.copy(alloc),
            None => Landmarks::none(alloc, size),
        }
    }

    /// The same tables and one more, all of whose parts are made. What searches have opened that has paid for no table is
    /// kept for the next ones.
    fn with(
        &self,
        alloc: Global,
        bare: &PaintedMap<'_>,
        half: &HalfTable,
    ) -> Result<Guide, NoMemory>
        requires half { IsOnItsWay bare.now.map half.now }
        requires tables { MayGuide bare.now.map half.now.class self.now }
        ensures { IfOk result (MayGuide bare.now.map half.now.class) }
    {
        let mut tables = self.begun(alloc, bare.size())?;
        add_table(&mut tables, bare, half);
        Ok(Guide {
            tables: Some(tables),
            account: self.account.hand_on(),
        })
    }
}

/// Adds a table, if there is room.
fn add_table(tables: &mut Landmarks, bare: &PaintedMap<'_>, half: &HalfTable)
    requires half { IsOnItsWay bare.now.map half.now }
    requires tables { AreGuides bare.now.map half.now.class tables.old }
    ensures { AreGuides bare.now.map half.now.class tables.new }
{
    if tables.made() == MAX_TABLES {
        return;
    }
    tables.take(half);
}

/// How many cells a map of this size has, with a border of one cell.
fn cells_of(size: Size) -> usize
    ensures some { 9 ≤ result }
    ensures few { result < 2 ^ 33 }
{
    (size.w as usize + 2) * (size.h as usize + 2)
}

/// How many jump states pay for a table of a map of this size.
fn price_of(size: Size) -> u64 {
    cells_of(size) as u64 / CELLS_A_STATE
}

/// For how many classes there is room for tables on a map of this size.
fn most_guided(size: Size) -> usize {
    MOST_BYTES / (CELL_BYTES * cells_of(size))
}

/// What the searches of all classes of a map go by, and a table on its way. Contracts see the tables of each class, if it has
/// some, and what is made of that table.
#[derive(Drop)]
pub struct Guides {
    classes: SharedList<Guide>,
    half: Option<HalfTable>,
}

impl Model for Guides {
    ghost use Rattle.grid_versions.specs.inner.Guiding.{Guiding};

    ghost Value = { Guiding };

    ghost view = { λ g. record { classes = g.classes; half = g.half } };
}

impl Guides {
    /// No tables, for so many classes.
    pub fn none(alloc: Global, count: u8) -> Result<Guides, NoMemory>
        ensures { IfOk result (λ guides. guides ≡ record { classes = replicate count None; half = None }) }
    {
        let mut classes = SharedList::with_capacity(alloc, usize::from(count))?;
        for _ in 0..count {
            classes.push(alloc, Guide::none())?;
        }
        Ok(Guides {
            classes,
            half: None,
        })
    }

    /// The tables of a class, if it has some.
    pub fn tables(&self, class: Class) -> Option<&Landmarks>
        requires { class < length self.now.classes }
        ensures { IfSome result (λ tables. slice_get self.now.classes class ≡ Some (Some tables.now)) }
    {
        let guide = self.classes.at(usize::from(class.number()));
        guide.tables.as_ref()
    }

    /// Notes a search of a class that went from a cell and opened so many jump states.
    pub fn note(&self, class: Class, start: Cell, opened: u64)
        requires { class < length self.now.classes }
    {
        let guide = self.classes.at(usize::from(class.number()));
        guide.account.note(start, opened);
    }

    /// How many classes have tables.
    fn guided(&self) -> usize {
        let mut count = 0;
        for place in 0..self.classes.len() {
            if self.classes.at(place).made() > 0 {
                count += 1;
            }
        }
        count
    }

    /// How many jump states the searches of a class have opened, where they have earned a table and there is room for it;
    /// else 0.
    fn credit(&self, class: Class, size: Size, has_room: bool) -> u64
        requires { class < length self.now.classes }
    {
        let guide = self.classes.at(usize::from(class.number()));
        if guide.has_earned(size) && (has_room || guide.made() > 0) {
            guide.account.opened()
        } else {
            0
        }
    }

    /// Whether a part of a table is to be made: one is on its way, or one of the classes, which are so many, has earned one for
    /// which there is room.
    pub fn are_due(&self, size: Size, count: u8) -> bool
        requires few { count ≤ 16 }
        requires each { length self.now.classes ≡ count }
    {
        self.half.is_some() || self.richest(size, count).is_some()
    }

    /// Of the classes, which are so many, that have earned a table for which there is room, the one that has opened most.
    fn richest(&self, size: Size, count: u8) -> Option<Class>
        requires few { count ≤ 16 }
        requires each { length self.now.classes ≡ count }
        ensures { IfSome result (λ class. class < count) }
    {
        let has_room = self.guided() < most_guided(size);
        let mut best = None;
        let mut most = 0;
        for number in 0..count {
            let class = Class::new(number);
            let credit = self.credit(class, size, has_room);
            if credit > most {
                best = Some(class);
                most = credit;
            }
        }
        best
    }

    /// The same, with as much of the tables that classes have earned as a turn makes, by landmarks on the map where nothing
    /// stands. None where no class has earned one.
    pub fn grown(&self, alloc: Global, bare: &PaintedMap<'_>) -> Result<Option<Guides>, NoMemory>
        requires nothing { bare.now.standing ≡ fin_map.empty }
        requires guides { AreAllGuides bare.now.map self.now }
        ensures { IfOk result (λ grown. IfSome grown (AreAllGuides bare.now.map)) }
    {
        let mut work = WORK_A_TURN;
        let Some(mut guides) = self.with_part(alloc, bare, &mut work)? else {
            return Ok(None);
        };
        for _ in 1..MAX_TABLES {
            if guides.half.is_some() {
                return Ok(Some(guides));
            }
            let Ok(Some(next)) = guides.with_part(alloc, bare, &mut work) else {
                return Ok(Some(guides));
            };
            guides = next;
        }
        Ok(Some(guides))
    }

    /// The same, with as much of one table as so much work makes, of which what is not done is left. None where no class has earned one.
    fn with_part(
        &self,
        alloc: Global,
        bare: &PaintedMap<'_>,
        work: &mut usize,
    ) -> Result<Option<Guides>, NoMemory>
        requires nothing { bare.now.standing ≡ fin_map.empty }
        requires guides { AreAllGuides bare.now.map self.now }
        ensures { IfOk result (λ grown. IfSome grown (AreAllGuides bare.now.map)) }
    {
        let Some(half) = self.next_half(alloc, bare)? else {
            return Ok(None);
        };
        let tables = self.tables(half.class());
        let half = half.gone_on(alloc, tables, bare, work)?;
        let guides = self.with_half(alloc, bare, half)?;
        Ok(Some(guides))
    }

    /// The table on its way, or the one that is begun next: for this the class has paid, also where there is no memory.
    fn next_half(&self, alloc: Global, bare: &PaintedMap<'_>) -> Result<Option<HalfTable>, NoMemory>
        requires nothing { bare.now.standing ≡ fin_map.empty }
        requires guides { AreAllGuides bare.now.map self.now }
        ensures { IfOk result (λ half. IfSome half (IsOnItsWay bare.now.map)) }
    {
        if let Some(half) = &self.half {
            return Ok(Some(half.copy(alloc)?));
        }
        let Some(class) = self.richest(bare.size(), bare.classes()) else {
            return Ok(None);
        };
        let guide = self.classes.at(usize::from(class.number()));
        guide.account.pay(price_of(bare.size()));
        let near = guide.account.last_start(bare.size());
        Ok(Some(HalfTable::begin(alloc, bare, class, near)?))
    }

    /// The same with a table on its way, which becomes one of its class where all its parts are made.
    fn with_half(
        &self,
        alloc: Global,
        bare: &PaintedMap<'_>,
        half: HalfTable,
    ) -> Result<Guides, NoMemory>
        requires half { IsOnItsWay bare.now.map half }
        requires guides { AreAllGuides bare.now.map self.now }
        ensures { IfOk result (AreAllGuides bare.now.map) }
    {
        let mut classes = self.classes.share(alloc)?;
        if !half.is_made() {
            return Ok(Guides {
                classes,
                half: Some(half),
            });
        }
        let place = usize::from(half.class().number());
        let guide = self.classes.at(place).with(alloc, bare, &half)?;
        classes.set(alloc, place, guide)?;
        Ok(Guides {
            classes,
            half: None,
        })
    }
}
