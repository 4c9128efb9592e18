//! The nodes of a search: each jump state that was met, with the least cost that is known.
ghost use Rattle.std.specs.Prelude.{◌≡◌, ◌<◌, ◌≤◌, ◌⊎◌, ◌++◌, ◌∷◌, [], length, slice_get, slice_set, Some, ◌^◌};
ghost use Rattle.std.specs.Prelude.{IsTrue, IfOk, OnOk, OnErr};
ghost use Rattle.jump_search.specs.declared.nodes.Node.{Node};
ghost use Rattle.jump_search.specs.inner.Numbered.{arrival_number, key_of, same_key, HasState, LacksState, IsAsCheap};
ghost use Rattle.jump_search.specs.inner.Numbered.{IsLastInSlot, IsSearchable, AreDown, IsLookup};
ghost use Rattle.jump_search.specs.inner.Paged.{slot_of};

use crate::pages::Pages;
use crate::states::JumpState;
use nav_types::{Cell, Dir, NoMemory};
use std::alloc::Global;
use std::marker::Model;

/// For how many nodes there is room at first.
const ROOM: usize = 16384;

/// A jump state that a search has met.
#[derive(Clone, Copy)]
pub struct Node {
    pub state: JumpState,
    /// How many steps the last of the jumps has that lead to the state at its cost; 0 at the start.
    pub run: u16,
    /// The least cost of jumps to the state that is known.
    pub cost: u64,
    /// Whether its jumps have been followed.
    pub opened: bool,
}

/// What is found of a state among the nodes.
#[derive(Clone, Copy)]
pub enum Lookup {
    /// A node of the state's cell costs less than the bound.
    Dominated,
    /// The node of the number has the state.
    Known(u32),
    /// No node has the state.
    New,
}

/// The nodes of a search by number, each state once. Contracts see the list.
///
/// The pages have one more than the number of the last node of each cell, or 0, and the links have the same of the node
/// before each. So the nodes of a cell, and of those that share its number, are found one by one.
#[derive(Drop)]
pub(crate) struct Nodes {
    list: Vec<Node>,
    links: Vec<u32>,
    pages: Pages,
}

impl Model for Nodes {
    ghost use Rattle.std.specs.Prelude.{List};
    ghost use Rattle.jump_search.specs.declared.nodes.Node.{Node};
    ghost use Rattle.jump_search.specs.inner.Numbered.{AreFound};

    ghost Value = { List Node };

    ghost view = { λ n. n.list.items };

    ghost invariant = { λ n. AreFound n.pages.table.items n.pages.numbers.items n.list.items n.links.items };
}

/// The number of an arrival: 0 for none, else that of its direction from 1.
pub(crate) fn arrival_number(arrived: Option<Dir>) -> u8
    ensures { result ≡ arrival_number arrived }
{
    match arrived {
        None => 0,
        Some(Dir::N) => 1,
        Some(Dir::E) => 2,
        Some(Dir::S) => 3,
        Some(Dir::W) => 4,
        Some(Dir::NE) => 5,
        Some(Dir::SE) => 6,
        Some(Dir::SW) => 7,
        Some(Dir::NW) => 8,
    }
}

/// Whether the two states are the same. Arrivals are compared by their numbers, so that none needs to be asked first
/// whether it is there.
fn is_same(one: JumpState, other: JumpState) -> bool
    ensures { result ≡ same_key (key_of one) (key_of other) }
{
    (one.cell.j == other.cell.j && one.cell.i == other.cell.i)
        && arrival_number(one.arrived) == arrival_number(other.arrived)
}

/// Whether the node is of the cell and costs less.
fn is_cheaper(node: Node, cell: Cell, cost: u64) -> bool
    ensures { IsTrue result → (node.state.cell ≡ cell) × (node.cost < cost) }
{
    node.cost < cost && node.state.cell.j == cell.j && node.state.cell.i == cell.i
}

/// What is found of the state in the node before the number `end` and those linked from there, up to the first of them that is
/// of the state, or is of its cell and costs less than the bound.
fn look_up_before(
    list: &Vec<Node>,
    links: &Vec<u32>,
    end: u32,
    state: JumpState,
    bound: u64,
) -> Lookup
    requires { IsSearchable list.now.items links.now.items state end }
    ensures { IsLookup list.now.items state bound result }
{
    let mut after = end;
    'walk: while after > 0 {
        let number = after - 1;
        let node = list[number as usize];
        if is_cheaper(node, state.cell, bound) {
            return Lookup::Dominated;
        }
        if is_same(node.state, state) {
            return Lookup::Known(number);
        }
        after = links[number as usize];
    }
    Lookup::New
}

/// The node's cost, where it is of the cell and less; else the cost.
fn lesser(node: Node, cell: Cell, cost: u64) -> u64
    ensures { (result ≡ cost) ⊎ ((node.state.cell ≡ cell) × (result ≡ node.cost)) }
{
    if !is_cheaper(node, cell, cost) {
        return cost;
    }
    node.cost
}

/// The least cost of the nodes of the cell that are before the number `end` and linked one to the other, and of a further
/// one.
fn least_before(list: &Vec<Node>, links: &Vec<u32>, end: u32, cell: Cell, cost: u64) -> u64
    requires down { AreDown list.now.items links.now.items }
    requires inside { end ≤ length list.now.items }
    requires cheap { IsAsCheap list.now.items cell cost }
    ensures { IsAsCheap list.now.items cell result }
{
    let mut least = cost;
    let mut after = end;
    'walk: while after > 0 {
        let number = after - 1;
        least = lesser(list[number as usize], cell, least);
        after = links[number as usize];
    }
    least
}

impl Nodes {
    /// No node.
    pub(crate) fn new(alloc: Global) -> Result<Nodes, NoMemory>
        ensures { IfOk result (λ nodes. nodes ≡ []) }
    {
        Ok(Nodes {
            list: Vec::with_capacity(alloc, ROOM)?,
            links: Vec::with_capacity(alloc, ROOM)?,
            pages: Pages::new(alloc)?,
        })
    }

    /// For how many nodes there is room.
    pub(crate) fn room(&self) -> usize {
        self.list.capacity()
    }

    /// Takes out every node. It takes no memory, and keeps the room that there is for more.
    pub(crate) fn clear(&mut self)
        ensures { self.new ≡ [] }
    {
        self.pages.clear(&self.list);
        self.list.clear();
        self.links.clear();
    }

    /// What is found of the state among the nodes. A node of its cell that costs less than the bound is told of where it is found
    /// before that of the state.
    pub(crate) fn look_up(&self, state: JumpState, bound: u64) -> Lookup
        ensures { IsLookup self.now state bound result }
    {
        look_up_before(
            &self.list,
            &self.links,
            self.pages.get(state.cell),
            state,
            bound,
        )
    }

    /// The node of a number.
    pub(crate) fn at(&self, number: u32) -> &Node
        requires { number < length self.now }
        ensures { slice_get self.now number ≡ Some result.now }
    {
        &self.list[number as usize]
    }

    /// One more than the number of the last node that is found by the cell; 0 where there is none.
    pub(crate) fn last(&self, cell: Cell) -> u32
        ensures inside { result ≤ length self.now }
        ensures last { IsLastInSlot slot_of self.now (slot_of cell) (length self.now) result }
    {
        self.pages.get(cell)
    }

    /// The least cost of a node of the cell, of which one has the cost.
    pub(crate) fn least(&self, cell: Cell, cost: u64) -> u64
        requires { IsAsCheap self.now cell cost }
        ensures { IsAsCheap self.now cell result }
    {
        least_before(&self.list, &self.links, self.pages.get(cell), cell, cost)
    }

    /// One more than the number of the node before that of the number to which it is linked; 0 where there is none.
    pub(crate) fn before(&self, number: u32) -> u32
        requires { number < length self.now }
        ensures inside { result ≤ number }
        ensures last { (node : Node) → slice_get self.now number ≡ Some node
            → IsLastInSlot slot_of self.now (slot_of node.state.cell) number result }
    {
        self.links[number as usize]
    }

    /// Adds a node whose state no node has, and gives its number. There is no memory for more than 2^32 nodes.
    #[inline(always)]
    pub(crate) fn add(&mut self, node: Node) -> Result<u32, NoMemory>
        requires { LacksState self.old node.state }
        ensures added { OnOk result (self.new ≡ self.old ++ node ∷ []) }
        ensures number { IfOk result (λ number. number ≡ length self.old) }
        ensures few { OnOk result (length self.new ≤ 2 ^ 32) }
        ensures kept { OnErr result (self.new ≡ self.old) }
    {
        let count = self.list.len();
        if count >= u32::MAX as usize {
            return Err(NoMemory);
        }
        let number = count as u32;
        let after = number + 1;
        self.list.reserve(1)?;
        self.links.reserve(1)?;
        let before = self.pages.replace(node.state.cell, after)?;
        self.links.push_reserved(before);
        self.list.push_reserved(node);
        Ok(number)
    }

    /// Puts a node in the place of another of its state.
    pub(crate) fn put(&mut self, number: u32, node: Node)
        requires { HasState self.old node.state number }
        ensures { self.new ≡ slice_set self.old number node }
    {
        self.list[number as usize] = node;
    }
}
