//! What a search is asked.
use crate::estimates::Estimate;
use jump_scan::Runs;
use nav_types::{Aim, Cell, Class};

/// What a search is asked: a map that answers runs, a class of it, the cell from which to go, and the cells to look for.
#[derive(Drop)]
pub struct Question<'q, R: Runs, A: Aim> {
    pub runs: &'q R,
    pub class: Class,
    pub start: Cell,
    pub aim: &'q A,
}

/// A question with an estimate by which its answer is found. The answer is the same by each, and the number of opened jump
/// states is told by octile distances.
#[derive(Drop)]
pub struct Guided<'q, R: Runs, A: Aim, E: Estimate> {
    pub question: Question<'q, R, A>,
    pub ahead: &'q E,
}

/// What is searched: a map that answers runs, a class of it, the cell from which the search goes, the cells that it looks
/// for, and what some walk to one of them costs, where one is known. Where it is for `ALL`, each jump state within the cost of
/// the answer is opened.
#[derive(Drop)]
pub(crate) struct Problem<'a, R: Runs, A: Aim, const ALL: bool> {
    pub runs: &'a R,
    pub class: Class,
    pub start: Cell,
    pub aim: &'a A,
    pub limit: Option<u32>,
}
