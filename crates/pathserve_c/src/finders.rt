//! Who answers requests by views, and keeps the room of the searches from one call to the next.
ghost use Rattle.std.specs.Prelude.{◌≡◌, All, IfOk, IsErrOf};
ghost use Rattle.posts.specs.declared.notes.Report.TheVariants.{Answers};
ghost use Rattle.turn_core.specs.Solving.{IsAnswerTo};
ghost use Rattle.pathserve_c.specs.Answered.{AreAnswered, IsAnswered, IsRequest};

use crate::finds::asked;
use crate::statuses::PostFault;
use flat_posts::FlatPost;
use grid_versions::Version;
use nav_types::{NoMemory, Sequence};
use posts::{Answer, Replies, Reply, Report, Request};
use std::alloc::Global;
use std::marker::Model;
use turn_core::{Pool, Solver};

/// Who answers requests by views, one call after another. It keeps the room of its searches, unless one long search has made
/// that large (`Pool::is_small`). Contracts see nothing of the room, since no answer depends on it.
#[derive(Drop)]
pub struct Finder {
    pub(crate) room: Option<Pool>,
}

impl Model for Finder {
    ghost use Rattle.pathserve_c.specs.Answered.{Room};

    ghost Value = { Room };

    ghost view = { λ f. tt };
}

impl Finder {
    /// A finder without a room, which it makes when it is first asked. It takes no memory.
    pub fn new() -> Finder {
        Finder { room: None }
    }

    /// The answer to a request on a version. It refuses for want of memory alone, and can be asked again.
    pub fn answer(
        &mut self,
        alloc: Global,
        version: &Version,
        request: &Request,
    ) -> Result<Answer, NoMemory>
        ensures { IfOk result (λ answer. IsAnswerTo version.now.map version.now.standing request.now answer) }
    {
        let mut solver = self.solver(alloc, version)?;
        let noted = solver.solve(alloc, request)?;
        self.keep(solver.into_pool());
        Ok(noted.answer)
    }

    /// The answers to flat posts on a version, one reply for each in their order. `BadValue` only where one of them is no
    /// request.
    pub fn answers(
        &mut self,
        alloc: Global,
        version: &Version,
        posts: &[FlatPost],
    ) -> Result<Replies, PostFault>
        ensures answered { IfOk result (AreAnswered version.now posts.now) }
        ensures bad { IsErrOf result PostFault.BadValue → All (IsRequest version.now.map) posts.now → ⊥ }
    {
        let mut replies = Sequence::new(alloc);
        for post in posts {
            match self.reply(alloc, version, post) {
                Ok(reply) => match replies.push(reply) {
                    Ok(()) => {}
                    Err(_) => return Err(PostFault::NoMemory),
                },
                Err(fault) => return Err(fault),
            }
        }
        Ok(replies)
    }

    /// The answer to a flat post on a version. `BadValue` only where it is no request.
    fn reply(
        &mut self,
        alloc: Global,
        version: &Version,
        post: &FlatPost,
    ) -> Result<Reply, PostFault>
        ensures answered { IfOk result (IsAnswered version.now post.now) }
        ensures bad { IsErrOf result PostFault.BadValue → IsRequest version.now.map post.now → ⊥ }
    {
        let Some((_, request)) = asked(version, post) else {
            return Err(PostFault::BadValue);
        };
        match self.answer(alloc, version, &request) {
            Ok(answer) => Ok(Reply::Answer(answer)),
            Err(NoMemory) => Err(PostFault::NoMemory),
        }
    }

    /// One who answers on a version in the room that is kept, or in a new one.
    fn solver<'v>(&mut self, alloc: Global, version: &'v Version) -> Result<Solver<'v>, NoMemory>
        ensures { IfOk result (λ solver. solver ≡ record { state = version.now; report = Answers }) }
    {
        match self.room.take() {
            Some(room) => Ok(Solver::in_pool(version, Report::Answers, room)),
            None => Solver::new(alloc, version, Report::Answers),
        }
    }

    /// Keeps a room for the next call, where it is small.
    pub(crate) fn keep(&mut self, room: Pool) {
        if room.is_small() {
            self.room = Some(room);
        }
    }
}
