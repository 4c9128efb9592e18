//! The lists of replies to a turn: made with the replies to its edits, and filled with the answers to its requests.
ghost use Rattle.std.specs.Prelude.{◌≡◌, IfOk, OnOk};
ghost use Rattle.std.specs.Vec.Iter.{into_iter_items};
ghost use Rattle.turn_core.specs.inner.ReplyLists.{ahead, edits_past, HasEdit, list_ahead, edits_past_list, HaveEdits};
ghost use Rattle.turn_core.specs.inner.ReplyLists.{lists_ahead, AllHaveEdits, filled, answers_past, HasAnswer};
ghost use Rattle.turn_core.specs.inner.ReplyLists.{list_filled, answers_past_list, HaveAnswers, lists_filled};
ghost use Rattle.turn_core.specs.inner.ReplyLists.{AllHaveAnswers};

use grid_versions::{EditReplies, EditReply};
use nav_types::{NoMemory, Sequence};
use posts::{Answer, Answers, CallerReplies, Post, Posts, Replies, Reply};
use std::alloc::Global;
use std::mem;
use std::vec::IntoIter;

/// The replies to a turn before its requests are answered, caller by caller: each edit has the next of `edits`, and a
/// stand-in keeps the place of each answer.
pub(crate) fn lists_ahead(
    alloc: Global,
    turn: &[Posts],
    edits: EditReplies,
) -> Result<Vec<Replies>, NoMemory>
    requires { AllHaveEdits turn.now edits }
    ensures { IfOk result (λ lists. lists.items ≡ lists_ahead turn.now edits) }
{
    let mut edits = edits.into_items().into_iter();
    let mut lists = Vec::with_capacity(alloc, turn.len())?;
    for posts in turn {
        lists.push(list_ahead(alloc, posts.as_slice(), &mut edits)?)?;
    }
    Ok(lists)
}

/// The replies to the posts of one caller before the requests are answered.
fn list_ahead(
    alloc: Global,
    posts: &[Post],
    edits: &mut IntoIter<EditReply>,
) -> Result<Replies, NoMemory>
    requires { HaveEdits posts.now (into_iter_items edits.old) }
    ensures list { IfOk result (λ list. list ≡ list_ahead posts.now (into_iter_items edits.old)) }
    ensures left { OnOk result (into_iter_items edits.new ≡ edits_past_list posts.now (into_iter_items edits.old)) }
{
    let mut list = Vec::with_capacity(alloc, posts.len())?;
    for post in posts {
        list.push(ahead(post, edits))?;
    }
    Ok(Sequence::from(list))
}

/// The reply to a post before the requests are answered.
fn ahead(post: &Post, edits: &mut IntoIter<EditReply>) -> Reply
    requires { HasEdit post.now (into_iter_items edits.old) }
    ensures reply { result ≡ ahead post.now (into_iter_items edits.old) }
    ensures left { into_iter_items edits.new ≡ edits_past post.now (into_iter_items edits.old) }
{
    match post {
        Post::Edit(_) => {
            let Some(reply) = edits.next() else {
                unreachable!();
            };
            Reply::Edit(reply)
        }
        // A stand-in, which keeps the place of the answer.
        Post::Ask(_) => Reply::Answer(Answer::Nowhere),
    }
}

/// The same lists with the answers, in their order, in the places of the stand-ins. It takes no memory.
pub(crate) fn lists_filled(alloc: Global, lists: Vec<Replies>, answers: Answers) -> CallerReplies
    requires { AllHaveAnswers lists.items answers }
    ensures { result ≡ lists_filled lists.items answers }
{
    let mut lists = lists;
    let mut answers = answers.into_items().into_iter();
    for list in lists.iter_mut() {
        // An empty list takes no memory.
        let ahead = mem::replace(list, Sequence::new(alloc));
        *list = list_filled(ahead, &mut answers);
    }
    Sequence::from(lists)
}

/// The replies to one caller with the answers in the places of the stand-ins.
fn list_filled(list: Replies, answers: &mut IntoIter<Answer>) -> Replies
    requires { HaveAnswers list (into_iter_items answers.old) }
    ensures list { result ≡ list_filled list (into_iter_items answers.old) }
    ensures left { into_iter_items answers.new ≡ answers_past_list list (into_iter_items answers.old) }
{
    let mut replies = list.into_items();
    for reply in replies.iter_mut() {
        fill(reply, answers);
    }
    Sequence::from(replies)
}

/// Puts the next answer in the place of a stand-in.
fn fill(reply: &mut Reply, answers: &mut IntoIter<Answer>)
    requires { HasAnswer reply.old (into_iter_items answers.old) }
    ensures reply { reply.new ≡ filled reply.old (into_iter_items answers.old) }
    ensures left { into_iter_items answers.new ≡ answers_past reply.old (into_iter_items answers.old) }
{
    if let Reply::Answer(answer) = reply {
        let Some(next) = answers.next() else {
            unreachable!();
        };
        *answer = next;
    }
}
