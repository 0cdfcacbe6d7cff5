//! Any number of lanes at once, each on a thread.
ghost use Rattle.std.specs.Prelude.{◌≡◌, ◌≤◌, ◌<◌, ◌+◌, ℕ, [], All, length, get_or, map, reverse, vec_capacity, vec_len};
ghost use Rattle.hulayban.specs.Lanes.{HasHandle, RunsAll, joined_ends};
ghost use Rattle.hulayban.specs.Posts.{LeadsPosts, PostRuns, PostsEach, PostsRun, TakesEach};
ghost use Rattle.hulayban.specs.Systems.{IsHandleOf, IsOnly};
ghost use Rattle.hulayban.specs.declared.lanes.Post.{Post};

use crate::handle::Handle;
use crate::lane::{Done, Lane};
use crate::running::{both, run_in};
use crate::system::System;
use std::alloc::AllocError;
use std::sync::Wait;
use std::thread;
use std::thread::Threads;

/// A lane, its handle while no thread has it, and how the lane ended.
pub(crate) struct Post<L> {
    lane: L,
    me: Option<Handle>,
    done: Done,
}

impl System {
    /// Runs lanes at once, each on a thread of its own where one can be had, and each by a handle of its own. The handle has then seen all that they did.
    /// It ends with the first lane's fault, or the next one's. Where there is no memory for the handles no lane has run.
    pub fn run_all<R: Threads + Wait + Sync, L: Lane + Send>(
        &self,
        rt: &R,
        mut me: Handle,
        lanes: &mut Vec<L>,
    ) -> (Handle, Done)
        requires me { IsOnly self.now me }
        requires suits { L.suits self.now }
        ensures only { IsOnly self.now result.0 }
        ensures ran { RunsAll self.now (L.did self.now) lanes.old.items lanes.new.items me result.0 result.1 }
    {
        let mut posts = Vec::new(self.alloc);
        if posts.reserve(lanes.len()).is_err() {
            posts.destroy_empty();
            return (me, Err(AllocError));
        }
        post_all(self, &mut me, lanes, &mut posts);
        run_posts(rt, self, &mut posts);
        let done = take_in_all(rt, self, &mut me, lanes, posts);
        (me, done)
    }
}

/// Gives each lane a post with a handle of its own, the last lane first.
fn post_all<L>(system: &System, me: &mut Handle, lanes: &mut Vec<L>, posts: &mut Vec<Post<L>>)
    requires me { IsOnly system.now me.old }
    requires posts { posts.old.items ≡ [] }
    requires room { vec_len posts.old + vec_len lanes.old ≤ vec_capacity posts.old }
    ensures lanes { (lanes.new.items ≡ []) × (map (λ (s : Post L). s.lane) (reverse posts.new.items) ≡ lanes.old.items) }
    ensures room { vec_len posts.new ≤ vec_capacity lanes.new }
    ensures posts { PostsEach system.now me.old (reverse posts.new.items) me.new }
    ensures leads { LeadsPosts system.now me.new (reverse posts.new.items) }
{
    while let Some(lane) = lanes.pop() {
        let other = system.split(me);
        posts.push_reserved(Post {
            lane,
            me: Some(other),
            done: Ok(()),
        });
    }
}

/// Runs lanes at once, each at its post.
fn run_posts<R: Threads + Wait + Sync, L: Lane + Send>(
    rt: &R,
    system: &System,
    posts: &mut Vec<Post<L>>,
)
    requires suits { L.suits system.now }
    requires posts { All (λ (s : Post L). HasHandle system.now s.me) posts.old.items }
    ensures room { vec_len posts.new ≡ vec_len posts.old }
    ensures as_many { length posts.new.items ≡ length posts.old.items }
    ensures ran { PostsRun system.now (L.did system.now) posts.old.items posts.new.items }
{
    let count = posts.len().max(1);
    thread::for_each_mut(
        rt,
        posts,
        count,
        &|_, post: &mut Post<L>|
            requires suits { L.suits system.now }
            requires post { HasHandle system.now post.old.me }
        { run_post(rt, system, post) },
    );
}

/// Runs a lane at its post.
fn run_post<R: Wait, L: Lane>(rt: &R, system: &System, post: &mut Post<L>)
    requires suits { L.suits system.now }
    requires post { HasHandle system.now post.old.me }
    ensures { PostRuns system.now (L.did system.now) post.old post.new }
{
    post.done = run_in(rt, system, &mut post.me, &mut post.lane);
}

/// Takes in the handles of all posts, and puts their lanes back. It answers how they ended.
fn take_in_all<R: Wait, L>(
    rt: &R,
    system: &System,
    me: &mut Handle,
    lanes: &mut Vec<L>,
    mut posts: Vec<Post<L>>,
) -> Done
    requires leads { LeadsPosts system.now me.old (reverse posts.items) }
    requires lanes { lanes.old.items ≡ [] }
    requires room { vec_len posts ≤ vec_capacity lanes.old }
    ensures only { IsOnly system.now me.new }
    ensures lanes { lanes.new.items ≡ map (λ (s : Post L). s.lane) (reverse posts.items) }
    ensures takes { TakesEach system.now me.old (reverse posts.items) me.new }
    ensures done { result ≡ joined_ends (map (λ (s : Post L). s.done) (reverse posts.items)) }
{
    let mut all = Ok(());
    while let Some(post) = posts.pop() {
        let Post {
            lane,
            me: slot,
            done,
        } = post;
        match slot {
            Some(other) => system.retire(rt, me, other),
            None => unreachable!(),
        }
        lanes.push_reserved(lane);
        all = both(all, done);
    }
    posts.destroy_empty();
    all
}
