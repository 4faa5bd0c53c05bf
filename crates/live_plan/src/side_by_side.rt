//! Work on the items of a slice, shared among several threads, which the caller's thread makes itself.
ghost use Rattle.std.specs.Prelude.{◌+◌, ◌^◌, ◌<◌, length};
ghost use Rattle.std.specs.Fork.{AcceptsAt, AcceptsEach, ChangesAt, ChangesEach};
ghost use denote.Param.Send.{IsSync, IsSend};
ghost use Rattle.live_plan.specs.ByPlace.{AcceptsFrom, ChangesFrom};

use std::thread;
use std::thread::Threads;

// Works on the items, one after the other, on this thread.
fn in_order<T, F: Fn(usize, &mut T)>(f: &F, base: usize, items: &mut [T])
    requires room { base + length items.old < 2 ^ 64 }
    requires accepts { AcceptsFrom F.Fn f.now base items.old }
    ensures { ChangesFrom F.Fn f.now base items.old items.new }
{
    for k in 0..items.len() {
        one(f, base + k, &mut items[k]);
    }
}

// Works on one item.
fn one<T, F: Fn(usize, &mut T)>(f: &F, at: usize, item: &mut T)
    requires { AcceptsAt F.Fn f.now at item.old }
    ensures { ChangesAt F.Fn f.now at item.old item.new }
{
    f(at, item);
}

// Works on the first items on a new thread, and on the others from this one, `share` items to a thread.
#[cycle(shared)]
fn beside<R: Threads + Sync, T: Send, F: Fn(usize, &mut T) + Sync>(
    rt: &R,
    f: &F,
    share: usize,
    base: usize,
    first: &mut [T],
    behind: usize,
    others: &mut [T],
)
    requires share { 0 < share }
    requires some { 0 < length first.old }
    requires room { (base + length first.old < 2 ^ 64) × (behind + length others.old < 2 ^ 64) }
    requires first { AcceptsFrom F.Fn f.now base first.old }
    requires others { AcceptsFrom F.Fn f.now behind others.old }
    ensures first { ChangesFrom F.Fn f.now base first.old first.new }
    ensures others { ChangesFrom F.Fn f.now behind others.old others.new }
{
    let mut there = ||
        requires { IsSync F.row × IsSend T.row × (base + length first.now < 2 ^ 64) × AcceptsFrom F.Fn f.now base first.now }
        ensures { ChangesFrom F.Fn f.entry.now base first.entry.now first.exit.now }
    { in_order(f, base, first) };
    let mut here = ||
        requires { IsSync R.row × IsSync F.row × IsSend T.row × (0 < share) × (behind + length others.now < 2 ^ 64)
            × AcceptsFrom F.Fn f.now behind others.now }
        ensures { ChangesFrom F.Fn f.entry.now behind others.entry.now others.exit.now }
    { shared_out(rt, f, share, behind, others) };
    thread::join_mut(rt, &mut there, &mut here);
}

// Shares the items out, `share` items to a thread. The last ones are done on this thread.
#[cycle(shared)]
fn shared_out<R: Threads + Sync, T: Send, F: Fn(usize, &mut T) + Sync>(
    rt: &R,
    f: &F,
    share: usize,
    base: usize,
    items: &mut [T],
)
    requires share { 0 < share }
    requires room { base + length items.old < 2 ^ 64 }
    requires accepts { AcceptsFrom F.Fn f.now base items.old }
    ensures { ChangesFrom F.Fn f.now base items.old items.new }
{
    if items.len() <= share {
        in_order(f, base, items);
        return;
    }
    let (first, others) = items.split_at_mut(share);
    beside(rt, f, share, base, first, base + share, others);
}

/// Calls `f` with each place and its item, on at most `threads` threads, and joins them all. The caller's thread makes the
/// others itself, one after the other, so none waits for another to begin.
pub(crate) fn for_each_beside<R: Threads + Sync, T: Send, F: Fn(usize, &mut T) + Sync>(
    rt: &R,
    items: &mut [T],
    threads: usize,
    f: &F,
)
    requires threads { 0 < threads }
    requires room { length items.old < 2 ^ 64 }
    requires accepts { AcceptsEach F.Fn f.now items.old }
    ensures { ChangesEach F.Fn f.now items.old items.new }
{
    if items.is_empty() {
        return;
    }
    let share = items.len().div_ceil(threads);
    shared_out(rt, f, share, 0, items);
}
