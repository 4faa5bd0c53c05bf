//! Replays by several workers.
use super::calls::words_of;
use super::replays::with_trace;
use live_plan::Gate;
use sccp_io::SoundSink;
use sccp_tool::{Status, run, run_gated};
use std::alloc::Global;
use std::sync::Wait;
use std::sync::atomic::{AtomicU64, Ordering};
use std::test::Fail;
use std::thread;
use std::thread::Threads;

/// How many turns a thread waits for another one.
const TURNS: u32 = 100_000_000;

/// Messages 0 and 1 wait for each other, the publisher for both, and messages 2 and 3 for the publisher.
#[derive(Drop)]
pub struct Meeting {
    passed: [AtomicU64; 4],
    published: AtomicU64,
    failed: AtomicU64,
}

impl Meeting {
    /// A meeting that no job has reached yet.
    pub fn new() -> Meeting {
        Meeting {
            passed: [
                AtomicU64::new(0),
                AtomicU64::new(0),
                AtomicU64::new(0),
                AtomicU64::new(0),
            ],
            published: AtomicU64::new(0),
            failed: AtomicU64::new(0),
        }
    }

    /// Whether each job was passed once, by one of two workers, and nobody waited in vain.
    pub fn was_kept(&self) -> bool {
        self.failed.load(Ordering::SeqCst) == 0
    }

    /// Waits until this is set. After too many turns the meeting has failed.
    fn wait(&self, mark: &AtomicU64) {
        for _ in 0..TURNS {
            if mark.load(Ordering::SeqCst) != 0 {
                return;
            }
            thread::yield_now();
        }
        self.failed.store(1, Ordering::SeqCst);
    }
}

impl Gate for Meeting {
    fn pass(&self, worker: u32, job: u32) {
        if worker > 1 || job > 3 {
            self.failed.store(1, Ordering::SeqCst);
            return;
        }
        if self.passed[job as usize].swap(1, Ordering::SeqCst) != 0 {
            self.failed.store(1, Ordering::SeqCst);
        }
        if job < 2 {
            self.wait(&self.passed[1 - job as usize]);
        } else {
            self.wait(&self.published);
        }
    }

    fn published(&self, number: u32) {
        if number != 2 {
            self.failed.store(1, Ordering::SeqCst);
        }
        self.wait(&self.passed[0]);
        self.wait(&self.passed[1]);
        self.published.store(1, Ordering::SeqCst);
    }
}

/// Two messages, a later plan and two messages more.
const MESSAGES: &str = "msg a 1-0-1 0980030E120B1206001204947101000021044301080802AABB
msg a 1-0-1 0980030E120B1206001204947101000021044301080802AABB
plan f
msg a 1-0-1 0980030E120B1206001204947101000021044301080802AABB
msg a 1-0-1 0980030E120B1206001204947101000021044301080802AABB
";

/// Whether the replay of that trace is done, with the last two messages under plan 2.
fn are_met<R: Threads + Wait + Sync>(rt: &R, alloc: Global, gate: &Meeting) -> Result<bool, Fail> {
    let words = words_of(alloc, "replay f g 2")?;
    let mut files = with_trace(alloc, MESSAGES.as_bytes())?;
    let mut out = SoundSink::new(alloc);
    let status = run_gated(rt, alloc, &words, &mut files, &mut out, gate);
    let told = match std::str::from_utf8(out.taken()) {
        Ok(text) => text.contains("\n4 by 2 via a ended ")
            && text.contains("\n5 by 2 via a ended "),
        Err(_) => false,
    };
    Ok(status == Status::Done && told)
}

/// No body on one thread gets through, in whatever order it takes its work.
#[test]
fn workers_and_publisher_run_beside_each_other(rt: HostRuntime) -> Result<(), Fail> {
    let gate = Meeting::new();
    let met = are_met(&rt, rt.alloc(), &gate);
    let kept = gate.was_kept();
    drop(gate);
    assert!(rt; kept);
    assert!(rt; met?);
    Ok(())
}

/// The number after ` by `, of one digit, or 0.
fn number_in(line: &str) -> u32 {
    for number in 1..3_u32 {
        if line.contains(if number == 1 { " by 1 " } else { " by 2 " }) {
            return number;
        }
    }
    0
}

/// Whether the numbers of the four messages are 1 or 2. They do not fall from the first to the third, nor from the second
/// to the fourth.
fn are_lawful(text: &str) -> bool {
    let mut numbers = [0, 0, 0, 0];
    let mut count = 0;
    for line in text.lines() {
        let number = number_in(line);
        if number > 0 && count < 4 {
            numbers[count] = number;
            count += 1;
        }
    }
    count == 4 && numbers[0] <= numbers[2] && numbers[1] <= numbers[3]
}

/// Whether the replay of that trace is done, and its numbers are lawful.
fn is_lawful<R: Threads + Wait + Sync>(rt: &R, alloc: Global) -> Result<bool, Fail> {
    let words = words_of(alloc, "replay f g 2")?;
    let mut files = with_trace(alloc, MESSAGES.as_bytes())?;
    let mut out = SoundSink::new(alloc);
    let status = run(rt, alloc, &words, &mut files, &mut out);
    let lawful = match std::str::from_utf8(out.taken()) {
        Ok(text) => are_lawful(text),
        Err(_) => false,
    };
    Ok(status == Status::Done && lawful)
}

/// Without fences a number may be that before the batch or that at its end.
#[test]
fn numbers_never_fall_in_a_share(rt: HostRuntime) -> Result<(), Fail> {
    for _ in 0..10 {
        assert!(rt; is_lawful(&rt, rt.alloc())?);
    }
    Ok(())
}
