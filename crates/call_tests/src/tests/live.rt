//! Plans that are published while messages are routed by them. There is one relay, which sends titles of 49 to 2-0-1 under
//! the first plan, and to 2-0-2 under the second.
ghost use Rattle.std.specs.Prelude.{◌≡◌, ◌<◌, ◌+◌, ◌^◌, [], All, length, map, IfOk, OnOk};
ghost use Rattle.std.specs.Arc.{arc_value};
ghost use Rattle.live_plan.specs.Plans.{HaveNodes, nodes_of};
ghost use Rattle.live_plan.specs.Tellers.{plans_of};

use super::plans::plan_of;
use super::workers::Meeting;
use live_plan::{
    Entry, Gate, Host, ListPlace, Live, LivePlace, OpenGate, Teller, Worker, run_batch,
};
use plan_check::Accepted;
use plan_verify::{Verdict, verify};
use relay_net::{End, Job, Net, NodeState, Served};
use sample_plans::ONE_TARGET;
use sccp_base::{List, Octets, PointCode};
use std::alloc::Global;
use std::sync::{Arc, Wait};
use std::test::Fail;
use std::thread::Threads;

const ELSEWHERE: &str = r#"version = 1
[[node]]
name = "a"
point = "1-0-2"
[[node.row]]
selector = "4:0:1:4"
prefix = "49"
first = { final = "2-0-2", ssn = 6 }
[[cover]]
node = "a"
selector = "4:0:1:4"
ssn = 6
prefix = "49"
least = 12
most = 12
allowed = ["2-0-2/6"]
"#;

/// A UDT for the title 491710000012.
const MESSAGE: &str = "0900030E120B1206001204947101000021044301080802AABB";

/// The plan of a text, accepted.
fn accepted(alloc: Global, text: &str) -> Result<Accepted, Fail> {
    let plan = plan_of(alloc, text)?;
    match verify(alloc, plan)? {
        Verdict::Accepted(accepted) => Ok(accepted),
        other => {
            drop(other);
            Err("a plan that is accepted")?
        }
    }
}

/// An accepted plan of one relay.
fn one_relay(alloc: Global, text: &str) -> Result<Accepted, Fail>
    ensures { IfOk result (λ plan. nodes_of plan ≡ 1) }
{
    let plan = accepted(alloc, text)?;
    if plan.plan().nodes().as_slice().len() != 1 {
        drop(plan);
        return Err("one relay")?;
    }
    Ok(plan)
}

/// What the relay keeps at the beginning.
fn states(alloc: Global) -> Result<Net, Fail>
    ensures { IfOk result (λ net. length net ≡ 1) }
{
    let plan = accepted(alloc, ONE_TARGET)?;
    let net = Net::new(alloc, plan.plan());
    drop(plan);
    let net = net?;
    if net.states().len() != 1 {
        drop(net);
        return Err("one state")?;
    }
    Ok(net)
}

/// A message that arrives at the relay from 1-0-1.
fn job(alloc: Global, index: u32) -> Result<Job, Fail>
    ensures { IfOk result (λ job. job.entry ≡ 0) }
{
    let octets = hex::decode(alloc, MESSAGE)?;
    let origin = PointCode::parse(b"1-0-1").ok_or("a point code")?;
    Ok(Job {
        index,
        entry: 0,
        origin,
        octets: Octets::from_vec(octets),
    })
}

/// Four of them.
fn jobs(alloc: Global) -> Result<List<Job>, Fail>
    ensures { IfOk result (λ jobs. All (λ job. job.entry < 1) jobs) }
{
    let mut jobs = List::new(alloc);
    jobs.push(job(alloc, 0)?)?;
    jobs.push(job(alloc, 1)?)?;
    jobs.push(job(alloc, 2)?)?;
    jobs.push(job(alloc, 3)?)?;
    Ok(jobs)
}

/// The number of the plan under which a message went, and the point to which it went, or 0.
fn told(served: &Served) -> (u32, u16) {
    match &served.journey.end {
        End::Ended { pc, .. } => (served.number, pc.value()),
        _ => (served.number, 0),
    }
}

/// The plan of one relay, shared.
fn shared(alloc: Global, text: &str) -> Result<Arc<Accepted>, Fail>
    ensures { IfOk result (λ plan. nodes_of (arc_value plan) ≡ 1) }
{
    Ok(Arc::new(alloc, one_relay(alloc, text)?)?)
}

/// Appends three of them to an empty list.
fn push_three(alloc: Global, plans: &mut List<Arc<Accepted>>) -> Result<(), Fail>
    requires { plans.old ≡ [] }
    ensures count { OnOk result (length plans.new ≡ 3) }
    ensures nodes { OnOk result (HaveNodes 1 (map arc_value plans.new)) }
{
    plans.push(shared(alloc, ONE_TARGET)?)?;
    plans.push(shared(alloc, ELSEWHERE)?)?;
    plans.push(shared(alloc, ONE_TARGET)?)?;
    Ok(())
}

/// The plans to 2-0-1, to 2-0-2, and to 2-0-1 again.
fn three_plans(alloc: Global) -> Result<List<Arc<Accepted>>, Fail>
    ensures count { IfOk result (λ plans. length plans ≡ 3) }
    ensures nodes { IfOk result (λ plans. HaveNodes 1 (map arc_value plans)) }
{
    let mut plans = List::new(alloc);
    match push_three(alloc, &mut plans) {
        Ok(()) => Ok(plans),
        Err(fault) => {
            drop(plans);
            Err(fault)
        }
    }
}

/// A worker over them, of whose calls the second is refused.
fn worker(alloc: Global) -> Result<Worker<ListPlace>, Fail> {
    let plans = three_plans(alloc)?;
    let first = Entry::of(alloc, 1, &plans.as_slice()[0])?;
    let mut refusing = List::new(alloc);
    refusing.push(1)?;
    let place = ListPlace::new(alloc, plans, refusing);
    Ok(Worker::over(0, place, first))
}

/// The plan's number and the point of this job, after the worker served it. Its answer is dropped as an item of a list.
fn serves_job(
    alloc: Global,
    worker: &mut Worker<ListPlace>,
    states: &[NodeState],
    job: &Job,
) -> Result<(u32, u16), Fail>
    requires states { length states.now ≡ 1 }
    requires entry { job.now.entry ≡ 0 }
{
    if worker.nodes() != 1 {
        return Err("plans of one relay")?;
    }
    let mut served = List::new(alloc);
    served.push(worker.serve(alloc, states, job, &OpenGate)?)?;
    match served.as_slice() {
        [one] => Ok(told(one)),
        _ => Err("one answer")?,
    }
}

/// The plan's number and the point of the next job that the worker serves.
fn serves(alloc: Global, worker: &mut Worker<ListPlace>) -> Result<(u32, u16), Fail> {
    let net = states(alloc)?;
    let job = job(alloc, 0)?;
    serves_job(alloc, worker, net.states(), &job)
}

/// The same of the next three jobs.
fn serves_three(
    alloc: Global,
    worker: &mut Worker<ListPlace>,
) -> Result<((u32, u16), (u32, u16), (u32, u16)), Fail> {
    let first = serves(alloc, worker)?;
    let second = serves(alloc, worker)?;
    let third = serves(alloc, worker)?;
    Ok((first, second, third))
}

#[test]
fn a_refused_entry_keeps_the_plan(rt: HostRuntime) -> Result<(), Fail> {
    let mut worker = worker(rt.alloc())?;
    let told = serves_three(rt.alloc(), &mut worker);
    let seen = worker.seen();
    drop(worker);
    let (first, second, third) = told?;
    assert_eq!(rt; seen, 3);
    assert_eq!(rt; first, (2, 4098));
    assert_eq!(rt; second, (2, 4098));
    assert_eq!(rt; third, (3, 4097));
    Ok(())
}

/// Whether a message went to the point of the plan that its answer names.
fn goes_by_its_plan(served: &Served) -> bool {
    match told(served) {
        (1, point) => point == 4097,
        (2, point) => point == 4098,
        _ => false,
    }
}

/// Whether the last two of four messages went under plan 2, and each by its plan.
fn are_met(answers: &[Served]) -> bool {
    match answers {
        [first, second, third, fourth] => {
            goes_by_its_plan(first)
                && goes_by_its_plan(second)
                && told(third) == (2, 4098)
                && told(fourth) == (2, 4098)
        }
        _ => false,
    }
}

/// The second plan.
fn second(alloc: Global) -> Result<List<Accepted>, Fail>
    ensures plans { IfOk result (λ plans. HaveNodes 1 plans) }
    ensures count { IfOk result (λ plans. length plans ≡ 1) }
{
    let mut plans = List::new(alloc);
    plans.push(one_relay(alloc, ELSEWHERE)?)?;
    Ok(plans)
}

/// Two workers serve four jobs, while these plans are published.
fn serve_four<R: Threads + Wait + Sync, G: Gate + Sync>(
    rt: &R,
    alloc: Global,
    teller: &mut Teller,
    workers: &mut List<Worker<LivePlace>>,
    plans: List<Accepted>,
    gate: &G,
) -> Result<List<Served>, Fail>
    requires nodes { teller.old.nodes ≡ 1 }
    requires plans { HaveNodes 1 plans }
    requires room { length (plans_of teller.old) + length plans < 2 ^ 32 }
    requires count { length workers.old ≡ 2 }
    requires made { All (λ w. w.place.nodes ≡ teller.old.nodes) workers.old }
{
    let net = states(alloc)?;
    let jobs = jobs(alloc)?;
    let states = net.states();
    let host = Host { rt, gate, alloc };
    Ok(run_batch(&host, teller, workers, states, &jobs, plans)?)
}

/// Two workers serve four jobs, while the second plan is published.
fn meet<R: Threads + Wait + Sync>(
    rt: &R,
    alloc: Global,
    teller: &mut Teller,
    workers: &mut List<Worker<LivePlace>>,
    gate: &Meeting,
) -> Result<bool, Fail>
    requires nodes { teller.old.nodes ≡ 1 }
    requires plans { length (plans_of teller.old) ≡ 1 }
    requires count { length workers.old ≡ 2 }
    requires made { All (λ w. w.place.nodes ≡ teller.old.nodes) workers.old }
{
    let plans = second(alloc)?;
    let served = serve_four(rt, alloc, teller, workers, plans, gate)?;
    let met = are_met(served.as_slice());
    drop(served);
    Ok(met)
}

#[test]
fn publisher_and_workers_run_beside_each_other(rt: HostRuntime) -> Result<(), Fail> {
    let alloc = rt.alloc();
    let first = one_relay(alloc, ONE_TARGET)?;
    let (mut teller, mut workers) = Live::new(&rt, alloc, first, 2)?;
    let gate = Meeting::new();
    let met = meet(&rt, alloc, &mut teller, &mut workers, &gate);
    let number = teller.number();
    teller.end(&rt);
    drop(workers);
    let kept = gate.was_kept();
    drop(gate);
    let met = met?;
    assert!(rt; kept);
    assert_eq!(rt; number, 2);
    assert!(rt; met);
    Ok(())
}

/// Whether a message went under a plan that sends it to 2-0-2, which the second and the third do.
fn goes_elsewhere(served: &Served) -> bool {
    let (number, point) = told(served);
    number > 1 && point == 4098
}

/// Whether each of four messages did, while the second plan is published once more.
fn go_elsewhere<R: Threads + Wait + Sync>(
    rt: &R,
    alloc: Global,
    teller: &mut Teller,
    workers: &mut List<Worker<LivePlace>>,
) -> Result<bool, Fail>
    requires nodes { teller.old.nodes ≡ 1 }
    requires plans { length (plans_of teller.old) ≡ 2 }
    requires count { length workers.old ≡ 2 }
    requires made { All (λ w. w.place.nodes ≡ teller.old.nodes) workers.old }
{
    let plans = second(alloc)?;
    let served = serve_four(rt, alloc, teller, workers, plans, &OpenGate)?;
    let count = served.as_slice().len();
    let all = served.as_slice().iter().all(|one| goes_elsewhere(one));
    drop(served);
    Ok(count == 4 && all)
}

/// Whether the second plan is published by itself under number 2, and no message of the next batch goes by the first.
fn replaces_and_serves<R: Threads + Wait + Sync>(
    rt: &R,
    alloc: Global,
    teller: &mut Teller,
    workers: &mut List<Worker<LivePlace>>,
) -> Result<bool, Fail>
    requires nodes { teller.old.nodes ≡ 1 }
    requires plans { length (plans_of teller.old) ≡ 1 }
    requires count { length workers.old ≡ 2 }
    requires made { All (λ w. w.place.nodes ≡ teller.old.nodes) workers.old }
{
    let next = one_relay(alloc, ELSEWHERE)?;
    let number = teller.replace(rt, next)?;
    if number != 2 {
        return Err("the second plan")?;
    }
    go_elsewhere(rt, alloc, teller, workers)
}

#[test]
fn a_plan_is_replaced(rt: HostRuntime) -> Result<(), Fail> {
    let alloc = rt.alloc();
    let first = one_relay(alloc, ONE_TARGET)?;
    let (mut teller, mut workers) = Live::new(&rt, alloc, first, 2)?;
    let served = replaces_and_serves(&rt, alloc, &mut teller, &mut workers);
    let number = teller.number();
    teller.end(&rt);
    drop(workers);
    assert!(rt; served?);
    assert_eq!(rt; number, 3);
    Ok(())
}
