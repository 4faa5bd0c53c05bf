//! Lines of a replay by themselves, each in a text of its own.
use super::plans::plan_of;
use plan_model::Plan;
use relay_net::{End, Journey, Outcome, Served};
use sample_plans::BACKED;
use sccp_base::{List, Name, Octets, OutOfMemory, PointCode};
use sccp_manage::Sent;
use sccp_report::{event_text, served_text};
use std::alloc::Global;
use std::test::Fail;
use trace_text::{Line, Numbered};

/// A message that was cut off at the plan's first relay, under plan 3.
fn cut(alloc: Global) -> Result<Served, OutOfMemory> {
    let mut path = List::new(alloc);
    path.push(0)?;
    Ok(Served {
        number: 3,
        journey: Journey {
            path,
            end: End::Cut,
            back: None,
        },
    })
}

/// That two octets are sent to 2-0-1.
fn sent(alloc: Global) -> Result<List<Outcome>, Fail> {
    let to = PointCode::parse(b"2-0-1").ok_or("a point code")?;
    let octets = Octets::from_vec(Vec::from_slice(alloc, &[0xAA, 0xBB])?);
    let mut outcomes = List::new(alloc);
    outcomes.push(Outcome::Sent(Sent { to, octets }))?;
    Ok(outcomes)
}

/// The text of that message on line 7, if nothing is left to be done.
fn text_of_cut(alloc: Global, plan: &Plan) -> Result<Octets, OutOfMemory> {
    let served = cut(alloc)?;
    let nothing = List::new(alloc);
    let text = served_text(alloc, plan, 7, &served, &nothing);
    drop(nothing);
    drop(served);
    text
}

/// The text of line 5, by which subsystem 8 of a relay goes down, with what is sent because of it.
fn text_of_down(alloc: Global, plan: &Plan, name: &str) -> Result<Octets, Fail> {
    let name = Name::parse(name.as_bytes()).ok_or("a name")?;
    let outcomes = sent(alloc)?;
    let line = Numbered {
        number: 5,
        line: Line::Down(name, 8),
    };
    let text = event_text(alloc, plan, &line, &outcomes);
    drop(line);
    drop(outcomes);
    Ok(text?)
}

/// The two texts over a plan whose relay is named a.
fn texts(alloc: Global, name: &str) -> Result<(Octets, Octets), Fail> {
    let plan = plan_of(alloc, BACKED)?;
    let cut = text_of_cut(alloc, &plan);
    let down = text_of_down(alloc, &plan, name);
    drop(plan);
    let down = down?;
    Ok((cut?, down))
}

#[test]
fn lines_have_their_texts(rt: HostRuntime) -> Result<(), Fail> {
    let (cut, down) = texts(rt.alloc(), "a")?;
    assert_eq!(rt; cut.as_slice(), b"7 by 3 via a cut\n".as_slice());
    assert_eq!(rt;
        down.as_slice(),
        b"5 down a 8\n5 sends 2-0-1 AABB\n".as_slice()
    );
    Ok(())
}
