//! What a node does with a connection request (CR).
ghost use Rattle.std.specs.Prelude.{◌≡◌, ◌≤◌, [], map, length, true, IfOk, OnOk, OnErr, ◌<◌};
ghost use Rattle.sccp_address.specs.Written.{written};
ghost use Rattle.sccp_layout.specs.Joining.{are_short};
ghost use Rattle.sccp_message.specs.declared.message.Message.{Message};
ghost use Rattle.sccp_couple.specs.declared.way.Way.TheVariants.{Onward};
ghost use Rattle.sccp_couple.specs.Coupling.{request_goes, on_request, to_one};
ghost use Rattle.sccp_couple.specs.Sending.{written_sent};
ghost use Rattle.sccp_couple.specs.Ways.{request_way};

use crate::connection_request::ConnectionRequest;
use crate::references::new_references;
use crate::routing_control::RoutingControl;
use crate::sections::Sections;
use crate::sending::{refusal, to_one};
use crate::way::{Way, request_way};
use sccp_address::Address;
use sccp_base::{List, OutOfMemory, PointCode};
use sccp_layout::Param;
use sccp_manage::Sent;
use sccp_message::Message;
use std::alloc::Global;

/// Sends a request on with a new pair, or refuses it if there are too many sections.
#[tactic(auto, using(crate::proofs::Fits::request_fits))]
fn go_on(
    alloc: Global,
    sections: &mut Sections,
    request: &ConnectionRequest,
    to: PointCode,
    called: Address,
    params: List<Param>,
) -> Result<List<Sent>, OutOfMemory>
    requires called { length (written called) ≤ 21 }
    requires params { are_short params ≡ true }
    ensures state { OnOk result (sections.new ≡ (request_goes sections.old request.now.origin request.now.slr request.now.class
        (Onward to called params)).sections) }
    ensures sent { IfOk result (λ sent. sent ≡ map written_sent
        (request_goes sections.old request.now.origin request.now.slr request.now.class (Onward to called params)).sent) }
    ensures err { OnErr result (sections.new ≡ sections.old) }
{
    if 4094 < sections.list().as_slice().len() {
        drop(called);
        drop(params);
        return refusal(alloc, request.origin, request.slr, 7);
    }
    let (near, far) = new_references(sections.list().as_slice());
    let onward = Message::Cr {
        slr: far,
        class: request.class,
        called,
        params,
    };
    let sent = to_one(alloc, to, onward)?;
    match sections.couple(near, far, request.origin, request.slr, to) {
        Ok(()) => Ok(sent),
        Err(fault) => {
            drop(sent);
            Err(fault)
        }
    }
}

/// Connection request (CR). It is not answered if a near section shows that it was received before.
pub(crate) fn on_request(
    alloc: Global,
    control: &RoutingControl,
    sections: &mut Sections,
    request: &ConnectionRequest,
) -> Result<List<Sent>, OutOfMemory>
    requires node { control.now.node < length control.now.plan.now.nodes }
    requires short { are_short request.now.params.now ≡ true }
    ensures state { OnOk result (sections.new ≡ (on_request sections.old request.now.origin request.now.slr request.now.class
        (request_way control.now.plan.now control.now.node control.now.marking.now request.now.class request.now.called.now
        request.now.params.now)).sections) }
    ensures sent { IfOk result (λ sent. sent ≡ map written_sent
        (on_request sections.old request.now.origin request.now.slr request.now.class
        (request_way control.now.plan.now control.now.node control.now.marking.now request.now.class request.now.called.now
        request.now.params.now)).sent) }
    ensures err { OnErr result (sections.new ≡ sections.old) }
{
    if sections.has_near(request.origin, request.slr) {
        return Ok(List::new(alloc));
    }
    match request_way(alloc, control, request)? {
        Way::Refused(cause) => refusal(alloc, request.origin, request.slr, cause),
        Way::Onward { to, called, params } => go_on(alloc, sections, request, to, called, params),
    }
}
