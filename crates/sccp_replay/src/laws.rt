//! The law of fences, over the work of a replay.
ghost use Rattle.std.specs.Prelude.{◌≡◌, ℕ, List, Some};
ghost use Rattle.sccp_io.specs.Files.{Contents};
ghost use Rattle.sccp_replay.specs.Fences.{HasFences};
ghost use Rattle.sccp_replay.specs.Replay.{replay_work};
ghost use Rattle.sccp_work.specs.Ending.{Answers};
ghost use Rattle.sccp_work.specs.Moment.{Moment};
ghost use Rattle.sccp_work.specs.PlanFile.{PlanFile};
ghost use Rattle.sccp_work.specs.declared.status.Status.{Status};

/// If between each plan line and each message of a trace a line stands alone, as a fence does, then whatever a replay by any number
/// of workers may answer and print, a replay by one worker may.
pub fn fenced_replays_are_those_of_one_worker()
    ensures { (c : Contents) (plan : PlanFile) (trace : List ℕ) (workers : ℕ) (s : Status) (text : List ℕ) (before after : Moment) →
        before.contents ≡ Some c → HasFences c plan trace →
        Answers (replay_work plan trace workers) s text before after → Answers (replay_work plan trace 1) s text before after }
{}
