//! A law of runs that have come to rest: its function has nothing to run, and its contract is the law.

ghost use Rattle.std.specs.Prelude.{◌≡◌, List};
ghost use Rattle.kt_plan.specs.Limits.{Planned};
ghost use Rattle.kt_meaning.specs.Follows.{FollowsPlan};
ghost use Rattle.kt_report.specs.Exact.{lost_in};
ghost use Rattle.kt_spacetime.specs.declared.event.Event.{Event};

/// No message is lost at the end of the log of a whole run of a plan: each live one was received, or was dropped.
pub fn no_message_is_lost()
    ensures { (plan : Planned) (log : List Event) → FollowsPlan plan log → lost_in log ≡ 0 }
{}
