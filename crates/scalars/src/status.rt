// The status of the day that opens, read off articles 69 and 70 of the measures: a case an arm, under the sentence that decides it.
// Where they say that the exchange may, document 01 says that it does; where they differ, the graver holds.
ghost use Rattle.std.specs.Prelude.{◌≡◌};
ghost use Rattle.rules.specs.Status.{status_by_runs, status_at_open};

use rules::book::{FailedRun, ShortRun, Status};

// While the permission lasts: by the run of failed payments before this day, and the run of closes at which the pledge was short (headroom
// below zero).
fn status_by_runs(failed: FailedRun, short: ShortRun) -> Status
    ensures { result ≡ status_by_runs failed short }
{
    match failed {
        FailedRun::NotFailed => match short {
            // 69, second sentence: "Once the firm's headroom is not below zero, the exchange may accept its initial trades again."
            // 70, second clause: "where the firm completes the payment on T+2, its initial trades are accepted again on T+3"
            // or neither speaks, since nothing was short and nothing failed
            ShortRun::NotShort => Status::Normal,
            // 69, first sentence: "Where … the pledge is short, the exchange may suspend acceptance of the firm's initial trades from the next
            // trading day on …"
            ShortRun::ShortOnce => Status::Suspended,
            // 69, first sentence, still: the two trading days of its second paragraph are not over
            ShortRun::ShortTwice => Status::Suspended,
            // 69, second paragraph: "Where within the two trading days after the day the pledge fell short the firm has taken no effective
            // measures that bring its headroom to zero or above, the exchange may end its … permission from the third trading day on."
            ShortRun::ShortThrice => Status::Terminated,
        },
        FailedRun::FailedOnce => match short {
            // 70, first clause: "Where the firm's payment on T+1 fails, the exchange may suspend acceptance of its initial trades from T+2 on …"
            ShortRun::NotShort => Status::Suspended,
            // 70, first clause; 69, first sentence, suspends too
            ShortRun::ShortOnce => Status::Suspended,
            // 70, first clause; 69, first sentence, suspends still
            ShortRun::ShortTwice => Status::Suspended,
            // 69, second paragraph; 70 would only suspend
            ShortRun::ShortThrice => Status::Terminated,
        },
        // 70, third clause: "where it does not complete the payment on T+2, the exchange ends its … permission from T+3 on", whatever 69 says
        FailedRun::FailedTwice => Status::Terminated,
    }
}

// From the old status.
#[tactic(auto, unfolding(rules::specs::Status::status_at_open))]
pub fn status_at_open(status: Status, failed: FailedRun, short: ShortRun) -> Status
    ensures { result ≡ status_at_open status failed short }
{
    match status {
        // the permission lasts, and 69 and 70 go by the runs
        Status::Normal => status_by_runs(failed, short),
        // the same, and by the runs they may lift the suspension
        Status::Suspended => status_by_runs(failed, short),
        // 72: "After the … permission has ended …"; neither 69 nor 70 gives it back
        Status::Terminated => Status::Terminated,
    }
}
