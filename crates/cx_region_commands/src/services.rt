//! The conditions of services.
ghost use Rattle.std.specs.Prelude.{◌≡◌};
ghost use Rattle.std.specs.Result.{result_err};
ghost use Rattle.cx_region_commands.specs.Services.{fault_or_verdict};

use crate::common::condition_alone;
use cx_base::Condition;
use cx_region_state::Verdict;
use cx_service::ServiceFault;

/// The condition that a service would meet, with no output and no change; or the verdict where it would meet none.
pub(crate) fn fault_or_verdict(tested: Result<(), ServiceFault>, verdict: Verdict) -> Verdict
    ensures { result ≡ fault_or_verdict (result_err tested) verdict }
{
    match tested {
        Err(ServiceFault::Lengerr) => condition_alone(Condition::Lengerr),
        Err(ServiceFault::Itemerr) => condition_alone(Condition::Itemerr),
        Err(ServiceFault::Nospace) => condition_alone(Condition::Nospace),
        Err(ServiceFault::Qiderr) => condition_alone(Condition::Qiderr),
        Err(ServiceFault::Enqbusy) => condition_alone(Condition::Enqbusy),
        Err(ServiceFault::Invreq) => condition_alone(Condition::Invreq),
        Err(ServiceFault::Memory) | Ok(()) => verdict,
    }
}
