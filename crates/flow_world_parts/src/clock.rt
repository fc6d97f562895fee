// What a session asks of the clock.
ghost use Rattle.std.specs.Prelude.{◌≡◌, ◌<◌, IfOk, IfErr, MatchOption};
ghost use Rattle.flow_world_steps.specs.LimitKind.TheVariants as limit;
ghost use Rattle.flow_world_parts.specs.Clock.{FallsShort, IsTooLate, IsReached};

use crate::error::WorldError;
use cacao_site::Site;
use flow_world_steps::LimitKind;
use run_records::LAST_MOMENT;

/// Lets time go on towards a moment: the present moment, or nothing where the clock answered less than was asked. It is refused where
/// the present moment is past the last one.
pub fn reach<S: Site>(site: &mut S, moment: u64) -> Result<Option<u64>, WorldError>
    ensures reached { IfOk result (λ now. MatchOption now (FallsShort moment (S.view site.old) (S.view site.new))
        (λ now. IsReached moment now (S.view site.old) (S.view site.new))) }
    ensures late { IfErr result (λ error. (error ≡ WorldError.Limit limit.Moment) × IsTooLate moment (S.view site.old) (S.view site.new)) }
{
    let now = site.reach(moment);
    if now > LAST_MOMENT {
        return Err(WorldError::Limit {
            what: LimitKind::Moment,
        });
    }
    if now < moment {
        return Ok(None);
    }
    Ok(Some(now))
}
