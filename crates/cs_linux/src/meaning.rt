//! What Linux's client means by a request, in which it fills in more than its user asked for.
ghost use Rattle.std.specs.Prelude.{◌≡◌};
ghost use Rattle.cs_wire.specs.Messages.{stat_of, t_view};
ghost use Rattle.cs_linux.specs.Messages.{as_user_asked, as_client_means};

use cs_wire::{Stat, TBody, TMessage};

/// The stat as the user asked for it: atime and muid, which the client fills in unasked, become
/// "don't touch".
fn as_user_asked(mut stat: Stat) -> Stat
    ensures { stat_of result ≡ as_user_asked (stat_of stat) }
{
    stat.atime = u32::MAX;
    stat.muid.clear();
    stat
}

/// The request that Linux's client means by this one: of a Twstat the atime and muid, which the
/// client fills in unasked and rule Q3 would refuse, become "don't touch" (stat(5)). So a user
/// can't ask for them. Any other request is unchanged. It allocates nothing.
pub fn request_of_linux(request: TMessage<'_>) -> TMessage<'_>
    ensures { t_view result ≡ as_client_means (t_view request.entry) }
{
    let TMessage { tag, body } = request;
    let body = match body {
        TBody::Wstat { fid, stat } => TBody::Wstat {
            fid,
            stat: as_user_asked(stat),
        },
        other => other,
    };
    TMessage { tag, body }
}
