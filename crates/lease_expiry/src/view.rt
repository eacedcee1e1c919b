//! What a server knows of whether its partner may have renewed a lease.

ghost use Rattle.std.specs.Prelude.{◌≡◌};
ghost use Rattle.lease_expiry.specs.Expiring.{ends_by, is_joined, lead, reading_before, view_of};

use disk_model::Folder;
use failover_session::SessionStage;
use lead_time::Reading;
use server_core::ServerCore;
use server_settings::Settings;

/// What a server knows of whether its partner may have renewed a lease that has ended by all that it knows.
#[derive(Clone, Copy, Debug, PartialEq, Eq)]
pub struct RenewalView {
    /// Whether it has no partner.
    pub is_alone: bool,
    /// The reading since which the partner is taken for down.
    pub down: Option<Reading>,
    /// Whether the two have joined over the connection that stands.
    pub has_joined: bool,
    /// Whether it waits for its partner's answer.
    pub waiting: bool,
    /// Whether the partner has said over this connection that it told all.
    pub told_all: bool,
    /// Whether anything came over it within two heartbeats.
    pub is_heard: bool,
}

/// How long, in milliseconds, a lease may last behind the end that the partner told: it may have renewed it since.
pub(crate) fn lead(settings: &Settings) -> u64
    ensures { result ≡ lead settings.now.mclt settings.now.skew settings.now.transit }
{
    1000 * u64::from(settings.mclt())
        + 2 * settings.skew().milliseconds()
        + settings.transit().milliseconds()
}

/// The reading so many milliseconds before another; none where that is before a third.
fn reading_before(now: Reading, lead: u64, least: Reading) -> Option<Reading>
    ensures { result ≡ reading_before now lead least }
{
    let now = now.milliseconds();
    if now < lead || now - lead < least.milliseconds() {
        return None;
    }
    Reading::new(now - lead).ok()
}

/// Returns whether the two have joined.
fn is_joined(stage: &Option<SessionStage>) -> bool
    ensures { result ≡ is_joined stage.now }
{
    match stage {
        Some(SessionStage::Joined { .. }) => true,
        _ => false,
    }
}

/// What a running server knows, beside whether it has a partner and has heard it within two heartbeats.
pub fn renewal_view<F: Folder + Drop, P: Drop>(
    running: &ServerCore<F, P>,
    is_alone: bool,
    is_heard: bool,
) -> RenewalView
where
    F::File: Drop,
    ensures { result ≡ view_of is_alone is_heard running.now }
{
    RenewalView {
        is_alone,
        down: running.book().down(),
        has_joined: is_joined(&running.stage()),
        waiting: running.book().waiting(),
        told_all: running.partner_told_all(),
        is_heard,
    }
}

impl RenewalView {
    /// By which reading a lease has to have ended by all that the server knows, so that it may be ended now: by now
    /// where the partner told all and is heard, or where there is none; where it is taken for down, so long before that
    /// no lease lasts that it may have given meanwhile. None where no lease may be ended: the partner may have renewed
    /// each.
    pub(crate) fn ends_by(&self, now: Reading, lead: u64) -> Option<Reading>
        ensures { result ≡ ends_by self.now now lead }
    {
        if self.is_alone {
            return Some(now);
        }
        match self.down {
            Some(down) => reading_before(now, lead, down),
            None => {
                let knows_all = self.has_joined && !self.waiting && self.told_all && self.is_heard;
                if knows_all { Some(now) } else { None }
            }
        }
    }
}
