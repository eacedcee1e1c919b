//! Leases that have ended are ended, one after the other.

ghost use Rattle.lease_expiry.specs.Expiring.{ends_by, lead, AreEnded, EndsBy, EndsNext};

use crate::view::{RenewalView, lead};
use disk_model::Folder;
use lead_time::Reading;
use order_book::Order;
use server_core::ServerCore;
use server_settings::Settings;

/// How many leases are ended at once, at most.
const MOST_ENDED: usize = 64;

/// Ends the lowest lease that had ended by a reading, and returns whether there was one that the book let go.
fn end_next<F: Folder + Drop, P: Drop>(
    running: &mut ServerCore<F, P>,
    by: Reading,
    now: Reading,
) -> bool
where
    F::File: Drop,
    ensures { EndsNext result by now running.old running.new }
{
    let Some(prefix) = running.book().first_to_expire(by) else {
        return false;
    };
    match running.serve(now, &Order::Expire(prefix)) {
        Ok(_) => true,
        Err(_) => false,
    }
}

/// Ends leases at a reading, the lowest first, that had ended by another: so many at most.
fn end_each<F: Folder + Drop, P: Drop>(running: &mut ServerCore<F, P>, by: Reading, now: Reading)
where
    F::File: Drop,
    ensures { AreEnded by now running.old running.new }
{
    for _lease in 0..MOST_ENDED {
        if !end_next(running, by, now) {
            return;
        }
    }
}

/// Ends leases that have ended, so many at most: none that the partner may have renewed.
pub fn end_leases<F: Folder + Drop, P: Drop>(
    running: &mut ServerCore<F, P>,
    settings: &Settings,
    view: &RenewalView,
    now: Reading,
)
where
    F::File: Drop,
    ensures { EndsBy (ends_by view.now now (lead settings.now.mclt settings.now.skew settings.now.transit)) now
        running.old running.new }
{
    if let Some(by) = view.ends_by(now, lead(settings)) {
        end_each(running, by, now);
    }
}
