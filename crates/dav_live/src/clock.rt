//! The clock of a live server, by the two of its front.
ghost use Rattle.std.specs.Prelude.{◌≡◌, min};
ghost use Rattle.dav_core.specs.World.{last_moment};
ghost use Rattle.dav_live.specs.Clock.{moment_after};

use dav_server::exchange::LAST_MOMENT;

/// The moment after a report of a steady clock's seconds and of the date, where the report before told these seconds, at most the end
/// of the year 9999. A lock lasts as long as it was granted for, so a date that jumps moves it by a second a minute.
pub fn moment_after(moment: u64, before: Option<u64>, seconds: u64, date: u64) -> u64
    ensures { result ≡ min (moment_after moment before seconds date) last_moment }
{
    let Some(before) = before else {
        return moment.max(date).min(LAST_MOMENT);
    };
    let passed = seconds.saturating_sub(before);
    let minutes = (seconds / 60).saturating_sub(before / 60);
    let least = moment.saturating_add(passed).saturating_sub(minutes);
    let most = moment.saturating_add(passed).saturating_add(minutes);
    least.max(most.min(date)).min(LAST_MOMENT)
}
