// Points in time, of which some are to come after others: the least ones that do.
use crate::runs::Failure;
use std::alloc::Global;

// A whole number, and so many units, each of which is as small as one likes; before the start where the number is negative.
#[derive(Clone, Copy, PartialEq, Eq, PartialOrd, Ord)]
pub struct Instant {
    pub whole: i64,
    pub units: u64,
}

// That a point comes no earlier than so long after another one, or a unit more where it is to come later than that. After a negative delay it may
// come so long before the other one.
#[derive(Clone, Copy)]
pub struct Demand {
    pub point: usize,
    pub since: usize,
    pub delay: i64,
    pub later: bool,
}

const START: Instant = Instant { whole: 0, units: 0 };

impl Demand {
    // Whether both are of the same two points.
    pub fn is_beside(self, other: Demand) -> bool {
        self.point == other.point && self.since == other.since
    }

    // Of two demands of the same two points the one by which the other is met too.
    pub fn sharper(self, other: Demand) -> Demand {
        if (self.delay, self.later) < (other.delay, other.later) {
            other
        } else {
            self
        }
    }

    // The least instant of its point, by where the other one is.
    fn least(self, since: Instant) -> Option<Instant> {
        Some(Instant {
            whole: since.whole.checked_add(self.delay)?,
            units: since.units.checked_add(u64::from(self.later))?,
        })
    }

    // Puts its point off until it is met; whether it was not met before.
    fn enforce(self, points: &mut [Instant]) -> Result<bool, Failure> {
        let since = *points.get(self.since).ok_or(Failure::Astray)?;
        let point = points.get_mut(self.point).ok_or(Failure::Astray)?;
        let least = self.least(since).ok_or(Failure::NoRoom)?;
        if *point >= least {
            return Ok(false);
        }
        *point = least;
        Ok(true)
    }
}

// Puts points off by each demand in turn, and by each in turn from the last one back; whether one of them was not met. A chain of demands that goes on along
// the path is met by the one, a chain that goes back by the other.
fn enforce_all(points: &mut [Instant], demands: &[Demand]) -> Result<bool, Failure> {
    let mut changed = false;
    for demand in demands {
        changed |= demand.enforce(points)?;
    }
    for demand in demands.iter().rev() {
        changed |= demand.enforce(points)?;
    }
    Ok(changed)
}

// The least points from the start on by which all demands are met. A chain of demands that comes to no point twice has no more of them than there are
// points, so points that are still put off after as many rounds are put off for ever.
pub fn least_points(
    heap: Global,
    count: usize,
    demands: &[Demand],
) -> Result<Vec<Instant>, Failure> {
    let mut points = vec![in heap; START; count]?;
    for _ in 0..=count {
        if !enforce_all(points.as_mut_slice(), demands)? {
            return Ok(points);
        }
    }
    Err(Failure::Astray)
}
