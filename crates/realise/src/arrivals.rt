// When a run is to end.
ghost use Rattle.std.specs.Prelude.{◌≡◌};
ghost use Rattle.replay.specs.Checks.{Decides};
ghost use Rattle.realise.specs.Runs.{InTime, part_of};

// At a whole time; or after one, and by less than 1 / part after it.
#[derive(Clone, Copy)]
pub enum Arrival {
    At(u64),
    After { time: u64, part: u32 },
}

// Whether a number of d-ths is such a time.
pub fn in_time(arrival: Arrival, denominator: u64, time: u64) -> bool
    ensures { Decides result (InTime denominator arrival time) }
{
    let parts = time as u128;
    match arrival {
        Arrival::At(whole) => parts == whole as u128 * denominator as u128,
        Arrival::After { time: whole, part } => {
            let limit = whole as u128 * denominator as u128;
            limit < parts && (parts - limit) * (part as u128) < denominator as u128
        }
    }
}

// What the whole is parted by so that every fraction is near enough to 0.
pub fn part_of(arrival: Arrival) -> u32
    ensures { result ≡ part_of arrival }
{
    match arrival {
        Arrival::At(_) => 1,
        Arrival::After { part, .. } => part,
    }
}
