// Numbers of which only the order counts, each by its place among them.
ghost use Rattle.std.specs.Prelude.{◌≡◌, length};
ghost use Rattle.std.specs.List.Sorted.{IsStrictlyIncreasing};
ghost use Rattle.realise.specs.Places.{place_among, SameNumbers};

// The numbers in their order, each of them once.
#[derive(Drop)]
pub struct Places {
    numbers: Vec<u64>,
    ghost rising: { IsStrictlyIncreasing numbers.items },
}

impl Places {
    pub fn of(mut numbers: Vec<u64>) -> Self
        ensures { SameNumbers numbers.items result.numbers.items }
    {
        numbers.sort_unstable();
        numbers.dedup();
        Places { numbers }
    }

    // How many numbers there are.
    pub fn len(&self) -> usize
        ensures { result ≡ length self.now.numbers.items }
    {
        self.numbers.len()
    }

    // How many of them are less than a number.
    pub fn place(&self, number: u64) -> usize
        ensures { result ≡ place_among self.now.numbers.items number }
    {
        self.numbers.partition_point(|other| *other < number)
    }
}
