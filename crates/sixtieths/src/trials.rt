// The automata made at random: only differences are printed, and all is counted.
use crate::counts::Counts;
use crate::generator::Generator;
use crate::grid_search::MOST_STATES;
use crate::inventions::invent;
use crate::report::Reporter;
use std::io;

pub const SEED: u64 = 60;

pub const AUTOMATA: u32 = 300;

fn compare_row(reporter: &mut Reporter, row: &[u32]) -> io::Result<()> {
    let Some(all) = reporter.opinions_on(row)? else {
        return println!(reporter.rt;
            "skipped, since it has more than {MOST_STATES} states in sixtieths"
        );
    };
    for (position, opinion) in all.iter().enumerate() {
        reporter.note(row, position, opinion)?;
    }
    Ok(())
}

// Compares all that the seed gives, and prints what was counted.
pub fn compare_inventions(reporter: &mut Reporter) -> io::Result<Counts> {
    reporter.count_anew();
    let mut numbers = Generator::new(SEED);
    for _ in 0..AUTOMATA {
        let row = invent(reporter.rt.alloc(), &mut numbers)?;
        compare_row(reporter, row.as_slice())?;
    }
    reporter.print_counts()?;
    Ok(reporter.counts)
}
