// The worked examples: a line for each position, with both answers.
use crate::counts::Counts;
use crate::grid_search::MOST_STATES;
use crate::opinions::Opinion;
use crate::problems::fail;
use crate::report::Reporter;
use drawing::Drawing;
use std::{fs, io};

const FILES: [&str; 11] = [
    "bell.clock",
    "bell-at.clock",
    "bell-never.clock",
    "flag.clock",
    "flag-never.clock",
    "ghent.clock",
    "jammed.clock",
    "ring.clock",
    "mill.clock",
    "apart.clock",
    "apart-again.clock",
];

fn read_drawing(rt: &HostRuntime, file: &str) -> io::Result<Drawing> {
    let bytes = fs::read(rt, file)?;
    drawing::read(rt.alloc(), bytes.as_slice()).or_else(|refusal| {
        fail(
            rt,
            io::ErrorKind::InvalidData,
            format_args!("{file}:{refusal}"),
        )
    })
}

fn print_all(
    reporter: &mut Reporter,
    file: &str,
    drawing: &Drawing,
    all: &[Opinion],
) -> io::Result<()> {
    for (number, (opinion, position)) in all.iter().zip(&drawing.positions).enumerate() {
        reporter.print_opinion(file, position.as_str(), opinion)?;
        reporter.note(drawing.row.as_slice(), number, opinion)?;
    }
    Ok(())
}

fn compare_drawing(reporter: &mut Reporter, file: &str) -> io::Result<()> {
    let drawing = read_drawing(reporter.rt, file)?;
    let Some(all) = reporter.opinions_on(drawing.row.as_slice())? else {
        return println!(reporter.rt;
            "{file}: skipped, since it has more than {MOST_STATES} states in sixtieths"
        );
    };
    print_all(reporter, file, &drawing, all.as_slice())
}

// Compares all examples, and prints what comes of it and what was counted.
pub fn compare_examples(reporter: &mut Reporter) -> io::Result<Counts> {
    reporter.count_anew();
    for file in FILES {
        compare_drawing(reporter, file)?;
    }
    reporter.print_counts()?;
    Ok(reporter.counts)
}
