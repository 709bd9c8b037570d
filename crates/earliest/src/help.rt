// What the program says of itself.
use console::programs::About;

pub const ABOUT: About = About {
    program: "earliest",
    version: "earliest 0.3.0\n",
    help: HELP,
};

// One constant, with the example that the other program has too: apart, the parts would be joined when they are printed.
const HELP: &str = "\
Tells for each position of a clockwork, which is a timed automaton, the earliest time at which it can be reached:
  at 5     at 5, and not before
  after 2  as soon after 2 as one likes, but not at 2 or before
  never    at no time
It searches through zones, which are sets of states told apart by differences of clocks; where these do not fit into the memory, through
kinds of states. Where there is no room for these either, it prints one line: many: more than N kinds of states.

Usage: earliest [OPTION].. [FILE]

Without FILE, or where FILE is -, it reads standard input. FILE is a drawing.

Options:
  --position NAME  tell it for this position only; a position without a name, or whose name is not known, by its number from 0
  --kinds N        search through kinds of states alone, and allow so many, in place of as many as fit into the memory
  --zones          search through zones alone; where they do not fit, print one line: full: the zones do not fit into the memory
  --rows           read a row of numbers, with white space between them, in place of a drawing
  --print-rows     print the row of numbers of the clockwork
  --print-drawing  print a drawing of the clockwork, with clocks x0, x1, .. and positions p0, p1, ..
  --summary        print a summary: the clocks, the positions and the steps
  --help           print this text; with FILE also how many kinds of states fit into the memory for its clockwork
  --version        print the version

Example, a bell that is struck after 2 and by 3:
  clocks x
  position waiting: x <= 3
  position struck
  step waiting -> struck when x > 2 reset x
If this is the file bell.clock, then
  earliest bell.clock
prints
  waiting  at 0
  struck   after 2

Limits: 1 to 8 clocks, 1 to 256 positions, numbers up to 10000 in tests, 16384 numbers in a row, 262144 bytes of text.
What is larger is refused. All buffers together have at most 4 MiB, which is what limits the kinds of states.

The status is 0, or 1 with a message on standard error: FILE:LINE:COLUMN: what was found and expected.
";
