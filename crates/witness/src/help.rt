// What the program says of itself.
use console::programs::About;

pub const ABOUT: About = About {
    program: "witness",
    version: "witness 0.2.0\n",
    help: HELP,
};

// One constant, with the example that the other program has too: apart, the parts would be joined when they are printed.
const HELP: &str = "\
Tells when a position of a clockwork, which is a timed automaton, can be reached at the earliest, and shows a run that reaches it then.

Usage: witness [OPTION].. FILE --position NAME

Where FILE is - or left out, it reads standard input. FILE is a drawing.

Options:
  --position NAME  the position; one without a name, or whose name is not known, by its number from 0
  --within E       where it can be reached only after a time, show a run that reaches it less than 1/E after it; without this, 100
  --kinds N        search through kinds of states alone, and allow so many, in place of as many as fit into the memory
  --zones          search through zones alone; where they do not fit, print one line: full: the zones do not fit into the memory
  --rows           read a row of numbers, with white space between them, in place of a drawing
  --help           print this text
  --version        print the version

The first line is the answer, `at 5`, `after 2` or `never`. Then comes a line for each wait, with its length, and for each step, with
its number from 0; after it stand the time so far, the position and the clocks. The last lines say what the clocks can be on
such an arrival; bounds on differences stand there where they say more than those on the clocks.

Example, a bell that is struck after 2 and by 3:
  clocks x
  position waiting: x <= 3
  position struck
  step waiting -> struck when x > 2 reset x
If this is the file bell.clock, then
  witness bell.clock --position struck
prints
  struck  after 2
  wait 401/200  at 401/200  waiting  x = 401/200
  step 0        at 401/200  struck   x = 0
  x = 0

All fractions of a run have one denominator, which is at most one more than the number of its waits, and E times that where the
answer is `after`. Limits: 1 to 8 clocks, 1 to 256 positions, numbers up to 10000 in tests, 16384 numbers in a row, 262144 bytes
of text. All buffers together have at most 4 MiB, which is what limits the kinds of states.

The status is 0 where there is an answer, or 1 with a message on standard error.
";
