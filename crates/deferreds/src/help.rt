/// How the program is used.
pub const HELP: &str = "\
deferreds [WORKERS] [FILE]         runs a script, and prints its journal and the outcome of each Deferred
deferreds --json [WORKERS] [FILE]  prints the run as JSON Lines, for tools
deferreds [--json] --batches BATCHES [WORKERS] [FILE]
                                   runs a script with the posts of its callers in these batches
deferreds [--json] --orders [--most N | --sample K --seed S] [FILE]
                                   runs a script in every order of these posts, or in a sample of them, and prints what becomes of
                                   each Deferred in how many
deferreds --why [FILE]             prints, as a line of JSON, where a script is refused, and why
deferreds --language               prints the language as JSON: its words, its keys, the lines of the journal
deferreds --version                prints the version, the checksum of the sources, and the kit that proved them
deferreds --help                   prints this

A formally verified simulator of Twisted's Deferreds, on a virtual clock.

WORKERS  the number of threads that run the jobs of deferToThread, 0 to 16 (0: the program's own thread runs them)
BATCHES  JSON in one word: an array for each drain and one for the end, in each the posts [CALLER,POST] that it takes, counted from 0
N        the most orders that run, up to 1000000 (without it 20000)
K        how many orders are drawn, 1 to 1000000; each may be drawn again
S        the seed of the draws, 0 to 4294967295: the same seed draws the same orders
FILE     a script as JSON; its name has a . or a / in it. None, or -, is standard input

Example:

  echo '{\"version\":1,\"events\":[[\"deferred\",\"d\"],[\"callback\",\"d\",42]]}' | deferreds

Status:

  0   all events ran, or the script is accepted
  1   the run stopped at the limit of its journal
  2   the script is refused: --why says where
  3   out of memory
  4   a read or a write failed
  5   the batches are refused: they aren't an order of the script's posts
  6   --orders: the orders end in several ways
  7   --orders: there are more orders than --most allows, or than 64 bits count
  8   a Deferred wasn't as the script expects
  64  the arguments are wrong
";
