//! The texts of the help, which `clap` puts together with what it knows of the commands.

/// What the program is.
pub const ABOUT: &str = "\
A lab for small processes on a model of Zircon's handles: it runs their programs under a schedule
or on threads, and writes every system call with its answer, in the order in which they were made.";

/// The options of `run`.
pub const WORKERS: &str = "The number of threads, 1 to 64";

pub const LIMIT: &str = "The most items of the trace, 0 to 1000000";

pub const BURST: &str = "The most local instructions at a time, 1 to 1000000 [default: 256]";

/// The options of `explore`.
pub const WORLDS: &str = "The most worlds, 1 to 1000000000 [default: 1000000]";

pub const BAD: &str = "What no order may have, as '* blocked'; up to 16 times";

pub const PART: &str = "Only part K of N of all orders, as 2/4";

pub const FROM: &str = "The turns that tell the part of an order, 0 to 1000 [default: 6]";

/// The forms of the command line, and the exit statuses.
pub const FORMS: &str = "\
The forms of a command line:
  zlab < INPUT
      Without words, reads standard input: a scenario, a line `--` and a schedule. Runs the scenario
      along the schedule and writes the trace, or `refused LINE FAULT` for the first faulty line.
      Example: zlab < examples/event.zls
  zlab step SCENARIO SCHEDULE
      Does the same with the scenario and the schedule in two files, joined by a line `--`; lines are
      counted in what is joined.
      Example: zlab step pair.zls turns.txt
  zlab run SCENARIO --workers N --limit M [--burst K]
      Runs the scenario in the file SCENARIO, which has no schedule, on N threads, for at most M
      items of trace in place of the scenario's limit; N is 1 to 64, and M 0 to 1000000. A thread
      does at most K local instructions of a process before it looks for the next one, 1 to 1000000,
      256 without the option. Writes the trace that came about, with `end quiet` where no process is
      ready at the end, `end limit` or `end memory`, or `refused LINE FAULT`.
      Example: zlab run pair.zls --workers 4 --limit 1000
  zlab explore SCENARIO [--worlds N] [--bad WORDS].. [--part K/N] [--from D]
      Takes the turns of the processes of the scenario in the file SCENARIO in each order, each up
      to its next call. Writes each end that is met: the states of all processes where none is
      ready, and below `by` a schedule that leads there. A schedule in SCENARIO is read, and doesn't
      count. The last line is `all W worlds T turns E ends`, `cut` in place of `all` where more than
      N worlds are met, 1 to 1000000000, 1000000 without the option, `memory` where memory was
      refused, or `refused LINE FAULT`.
      WORDS, one word of the command line, say what no order may have; up to 16 times. They are
      `PID CALL STATUS` for a call that is answered so, `PID CALL blocked` for one that waits,
      `PID stuck` for an instruction that can't be done, at an end `PID ended CODE`, `PID blocked`
      or `PID created`, and at any moment `PID ready`, `PID has KOID [RIGHTS]` for a handle to this
      object with at least these rights, the sum of their numbers, `message has KOID [RIGHTS]` for
      one in a queued message, or `KIND KOID` for an object that is there; with `*` for any PID,
      CALL or STATUS. `not` before one of the last seven is for a moment at which that isn't so, and
      `and` between each two of several for one at which all of that is so. The search stops at the
      first that it meets. The last line is `bad WORDS` then, below the schedule up to it.
      `--part K/N`, as 2/4, takes part K of N of all orders: the orders whose first D turns have koids
      with a sum that leaves K - 1 when divided by N. An order that ends before D turns is part 1's.
      D is 0 to 1000, 6 without the option. All N parts with the same D together are the whole.
      Example: zlab explore examples/locks-crosswise.zls --worlds 100000
      Example: zlab explore examples/locks-crosswise.zls --bad '* blocked'
      Example: zlab explore examples/locks-crosswise.zls --bad '5 blocked and 6 blocked'
      Example: zlab explore examples/locks-crosswise.zls --part 2/4 --from 3
  zlab replay SCENARIO TRACE
      Does the steps of the trace in the file TRACE again, from the scenario in the file SCENARIO,
      which has no schedule. Writes `replayed N` for the number of its items, `differs N` for the
      first that the lab's own steps don't give, or `refused LINE FAULT`, with `trace` before the
      line of a trace.
      Example: zlab replay pair.zls pair.trace
  zlab asm IN OUT
      Assembles the text in the file IN, and writes the image to the file OUT, or
      `refused LINE FAULT`. OUT is emptied before IN is read, so let it be another file.
      Example: zlab asm ping.zasm ping.zli
  zlab check IMAGE
      Writes what the verifier says of the image in the file IMAGE: `accepted`,
      `refused AT CAUSE` with the number of an instruction, or `undecodable FAULT`.
      Example: zlab check ping.zli

Exit status:
  0  the trace, image, help or all ends are written, the trace replayed, or the image accepted
  1  the input is refused and its first fault named, an item differs, or `--bad` was met
  2  the words are in none of the forms
  3  reading or writing failed
  4  memory was refused
  5  more worlds were met than `explore` was to take
After 2, 3 and 4 a line on standard error names the reason.";
