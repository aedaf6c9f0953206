//! A command, from its words to its status.
ghost use Rattle.grade_io.specs.Devices.{devices};
ghost use Rattle.grade_io.specs.Says.{Says};
ghost use Rattle.file_commands.specs.Calls.{CallsInOrder};
ghost use Rattle.file_commands.specs.Ends.{Ends};
ghost use Rattle.grade_top.specs.Commands.{file_command};
ghost use Rattle.grade_top.specs.Reports.{usage_text};
ghost use Rattle.grade_top.specs.Requests.{command_of};
ghost use Rattle.grade_top.specs.Words.{AreAsked};

use crate::run::run_command;
use crate::sample::sample_command;
use crate::words::Command;
use check_core::check;
use formula_commands::{sat, unsat};
use grade_core::grade;
use grade_io::{Shelf, Sink, Status, say};
use list_command::all;
use pick_command::pick;
use std::alloc::Global;

const USAGE: &str = concat!(
    "usage: mpygrade grade BOUNDS REF SUB RULES CERT BUDGET\n",
    "       mpygrade check BOUNDS REF SUB RULES CERT\n",
    "       mpygrade run BOUNDS PROG VALUE..\n",
    "       mpygrade sample NUMBER\n",
    "       mpygrade all BOUNDS REF SUB RULES MOST BUDGET\n",
    "       mpygrade pick BOUNDS REF SUB..\n",
    "       mpygrade sat CNF LOG BUDGET\n",
    "       mpygrade unsat CNF LOG\n",
);

/// Answers a command.
pub(crate) fn answer<S: Shelf, K: Sink>(
    alloc: Global,
    command: &Command<'_>,
    shelf: &mut S,
    out: &mut K,
) -> Status
    requires { AreAsked (command_of command.now) }
    ensures ends { Ends (file_command (command_of command.now))
        (devices (S.seen shelf.old) (K.seen out.old))
        (devices (S.seen shelf.new) (K.seen out.new)) result }
    ensures calls { CallsInOrder (file_command (command_of command.now)) (S.seen shelf.old)
        (S.seen shelf.new) }
{
    match command {
        Command::Grade(words) => grade(alloc, words, shelf, out),
        Command::Check(words) => check(alloc, words, shelf, out),
        Command::Run(words) => run_command(alloc, words, shelf, out),
        Command::Sample(number) => sample_command(alloc, *number as u32, out),
        Command::All(words) => all(alloc, words, shelf, out),
        Command::Pick(words) => pick(alloc, words, shelf, out),
        Command::Sat(words) => sat(alloc, words, shelf, out),
        Command::Unsat(words) => unsat(alloc, words, shelf, out),
    }
}

/// What is said to words that ask for nothing.
pub(crate) fn usage<K: Sink>(out: &mut K) -> Status
    ensures { Says usage_text Status.Usage (K.seen out.old) (K.seen out.new) result }
{
    say(out, USAGE.as_bytes(), Status::Usage)
}
