//! A law of logs, over the definitions.

ghost use Rattle.sat_watch.specs.LogLengths.{FreshLogsAreShort};

/// A law over the definitions: a fresh log whose variables are from 1 to d has at most 3^d clauses.
pub fn fresh_logs_are_short()
    ensures { FreshLogsAreShort }
{}
