//! Exchanges and runs tried: statements that the check holds the definitions to.

ghost use Rattle.end.specs.Exchanges.{TriedExchangesHold};
ghost use Rattle.end.specs.Tried.{TheBookReadsRuns, TheLawExcludes};

/// Of each packet of a table's exchanges comes, byte by byte and by the written rules, what the table says:
/// the order that the head is given, the fault that is told, and the bytes that are sent.
pub fn tried_exchanges_hold()
    ensures { TriedExchangesHold }
{}

/// After each run of a table, the book has what the table says.
pub fn the_book_reads_runs()
    ensures { TheBookReadsRuns }
{}

/// The law does not let pass bytes that are not whole packets, a second acknowledgement, an ending of
/// no command, a thousand ticks, or a slot that holds another order than its socket's.
pub fn the_law_excludes()
    ensures { TheLawExcludes }
{}
