ghost use Rattle.macro_query.specs.Laws.{QueriesHaveOneAnswer, QueriesSayNoMemory};

/// There is exactly one thing to be said to each query, by the bytes of the file alone: a report, or a fault that says something of the file, so never that memory ran out.
pub fn queries_have_one_answer()
    ensures one { QueriesHaveOneAnswer }
    ensures told { QueriesSayNoMemory }
{}
