// The law of traces.
ghost use Rattle.e3_trace.specs.Tellable.{TracesReadBack};

/// Where a history is tellable, and neither it nor its text is too long, the lines that are written for it spell it. Such
/// a text is any lines of which none is the mark, the mark, the trace, and the closing line.
pub fn traces_read_back()
    ensures { TracesReadBack }
{}
