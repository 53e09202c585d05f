// What has lines of its own, or words that make a line, and a list of it.
ghost use Rattle.std.specs.Prelude.{◌++◌, ℕ, List};
ghost use Rattle.std.specs.List.{flat_map};
ghost use Rattle.e3_report.specs.Pages.{Adds};
ghost use Rattle.e3_report.specs.lines.Texts.{line_end};

use crate::Page;

/// What has lines in a report or a trace.
pub(crate) trait Lines {
    /// Its lines.
    ghost lines: { Self → List ℕ };

    /// Adds its lines.
    fn push(&self, page: &mut Page)
        ensures { Adds page.old page.new (lines self.now) };
}

/// Adds the lines of each of these.
pub(crate) fn push_each<T: Lines>(page: &mut Page, listed: &[T])
    ensures { Adds page.old page.new (flat_map T.lines listed.now) }
{
    for one in listed {
        one.push(page);
    }
}

/// What has one line in a report or a trace: words behind a mark that says what the line is.
pub(crate) trait Marked {
    /// Its words.
    ghost words: { Self → List ℕ };

    /// Adds its words.
    fn push_words(&self, page: &mut Page)
        ensures { Adds page.old page.new (words self.now) };
}

fn push_marked_line<T: Marked>(page: &mut Page, mark: &str, one: &T)
    ensures { Adds page.old page.new (mark.now ++ T.words one.now ++ line_end) }
{
    page.text(mark);
    one.push_words(page);
    page.line_end();
}

/// Adds the line of each of these.
pub(crate) fn push_marked_lines<T: Marked>(page: &mut Page, mark: &str, listed: &[T])
    ensures { Adds page.old page.new (flat_map (λ one. mark.now ++ T.words one ++ line_end) listed.now) }
{
    for one in listed {
        push_marked_line(page, mark, one);
    }
}
