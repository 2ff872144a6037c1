// The one way through a file of cases, line by line: what each line shows, and the tally.
ghost use Rattle.std.specs.Prelude.{◌≡◌, ◌≤◌, ◌<◌, length};
ghost use Rattle.casefile.specs.Lines.{Stands, shown, line_of, agreed_by, tried_by, run_over, counted_run};

use crate::{file, report};

// What a line shows.
#[derive(Clone, Copy)]
pub enum Line {
    Comment,
    Agrees,
    Differs,
    Damaged,
}

// What a case shows: whether it agrees, or nothing where its words are not well formed.
impl From<Option<bool>> for Line {
    ghost from_gives = { λ agrees line. line ≡ shown agrees };

    fn from(agrees: Option<bool>) -> Line {
        match agrees {
            Some(true) => Line::Agrees,
            Some(false) => Line::Differs,
            None => Line::Damaged,
        }
    }
}

// A run over the lines of a text: where the line to run next starts and ends, how many lines are behind it, and of the cases
// among those how many agreed, of how many.
#[derive(Clone, Copy)]
pub struct Run {
    pub at: usize,
    pub end: usize,
    pub passed: u64,
    pub agreed: u64,
    pub tried: u64,
}

// How many cases a line adds to those that agreed.
fn agreed_by(line: Line) -> u64
    ensures { (result ≡ agreed_by line) × (result ≤ 1) }
{
    u64::from(matches!(line, Line::Agrees))
}

// How many cases a line adds to those that were tried.
fn tried_by(line: Line) -> u64
    ensures { (result ≡ tried_by line) × (result ≤ 1) }
{
    u64::from(!matches!(line, Line::Comment))
}

// Names a line that differs or is damaged.
fn named(rt: &impl Print, line: Line, name: &[u8], number: u64) {
    match line {
        Line::Differs => report::of_line(rt, name, number, b"differs"),
        Line::Damaged => report::of_line(rt, name, number, b"is damaged"),
        _ => {}
    }
}

impl Run {
    // The run before the first line.
    pub fn over(text: &[u8]) -> Run
        ensures stands { Stands text.now result }
        ensures value { result ≡ run_over text.now }
    {
        Run {
            at: 0,
            end: file::next(text, 0, b'\n'),
            passed: 0,
            agreed: 0,
            tried: 0,
        }
    }

    // What the line counts as, `shown` being what the program makes of it: a line without a newline is damaged, one that
    // starts with '#' is a comment, and an empty one is a case like any other.
    fn line(self, text: &[u8], shown: Line) -> Line
        requires { self.at < length text.now }
        ensures { result ≡ line_of text.now self shown }
    {
        let at = self.at;
        if self.end == text.len() {
            return Line::Damaged;
        }
        if text[at] == b'#' {
            Line::Comment
        } else {
            shown
        }
    }

    // The run behind the line, which is counted, and named where it differs or is damaged.
    pub fn counted(self, rt: &impl Print, text: &[u8], name: &[u8], shown: Line) -> Run
        requires { Stands text.now self × (self.at < length text.now) }
        ensures stands { Stands text.now result × (self.at < result.at) }
        ensures value { result ≡ counted_run text.now self shown }
    {
        let line = self.line(text, shown);
        let passed = self.passed + 1;
        named(rt, line, name, passed);
        let at = (self.end + 1).min(text.len());
        Run {
            at,
            end: file::next(text, at, b'\n'),
            passed,
            agreed: self.agreed + agreed_by(line),
            tried: self.tried + tried_by(line),
        }
    }

    // Says how many cases agreed, of how many, or that there was none.
    pub fn report(self, rt: &impl Print, name: &[u8], things: &[u8]) {
        if self.tried == 0 {
            report::of_file(rt, name, b"has no cases");
            return;
        }
        report::total(rt, name, self.agreed, self.tried, things);
    }
}

// Runs every line of a text: `check` says what a line shows, which it is given without its newline.
pub fn run_text<F: Fn(&[u8]) -> Line>(rt: &impl Print, name: &[u8], text: &[u8], check: F) -> Run
    requires { F.IsAlwaysCallable check }
    ensures stands { Stands text.now result }
    ensures whole { result.at ≡ length text.now }
{
    let mut run = Run::over(text);
    while run.at < text.len() {
        let shown = check(&text[run.at..run.end]);
        run = run.counted(rt, text, name, shown);
    }
    run
}
