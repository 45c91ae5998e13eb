// What people get beside the exact report.

use bus_rows::Paint;
use command_words::Format;
use files::Watcher;

/// What people get beside the exact report: hints, colours in the report and in hints, and how far a long run is. How reports,
/// refusals and hints are written.
#[derive(Clone, Copy)]
pub struct Extras {
    pub hints: bool,
    pub colors_out: bool,
    pub colors_err: bool,
    pub format: Format,
    pub watcher: Watcher,
}

/// How what a run finds is written: as lines, perhaps with words of them in colours, or as objects, for programs.
#[derive(Clone, Copy)]
pub enum Style {
    Lines(Paint),
    Objects,
}

impl Extras {
    /// How what a run finds is written, where it is no list of messages.
    pub fn style(self) -> Style {
        match self.format {
            Format::Objects => Style::Objects,
            Format::Lines if self.colors_out => Style::Lines(Paint::Colored),
            Format::Lines | Format::Messages => Style::Lines(Paint::Plain),
        }
    }

    /// Whether what a run finds is written as the exact lines, without colours.
    pub fn is_exact(self) -> bool {
        self.format == Format::Lines && !self.colors_out
    }

    /// Whether somebody is told why a run was refused: people by hints, and whoever takes no lines by its words.
    pub fn says_why(self) -> bool {
        self.hints || self.format != Format::Lines
    }
}
