// What the command line calls the files of a run.

use hints::Named;
use plan_words::BriefFiles;

/// The files that a run is over, as the command line names them: one, or those that give a plan.
#[derive(Clone, Copy)]
pub struct NamedSources<'a> {
    pub first: Named<'a>,
    /// The paths of further briefs, and the argument that names them.
    pub further: &'a [&'a str],
    pub argument: &'static str,
    /// Whether a refusal names its file.
    pub several: bool,
}

impl<'a> NamedSources<'a> {
    /// The path of the file of this number, from 0 on, where there are several.
    pub fn path(self, number: u32) -> Option<&'a str> {
        if !self.several {
            return None;
        }
        match number.checked_sub(1) {
            None => Some(self.first.path),
            Some(after) => self.further.get(after as usize).copied(),
        }
    }

    /// The same as people know them.
    pub fn files(self) -> BriefFiles<'a> {
        BriefFiles {
            first: self.first.path,
            further: self.further,
        }
    }

    /// How many there are.
    pub fn count(self) -> usize {
        self.further.len().saturating_add(1)
    }

    /// The one of this number, from 0 on, and the first where there are fewer.
    pub fn at(self, number: usize) -> Named<'a> {
        match number.checked_sub(1) {
            None => self.first,
            Some(after) => match self.further.get(after) {
                Some(path) => self.further_one(path),
                None => self.first,
            },
        }
    }

    /// A further one, of this path.
    pub fn further_one(self, path: &'a str) -> Named<'a> {
        Named {
            argument: self.argument,
            what: "brief",
            path,
        }
    }
}
