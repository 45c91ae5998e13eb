// A value change dump in the making: its definitions, and then changes in the order of time.

use growing_text::Text;
use std::alloc::{AllocError, Global};

/// What a signal shows. Who lets a line go shows HIGH, as the line does unless another pulls it: programs that show waves read
/// `z` as LOW.
#[derive(Clone, Copy, PartialEq, Eq)]
pub(crate) enum Shown {
    Low,
    High,
}

impl Shown {
    fn digit(self) -> char {
        match self {
            Shown::Low => '0',
            Shown::High => '1',
        }
    }
}

// The identifier codes are one character each.
const FIRST_CODE: u8 = b'!';

fn code(signal: usize) -> char {
    char::from(FIRST_CODE.saturating_add((signal % 94) as u8))
}

/// The text so far, and what each signal shows.
#[derive(Drop)]
pub(crate) struct Dump {
    text: Text,
    // None where it has not been shown yet
    shown: Vec<Option<Shown>>,
    time: u64,
    // whether the time of the next change stands in the text
    is_told: bool,
}

impl Dump {
    /// A dump that counts microseconds, with no signal yet.
    pub(crate) fn new(alloc: Global) -> Dump {
        let mut text = Text::new(alloc);
        text.push("$version twire $end\n$timescale 1 us $end\n$scope module bus $end\n");
        Dump {
            text,
            shown: Vec::new(alloc),
            time: 0,
            is_told: false,
        }
    }

    /// Defines the next signal, which has not been shown yet.
    pub(crate) fn define(&mut self, name: &str) {
        self.text.push("$var wire 1 ");
        self.text.push_char(code(self.shown.len()));
        self.text.push(" ");
        self.text.push(name);
        self.text.push(" $end\n");
        if self.shown.push(None).is_err() {
            self.text.cut();
        }
    }

    /// The same with a name that was made elsewhere, where there was memory for it.
    pub(crate) fn define_made(&mut self, name: Result<String, AllocError>) {
        match name {
            Ok(name) => self.define(name.as_str()),
            Err(_) => self.text.cut(),
        }
    }

    /// Ends the definitions.
    pub(crate) fn begin(&mut self) {
        self.text.push("$upscope $end\n$enddefinitions $end\n");
    }

    /// The changes from here on are of this time.
    pub(crate) fn at(&mut self, time: u64) {
        if time != self.time {
            self.time = time;
            self.is_told = false;
        }
    }

    /// The signal shows this from now on.
    pub(crate) fn show(&mut self, signal: usize, shown: Shown) {
        match self.shown.get_mut(signal) {
            Some(it) if *it != Some(shown) => *it = Some(shown),
            _ => return,
        }
        if !self.is_told {
            self.is_told = true;
            self.push_time(self.time);
        }
        self.text.push_char(shown.digit());
        self.text.push_char(code(signal));
        self.text.push("\n");
    }

    fn push_time(&mut self, time: u64) {
        self.text.push("#");
        self.text.push_number(time);
        self.text.push("\n");
    }

    /// The whole text, which ends at this time.
    ///
    /// # Errors
    ///
    /// Where an allocation failed for one of its parts.
    pub(crate) fn finish(mut self, time: u64) -> Result<String, AllocError> {
        self.push_time(time);
        self.text.finish()
    }
}
