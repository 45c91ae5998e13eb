// The two lines of a bus within a transaction, as the page has them.

use signals::{RecordedLines, Samples};
use std::alloc::{AllocError, Global};
use vcd_read::{Level, Sample};

/// From when to when a transaction goes. One without an end goes on where the capture ends.
#[derive(Clone, Copy)]
pub(crate) struct Span {
    pub(crate) from: u64,
    pub(crate) to: Option<u64>,
}

impl Span {
    fn is_over(self, time: u64) -> bool {
        match self.to {
            Some(to) => to < time,
            None => false,
        }
    }
}

/// What is left of the two lines after the transactions before.
#[derive(Drop)]
pub(crate) struct Wired<'a> {
    samples: Samples<'a>,
    // more than there are samples
    bound: usize,
    // the next sample, where it was read
    next: Option<Sample>,
}

impl<'a> Wired<'a> {
    /// All of it.
    pub(crate) fn new(lines: &'a RecordedLines) -> Wired<'a> {
        let mut samples = lines.samples();
        Wired {
            next: samples.next(),
            samples,
            bound: lines.bound(),
        }
    }

    fn step(&mut self) {
        self.next = self.samples.next();
    }

    /// The levels from the beginning of the next transaction to its end: for each sample a letter, `A` to `I`, three for each
    /// level of SCL, LOW, HIGH and unknown, and among these one for each of SDA; and how long after the one before it comes, in
    /// digits of base 36, where that is another time than the last that was written.
    pub(crate) fn within(&mut self, alloc: Global, span: Span) -> Result<String, AllocError> {
        let mut text = String::new(alloc);
        let mut last = Last {
            time: span.from,
            passed: 0,
        };
        for _ in 0..self.bound {
            match self.next {
                None => break,
                Some(sample) if span.is_over(sample.time) => break,
                Some(sample) if sample.time >= span.from => last.push(&mut text, sample)?,
                Some(_) => {}
            }
            self.step();
        }
        Ok(text)
    }
}

// The sample before, and the time that was written last.
#[derive(Drop)]
struct Last {
    time: u64,
    passed: u64,
}

impl Last {
    fn push(&mut self, text: &mut String, sample: Sample) -> Result<(), AllocError> {
        text.push(letter(sample))?;
        let passed = sample.time.saturating_sub(self.time);
        if passed != self.passed {
            push_digits(text, passed)?;
        }
        self.time = sample.time;
        self.passed = passed;
        Ok(())
    }
}

fn letter(sample: Sample) -> char {
    match (sample.scl, sample.sda) {
        (Level::Low, Level::Low) => 'A',
        (Level::Low, Level::High) => 'B',
        (Level::Low, Level::Unknown) => 'C',
        (Level::High, Level::Low) => 'D',
        (Level::High, Level::High) => 'E',
        (Level::High, Level::Unknown) => 'F',
        (Level::Unknown, Level::Low) => 'G',
        (Level::Unknown, Level::High) => 'H',
        (Level::Unknown, Level::Unknown) => 'I',
    }
}

// (a u64 has 13 such digits at most)
fn push_digits(text: &mut String, number: u64) -> Result<(), AllocError> {
    let mut digits = ['0'; 13];
    let mut rest = number;
    let mut count = 0usize;
    for digit in digits.iter_mut() {
        *digit = digit_of(rest % 36);
        rest /= 36;
        count = count.saturating_add(1);
        if rest == 0 {
            break;
        }
    }
    for digit in digits.iter().take(count).rev() {
        text.push(*digit)?;
    }
    Ok(())
}

fn digit_of(value: u64) -> char {
    let value = (value % 36) as u8;
    if value < 10 {
        char::from(b'0'.saturating_add(value))
    } else {
        char::from(b'a'.saturating_add(value.saturating_sub(10)))
    }
}
