//! Numbers with a comma before each three digits.

use std::fmt;

/// A number that is written with a comma before each three digits, up to a milliard.
#[derive(Clone, Copy, Debug, PartialEq, Eq)]
pub struct Grouped(pub usize);

impl fmt::Display for Grouped {
    fn fmt<W: fmt::Write>(&self, f: &mut fmt::Formatter<W>) -> fmt::Result {
        let number = self.0;
        let low = number % 1000;
        let middle = number / 1000 % 1000;
        let high = number / 1_000_000;
        if number < 1000 {
            write!(f, "{number}")
        } else if number < 1_000_000 {
            write!(f, "{middle},{low:03}")
        } else {
            write!(f, "{high},{middle:03},{low:03}")
        }
    }
}
