// What was measured, and the lines that tell it.
use crate::request::Shape;
use std::fmt;
use std::fmt::{Display, Formatter, Write};

/// How many requests were done.
#[derive(Clone, Copy)]
pub struct Figures {
    pub array: u64,
    pub echo: u64,
}

impl Figures {
    /// None.
    pub const NONE: Figures = Figures { array: 0, echo: 0 };

    /// With those of another host, or of another round.
    pub fn and(self, other: Figures) -> Figures {
        Figures {
            array: self.array.saturating_add(other.array),
            echo: self.echo.saturating_add(other.echo),
        }
    }

    /// How many a second they are.
    pub fn over(self, seconds: u32) -> Rates {
        let seconds = u64::from(seconds.max(1));
        Rates {
            array: self.array / seconds,
            echo: self.echo / seconds,
        }
    }
}

/// Requests a second.
#[derive(Clone, Copy)]
pub struct Rates {
    pub array: u64,
    pub echo: u64,
}

/// A line of the report.
#[derive(Clone, Copy)]
pub struct Line {
    shape: Shape,
    hosts: u8,
    rates: Rates,
    one: Option<Rates>,
}

impl Line {
    /// What one host measured.
    pub fn of_one(shape: Shape, rates: Rates) -> Line {
        Line {
            shape,
            hosts: 1,
            rates,
            one: None,
        }
    }

    /// What many hosts measured, beside what one did.
    pub fn of_many(shape: Shape, hosts: u8, rates: Rates, one: Rates) -> Line {
        Line {
            shape,
            hosts,
            rates,
            one: Some(one),
        }
    }
}

impl Display for Line {
    fn fmt<W: Write>(&self, f: &mut Formatter<W>) -> fmt::Result {
        let kind = self.shape.kind.name();
        let bytes = self.shape.bytes();
        let hosts = self.hosts;
        let Rates { array, echo } = self.rates;
        let rate = Grouped(array);
        let share = Ratio(array, echo);
        write!(
            f,
            "{kind} {bytes} hosts {hosts}: {rate} requests a second, {share} of the bare echo"
        )?;
        match self.one {
            None => Ok(()),
            Some(one) => {
                let times = Ratio(array, one.array);
                let echo_times = Ratio(echo, one.echo);
                write!(
                    f,
                    ", {times} times one host (the bare echo {echo_times} times)"
                )
            }
        }
    }
}

// A number, with a comma before each three digits.
#[derive(Clone, Copy)]
struct Grouped(u64);

impl Display for Grouped {
    fn fmt<W: Write>(&self, f: &mut Formatter<W>) -> fmt::Result {
        let rest = self.0 % 1_000;
        let thousands = self.0 / 1_000 % 1_000;
        let millions = self.0 / 1_000_000;
        if millions > 0 {
            write!(f, "{millions},{thousands:03},{rest:03}")
        } else if thousands > 0 {
            write!(f, "{thousands},{rest:03}")
        } else {
            write!(f, "{rest}")
        }
    }
}

// One number divided by another, with two digits after the point, rounded down.
#[derive(Clone, Copy)]
struct Ratio(u64, u64);

impl Display for Ratio {
    fn fmt<W: Write>(&self, f: &mut Formatter<W>) -> fmt::Result {
        let hundredths = u128::from(self.0) * 100 / u128::from(self.1.max(1));
        let whole = hundredths / 100;
        let rest = hundredths % 100;
        write!(f, "{whole}.{rest:02}")
    }
}
