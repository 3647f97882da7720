// The words of a line, and the numbers that they spell.
use sanbirogu::{Address, Rectangle};
use std::num::ParseIntError;
use std::str::{FromStr, Split};

#[derive(Drop)]
pub struct Words<'a>(Split<'a, char>);

// A number as it is printed: decimal digits with no 0 before others, and before them a `-` where the type has one. There is no -0.
fn number<T: FromStr<Err = ParseIntError>>(text: &str) -> Option<T> {
    match text.as_bytes() {
        [b'+', ..] | [b'0', _, ..] | [b'-', b'0', ..] => None,
        _ => text.parse().ok(),
    }
}

impl<'a> Words<'a> {
    pub fn new(line: &'a str) -> Words<'a> {
        Words(line.split(' '))
    }

    pub fn next(&mut self) -> Option<&'a str> {
        self.0.next()
    }

    pub fn number<T: FromStr<Err = ParseIntError>>(&mut self) -> Option<T> {
        number(self.next()?)
    }

    // A count, or a place, goes to 2^32 - 1.
    pub fn count(&mut self) -> Option<usize> {
        let count: u32 = self.number()?;
        Some(count as usize)
    }

    pub fn address(&mut self) -> Option<Address> {
        Some(Address {
            edition: self.number()?,
            zoom: self.number()?,
            column: self.number()?,
            row: self.number()?,
        })
    }

    pub fn rectangle(&mut self) -> Option<Rectangle> {
        Some(Rectangle {
            edition: self.number()?,
            zoom: self.number()?,
            west: self.number()?,
            east: self.number()?,
            top: self.number()?,
            bottom: self.number()?,
        })
    }
}
