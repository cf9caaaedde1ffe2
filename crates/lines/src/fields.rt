// The fields of a case that are one word or number. A line has, with bars between: name, call, n, m, the first and the second
// list, the length of the result and of the pad, and what else a program asks for.
use crate::reading::{length_in, number, part, value};

#[derive(Clone, Copy, Debug)]
pub struct Case<'a> {
    pub line: &'a [u8],
}

impl<'a> Case<'a> {
    fn field(self, k: usize) -> &'a [u8] {
        part(self.line, b'|', k)
    }

    // The first byte of a word, if it has one.
    pub fn initial(self, k: usize) -> Option<u8> {
        self.field(k).first().copied()
    }

    pub fn name(self) -> &'a [u8] {
        self.field(0)
    }

    pub fn call(self) -> Option<u8> {
        self.initial(1)
    }

    pub fn controls(self) -> u32 {
        value(self.field(2))
    }

    // What is no number reads as 0, which is no modulus.
    pub fn modulus(self) -> u32 {
        number(self.field(3)).unwrap_or(0)
    }

    pub fn first_list(self) -> &'a [u8] {
        self.field(4)
    }

    pub fn second_list(self) -> &'a [u8] {
        self.field(5)
    }

    pub fn result_length(self) -> usize {
        length_in(self.field(6))
    }

    pub fn pad_length(self) -> usize {
        length_in(self.field(7))
    }
}
