ghost use Rattle.std.specs.Prelude.{◌≡◌, ◌≤◌, length, IfSome};
ghost use Rattle.nesting.specs.Levels.{is_loop, loop_body, opens};

use crate::stack::Stack;
use lines::field::Field;

/// An opening line whose `end` is still to come.
#[derive(Clone, Copy)]
pub enum Open {
    /// An `if`, before its `else`.
    Then,
    /// An `if`, after its `else`.
    Else,
    /// A loop, with its counter and its rounds.
    Loop(Field, u32),
}

/// An open line, with what is kept for it until its `end`.
#[derive(Clone, Copy)]
pub struct Frame<T> {
    pub part: Open,
    pub kept: T,
}

impl Open {
    /// Whether it is a loop.
    fn is_loop(&self) -> bool
        ensures { result ≡ is_loop self.now }
    {
        matches!(self, Open::Loop(_, _))
    }
}

impl<T: Copy> Stack<Frame<T>> {
    /// The level of the innermost loop's body, if a loop is open.
    pub fn loop_level(&self) -> Option<usize>
        ensures value { result ≡ loop_body (opens self.now) }
        ensures within { IfSome result (λ level. level ≤ length self.now) }
        ensures few { length self.now ≤ 8 }
    {
        let mut outwards = self.as_slice().iter().rev();
        let around = outwards.position(|frame| frame.part.is_loop())?;
        Some(self.len() - around)
    }
}
