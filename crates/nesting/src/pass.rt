//! A pass over the lines of a table, one after another, up to the first fault.

ghost use Rattle.std.specs.Prelude.{◌≡◌, ℕ, Result};
ghost use Rattle.lines.specs.declared.line.Line.{Line};
ghost use Rattle.nesting.specs.Passes.{standing, passed};

use lines::line::Line;

/// What a pass keeps, what it does with a line, and what it answers after the last.
pub trait Pass: Drop {
    type Answer: Drop;

    type Fault: Drop;

    ghost step: { ℕ → Self → Line → Result Self Self.Fault };

    ghost ending: { ℕ → Self → Result Self.Answer Self.Fault };

    /// Goes past the line of that number, counted from 0, or says what is wrong with it.
    fn check_line(&mut self, at: usize, line: &Line) -> Result<(), Self::Fault>
        ensures { step at self.old line.now ≡ standing result self.new };

    /// The answer after so many lines, or what is wrong with the whole.
    fn finish(&self, count: usize) -> Result<Self::Answer, Self::Fault>
        ensures { result ≡ ending count self.now };
}

/// Goes over all lines.
#[tactic(auto, using(crate::proofs::Passes::pass_on, crate::proofs::Passes::pass_fault, crate::proofs::Passes::pass_end))]
pub fn pass_over<P: Pass>(start: P, lines: &[Line]) -> Result<P::Answer, P::Fault>
    ensures { result ≡ passed P.step P.ending 0 start lines.now }
{
    let mut pass = start;
    for (at, line) in lines.iter().enumerate() {
        pass.check_line(at, line)?;
    }
    pass.finish(lines.len())
}
