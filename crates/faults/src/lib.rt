//! What every refusal of the product has: a number, a place and a sentence.
#![tactic(auto)]

ghost use Rattle.std.specs.Prelude.{◌≡◌, ℕ, List};

/// A refusal. Each stage has an enum of its own, and definitions that give number, place and sentence case by case.
pub trait Fault {
    ghost number_of: { Self → ℕ };

    ghost place_of: { Self → ℕ };

    ghost sentence_of: { Self → List ℕ };

    /// The number of the refusal.
    fn number(&self) -> u32
        ensures { result ≡ number_of self.now };

    /// Where: a line of the text or of the table, as the stage counts them; where no one line is at fault, the line count or 0.
    fn place(&self) -> usize
        ensures { result ≡ place_of self.now };

    /// What is wrong, in a sentence for a person.
    fn sentence(&self) -> &'static str
        ensures { result.now ≡ sentence_of self.now };
}
