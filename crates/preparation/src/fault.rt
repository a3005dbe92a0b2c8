ghost use Rattle.std.specs.Prelude.{◌≡◌, Some};
ghost use Rattle.preparation.specs.Faults.{stage_name, prepare_stage, prepare_number, prepare_place, sentence};
ghost use Rattle.preparation.specs.declared.fault.PrepareFault.TheVariants.{Read, Check, Balance};

use balance::fault::BalanceFault;
use faults::Fault;
use rules::fault::CheckFault;
use std::error::Error;
use std::fmt;
use text::fault::ReadFault;

/// A stage of preparing a rule.
#[derive(Clone, Copy, PartialEq, Eq, Debug)]
pub enum Stage {
    Read,
    Check,
    Balance,
}

impl Stage {
    /// What the stage is called.
    pub fn name(self) -> &'static str
        ensures { result.now ≡ stage_name self }
    {
        match self {
            Stage::Read => "read",
            Stage::Check => "check",
            Stage::Balance => "balance",
        }
    }
}

/// The name.
impl fmt::Display for Stage {
    ghost output = { λ stage. Some (stage_name stage) };

    fn fmt<W: fmt::Write>(&self, f: &mut fmt::Formatter<W>) -> fmt::Result {
        f.write_str(self.name())
    }
}

/// Why a rule was not prepared: the stage, with its fault.
#[derive(Clone, Copy, PartialEq, Eq, Debug)]
pub enum PrepareFault {
    Read(ReadFault),
    Check(CheckFault),
    Balance(BalanceFault),
}

// The three conversions by hand: a derive does not promise which case it makes.
impl From<ReadFault> for PrepareFault {
    ghost from_gives = { λ e r. r ≡ Read e };

    fn from(e: ReadFault) -> PrepareFault {
        PrepareFault::Read(e)
    }
}

impl From<CheckFault> for PrepareFault {
    ghost from_gives = { λ e r. r ≡ Check e };

    fn from(e: CheckFault) -> PrepareFault {
        PrepareFault::Check(e)
    }
}

impl From<BalanceFault> for PrepareFault {
    ghost from_gives = { λ e r. r ≡ Balance e };

    fn from(e: BalanceFault) -> PrepareFault {
        PrepareFault::Balance(e)
    }
}

impl PrepareFault {
    /// The stage that refused.
    pub fn stage(&self) -> Stage
        ensures { result ≡ prepare_stage self.now }
    {
        match self {
            PrepareFault::Read(_) => Stage::Read,
            PrepareFault::Check(_) => Stage::Check,
            PrepareFault::Balance(_) => Stage::Balance,
        }
    }
}

/// Number, place and sentence are those of the stage's fault.
impl Fault for PrepareFault {
    ghost number_of = { prepare_number };

    ghost place_of = { prepare_place };

    ghost sentence_of = { sentence };

    fn number(&self) -> u32 {
        match self {
            PrepareFault::Read(fault) => fault.number(),
            PrepareFault::Check(fault) => fault.number(),
            PrepareFault::Balance(fault) => fault.number(),
        }
    }

    fn place(&self) -> usize {
        match self {
            PrepareFault::Read(fault) => fault.place(),
            PrepareFault::Check(fault) => fault.place(),
            PrepareFault::Balance(fault) => fault.place(),
        }
    }

    fn sentence(&self) -> &'static str {
        match self {
            PrepareFault::Read(fault) => fault.sentence(),
            PrepareFault::Check(fault) => fault.sentence(),
            PrepareFault::Balance(fault) => fault.sentence(),
        }
    }
}

/// The sentence.
// By hand: the derive of `thiserror` promises nothing of what is printed, and Rust refuses one impl for all refusals.
impl fmt::Display for PrepareFault {
    ghost output = { λ fault. Some (sentence fault) };

    fn fmt<W: fmt::Write>(&self, f: &mut fmt::Formatter<W>) -> fmt::Result {
        f.write_str(self.sentence())
    }
}

impl Error for PrepareFault {}
