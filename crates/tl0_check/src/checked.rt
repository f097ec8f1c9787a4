// A program without a fault.
ghost use Rattle.std.specs.Prelude.{◌≡◌};
ghost use Rattle.tl0_code.specs.CodeRules.{IsChecked};

use std::marker::Model;
use tl0_code::Program0;

/// A program of thread code that no rule refuses.
///
/// docs/THREADS.md, "Which thread code is accepted".
#[derive(Debug, Drop)]
pub struct Checked0 {
    program: Program0,
}

impl Model for Checked0 {
    ghost use Rattle.tl0_code.specs.ThreadCode.{Program};
    ghost use Rattle.tl0_code.specs.CodeRules.{IsChecked};

    ghost Value = { Program };

    ghost view = { λ c. c.program };

    ghost invariant = { λ c. IsChecked c.program };
}

impl Checked0 {
    /// The program, of which it is known that no rule refuses it.
    pub fn of(program: Program0) -> Checked0
        requires checked { IsChecked program }
        ensures value { result ≡ program }
    {
        Checked0 { program }
    }

    pub fn program(&self) -> &Program0
        ensures value { result.now ≡ self.now }
        ensures checked { IsChecked self.now }
    {
        &self.program
    }
}
