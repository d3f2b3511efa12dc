// Why apply-batch applies no batch.
ghost use Rattle.std.specs.Prelude.{◌≡◌};
ghost use Rattle.apply_output.specs.Stop.{stop_number};
ghost use Rattle.apply_output.specs.declared.stop.Stop.TheVariants.{Refused};

use answers::refusal::Refusal;

#[derive(Clone, Copy)]
pub enum Stop {
    // A file is missing, can't be read or is longer than its space, which is printed as 0.
    Files,
    Refused(Refusal),
    // A number that is told as it is, whether a refusal has it or not. No run answers it.
    Number(u64),
}

impl Stop {
    // The number that is printed.
    pub fn number(self) -> u64
        ensures { result ≡ stop_number self }
    {
        match self {
            Stop::Files => 0,
            Stop::Refused(refusal) => refusal.number(),
            Stop::Number(number) => number,
        }
    }
}

impl From<Refusal> for Stop {
    ghost from_gives = { λ refusal stop. stop ≡ Refused refusal };

    fn from(refusal: Refusal) -> Stop {
        Stop::Refused(refusal)
    }
}
