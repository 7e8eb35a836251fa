// Why a line is refused, and where that is met.
ghost use Rattle.std.specs.Prelude.{◌≡◌};
ghost use Rattle.reader.specs.Faults.{refused_by, refusal_number, offset_of};

// "first met from the left: 20 not in the grammar, with the offset, 21 more than 16 levels of brackets, 22 a number .. above .."
#[derive(Clone, Copy)]
pub enum Fault {
    Astray(usize),
    TooDeep(usize),
    TooLarge(usize),
}

// All that a line is refused for: by itself in either edition, and over the cable.
#[derive(Clone, Copy)]
pub enum Refusal {
    TooLong,
    Astray(usize),
    TooDeep,
    TooLarge,
    TooManyVariables,
    CableLineTooLong,
    Unended,
    StrengthOutOfRange,
    GroupOutOfRange,
}

impl From<Fault> for Refusal {
    ghost from_gives = { λ f r. r ≡ refused_by f };

    fn from(f: Fault) -> Refusal {
        match f {
            Fault::Astray(at) => Refusal::Astray(at),
            Fault::TooDeep(_) => Refusal::TooDeep,
            Fault::TooLarge(_) => Refusal::TooLarge,
        }
    }
}

impl Refusal {
    pub fn number(self) -> u32
        ensures { result ≡ refusal_number self }
    {
        match self {
            Refusal::TooLong => 19,
            Refusal::Astray(_) => 20,
            Refusal::TooDeep => 21,
            Refusal::TooLarge => 22,
            Refusal::TooManyVariables => 23,
            Refusal::CableLineTooLong => 32,
            Refusal::Unended => 33,
            Refusal::StrengthOutOfRange => 34,
            Refusal::GroupOutOfRange => 35,
        }
    }

    // 20 has its offset, no other refusal one.
    pub fn offset(self) -> usize
        ensures { result ≡ offset_of self }
    {
        match self {
            Refusal::Astray(at) => at,
            _ => 0,
        }
    }
}
