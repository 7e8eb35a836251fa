// Why a call is refused: the document's table, whose numbers stand here once.
ghost use Rattle.std.specs.Prelude.{◌≡◌};
ghost use Rattle.sparse.specs.Refusals.{refusal_number};

#[derive(Clone, Copy)]
pub enum Refusal {
    NotFinite,
    NegativeStrength,
    TooManyTerms,
    ConstraintLive,
    NoConstraint,
    EditLive,
    RequiredEdit,
    NoEdit,
    VariablesFull,
    ConstraintsFull,
    IdsFull,
    CannotBeMet,
    StepNotFinite,
    BudgetUsed,
    NoLeavingRow,
    NoEnteringSymbol,
    NoRemovalRow,
    NoState,
    CutoffOutside,
    GoneFull,
    GroupZero,
    NoGroup,
}

impl Refusal {
    pub fn number(self) -> u32
        ensures { result ≡ refusal_number self }
    {
        match self {
            Refusal::NotFinite => 1,
            Refusal::NegativeStrength => 2,
            Refusal::TooManyTerms => 3,
            Refusal::ConstraintLive => 4,
            Refusal::NoConstraint => 5,
            Refusal::EditLive => 6,
            Refusal::RequiredEdit => 7,
            Refusal::NoEdit => 8,
            Refusal::VariablesFull => 9,
            Refusal::ConstraintsFull => 10,
            Refusal::IdsFull => 11,
            Refusal::CannotBeMet => 12,
            Refusal::StepNotFinite => 13,
            Refusal::BudgetUsed => 14,
            Refusal::NoLeavingRow => 15,
            Refusal::NoEnteringSymbol => 16,
            Refusal::NoRemovalRow => 17,
            Refusal::NoState => 18,
            Refusal::CutoffOutside => 24,
            Refusal::GoneFull => 25,
            Refusal::GroupZero => 26,
            Refusal::NoGroup => 27,
        }
    }
}
